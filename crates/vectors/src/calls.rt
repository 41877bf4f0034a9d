// One case of the corpus: a read, a write or an application.
use crate::input::{Lengths, Settings};
use crate::{input, output};
use answer::Answer;
use std::io;
use std::io::Read;

// The most bytes that a case's table or image has, and the most entries of its columns.
const BYTES: usize = 8192;

const OFFSETS: usize = 20000;

const ENTRIES: usize = 1024;

// What a lent buffer holds before a read or a write: the byte 0xA5 throughout.
const FILL8: u8 = 0xA5;

const FILL32: u32 = 0xA5A5A5A5;

const FILL64: u64 = 0xA5A5A5A5A5A5A5A5;

const FILL_SIGNED: i64 = -0x5A5A5A5A5A5A5A5B;

// A call of the library.
#[derive(Clone, Copy, PartialEq, Eq)]
enum Call {
    RelrRead,
    RelrWrite,
    RelrApply,
    Apr1Read,
    Apr1Write,
    Apa1Read,
    Apa1Write,
    RellebRead,
    RellebWrite,
}

// By the corpus's code; every other is RELLEB's write.
impl From<u8> for Call {
    fn from(code: u8) -> Call {
        match code {
            0 => Call::RelrRead,
            1 => Call::RelrWrite,
            2 => Call::RelrApply,
            3 => Call::Apr1Read,
            4 => Call::Apr1Write,
            5 => Call::Apa1Read,
            6 => Call::Apa1Write,
            7 => Call::RellebRead,
            _ => Call::RellebWrite,
        }
    }
}

// Runs the next case, and tells whether there was one. (Each call takes other arguments, so this and the next two go by a match.)
pub fn run<R: Read>(rt: &impl Print, reader: &mut R) -> io::Result<bool> {
    let mut code = [0u8; 1];
    if !input::bytes(reader, &mut code)? {
        return Ok(false);
    }
    let settings = input::case_settings(reader)?;
    let mut space = [0u8; BYTES];
    let table = input::front(&mut space, input::u32le(reader)?);
    input::bytes(reader, table)?;
    let lengths = input::column_lengths(reader)?;
    let call = Call::from(code[0]);
    match call {
        Call::RelrRead | Call::Apr1Read | Call::Apa1Read | Call::RellebRead => {
            read(rt, reader, call, settings, table, lengths)?
        }
        Call::RelrApply => apply(rt, reader, settings, table)?,
        _ => write(rt, reader, call, settings, lengths)?,
    }
    Ok(true)
}

// A kind that lacks a column has one of no entries.
fn read<R: Read>(
    rt: &impl Print,
    reader: &mut R,
    call: Call,
    settings: Settings,
    table: &[u8],
    lengths: Lengths,
) -> io::Result<()> {
    let mut offset_space = [FILL64; OFFSETS];
    let mut type_space = [FILL32; ENTRIES];
    let mut symbol_space = [FILL32; ENTRIES];
    let mut addend_space = [FILL_SIGNED; ENTRIES];
    let offsets = input::front(&mut offset_space, lengths.offsets);
    let types = input::front(&mut type_space, lengths.types);
    let symbols = input::front(&mut symbol_space, lengths.symbols);
    let addends = input::front(&mut addend_space, lengths.addends);
    input::u32le(reader)?;
    let order = settings.order;
    let strict = settings.strict;
    let a = match call {
        Call::RelrRead => relr::read(settings.class, order, table, offsets),
        Call::Apr1Read => apr1::read(strict, table, offsets),
        Call::Apa1Read => apa1::read(strict, table, offsets, addends),
        _ => relleb::read(
            settings.class,
            strict,
            table,
            offsets,
            types,
            symbols,
            addends,
        ),
    };
    let h = output::column(output::EMPTY, offsets);
    let h = output::column(h, types);
    let h = output::column(h, symbols);
    output::line(rt, a, output::column(h, addends))
}

fn write<R: Read>(
    rt: &impl Print,
    reader: &mut R,
    call: Call,
    settings: Settings,
    lengths: Lengths,
) -> io::Result<()> {
    let mut offset_list = [0u64; OFFSETS];
    let mut type_list = [0u32; ENTRIES];
    let mut symbol_list = [0u32; ENTRIES];
    let mut addend_list = [0i64; ENTRIES];
    let offsets = input::front(&mut offset_list, lengths.offsets);
    let types = input::front(&mut type_list, lengths.types);
    let symbols = input::front(&mut symbol_list, lengths.symbols);
    let addends = input::front(&mut addend_list, lengths.addends);
    input::column(reader, offsets)?;
    input::column(reader, types)?;
    input::column(reader, symbols)?;
    input::column(reader, addends)?;
    let mut space = [FILL8; BYTES];
    let table = input::front(&mut space, input::u32le(reader)?);
    let order = settings.order;
    let a = match call {
        Call::RelrWrite => relr::write(settings.class, order, offsets, table),
        Call::Apr1Write => apr1::write(offsets, table),
        Call::Apa1Write => apa1::write(offsets, addends, table),
        _ => relleb::write(settings.class, offsets, types, symbols, addends, table),
    };
    output::line(rt, a, output::bytes(output::EMPTY, table))
}

fn apply<R: Read>(
    rt: &impl Print,
    reader: &mut R,
    settings: Settings,
    table: &[u8],
) -> io::Result<()> {
    let mut space = [0u8; BYTES];
    let image = input::front(&mut space, input::u32le(reader)?);
    input::bytes(reader, image)?;
    let order = settings.order;
    let a = relr::apply(
        settings.class,
        order,
        table,
        settings.base,
        settings.start,
        image,
    );
    output::line(rt, a, output::bytes(output::EMPTY, image))
}
