// LEB128: the examples of the DWARF standard and of document 01 through writer and reader, each edge of the last byte's table, and bad input.
ghost use Rattle.std.specs.Prelude.{◌≡◌, ◌++◌, ◌+◌, ◌≤◌, length};
ghost use Rattle.leb128.specs.Number.{short_unsigned, short_signed};
ghost use Rattle.cases.specs.U32.{read_u32};
ghost use Rattle.answer.specs.Written.{Written};

use crate::text;
use answer::Refused;
use std::fmt::Display;
use std::io;

// A number of 32 bits, as a u32: by the reader's laws alone, a value at width 32 fits one.
fn read_u32(s: &[u8], at: usize) -> Result<(u32, usize), Refused>
    ensures { result ≡ read_u32 s.now at }
{
    let (v, next) = leb128::read_unsigned(false, s, at, 32)?;
    Ok((v as u32, next))
}

// By the writers' laws alone: two numbers, one after the other.
fn write_pair(out: &mut [u8], at: usize, x: u64, y: i64) -> usize
    requires { at + length (short_unsigned x ++ short_signed y) ≤ length out.old }
    ensures { Written out.old out.new at result (short_unsigned x ++ short_signed y) }
{
    let next = leb128::write_unsigned(&mut *out, at, x);
    leb128::write_signed(&mut *out, next, y)
}

// What was read with the next place, or the refusal.
fn answer<T: Display + Copy>(rt: &impl Print, r: Result<(T, usize), Refused>) -> io::Result<()> {
    match r {
        Ok((v, next)) => println!(rt; " = {v} next {next}"),
        Err(refused) => text::refusal(rt, refused),
    }
}

// The shortest form of x, and what it reads as strictly. (The signed number goes by three other functions: what is the same is in `answer` and `text`.)
fn unsigned(rt: &impl Print, x: u64) -> io::Result<()> {
    let mut room = [0u8; 16];
    if 16 < leb128::unsigned_len(x) {
        return Ok(());
    }
    let end = leb128::write_unsigned(&mut room, 0, x);
    print!(rt; "unsigned {x}")?;
    text::bytes(rt, &room, end)?;
    answer(rt, leb128::read_unsigned(true, &room, 0, 64))
}

fn signed(rt: &impl Print, x: i64) -> io::Result<()> {
    let mut room = [0u8; 16];
    if 16 < leb128::signed_len(x) {
        return Ok(());
    }
    let end = leb128::write_signed(&mut room, 0, x);
    print!(rt; "signed {x}")?;
    text::bytes(rt, &room, end)?;
    answer(rt, leb128::read_signed(true, &room, 0, 64))
}

// The bytes from a place on, padded or not, as a number of a width from 1 to 64 bits. Those up to `end` are shown.
fn show(rt: &impl Print, s: &[u8], at: usize, width: u32, end: usize) -> io::Result<()> {
    if width < 1 {
        return Ok(());
    }
    if 64 < width {
        return Ok(());
    }
    print!(rt; "width {width} from {at}:")?;
    text::bytes(rt, s, end)?;
    text::put(rt, b"\n  unsigned")?;
    answer(rt, leb128::read_unsigned(false, s, at, width))?;
    text::put(rt, b"  signed")?;
    answer(rt, leb128::read_signed(false, s, at, width))
}

fn read(rt: &impl Print, s: &[u8], at: usize, width: u32) -> io::Result<()> {
    show(rt, s, at, width, s.len())
}

// A number of the most bytes that the width allows, with each byte but the last as given.
fn edge(rt: &impl Print, width: u32, digit: u8, last: u8) -> io::Result<()> {
    let mut s = [digit; 10];
    let end = (width as usize + 6) / 7;
    if end < 1 {
        return Ok(());
    }
    if 10 < end {
        return Ok(());
    }
    let k = end - 1;
    s[k] = last;
    show(rt, &s, 0, width, end)
}

fn edges(rt: &impl Print, width: u32, digit: u8) -> io::Result<()> {
    for last in [
        0u8, 1, 2, 7, 8, 15, 16, 63, 64, 111, 112, 119, 120, 126, 127, 128, 255,
    ] {
        edge(rt, width, digit, last)?;
    }
    Ok(())
}

fn dwarf(rt: &impl Print) -> io::Result<()> {
    for x in [2u64, 127, 128, 129, 130, 12857, 624485] {
        unsigned(rt, x)?;
    }
    for x in [2i64, -2, 127, -127, 128, -128, 129, -129, -123456] {
        signed(rt, x)?;
    }
    Ok(())
}

fn bounds(rt: &impl Print) -> io::Result<()> {
    for x in [0, u32::MAX as u64, u64::MAX] {
        unsigned(rt, x)?;
    }
    for x in [0, -1, 63, 64, -64, -65, i64::MAX, i64::MIN] {
        signed(rt, x)?;
    }
    Ok(())
}

fn bad(rt: &impl Print) -> io::Result<()> {
    read(rt, b"", 0, 32)?;
    read(rt, b"", 1, 64)?;
    read(rt, b"", 18446744073709551615, 33)?;
    read(rt, b"\x05", 1, 32)?;
    read(rt, b"\x05", 2, 64)?;
    read(rt, b"\x05", 18446744073709551615, 64)?;
    read(rt, b"\x80", 0, 32)?;
    read(rt, b"\x80\x80\x80\x80", 1, 32)?;
    read(rt, b"\x01\xff\xff\xff\xff\xff\x00", 1, 32)?;
    read(rt, b"\x80\x80\x00\x07", 0, 32)
}

// Two numbers behind a byte.
fn pair(rt: &impl Print, x: u64, y: i64) -> io::Result<()> {
    let mut out = [7u8; 24];
    if 10 < leb128::unsigned_len(x) {
        return Ok(());
    }
    if 10 < leb128::signed_len(y) {
        return Ok(());
    }
    let end = write_pair(&mut out, 1, x, y);
    text::put(rt, b"pair")?;
    text::bytes(rt, &out, end)?;
    match read_u32(&out, 1) {
        Ok((v, next)) => {
            print!(rt; " = {v} and")?;
            answer(rt, leb128::read_signed(true, &out, next, 33))
        }
        Err(refused) => text::refusal(rt, refused),
    }
}

pub fn run(rt: &impl Print) -> io::Result<()> {
    dwarf(rt)?;
    bounds(rt)?;
    for width in [32, 33, 64] {
        edges(rt, width, 128)?;
        edges(rt, width, 255)?;
    }
    bad(rt)?;
    pair(rt, 624485, -123456)
}
