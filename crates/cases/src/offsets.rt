// RELR: cases of document 01 at the edges of the address space and of an image, and bad input.
use crate::text;
use answer::Answer;
use std::io;
use word::ByteOrder;

fn answer_of(rt: &impl Print, a: Answer) -> io::Result<()> {
    print!(rt; " number {} place {} count {}", a.number, a.place, a.count)
}

fn items(rt: &impl Print, values: &[u64]) -> io::Result<()> {
    for value in values {
        text::item(rt, *value)?;
    }
    Ok(())
}

fn class_of(rt: &impl Print, class: u32, order: ByteOrder) -> io::Result<()> {
    print!(rt; " class {class}")?;
    match order {
        ByteOrder::Little => Ok(()),
        ByteOrder::Big => text::put(rt, b" big-endian"),
    }
}

// Reads a table into a column.
fn read_into(
    rt: &impl Print,
    class: u32,
    order: ByteOrder,
    table: &[u8],
    offsets: &mut [u64],
) -> io::Result<()> {
    text::put(rt, b"relr read")?;
    class_of(rt, class, order)?;
    text::put(rt, b":")?;
    text::bytes(rt, table, table.len())?;
    answer_of(rt, relr::read(class, order, table, &mut *offsets))?;
    items(rt, offsets)?;
    text::put(rt, b"\n")
}

// Applies a table to an image.
fn apply_to(
    rt: &impl Print,
    class: u32,
    order: ByteOrder,
    table: &[u8],
    base: u64,
    start: u64,
    image: &mut [u8],
) -> io::Result<()> {
    text::put(rt, b"relr apply")?;
    class_of(rt, class, order)?;
    print!(rt; " base {base} start {start}:")?;
    text::bytes(rt, table, table.len())?;
    answer_of(
        rt,
        relr::apply(class, order, table, base, start, &mut *image),
    )?;
    text::put(rt, b" image")?;
    text::bytes(rt, image, image.len())?;
    text::put(rt, b"\n")
}

// Writes offsets into a table.
fn write_into(
    rt: &impl Print,
    class: u32,
    order: ByteOrder,
    offsets: &[u64],
    table: &mut [u8],
) -> io::Result<()> {
    text::put(rt, b"relr write")?;
    class_of(rt, class, order)?;
    text::put(rt, b":")?;
    items(rt, offsets)?;
    answer_of(rt, relr::write(class, order, offsets, &mut *table))?;
    text::put(rt, b" table")?;
    text::bytes(rt, table, table.len())?;
    text::put(rt, b"\n")
}

// Low byte first: a table into a column of two, a table to an image of eight bytes, and two offsets into ten bytes.
fn read(rt: &impl Print, class: u32, table: &[u8]) -> io::Result<()> {
    let mut offsets = [7u64; 2];
    read_into(rt, class, ByteOrder::Little, table, &mut offsets)
}

fn apply(rt: &impl Print, class: u32, table: &[u8], base: u64, start: u64) -> io::Result<()> {
    let mut image = [255u8; 8];
    apply_to(rt, class, ByteOrder::Little, table, base, start, &mut image)
}

fn write(rt: &impl Print, class: u32, x: u64, y: u64) -> io::Result<()> {
    let offsets = [x, y];
    let mut table = [7u8; 10];
    write_into(rt, class, ByteOrder::Little, &offsets, &mut table)
}

fn reads(rt: &impl Print) -> io::Result<()> {
    read(rt, 8, b"\xf8\xff\xff\xff\xff\xff\xff\xff")?;
    read(rt, 8, b"\xfa\xff\xff\xff\xff\xff\xff\xff")?;
    read(rt, 4, b"\xfc\xff\xff\xff")?;
    read(rt, 4, b"\xfe\xff\xff\xff")?;
    read(rt, 8, b"\x01\x00\x00\x00\x00\x00\x00\x00")?;
    read(
        rt,
        8,
        b"\xf8\xff\xff\xff\xff\xff\xff\xff\x01\x00\x00\x00\x00\x00\x00\x00",
    )?;
    read(
        rt,
        8,
        b"\xf8\xff\xff\xff\xff\xff\xff\xff\x03\x00\x00\x00\x00\x00\x00\x00",
    )?;
    read(rt, 4, b"\x00\x01\x00\x00\x01\x00\x00\x80")?;
    read(rt, 4, b"\x00\x01\x00\x00\x01\x00\x00\x00\x03\x00\x00\x00")?;
    read(rt, 4, b"\x00\x01\x00\x00\x0f\x00\x00\x00")?;
    read(rt, 4, b"")?;
    read(rt, 4, b"\x00\x01\x00")?;
    read(rt, 5, b"")
}

fn applies(rt: &impl Print) -> io::Result<()> {
    apply(rt, 8, b"\x00\x00\x00\x00\x00\x00\x00\x00", 1, 0)?;
    apply(rt, 8, b"\x02\x00\x00\x00\x00\x00\x00\x00", 1, 0)?;
    apply(rt, 4, b"\x00\x00\x00\x00\x03\x00\x00\x00", 2, 0)?;
    apply(rt, 4, b"\x00\x00\x00\x00\x02\x00\x00\x00", 1, 0)?;
    apply(rt, 4, b"\x00\x00\x00\x00", 4294967296, 0)?;
    apply(rt, 4, b"\x06\x00\x00\x00\xfe\xff\xff\xff", 1, 0)?;
    apply(rt, 8, b"", 18446744073709551615, 0)?;
    apply(rt, 0, b"", 0, 0)?;
    apply(rt, 8, b"\x00\x10\x00\x00\x00\x00\x00\x00", 1, 4096)?;
    apply(rt, 4, b"\x00\x10\x00\x00\x03\x00\x00\x00", 2, 4096)?;
    apply(rt, 8, b"\xfe\x0f\x00\x00\x00\x00\x00\x00", 1, 4096)?;
    apply(rt, 4, b"\x04\x10\x00\x00", 1, 4096)?;
    apply(rt, 4, b"\x06\x10\x00\x00", 1, 4096)?;
    apply(
        rt,
        8,
        b"\xf8\xff\xff\xff\xff\xff\xff\xff",
        1,
        18446744073709551608,
    )?;
    apply(rt, 4, b"\x00\x00\x00\x00", 1, 18446744073709551615)?;
    apply(rt, 8, b"", 1, 18446744073709551615)
}

fn writes(rt: &impl Print) -> io::Result<()> {
    write(rt, 4, 256, 260)?;
    write(rt, 8, 8192, 8704)?;
    write(rt, 4, 4294967288, 4294967292)?;
    write(rt, 4, 4294967292, 4294967294)?;
    write(rt, 4, 256, 256)?;
    write(rt, 4, 256, 257)?;
    write(rt, 9, 0, 8)
}

pub fn run(rt: &impl Print) -> io::Result<()> {
    reads(rt)?;
    applies(rt)?;
    writes(rt)
}

// High byte first: offsets written into 16 bytes, and a table read into a column of four.
fn write_big(rt: &impl Print, class: u32, offsets: &[u64]) -> io::Result<()> {
    let mut table = [7u8; 16];
    write_into(rt, class, ByteOrder::Big, offsets, &mut table)
}

fn read_big(rt: &impl Print, class: u32, table: &[u8]) -> io::Result<()> {
    let mut offsets = [7u64; 4];
    read_into(rt, class, ByteOrder::Big, table, &mut offsets)
}

// Cases C, F and J high byte first, and an addition that carries into the next byte.
pub fn run_big(rt: &impl Print) -> io::Result<()> {
    write_big(rt, 8, &[8192, 8200, 8208, 8216])?;
    read_big(
        rt,
        8,
        b"\x00\x00\x00\x00\x00\x00\x20\x00\x00\x00\x00\x00\x00\x00\x00\x0f",
    )?;
    write_big(rt, 4, &[256, 380])?;
    read_big(rt, 4, b"\x00\x00\x01\x00\x80\x00\x00\x01")?;
    let mut full = [255u8; 8];
    apply_to(
        rt,
        8,
        ByteOrder::Big,
        b"\x00\x00\x00\x00\x00\x00\x00\x00",
        1,
        0,
        &mut full,
    )?;
    let mut carried = [0u8, 0, 0, 255];
    apply_to(
        rt,
        4,
        ByteOrder::Big,
        b"\x00\x00\x00\x00",
        1,
        0,
        &mut carried,
    )
}
