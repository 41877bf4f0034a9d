// The corpus on standard input. Its numbers are little-endian.
ghost use Rattle.std.specs.Prelude.{◌≤◌};

use crate::entry::Entry;
use std::io;
use std::io::Read;
use word::ByteOrder;

// The byte of the corpus for the order that is high byte first, and that for the setting that is strict.
const BIG: u8 = 1;

const STRICT: u8 = 1;

// What a case sets; `reference/FORMAT.md` has the values. What its call does not take is 0.
#[derive(Clone, Copy)]
pub struct Settings {
    pub class: u32,
    pub order: ByteOrder,
    pub strict: bool,
    pub base: u64,
    pub start: u64,
}

// How many entries each column of a case has.
#[derive(Clone, Copy)]
pub struct Lengths {
    pub offsets: u32,
    pub types: u32,
    pub symbols: u32,
    pub addends: u32,
}

// Fills a slice, and tells whether the input had a byte for it.
pub fn bytes<R: Read>(reader: &mut R, s: &mut [u8]) -> io::Result<bool> {
    let count = full_read::read_full(reader, s)?;
    Ok(count > 0)
}

fn byte<R: Read>(reader: &mut R) -> io::Result<u8> {
    let mut b = [0u8; 1];
    bytes(reader, &mut b)?;
    Ok(b[0])
}

pub fn u32le<R: Read>(reader: &mut R) -> io::Result<u32> {
    let mut b = [0u8; 4];
    bytes(reader, &mut b)?;
    Ok(u32::from_le_bytes(b))
}

pub fn u64le<R: Read>(reader: &mut R) -> io::Result<u64> {
    let mut b = [0u8; 8];
    bytes(reader, &mut b)?;
    Ok(u64::from_le_bytes(b))
}

pub fn case_settings<R: Read>(reader: &mut R) -> io::Result<Settings> {
    let class = u32le(reader)?;
    let order = ByteOrder::from(byte(reader)? == BIG);
    let strict = byte(reader)? == STRICT;
    let base = u64le(reader)?;
    let start = u64le(reader)?;
    Ok(Settings {
        class,
        order,
        strict,
        base,
        start,
    })
}

pub fn column_lengths<R: Read>(reader: &mut R) -> io::Result<Lengths> {
    let offsets = u32le(reader)?;
    let types = u32le(reader)?;
    let symbols = u32le(reader)?;
    let addends = u32le(reader)?;
    Ok(Lengths {
        offsets,
        types,
        symbols,
        addends,
    })
}

// A length that an array of this many entries holds. A case that is longer gets a wrong line.
fn capped(n: u32, limit: usize) -> usize
    ensures { result ≤ limit }
{
    limit.min(n as usize)
}

// The front of an array, so many entries of it.
pub fn front<T>(space: &mut [T], n: u32) -> &mut [T] {
    let len = capped(n, space.len());
    &mut space[..len]
}

// A column's entries, one after the other.
pub fn column<T: Entry, R: Read>(reader: &mut R, column: &mut [T]) -> io::Result<()> {
    for entry in column.iter_mut() {
        *entry = T::read(reader)?;
    }
    Ok(())
}
