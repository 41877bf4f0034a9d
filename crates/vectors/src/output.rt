// A line of the expected output: the answer, and the 64-bit FNV-1a hash of what was lent.
use crate::entry::Entry;
use answer::Answer;
use std::io;

// The hash of nothing, and the hash's prime.
pub const EMPTY: u64 = 0xCBF29CE484222325;

const PRIME: u64 = 0x100000001B3;

pub fn bytes(hash: u64, s: &[u8]) -> u64 {
    let mut h = hash;
    for b in s {
        h = (h ^ *b as u64).wrapping_mul(PRIME);
    }
    h
}

// Each entry of a column, lowest byte first.
pub fn column<T: Entry>(hash: u64, column: &[T]) -> u64 {
    let mut h = hash;
    for entry in column {
        h = entry.hashed(h);
    }
    h
}

pub fn line(rt: &impl Print, a: Answer, hash: u64) -> io::Result<()> {
    println!(rt; "{} {} {} {hash:016x}", a.number, a.place, a.count)
}
