// What a column's entry is in the corpus: so many bytes, lowest first.
use crate::{input, output};
use std::io;
use std::io::Read;

pub trait Entry: Copy {
    // The next entry of the input.
    fn read<R: Read>(reader: &mut R) -> io::Result<Self>;

    // The hash of what went before and of this entry.
    fn hashed(&self, hash: u64) -> u64;
}

impl Entry for u64 {
    fn read<R: Read>(reader: &mut R) -> io::Result<u64> {
        input::u64le(reader)
    }

    fn hashed(&self, hash: u64) -> u64 {
        output::bytes(hash, &self.to_le_bytes())
    }
}

impl Entry for u32 {
    fn read<R: Read>(reader: &mut R) -> io::Result<u32> {
        input::u32le(reader)
    }

    fn hashed(&self, hash: u64) -> u64 {
        output::bytes(hash, &self.to_le_bytes())
    }
}

impl Entry for i64 {
    fn read<R: Read>(reader: &mut R) -> io::Result<i64> {
        Ok(input::u64le(reader)?.cast_signed())
    }

    fn hashed(&self, hash: u64) -> u64 {
        output::bytes(hash, &self.to_le_bytes())
    }
}
