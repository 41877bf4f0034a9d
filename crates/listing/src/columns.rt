// The records of a table, in columns of the most records: each has the same four fields.
ghost use Rattle.std.specs.Prelude.{◌≡◌, ◌<◌};
ghost use Rattle.listing.specs.Text.{record_limit};
ghost use Rattle.listing.specs.Inner.{Reads, record_of, row_in};

use crate::kind::Kind;
use answer::Answer;
use word::ByteOrder;

// The most records.
const RECORD_LIMIT: usize = 1024;

// A record; a field that its kind lacks is not printed.
#[derive(Clone, Copy)]
pub struct Row {
    pub offset: u64,
    pub rtype: u32,
    pub symbol: u32,
    pub addend: i64,
}

// A column for each field.
#[derive(Drop)]
pub struct Columns {
    offsets: [u64; RECORD_LIMIT],
    types: [u32; RECORD_LIMIT],
    symbols: [u32; RECORD_LIMIT],
    addends: [i64; RECORD_LIMIT],
}

impl Columns {
    // Columns for a read.
    pub fn new() -> Columns {
        Columns {
            offsets: [0; RECORD_LIMIT],
            types: [0; RECORD_LIMIT],
            symbols: [0; RECORD_LIMIT],
            addends: [0; RECORD_LIMIT],
        }
    }

    // The records of a table, read laxly. (Each kind's call takes other columns, so this is a match.)
    pub fn read(&mut self, kind: Kind, table: &[u8]) -> Answer
        ensures { Reads kind table.now result self.new }
    {
        match kind {
            Kind::Relr32 => relr::read(4, ByteOrder::Little, table, &mut self.offsets),
            Kind::Relr64 => relr::read(8, ByteOrder::Little, table, &mut self.offsets),
            Kind::Apr1 => apr1::read(false, table, &mut self.offsets),
            Kind::Apa1 => apa1::read(false, table, &mut self.offsets, &mut self.addends),
            Kind::Relleb32 => relleb::read(
                4,
                false,
                table,
                &mut self.offsets,
                &mut self.types,
                &mut self.symbols,
                &mut self.addends,
            ),
            Kind::Relleb64 => relleb::read(
                8,
                false,
                table,
                &mut self.offsets,
                &mut self.types,
                &mut self.symbols,
                &mut self.addends,
            ),
        }
    }

    // The record at an index.
    pub fn row(&self, i: usize) -> Row
        requires { i < record_limit }
        ensures { record_of result ≡ row_in self.now i }
    {
        Row {
            offset: self.offsets[i],
            rtype: self.types[i],
            symbol: self.symbols[i],
            addend: self.addends[i],
        }
    }
}
