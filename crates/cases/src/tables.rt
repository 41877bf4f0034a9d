// Tables of records: APA1's count is a signed number.
use crate::text;
use std::io;

// The answer to a read of an APA1 table into two columns of 64.
fn apa1(rt: &impl Print, table: &[u8]) -> io::Result<()> {
    let mut offsets = [0u64; 64];
    let mut addends = [0i64; 64];
    let r = apa1::read(false, table, &mut offsets, &mut addends);
    text::put(rt, b"apa1")?;
    text::bytes(rt, table, table.len())?;
    println!(rt; " answers {} at {} count {}", r.number, r.place, r.count)
}

pub fn run(rt: &impl Print) -> io::Result<()> {
    apa1(rt, b"APA1\x40")?;
    apa1(rt, b"APA1\xc0\x00")?;
    apa1(rt, b"APA1\x02\x80\x20\x10\x08\x08")
}
