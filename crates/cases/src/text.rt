// Lines of text on standard output.
use answer::Refused;
use std::io;
use std::io::Write;

pub fn put(rt: &impl Print, s: &[u8]) -> io::Result<()> {
    io::writer(rt).write_all(s)
}

// A number behind a space.
pub fn item(rt: &impl Print, x: u64) -> io::Result<()> {
    print!(rt; " {x}")
}

// The bytes up to a place in hexadecimal, each behind a space.
pub fn bytes(rt: &impl Print, s: &[u8], end: usize) -> io::Result<()> {
    for b in s.iter().take(end) {
        print!(rt; " {b:02x}")?;
    }
    Ok(())
}

// A refusal: its number and its place.
pub fn refusal(rt: &impl Print, refused: Refused) -> io::Result<()> {
    println!(rt; " refused {} at {}", refused.why.number(), refused.place)
}
