// Lists the table on standard input. No contract can say what a program reads or writes: `listing` says what the text is.
#![tactic(auto)]

use std::io;
use std::io::Write;

fn main(rt: HostRuntime) -> io::Result<()> {
    let mut input = [0u8; listing::HELD_BYTES];
    let held = full_read::read_full(&mut rt.reader(), &mut input)?;
    let mut text = [0u8; listing::TEXT_ROOM];
    let answer = listing::list(&input[..held], &mut text);
    let count = answer.count as usize;
    io::writer(&rt).write_all(&text[..count])
}
