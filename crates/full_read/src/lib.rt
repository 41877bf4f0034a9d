// Reads into a buffer until it is full, the input ends or a read fails.
#![tactic(auto)]

ghost use Rattle.std.specs.Prelude.{◌≤◌, ◌<◌, length, take, IfOk};
ghost use Rattle.std.specs.Io.KnownBytes.{Consumes, IsAtEnd};

use std::io;
use std::io::Read;

// How many bytes of the input now stand at the front of the buffer: fewer than it has room for only where the input ended. A read that
// fails ends the call with its error. Of the bytes behind them nothing is said, since a read says nothing of what it was lent and did not
// fill.
pub fn read_full<R: Read>(reader: &mut R, buf: &mut [u8]) -> io::Result<usize>
    ensures within { IfOk result (λ n. n ≤ length buf.new) }
    ensures bytes { IfOk result (λ n. Consumes (R.remaining reader.old) (R.remaining reader.new) (take n buf.new)) }
    ensures ended { IfOk result (λ n. n < length buf.new → IsAtEnd (R.remaining reader.new)) }
{
    // A read moves the place by as much as it gave.
    let mut at: usize = 0;
    while at < buf.len() {
        let count = reader.read(&mut buf[at..])?;
        if count == 0 {
            break;
        }
        at += count;
    }
    Ok(at)
}

#[cfg(test)]
mod tests;
