// The listing of a table: from the program's whole input to its whole text.
#![tactic(auto)]

ghost use Rattle.listing.specs.Contract.{Lists};
ghost use Rattle.listing.specs.Inner.{Copies};

use answer::Answer;
use page::Page;

mod columns;
mod kind;
mod page;
mod rows;
mod tables;

// Room for every text: a header of 29 bytes, and at most 1,024 lines of at most 109.
pub const TEXT_ROOM: usize = 131072;

// The bytes of an input that its text depends on: the longest first line, and one byte more than the most of a table.
pub const HELD_BYTES: usize = 16394;

// Bytes, at the front of the lent ones if they fit.
fn copy(bytes: &[u8], text: &mut [u8]) -> Answer
    ensures { Copies bytes.now text.old result text.new }
{
    let count = bytes.len();
    if text.len() < count {
        return answer::short_of(count as u64);
    }
    text[..count].copy_from_slice(bytes);
    answer::accept(count as u64)
}

// The text for an input, at the front of the lent bytes.
#[tactic(auto, using(crate::proofs::CopyNeeds::listed))]
pub fn list(input: &[u8], text: &mut [u8]) -> Answer
    ensures { Lists input.now text.old result text.new }
{
    let mut page = Page::new();
    tables::put_text(&mut page, input);
    copy(page.text(), text)
}
