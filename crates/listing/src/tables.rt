// The text of a table: the reader of its kind, into columns of the most records, and then the lines or the refusal.
ghost use Rattle.std.specs.Prelude.{[], ◌≡◌, ◌+◌, ◌≤◌, length};
ghost use Rattle.listing.specs.Text.{printed, rows_of, refusal_text, text_of, text_room};
ghost use Rattle.listing.specs.Inner.{Prints};

use crate::columns::Columns;
use crate::kind::Kind;
use crate::page::Page;
use crate::{kind, rows};
use answer::Refusal;

// The most bytes of a table.
const TABLE_LIMIT: usize = 16384;

// The line of a refusal.
fn put_refusal(page: &mut Page, number: u32, place: u64)
    requires { length page.old + 50 ≤ text_room }
    ensures { Prints page.old page.new (refusal_text number place) 50 }
{
    page.put(b"refused\t");
    page.put_number(number);
    page.put_byte(b'\t');
    page.put_number(place);
    page.put_byte(b'\n');
}

// The text of a table of any length.
fn put_table(page: &mut Page, kind: Kind, table: &[u8])
    requires { page.old ≡ [] }
    ensures { page.new ≡ printed kind (rows_of kind table.now) }
{
    let mut columns = Columns::new();
    let answer = columns.read(kind, table);
    let number = answer.number;
    if number != 0 {
        return put_refusal(page, number, answer.place);
    }
    rows::put_list(page, kind, &columns, answer.count as usize);
}

// The text of an input.
pub fn put_text(page: &mut Page, input: &[u8])
    requires { page.old ≡ [] }
    ensures { page.new ≡ text_of input.now }
{
    let Some(kind) = kind::first_line(input) else {
        return put_refusal(page, Refusal::Class.number(), 0);
    };
    let table = &input[kind.line_len()..];
    if TABLE_LIMIT < table.len() {
        return put_refusal(page, Refusal::Limit.number(), 0);
    }
    put_table(page, kind, table);
}
