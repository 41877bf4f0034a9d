// The lines of a list of records.
ghost use Rattle.std.specs.Prelude.{◌++◌, ◌+◌, ◌*◌, ◌≤◌, length};
ghost use Rattle.listing.specs.Text.{field, header, record_limit, row_text, text_room};
ghost use Rattle.listing.specs.Inner.{Prints, lines_to, record_of};

use crate::columns::{Columns, Row};
use crate::kind::Kind;
use crate::page::Page;
use itoa::Integer;

// A field behind a tab: a number, or `-` where the kind has none.
#[tactic(auto, using(crate::proofs::PutNeeds::put_put), unfolding(crate::specs::Text::field))]
fn put_field<I: Integer>(page: &mut Page, shown: bool, x: I)
    requires { length page.old + (2 + I.MAX_STR_LEN) ≤ text_room }
    ensures { Prints page.old page.new (field shown (I.text x)) (2 + I.MAX_STR_LEN) }
{
    page.put_byte(b'\t');
    if shown {
        page.put_number(x);
        return;
    }
    page.put_byte(b'-');
}

// The line of one record.
fn put_row(page: &mut Page, kind: Kind, index: usize, line: Row)
    requires { length page.old + 109 ≤ text_room }
    ensures { Prints page.old page.new (row_text kind index (record_of line)) 109 }
{
    let typed = kind.has_type();
    let signed = kind.has_addend();
    page.put_number(index);
    put_field(page, true, line.offset);
    put_field(page, typed, line.rtype);
    put_field(page, typed, line.symbol);
    put_field(page, signed, line.addend);
    page.put_byte(b'\n');
}

// The lines of the first records of the columns.
fn put_rows(page: &mut Page, kind: Kind, columns: &Columns, count: usize)
    requires few { count ≤ record_limit }
    requires room { length page.old + 109 * count ≤ text_room }
    ensures { Prints page.old page.new (lines_to kind columns.now count) (109 * count) }
{
    for i in 0..count {
        put_row(page, kind, i, columns.row(i));
    }
}

// The header and the lines.
pub fn put_list(page: &mut Page, kind: Kind, columns: &Columns, count: usize)
    requires few { count ≤ record_limit }
    requires room { length page.old + (29 + 109 * count) ≤ text_room }
    ensures { Prints page.old page.new (header ++ lines_to kind columns.now count) (29 + 109 * count) }
{
    page.put(b"no\toffset\ttype\tsymbol\taddend\n");
    put_rows(page, kind, columns, count);
}
