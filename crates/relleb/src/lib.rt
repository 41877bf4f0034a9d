// RELLEB, the packed table of whole relocation records: a count, and for each record its differences to the one before it. (The class comes as a number, and the
// columns are lent one by one, as document 01 and C have it.)
#![tactic(auto)]

ghost use Rattle.std.specs.Prelude.{◌≡◌};
ghost use Rattle.relleb_table.specs.Contract.{even, Reads, Writes};

use answer::{Answer, Refusal};
use word::Size;

// Whether four columns have one length.
#[tactic(auto, unfolding(relleb_table::specs::Contract::even))]
fn same_length(offsets: usize, types: usize, symbols: usize, addends: usize) -> bool
    ensures { result ≡ even offsets types symbols addends }
{
    offsets == types && offsets == symbols && offsets == addends
}

// The records of a table, into a column for each field. Strictly a padded number is refused, and an addend's difference of 0.
pub fn read(
    class: u32,
    strict: bool,
    table: &[u8],
    offsets: &mut [u64],
    types: &mut [u32],
    symbols: &mut [u32],
    addends: &mut [i64],
) -> Answer
    ensures { Reads class strict table.now offsets.old types.old symbols.old addends.old result offsets.new types.new symbols.new addends.new }
{
    let Some(kind) = Size::named(class) else {
        return answer::refuse(Refusal::Class, 0);
    };
    if !same_length(offsets.len(), types.len(), symbols.len(), addends.len()) {
        return answer::refuse(Refusal::Columns, 0);
    }
    let width = kind.bits();
    match relleb_read::check(strict, table, width) {
        Err(refused) => refused.into(),
        Ok(count) => {
            if (offsets.len() as u64) < count {
                return answer::short_of(count);
            }
            relleb_read::fill(table, width, offsets, types, symbols, addends);
            answer::accept(count)
        }
    }
}

// The table of a column for each field, at the front of the lent bytes.
pub fn write(
    class: u32,
    offsets: &[u64],
    types: &[u32],
    symbols: &[u32],
    addends: &[i64],
    table: &mut [u8],
) -> Answer
    ensures { Writes class offsets.now types.now symbols.now addends.now table.old result table.new }
{
    let Some(kind) = Size::named(class) else {
        return answer::refuse(Refusal::Class, 0);
    };
    if !same_length(offsets.len(), types.len(), symbols.len(), addends.len()) {
        return answer::refuse(Refusal::Columns, 0);
    }
    let width = kind.bits();
    match relleb_write::measure(kind, offsets, types, symbols, addends) {
        Err(refused) => refused.into(),
        Ok(need) => {
            if (table.len() as u64) < need {
                return answer::short_of(need);
            }
            relleb_write::fill(width, offsets, types, symbols, addends, table);
            answer::accept(need)
        }
    }
}
