// APA1, the 64-bit packed table of offsets with addends: an identifier, a count, and for each record the differences to the one before it.
#![tactic(auto)]

ghost use Rattle.apa1_table.specs.Contract.{Reads, Writes};

use answer::{Answer, Refusal};

// The records of a table, into a column of offsets and one of addends. Strictly a padded number is refused.
pub fn read(strict: bool, table: &[u8], offsets: &mut [u64], addends: &mut [i64]) -> Answer
    ensures { Reads strict table.now offsets.old addends.old result offsets.new addends.new }
{
    if offsets.len() != addends.len() {
        return answer::refuse(Refusal::Columns, 0);
    }
    match apa1_read::check(strict, table) {
        Err(refused) => refused.into(),
        Ok(count) => {
            if (offsets.len() as u64) < count {
                return answer::short_of(count);
            }
            apa1_read::fill(table, offsets, addends);
            answer::accept(count)
        }
    }
}

// The table of a column of offsets and one of addends, at the front of the lent bytes.
pub fn write(offsets: &[u64], addends: &[i64], table: &mut [u8]) -> Answer
    ensures { Writes offsets.now addends.now table.old result table.new }
{
    if offsets.len() != addends.len() {
        return answer::refuse(Refusal::Columns, 0);
    }
    match apa1_write::measure(offsets, addends) {
        Err(refused) => refused.into(),
        Ok(need) => {
            if (table.len() as u64) < need {
                return answer::short_of(need);
            }
            apa1_write::fill(offsets, addends, table);
            answer::accept(need)
        }
    }
}
