// APR1, the 32-bit packed table of offsets: an identifier, a first offset, and pairs of a count and a gap.
#![tactic(auto)]

ghost use Rattle.apr1_table.specs.Contract.{Reads, Writes};

use answer::Answer;

// The offsets of a table, into a column. Strictly a padded number is refused.
pub fn read(strict: bool, table: &[u8], offsets: &mut [u64]) -> Answer
    ensures { Reads strict table.now offsets.old result offsets.new }
{
    match apr1_read::check(strict, table) {
        Err(refused) => refused.into(),
        Ok(count) => {
            if (offsets.len() as u64) < count {
                return answer::short_of(count);
            }
            apr1_read::fill(table, offsets);
            answer::accept(count)
        }
    }
}

// The table of a list of offsets, at the front of the lent bytes.
pub fn write(offsets: &[u64], table: &mut [u8]) -> Answer
    ensures { Writes offsets.now table.old result table.new }
{
    match apr1_write::measure(offsets) {
        Err(refused) => refused.into(),
        Ok(need) => {
            if (table.len() as u64) < need.bytes {
                return answer::short_of(need.bytes);
            }
            apr1_write::fill(offsets, table, need.pairs);
            answer::accept(need.bytes)
        }
    }
}
