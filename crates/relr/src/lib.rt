// RELR tables: read, written and applied. (The class comes as a number, as document 01 and C have it.)
#![tactic(auto)]

ghost use Rattle.relr_table.specs.Contract.{Reads, Writes, Applies};

use answer::{Answer, Refusal};
use word::{ByteOrder, Class, Size};

// Reads the offsets of a table into a column.
pub fn read(class: u32, order: ByteOrder, table: &[u8], offsets: &mut [u64]) -> Answer
    ensures { Reads class order table.now offsets.old result offsets.new }
{
    let Some(size) = Size::named(class) else {
        return answer::refuse(Refusal::Class, 0);
    };
    relr_read::read_class(Class { size, order }, table, offsets)
}

// Writes the least table for a list of offsets.
pub fn write(class: u32, order: ByteOrder, offsets: &[u64], table: &mut [u8]) -> Answer
    ensures { Writes class order offsets.now table.old result table.new }
{
    let Some(size) = Size::named(class) else {
        return answer::refuse(Refusal::Class, 0);
    };
    relr_write::write_class(Class { size, order }, offsets, table)
}

// Adds the base to the word at each offset of a table, in an image whose first byte has the address `start`.
pub fn apply(
    class: u32,
    order: ByteOrder,
    table: &[u8],
    base: u64,
    start: u64,
    image: &mut [u8],
) -> Answer
    ensures { Applies class order table.now base start image.old result image.new }
{
    let Some(size) = Size::named(class) else {
        return answer::refuse(Refusal::Class, 0);
    };
    relr_apply::apply_class(Class { size, order }, table, base, start, image)
}
