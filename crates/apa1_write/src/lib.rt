// The writer of APA1 tables: a first pass that counts the table's bytes, and a second that puts them.
#![tactic(auto)]

ghost use Rattle.std.specs.Prelude.{◌≡◌, ◌+◌, ◌^◌, ◌≤◌, ◌<◌, length, Ok};
ghost use Rattle.records.specs.Writing.{puts, Puts};
ghost use Rattle.apa1_table.specs.Table.{row, start, rows, entry_bytes, put_of, behind, head_of, encode};
ghost use Rattle.apa1_table.specs.Inner.{Listed, Measures, Puttable};
ghost use Rattle.answer.specs.Written.{Written};

use answer::{LIST_LIMIT, Refusal, Refused};

// A record: an offset with its addend.
#[derive(Clone, Copy)]
struct Record {
    offset: u64,
    addend: i64,
}

// How many bytes a record takes, after the last one.
fn entry_len(x: Record, last: Record) -> usize
    ensures { result ≡ length (entry_bytes (row last.offset last.addend) (row x.offset x.addend)) }
{
    leb128::signed_len(wrap::distance(64, x.offset, last.offset))
        + leb128::signed_len(wrap::sub_signed(64, x.addend, last.addend))
}

// Its bytes, at a place.
fn put_entry(table: &mut [u8], at: usize, x: Record, last: Record) -> usize
    requires { at + length (entry_bytes (row last.offset last.addend) (row x.offset x.addend)) ≤ length table.old }
    ensures { Written table.old table.new at result (entry_bytes (row last.offset last.addend) (row x.offset x.addend)) }
{
    let step = wrap::distance(64, x.offset, last.offset);
    let change = wrap::sub_signed(64, x.addend, last.addend);
    let next = leb128::write_signed(&mut *table, at, step);
    leb128::write_signed(&mut *table, next, change)
}

// How many bytes the identifier and the count take.
fn head_len(n: usize) -> usize
    requires { n < 2 ^ 63 }
    ensures { result ≡ length (head_of n) }
{
    4 + leb128::signed_len(n as i64)
}

// Their bytes, at the front.
fn put_head(table: &mut [u8], n: usize) -> usize
    requires { (n < 2 ^ 63) × (0 + length (head_of n) ≤ length table.old) }
    ensures { Written table.old table.new 0 result (head_of n) }
{
    let at = records::put_identifier(&mut *table, b"APA1");
    leb128::write_signed(&mut *table, at, n as i64)
}

// The first pass over a list within its limit. It refuses none.
fn size(offsets: &[u64], addends: &[i64]) -> u64
    requires { Listed offsets.now addends.now }
    ensures { Measures offsets.now addends.now (Ok result) }
{
    let mut total = head_len(offsets.len());
    let mut last = Record {
        offset: 0,
        addend: 0,
    };
    for (&offset, &addend) in offsets.iter().zip(addends) {
        let x = Record { offset, addend };
        total += entry_len(x, last);
        last = x;
    }
    total as u64
}

// How many bytes a table takes, or the refusal: first that of a list over its limit.
pub fn measure(offsets: &[u64], addends: &[i64]) -> Result<u64, Refused>
    requires { length offsets.now ≡ length addends.now }
    ensures { Measures offsets.now addends.now result }
{
    if LIST_LIMIT < offsets.len() {
        return Err(Refused {
            why: Refusal::Limit,
            place: 0,
        });
    }
    Ok(size(offsets, addends))
}

// The records' bytes from a place on.
fn put_all(offsets: &[u64], addends: &[i64], table: &mut [u8], first: usize)
    requires { Puttable (puts put_of behind 0 start (rows offsets.now addends.now)) offsets.now addends.now table.old first }
    ensures { Puts (puts put_of behind 0 start (rows offsets.now addends.now)) table.old table.new first }
{
    let mut at = first;
    let mut last = Record {
        offset: 0,
        addend: 0,
    };
    for (&offset, &addend) in offsets.iter().zip(addends) {
        let x = Record { offset, addend };
        at = put_entry(&mut *table, at, x, last);
        last = x;
    }
}

// The whole table, at the front of a buffer with room for it.
pub fn fill(offsets: &[u64], addends: &[i64], table: &mut [u8])
    requires { Puttable (encode (rows offsets.now addends.now)) offsets.now addends.now table.old 0 }
    ensures { Puts (encode (rows offsets.now addends.now)) table.old table.new 0 }
{
    let at = put_head(&mut *table, offsets.len());
    put_all(offsets, addends, table, at);
}
