// The writer of APR1 tables: a first pass that checks the list and counts the table's bytes, and a second that puts them.
#![tactic(auto)]

ghost use Rattle.std.specs.Prelude.{◌≡◌, ◌+◌, ◌≤◌, ◌<◌, length};
ghost use Rattle.apr1_table.specs.Table.{pair, one_pair, head_of};
ghost use Rattle.apr1_table.specs.Inner.{Run};
ghost use Rattle.apr1_write.specs.Inner.{Countable, Sizable, SizesIn, Sizes, Puttable, PairsPut, Encodable, TablePut};
ghost use Rattle.answer.specs.Written.{Written};

use answer::{Refusal, Refused};
use apr1_table::LAST;

// What a table takes: so many pairs, and so many bytes.
#[derive(Clone, Copy)]
pub struct Need {
    pub pairs: u64,
    pub bytes: u64,
}

// How many offsets from an index on follow y, each d above the one before.
fn run_from(offsets: &[u64], from: usize, y: u64, d: u64) -> usize
    requires { Countable offsets.now from y d }
    ensures { Run offsets.now from y d result }
{
    let mut x = y;
    for i in from..offsets.len() {
        let z = offsets[i];
        if LAST < z {
            return i - from;
        }
        let next = x + d;
        if z < next {
            return i - from;
        }
        if next < z {
            return i - from;
        }
        x = z;
    }
    offsets.len() - from
}

// The bytes of a pair.
fn pair_len(c: u64, d: u64) -> usize
    ensures { result ≡ length (one_pair (pair c d)) }
{
    leb128::unsigned_len(c) + leb128::unsigned_len(d)
}

fn put_pair(table: &mut [u8], at: usize, c: u64, d: u64) -> usize
    requires { at + length (one_pair (pair c d)) ≤ length table.old }
    ensures { Written table.old table.new at result (one_pair (pair c d)) }
{
    let next = leb128::write_unsigned(table, at, c);
    leb128::write_unsigned(table, next, d)
}

// The identifier, the number of pairs and the first offset.
fn head_len(n: u64, a: u64) -> usize
    ensures { result ≡ length (head_of n a) }
{
    4 + pair_len(n, a)
}

fn put_head(table: &mut [u8], n: u64, a: u64) -> usize
    requires { 0 + length (head_of n a) ≤ length table.old }
    ensures { Written table.old table.new 0 result (head_of n a) }
{
    let at = records::put_identifier(table, b"APR1");
    put_pair(table, at, n, a)
}

// The first pass, over a list that is neither empty nor too long, from run to run: the pairs and the bytes, or the first bad offset.
fn size(offsets: &[u64]) -> Result<Need, Refused>
    requires { Sizable offsets.now }
    ensures { SizesIn offsets.now result }
{
    let a = offsets[0];
    if LAST < a {
        return Err(Refused {
            why: Refusal::Space,
            place: 0,
        });
    }
    let mut i: usize = 1;
    let mut x = a;
    let mut pairs: u64 = 0;
    let mut bytes: usize = 0;
    while i < offsets.len() {
        let y = offsets[i];
        if LAST < y {
            return Err(Refused {
                why: Refusal::Space,
                place: i as u64,
            });
        }
        if y <= x {
            return Err(Refused {
                why: Refusal::Order,
                place: i as u64,
            });
        }
        let d = y - x;
        let k = run_from(offsets, i + 1, y, d);
        bytes += pair_len(k as u64 + 1, d);
        pairs += 1;
        x = y + (k as u64) * d;
        i = i + 1 + k;
    }
    Ok(Need {
        pairs,
        bytes: (head_len(pairs, a) + bytes) as u64,
    })
}

// The pairs and the bytes of any list's table, or the refusal.
pub fn measure(offsets: &[u64]) -> Result<Need, Refused>
    ensures { Sizes offsets.now result }
{
    if answer::LIST_LIMIT < offsets.len() {
        return Err(Refused {
            why: Refusal::Limit,
            place: 0,
        });
    }
    if offsets.is_empty() {
        return Err(Refused {
            why: Refusal::Empty,
            place: 0,
        });
    }
    size(offsets)
}

// The pairs' bytes from a place on. (Both passes go from run to run, so the index moves by a run's length.)
fn put_pairs(offsets: &[u64], table: &mut [u8], first: usize)
    requires { Puttable offsets.now table.old first }
    ensures { PairsPut offsets.now table.old table.new first }
{
    let mut j: usize = 1;
    let mut x = offsets[0];
    let mut at = first;
    while j < offsets.len() {
        let y = offsets[j];
        let d = y - x;
        let k = run_from(offsets, j + 1, y, d);
        at = put_pair(table, at, k as u64 + 1, d);
        x = y + (k as u64) * d;
        j = j + 1 + k;
    }
}

// The whole table, at the front of a buffer with room for it.
pub fn fill(offsets: &[u64], table: &mut [u8], pairs: u64)
    requires { Encodable offsets.now table.old pairs }
    ensures { TablePut offsets.now table.old table.new }
{
    let a = offsets[0];
    let at = put_head(table, pairs, a);
    put_pairs(offsets, table, at);
}
