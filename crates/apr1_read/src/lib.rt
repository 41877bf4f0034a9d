// The reader of APR1 tables: a first pass over the table, strict or lax, and a second that fills the column. The second reads laxly: of a
// table that the first accepted strictly too, that is the same list.
#![tactic(auto)]

ghost use Rattle.std.specs.Prelude.{◌≡◌, false, ◌+◌, ◌≤◌, length};
ghost use Rattle.answer.specs.Outcome.{found_of, input_limit};
ghost use Rattle.answer.specs.Written.{Written};
ghost use Rattle.records.specs.Reading.{records};
ghost use Rattle.apr1_table.specs.Table.{last, run, step_at, parse, decode};
ghost use Rattle.apr1_read.specs.Inner.{entry_step, head_at, Numbered, listed, Placed, Headed, Walkable, Runnable, Started, Fillable, Filled};

use answer::{Refusal, Refused};
use apr1_table::LAST;

// A pair: C and D, the offset behind it, and the place past it.
#[derive(Clone, Copy)]
pub struct Entry {
    pub count: u64,
    pub gap: u64,
    pub reach: u64,
    pub past: usize,
}

// N, the number of pairs; A, the first offset; and the place of the first pair.
#[derive(Clone, Copy)]
pub struct Head {
    pub pairs: u64,
    pub offset: u64,
    pub start: usize,
}

// The pair at a place, behind an offset.
fn entry_at(strict: bool, s: &[u8], at: usize, x: u64) -> Result<Entry, Refused>
    requires { x ≤ last }
    ensures { (entry_step result ≡ step_at strict s.now at x) × Placed s.now at x result }
{
    let (count, next) = leb128::read_unsigned(strict, s, at, 32)?;
    let (gap, past) = leb128::read_unsigned(strict, s, next, 32)?;
    let reach = x + count * gap;
    if LAST < reach {
        return Err(Refused {
            why: Refusal::Space,
            place: at as u64,
        });
    }
    Ok(Entry {
        count,
        gap,
        reach,
        past,
    })
}

// N and the place past it, and A and the place past it. (It is a function of its own so that both refusals leave by one way: in `head_of` the compiler would
// keep them as data, since it knows their places.)
fn numbers_of(strict: bool, s: &[u8]) -> Result<(u64, usize, u64, usize), Refused>
    ensures { Numbered strict s.now result }
{
    let (pairs, next) = leb128::read_unsigned(strict, s, 4, 32)?;
    let (offset, start) = leb128::read_unsigned(strict, s, next, 32)?;
    Ok((pairs, next, offset, start))
}

// The head of a table.
fn head_of(strict: bool, s: &[u8]) -> Result<Head, Refused>
    ensures { (result ≡ head_at strict s.now) × Headed s.now result }
{
    if !records::starts_with(s, b"APR1") {
        return Err(Refused {
            why: Refusal::Identifier,
            place: 0,
        });
    }
    let (pairs, next, offset, start) = numbers_of(strict, s)?;
    if LAST < offset {
        return Err(Refused {
            why: Refusal::Space,
            place: next as u64,
        });
    }
    Ok(Head {
        pairs,
        offset,
        start,
    })
}

// The first pass over the pairs behind a head: how many offsets, or the refusal. No pair is expanded. (Both passes are functions of their own in
// the object code, as APA1's are: in line in the call short runs took up to a quarter longer, by where their branches lay.)
#[inline(never)]
fn walk(strict: bool, s: &[u8], head: Head) -> Result<u64, Refused>
    requires { Walkable s.now head.offset head.start }
    ensures { result ≡ found_of (listed strict s.now head) }
{
    let mut at = head.start;
    let mut x = head.offset;
    let mut count: u64 = 1;
    for _passed in 0..head.pairs {
        let entry = entry_at(strict, s, at, x)?;
        count += entry.count;
        x = entry.reach;
        at = entry.past;
    }
    if at < s.len() {
        return Err(Refused {
            why: Refusal::Trailing,
            place: at as u64,
        });
    }
    Ok(count)
}

// How many offsets a table within the limit has, or the refusal.
fn scan(strict: bool, s: &[u8]) -> Result<u64, Refused>
    requires { length s.now ≤ input_limit }
    ensures { result ≡ found_of (parse strict s.now) }
{
    let head = head_of(strict, s)?;
    walk(strict, s, head)
}

// How many offsets any bytes have, or the refusal.
pub fn check(strict: bool, s: &[u8]) -> Result<u64, Refused>
    ensures { result ≡ found_of (decode strict s.now) }
{
    if answer::INPUT_LIMIT < s.len() {
        return Err(Refused {
            why: Refusal::Limit,
            place: 0,
        });
    }
    scan(strict, s)
}

// Puts the offsets of a pair behind x into a column, and returns the index after them.
fn fill_run(column: &mut [u64], from: usize, x: u64, c: u64, d: u64) -> usize
    requires { Runnable column.old from x c d }
    ensures { Written column.old column.new from result (run x c d) }
{
    let end = from + c as usize;
    let mut y = x;
    for z in &mut column[from..end] {
        y += d;
        *z = y;
    }
    end
}

// The second pass over pairs that the first accepted, behind the first offset: none is tested again.
#[inline(never)]
fn store_pairs(s: &[u8], head: Head, column: &mut [u64])
    requires { Fillable (listed false s.now head) column.old × Walkable s.now head.offset head.start × Started head.offset column.old }
    ensures { Filled (listed false s.now head) column.old column.new }
{
    let mut from = head.start;
    let mut x = head.offset;
    let mut i: usize = 1;
    for _stored in 0..head.pairs {
        let Ok((c, next)) = leb128::read_unsigned(false, s, from, 32) else {
            return;
        };
        let Ok((d, past)) = leb128::read_unsigned(false, s, next, 32) else {
            return;
        };
        i = fill_run(column, i, x, c, d);
        x += c * d;
        from = past;
    }
}

// The first offset, and those of the pairs.
fn store(s: &[u8], head: Head, column: &mut [u64])
    requires { Fillable (listed false s.now head) column.old × Walkable s.now head.offset head.start }
    ensures { Filled (listed false s.now head) column.old column.new }
{
    column[0] = head.offset;
    store_pairs(s, head, column);
}

// The offsets of a table that `check` accepted, in a column with room for them.
pub fn fill(s: &[u8], column: &mut [u64])
    requires { Fillable (decode false s.now) column.old }
    ensures { Filled (decode false s.now) column.old column.new }
{
    let Ok(head) = head_of(false, s) else {
        return;
    };
    store(s, head, column);
}
