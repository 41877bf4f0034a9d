// The reader of APA1 tables: a first pass over the table, strict or lax, and a second that fills the columns. The second reads laxly: of a
// table that the first accepted strictly too, that is the same list.
#![tactic(auto)]

ghost use Rattle.std.specs.Prelude.{◌≡◌, false, length};
ghost use Rattle.answer.specs.Outcome.{found_of};
ghost use Rattle.records.specs.Reading.{records};
ghost use Rattle.leb128.specs.Number.{read_signed};
ghost use Rattle.apa1_table.specs.Table.{row, start, step_at, plain, head_at, parse, decode};
ghost use Rattle.apa1_table.specs.Contract.{Filled};
ghost use Rattle.apa1_table.specs.Inner.{Fillable};
ghost use Rattle.apa1_read.specs.Inner.{entry_step, EndsRecord, Skips};

use answer::{INPUT_LIMIT, Refusal, Refused};

// A record with the place past it.
#[derive(Clone, Copy)]
pub struct Entry {
    pub offset: u64,
    pub addend: i64,
    pub past: usize,
}

// The record at the place past the last one, read laxly.
fn entry_at(s: &[u8], last: Entry) -> Result<Entry, Refused>
    ensures { entry_step result ≡ step_at false s.now last.past (row last.offset last.addend) }
{
    let (d, next) = leb128::read_signed(false, s, last.past, 64)?;
    let (e, past) = leb128::read_signed(false, s, next, 64)?;
    Ok(Entry {
        offset: wrap::moved(64, last.offset, d),
        addend: wrap::add_signed(64, last.addend, e),
        past,
    })
}

// The place past the record at a place, or the refusal of either of its numbers.
fn skip_by_numbers(strict: bool, s: &[u8], at: usize) -> Result<usize, Refused>
    ensures { Skips strict s.now at result }
{
    let (_, next) = leb128::read_signed(strict, s, at, 64)?;
    let (_, past) = leb128::read_signed(strict, s, next, 64)?;
    Ok(past)
}

// The place past a record whose differences are plainly accepted.
fn end_at(strict: bool, s: &[u8], at: usize) -> Option<usize>
    ensures { EndsRecord strict s.now at result }
{
    let next = leb128::end_number(strict, s, at, 64)?;
    leb128::end_number(strict, s, next, 64)
}

// The same of any record: one that is not plainly accepted is read number by number.
fn skip_at(strict: bool, s: &[u8], at: usize) -> Result<usize, Refused>
    ensures { Skips strict s.now at result }
{
    match end_at(strict, s, at) {
        Some(past) => Ok(past),
        None => skip_by_numbers(strict, s, at),
    }
}

// The count of the records, which is not negative, with the place of the first.
fn count_at(strict: bool, s: &[u8]) -> Result<(u64, usize), Refused>
    ensures { result ≡ plain (read_signed strict 64 s.now 4) }
{
    let (n, first) = leb128::read_signed(strict, s, 4, 64)?;
    Ok((leb128::magnitude(n), first))
}

// The identifier and the count. A negative count is refused before a padded one. (It is put in line: as a function of
// its own it would have the refusals at places that the compiler knows as data.)
#[inline(always)]
fn head_of(strict: bool, s: &[u8]) -> Result<(u64, usize), Refused>
    ensures { result ≡ head_at strict s.now }
{
    if !records::starts_with(s, b"APA1") {
        return Err(Refused {
            why: Refusal::Identifier,
            place: 0,
        });
    }
    let (n, _) = leb128::read_signed(false, s, 4, 64)?;
    if leb128::is_negative(n) {
        return Err(Refused {
            why: Refusal::Width,
            place: 4,
        });
    }
    count_at(strict, s)
}

// The first pass over so many records from a place on: their count, or the refusal. It needs no sums: none is refused. (Both passes are functions of
// their own in the object code: in line in the call they kept in memory what a digit goes by, and long numbers took 1.3 times as long.)
#[inline(never)]
fn walk(strict: bool, s: &[u8], count: u64, first: usize) -> Result<u64, Refused>
    ensures { result ≡ found_of (records (step_at strict s.now) (length s.now) count first start) }
{
    let mut at = first;
    for _ in 0..count {
        at = skip_at(strict, s, at)?;
    }
    if at < s.len() {
        return Err(Refused {
            why: Refusal::Trailing,
            place: at as u64,
        });
    }
    Ok(count)
}

// The first pass over a table, however long it is.
fn scan(strict: bool, s: &[u8]) -> Result<u64, Refused>
    ensures { result ≡ found_of (parse strict s.now) }
{
    let (count, first) = head_of(strict, s)?;
    walk(strict, s, count, first)
}

// The count of the records of a table, or the refusal: first that of a table over its limit.
pub fn check(strict: bool, s: &[u8]) -> Result<u64, Refused>
    ensures { result ≡ found_of (decode strict s.now) }
{
    if INPUT_LIMIT < s.len() {
        return Err(Refused {
            why: Refusal::Limit,
            place: 0,
        });
    }
    scan(strict, s)
}

// The second pass over records that the first accepted. Both sums start at 0.
#[inline(never)]
fn store(s: &[u8], count: u64, first: usize, offsets: &mut [u64], addends: &mut [i64])
    requires { Fillable (records (step_at false s.now) (length s.now) count first start) offsets.old addends.old }
    ensures { Filled (records (step_at false s.now) (length s.now) count first start) offsets.old addends.old offsets.new addends.new }
{
    let mut last = Entry {
        offset: 0,
        addend: 0,
        past: first,
    };
    for i in 0..count as usize {
        let Ok(entry) = entry_at(s, last) else {
            return;
        };
        offsets[i] = entry.offset;
        addends[i] = entry.addend;
        last = entry;
    }
}

// The records of a table that `check` accepted, in columns with room for them.
pub fn fill(s: &[u8], offsets: &mut [u64], addends: &mut [i64])
    requires { Fillable (decode false s.now) offsets.old addends.old }
    ensures { Filled (decode false s.now) offsets.old addends.old offsets.new addends.new }
{
    let Ok((count, first)) = head_of(false, s) else {
        return;
    };
    store(s, count, first, offsets, addends);
}
