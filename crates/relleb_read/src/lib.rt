// The reader of RELLEB tables: a first pass over the table, strict or lax, and a second that fills the columns. The second reads laxly: of a
// table that the first accepted strictly too, that is the same list. The width is the class's.
#![tactic(auto)]

ghost use Rattle.std.specs.Prelude.{◌≡◌, ◌<◌, ◌^◌, false, length};
ghost use Rattle.std.specs.Int.Signed.{mag};
ghost use Rattle.answer.specs.Outcome.{found_of};
ghost use Rattle.leb128.specs.Number.{IsWidth, read_signed};
ghost use Rattle.records.specs.Reading.{records};
ghost use Rattle.relleb_table.specs.Table.{state, start, no_change, with_addend, with_symbol, with_type, step_at, parse, decode};
ghost use Rattle.relleb_table.specs.Contract.{Filled};
ghost use Rattle.relleb_table.specs.Inner.{Fillable};
ghost use Rattle.relleb_read.specs.Inner.{entry_step, change_at, past_of, Changes, EndsAddend, EndsSymbol, EndsRecord, Skips};

use answer::{INPUT_LIMIT, Refusal, Refused};

// What a record goes by, and the next record after it: an offset, a type and an addend.
#[derive(Clone, Copy)]
pub struct State {
    pub offset: u64,
    pub kind: u32,
    pub addend: i64,
}

// A record, as its symbol and the state after it, with the place past it.
#[derive(Clone, Copy)]
pub struct Entry {
    pub symbol: u32,
    pub now: State,
    pub past: usize,
}

// The record whose addend's difference stands at a place. (This and the next are of the second pass. Each number that is read brings a field of
// the state before up to date.)
fn with_addend(s: &[u8], at: usize, width: u32, now: State, symbol: u32) -> Result<Entry, Refused>
    requires { IsWidth width }
    ensures { entry_step result ≡ with_addend false width at now.addend now.offset now.kind symbol (read_signed false width s.now at) }
{
    let (change, past) = leb128::read_signed(false, s, at, width)?;
    let addend = wrap::add_signed(width, now.addend, change);
    Ok(Entry {
        symbol,
        now: State { addend, ..now },
        past,
    })
}

// The symbol of a symbol field.
fn symbol_in(field: i64) -> u32
    requires { mag field < 2 ^ 32 }
    ensures { result ≡ mag field }
{
    leb128::magnitude(field) as u32
}

// The record whose symbol field stands at a place.
fn with_symbol(s: &[u8], at: usize, width: u32, now: State) -> Result<Entry, Refused>
    requires { IsWidth width }
    ensures { entry_step result ≡ with_symbol false width s.now now.addend now.offset now.kind (read_signed false 33 s.now at) }
{
    let (field, past) = leb128::read_signed(false, s, at, 33)?;
    let symbol = symbol_in(field);
    if leb128::is_negative(field) {
        return with_addend(s, past, width, now, symbol);
    }
    Ok(Entry { symbol, now, past })
}

// The record whose type's difference stands at a place.
fn with_type(s: &[u8], at: usize, width: u32, now: State) -> Result<Entry, Refused>
    requires { IsWidth width }
    ensures { entry_step result ≡ with_type false width s.now (state now.offset now.kind now.addend) now.offset (read_signed false 32 s.now at) }
{
    let (d, next) = leb128::read_signed(false, s, at, 32)?;
    let kind = wrap::moved(32, now.kind as u64, d) as u32;
    with_symbol(s, next, width, State { kind, ..now })
}

// The record at a place, after one that led to a state.
fn entry_at(s: &[u8], at: usize, width: u32, before: State) -> Result<Entry, Refused>
    requires { IsWidth width }
    ensures { entry_step result ≡ step_at false width s.now at (state before.offset before.kind before.addend) }
{
    let (d, next) = leb128::read_unsigned(false, s, at, width)?;
    let offset = wrap::add(width, before.offset, d);
    with_type(s, next, width, State { offset, ..before })
}

// Whether an addend's difference changes nothing. It is asked strictly alone.
fn no_change(strict: bool, change: i64) -> bool
    ensures { result ≡ no_change strict change }
{
    if strict {
        return wrap::equal(change, 0);
    }
    false
}

// The place past the addend's difference at a place, or its refusal.
fn skip_addend(strict: bool, s: &[u8], at: usize, width: u32) -> Result<usize, Refused>
    requires { IsWidth width }
    ensures { result ≡ past_of (change_at strict width s.now at) }
{
    let (change, past) = leb128::read_signed(strict, s, at, width)?;
    if no_change(strict, change) {
        return Err(Refused {
            why: Refusal::Zero,
            place: at as u64,
        });
    }
    Ok(past)
}

// The place past the record at a place, or the refusal of any of its numbers.
fn skip_by_numbers(strict: bool, s: &[u8], at: usize, width: u32) -> Result<usize, Refused>
    requires { IsWidth width }
    ensures { Skips strict width s.now at result }
{
    let (_, kind_at) = leb128::read_unsigned(strict, s, at, width)?;
    let (_, symbol_at) = leb128::read_signed(strict, s, kind_at, 32)?;
    let (field, past) = leb128::read_signed(strict, s, symbol_at, 33)?;
    if leb128::is_negative(field) {
        return skip_addend(strict, s, past, width);
    }
    Ok(past)
}

// Whether the byte 0 stands at a place, which is the shortest form of 0. It is asked strictly alone.
fn zero_at(strict: bool, s: &[u8], at: usize) -> bool
    ensures { result ≡ false → Changes strict s.now at }
{
    if strict {
        if at < s.len() {
            return s[at] == 0;
        }
    }
    false
}

// The place past an addend's difference, which strictly may not be 0.
fn end_addend(strict: bool, s: &[u8], at: usize, width: u32) -> Option<usize>
    requires { IsWidth width }
    ensures { EndsAddend strict width s.now at result }
{
    if zero_at(strict, s, at) {
        return None;
    }
    leb128::end_number(strict, s, at, width)
}

// The place past a symbol field, and past the addend's difference if it follows.
fn end_symbol(strict: bool, s: &[u8], at: usize, width: u32) -> Option<usize>
    requires { IsWidth width }
    ensures { EndsSymbol strict width s.now at result }
{
    let (past, negative) = leb128::end_signed(strict, s, at, 33)?;
    if negative {
        return end_addend(strict, s, past, width);
    }
    Some(past)
}

// The place past a record whose numbers are plainly accepted.
fn end_at(strict: bool, s: &[u8], at: usize, width: u32) -> Option<usize>
    requires { IsWidth width }
    ensures { EndsRecord strict width s.now at result }
{
    let kind_at = leb128::end_unsigned(strict, s, at, width)?;
    let symbol_at = leb128::end_number(strict, s, kind_at, 32)?;
    end_symbol(strict, s, symbol_at, width)
}

// The place past any record, or its refusal: one that is not plainly accepted is read number by number.
fn skip_at(strict: bool, s: &[u8], at: usize, width: u32) -> Result<usize, Refused>
    requires { IsWidth width }
    ensures { Skips strict width s.now at result }
{
    if let Some(past) = end_at(strict, s, at, width) {
        return Ok(past);
    }
    skip_by_numbers(strict, s, at, width)
}

// The first pass over so many records from a place on: their count, or the refusal. It needs no sums: none is refused.
fn walk(strict: bool, s: &[u8], width: u32, count: u64, first: usize) -> Result<u64, Refused>
    requires { IsWidth width }
    ensures { result ≡ found_of (records (step_at strict width s.now) (length s.now) count first start) }
{
    let mut from = first;
    for _ in 0..count {
        from = skip_at(strict, s, from, width)?;
    }
    if from < s.len() {
        return Err(Refused {
            why: Refusal::Trailing,
            place: from as u64,
        });
    }
    Ok(count)
}

// The first pass over a table, however long it is.
fn scan(strict: bool, s: &[u8], width: u32) -> Result<u64, Refused>
    requires { IsWidth width }
    ensures { result ≡ found_of (parse strict width s.now) }
{
    let (count, first) = leb128::read_unsigned(strict, s, 0, 64)?;
    walk(strict, s, width, count, first)
}

// The count of the records of a table, or the refusal: first that of a table over its limit.
#[tactic(auto, using(crate::proofs::PassNeeds::check_over, crate::proofs::PassNeeds::check_in), unfolding(answer::specs::Outcome::input_limit))]
pub fn check(strict: bool, s: &[u8], width: u32) -> Result<u64, Refused>
    requires { IsWidth width }
    ensures { result ≡ found_of (decode strict width s.now) }
{
    if INPUT_LIMIT < s.len() {
        return Err(Refused {
            why: Refusal::Limit,
            place: 0,
        });
    }
    scan(strict, s, width)
}

// The second pass over records that the first accepted.
fn store(
    s: &[u8],
    width: u32,
    count: u64,
    first: usize,
    offsets: &mut [u64],
    types: &mut [u32],
    symbols: &mut [u32],
    addends: &mut [i64],
)
    requires { (IsWidth width) × (Fillable (records (step_at false width s.now) (length s.now) count first start) offsets.old types.old symbols.old addends.old) }
    ensures { Filled (records (step_at false width s.now) (length s.now) count first start) offsets.old types.old symbols.old addends.old offsets.new types.new symbols.new addends.new }
{
    let mut from = first;
    let mut state = State {
        offset: 0,
        kind: 0,
        addend: 0,
    };
    for i in 0..count as usize {
        let Ok(entry) = entry_at(s, from, width, state) else {
            return;
        };
        state = entry.now;
        offsets[i] = state.offset;
        types[i] = state.kind;
        symbols[i] = entry.symbol;
        addends[i] = state.addend;
        from = entry.past;
    }
}

// The records of a table that `check` accepted, in columns with room for them.
pub fn fill(
    s: &[u8],
    width: u32,
    offsets: &mut [u64],
    types: &mut [u32],
    symbols: &mut [u32],
    addends: &mut [i64],
)
    requires { (IsWidth width) × (Fillable (decode false width s.now) offsets.old types.old symbols.old addends.old) }
    ensures { Filled (decode false width s.now) offsets.old types.old symbols.old addends.old offsets.new types.new symbols.new addends.new }
{
    let Ok((count, first)) = leb128::read_unsigned(false, s, 0, 64) else {
        return;
    };
    store(s, width, count, first, offsets, types, symbols, addends);
}
