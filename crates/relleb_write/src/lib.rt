// The writer of RELLEB tables: a first pass that counts the table's bytes, and a second that puts them. The width is the class's.
#![tactic(auto)]

ghost use Rattle.std.specs.Prelude.{◌≡◌, cond, ◌+◌, ◌≤◌, pos, negsuc, length};
ghost use Rattle.answer.specs.Written.{Written};
ghost use Rattle.leb128.specs.Number.{IsWidth};
ghost use Rattle.records.specs.Writing.{puts, Puts};
ghost use Rattle.relleb_table.specs.Table.{row, state, start, behind, rows, symbol_bytes, type_bytes, field_bytes, put_of, encode};
ghost use Rattle.relleb_table.specs.Contract.{Same};
ghost use Rattle.relleb_table.specs.Inner.{Listed, Measures, Puttable};
ghost use Rattle.relleb_write.specs.Inner.{fields_put, Measured};
ghost use Rattle.word.specs.Class.{width_of};

use answer::{LIST_LIMIT, Refusal, Refused};
use word::Size;

// A record as the columns have it.
#[derive(Clone, Copy)]
pub struct Row {
    pub offset: u64,
    pub kind: u32,
    pub symbol: u32,
    pub addend: i64,
}

// A record as its numbers: the offset's difference, the type's, the symbol field, and the addend's difference, which is written behind a
// negative symbol field.
#[derive(Clone, Copy)]
pub struct Fields {
    pub step: u64,
    pub turn: i64,
    pub field: i64,
    pub change: i64,
}

// The symbol field.
fn field_of(symbol: u32, same: bool) -> i64
    ensures { result ≡ cond same (pos symbol) (negsuc symbol) }
{
    if same {
        return symbol as i64;
    }
    -1 - (symbol as i64)
}

// The numbers of a record, after the one before. (The first goes by zeros.)
fn fields_of(width: u32, now: Row, before: Row) -> Result<Fields, Refusal>
    requires { IsWidth width }
    ensures { fields_put result ≡ put_of width (state before.offset before.kind before.addend) (row now.offset now.kind now.symbol now.addend) }
{
    if !wrap::fits_unsigned(width, now.offset) {
        return Err(Refusal::Space);
    }
    if !wrap::fits_signed(width, now.addend) {
        return Err(Refusal::Addend);
    }
    Ok(Fields {
        step: wrap::sub(width, now.offset, before.offset),
        turn: wrap::distance(32, now.kind as u64, before.kind as u64),
        field: field_of(now.symbol, wrap::equal(now.addend, before.addend)),
        change: wrap::sub_signed(width, now.addend, before.addend),
    })
}

// How many bytes a record's numbers take.
fn fields_len(f: Fields) -> usize
    ensures { Measured result (field_bytes f.step f.turn f.field f.change) }
{
    let three = leb128::unsigned_len(f.step)
        + leb128::signed_len(f.turn)
        + leb128::signed_len(f.field);
    if leb128::is_negative(f.field) {
        return three + leb128::signed_len(f.change);
    }
    three
}

// The numbers from the symbol field on, at a place.
fn put_symbol(table: &mut [u8], at: usize, f: Fields) -> usize
    requires { at + length (symbol_bytes f.field f.change) ≤ length table.old }
    ensures { Written table.old table.new at result (symbol_bytes f.field f.change) }
{
    let next = leb128::write_signed(&mut *table, at, f.field);
    if leb128::is_negative(f.field) {
        return leb128::write_signed(&mut *table, next, f.change);
    }
    next
}

// From the type's difference on.
fn put_type(table: &mut [u8], at: usize, f: Fields) -> usize
    requires { at + length (type_bytes f.turn f.field f.change) ≤ length table.old }
    ensures { Written table.old table.new at result (type_bytes f.turn f.field f.change) }
{
    let next = leb128::write_signed(&mut *table, at, f.turn);
    put_symbol(&mut *table, next, f)
}

// All of them.
fn put_fields(table: &mut [u8], at: usize, f: Fields) -> usize
    requires { at + length (field_bytes f.step f.turn f.field f.change) ≤ length table.old }
    ensures { Written table.old table.new at result (field_bytes f.step f.turn f.field f.change) }
{
    let next = leb128::write_unsigned(&mut *table, at, f.step);
    put_type(&mut *table, next, f)
}

// The first pass over a list within its limit.
fn size(
    width: u32,
    offsets: &[u64],
    types: &[u32],
    symbols: &[u32],
    addends: &[i64],
) -> Result<u64, Refused>
    requires { (IsWidth width) × (Listed offsets.now types.now symbols.now addends.now) }
    ensures { Measures width offsets.now types.now symbols.now addends.now result }
{
    let mut total = leb128::unsigned_len(offsets.len() as u64);
    let mut before = Row {
        offset: 0,
        kind: 0,
        symbol: 0,
        addend: 0,
    };
    for i in 0..offsets.len() {
        let now = Row {
            offset: offsets[i],
            kind: types[i],
            symbol: symbols[i],
            addend: addends[i],
        };
        match fields_of(width, now, before) {
            Err(why) => {
                let place = i as u64;
                return Err(Refused { why, place });
            }
            Ok(fields) => {
                total += fields_len(fields);
                before = now;
            }
        }
    }
    Ok(total as u64)
}

// How many bytes a table of a class takes, or the refusal: first that of a list over its limit. The first pass is a loop for each class,
// with the class's width in it.
#[tactic(auto, unfolding(answer::specs::Outcome::list_limit))]
pub fn measure(
    kind: Size,
    offsets: &[u64],
    types: &[u32],
    symbols: &[u32],
    addends: &[i64],
) -> Result<u64, Refused>
    requires { Same offsets.now types.now symbols.now addends.now }
    ensures { Measures (width_of kind) offsets.now types.now symbols.now addends.now result }
{
    if LIST_LIMIT < offsets.len() {
        return Err(Refused {
            why: Refusal::Limit,
            place: 0,
        });
    }
    match kind {
        Size::Four => size(Size::FOUR_BITS, offsets, types, symbols, addends),
        Size::Eight => size(Size::EIGHT_BITS, offsets, types, symbols, addends),
    }
}

// The records' bytes from a place on.
fn put_all(
    width: u32,
    offsets: &[u64],
    types: &[u32],
    symbols: &[u32],
    addends: &[i64],
    table: &mut [u8],
    first: usize,
)
    requires { (IsWidth width) × (Puttable (puts (put_of width) behind 0 start (rows offsets.now types.now symbols.now addends.now)) offsets.now types.now symbols.now addends.now table.old first) }
    ensures { Puts (puts (put_of width) behind 0 start (rows offsets.now types.now symbols.now addends.now)) table.old table.new first }
{
    let mut at = first;
    let mut before = Row {
        offset: 0,
        kind: 0,
        symbol: 0,
        addend: 0,
    };
    for i in 0..offsets.len() {
        let now = Row {
            offset: offsets[i],
            kind: types[i],
            symbol: symbols[i],
            addend: addends[i],
        };
        let Ok(fields) = fields_of(width, now, before) else {
            return;
        };
        at = put_fields(&mut *table, at, fields);
        before = now;
    }
}

// The whole table, at the front of a buffer with room for it.
pub fn fill(
    width: u32,
    offsets: &[u64],
    types: &[u32],
    symbols: &[u32],
    addends: &[i64],
    table: &mut [u8],
)
    requires { (IsWidth width) × (Puttable (encode width (rows offsets.now types.now symbols.now addends.now)) offsets.now types.now symbols.now addends.now table.old 0) }
    ensures { Puts (encode width (rows offsets.now types.now symbols.now addends.now)) table.old table.new 0 }
{
    let at = leb128::write_unsigned(&mut *table, 0, offsets.len() as u64);
    put_all(width, offsets, types, symbols, addends, table, at);
}
