// Reading a table into a column of offsets.
#![tactic(auto)]

ghost use Rattle.answer.specs.Outcome.{Gives};
ghost use Rattle.answer.specs.Written.{Written};
ghost use Rattle.relr_table.specs.Table.{decode};
ghost use Rattle.relr_table.specs.Inner.{flagged, marks_of, full};
ghost use Rattle.relr_read.specs.Inner.{Markable, Bounded, Ample, Laid, Fillable, Filled};

use answer::Answer;
use relr_table::place;
use word::{ByteOrder, Class, Size};

// Puts the locations that the bits mark from an offset on into a column, and returns the index after them.
fn fill_marks(k: Class, column: &mut [u64], at: usize, anchor: u64, set: u64) -> usize
    requires { Markable k column.old at anchor set }
    ensures { Written column.old column.new at result (marks_of k set anchor) }
{
    let mut bits = set;
    let mut i = at;
    while bits != 0 {
        let zeros = bits.trailing_zeros() as u64;
        column[i] = anchor + zeros * (k.bytes() as u64);
        i += 1;
        bits &= bits - 1;
    }
    i
}

// The same where all bits are set.
fn fill_run(k: Class, column: &mut [u64], at: usize, anchor: u64) -> usize
    requires { Markable k column.old at anchor (full k) }
    ensures { Written column.old column.new at result (marks_of k (full k) anchor) }
{
    let next = at + k.window() as usize;
    let mut x = anchor;
    for location in &mut column[at..next] {
        *location = x;
        x = x.wrapping_add(place::step(k, at));
    }
    next
}

// The same in a column that is filled to the index `count` in all, where a whole window lies before that. Each location is put at the index, which
// moves on where its bit is set, so that no branch hangs on a bit; what a clear one leaves is overwritten later.
fn fill_window(
    k: Class,
    column: &mut [u64],
    count: usize,
    at: usize,
    anchor: u64,
    set: u64,
) -> usize
    requires { Ample k count column.old at anchor set }
    ensures { Laid count column.old column.new at result (marks_of k set anchor) }
{
    let mut i = at;
    for j in 0..k.window() as u64 {
        column[i] = anchor.wrapping_add(j * (k.bytes() as u64));
        i += ((set >> j) % 2) as usize;
    }
    i
}

// Whichever is fastest. What lies between the index after the locations and `count` may be anything.
fn fill_bitmap(
    k: Class,
    column: &mut [u64],
    count: usize,
    at: usize,
    anchor: u64,
    set: u64,
) -> usize
    requires { Bounded k count column.old at anchor set }
    ensures { Laid count column.old column.new at result (marks_of k set anchor) }
{
    if set == place::full_bits(k) {
        return fill_run(k, column, at, anchor);
    }
    if place::crowded(k, set) {
        if at + (k.window() as usize) <= count {
            return fill_window(k, column, count, at, anchor, set);
        }
    }
    fill_marks(k, column, at, anchor, set)
}

// The second pass, over a table of so many offsets that the first accepted. The location a word before *where* is kept, and wraps: beyond the
// space no bitmap has a bit set. (The step is the class's. In relr_apply such a loop by `for` with a step takes a fifth more instructions.)
#[inline(always)]
fn fill(k: Class, s: &[u8], count: usize, column: &mut [u64])
    requires { Fillable k s.now count column.old }
    ensures { Filled k s.now column.old column.new }
{
    let c = k.bytes() as usize;
    let stride = k.stride();
    let mut at: usize = 0;
    let mut behind: u64 = 0;
    let mut i: usize = 0;
    while at < s.len() {
        let x = word::load(k, s, at);
        at += c;
        if x % 2 == 0 {
            column[i] = x;
            i += 1;
            behind = x;
        } else {
            let anchor = behind.wrapping_add(c as u64);
            i = fill_bitmap(k, &mut *column, count, i, anchor, x / 2);
            behind = behind.wrapping_add(stride);
        }
    }
}

// The same for a class that two flags name: a function for each in the object code, so that where its loops lie in it hangs on no other code.
#[inline(never)]
fn fill_by<const WIDE: bool, const BIG: bool>(s: &[u8], count: usize, column: &mut [u64])
    requires { Fillable (flagged WIDE BIG) s.now count column.old }
    ensures { Filled (flagged WIDE BIG) s.now column.old column.new }
{
    fill(place::chosen(WIDE, BIG), s, count, column);
}

// The same for any class.
fn fill_class(k: Class, s: &[u8], count: usize, column: &mut [u64])
    requires { Fillable k s.now count column.old }
    ensures { Filled k s.now column.old column.new }
{
    match (k.size, k.order) {
        (Size::Four, ByteOrder::Little) => fill_by::<false, false>(s, count, column),
        (Size::Four, ByteOrder::Big) => fill_by::<false, true>(s, count, column),
        (Size::Eight, ByteOrder::Little) => fill_by::<true, false>(s, count, column),
        (Size::Eight, ByteOrder::Big) => fill_by::<true, true>(s, count, column),
    }
}

// Reading, for a class.
pub fn read_class(k: Class, table: &[u8], offsets: &mut [u64]) -> Answer
    ensures { Gives (decode k table.now) offsets.old result offsets.new }
{
    match relr_walk::count(k, table) {
        Err(refused) => Answer::from(refused),
        Ok(n) => {
            if (offsets.len() as u64) < n {
                return answer::short_of(n);
            }
            fill_class(k, table, n as usize, offsets);
            answer::accept(n)
        }
    }
}
