// Skimming: the words that lie between two ends, with all that a bitmap there can mark, are passed without a look at their bits.
ghost use Rattle.std.specs.Prelude.{◌≡◌, ℕ, ◌^◌, ◌<◌, length};
ghost use Rattle.relr_table.specs.Words.{marked};
ghost use Rattle.relr_table.specs.Table.{space_of};
ghost use Rattle.relr_table.specs.Inner.{flagged, between};
ghost use Rattle.relr_walk.specs.Inner.{Top, Fence, Steps, Skimmable, Skims, origin};

use relr_table::place;
use word::{ByteOrder, Class, Size};

// Whether x is `low` or more, and less than `high`, in the words of the definitions.
pub fn within(low: u64, high: u64, x: u64) -> bool
    ensures { result ≡ between low high x }
{
    if low <= x {
        return x < high;
    }
    false
}

// A bitmap whose anchor is less than this ends before the last word of the space, and by `high`.
fn fence(k: Class, high: u64) -> u64
    ensures { Fence k high result }
{
    let width = k.stride();
    let last = k.last();
    if high < width {
        return 0;
    }
    if last < high {
        return last - width;
    }
    high - width
}

// An address less than this is less than `high`, and the word after its own lies inside the space.
fn top(k: Class, high: u64) -> u64
    ensures { Top k high result }
{
    let most = k.last() - k.bytes() as u64;
    if most < high {
        return most;
    }
    high
}

// How many locations the bits of a bitmap mark, whatever its class.
fn marks(set: u64) -> u64
    ensures { (c n anchor : ℕ) → set < 2 ^ n → result ≡ length (marked c n set anchor) }
{
    set.count_ones() as u64
}

// A word that is passed, with the next one's *where*: an address, or a bitmap with how many offsets it stands for.
#[derive(Clone, Copy)]
pub enum Stepped {
    One(u64),
    Many(u64, u64),
}

// Passes the word x at a place if a bitmap anchored where it points would lie between the two ends, so that all it marks does.
fn step(k: Class, low: u64, clear: u64, place: u64, x: u64) -> Option<Stepped>
    requires { (x < space_of k) × ((high : ℕ) × Fence k high clear) }
    ensures { (high : ℕ) → Fence k high clear → Steps k low high place x result }
{
    if x % 2 == 0 {
        if within(low, clear, x) {
            return Some(Stepped::One(x + k.bytes() as u64));
        }
        return None;
    }
    if within(low, clear, place) {
        return Some(Stepped::Many(marks(x / 2), place + k.stride()));
    }
    None
}

// The same, but that an address, which marks one location, may lie nearer to the high end than a window.
fn step_near(k: Class, low: u64, top: u64, clear: u64, place: u64, x: u64) -> Option<Stepped>
    requires { (x < space_of k) × ((high : ℕ) × Top k high top × Fence k high clear) }
    ensures { (high : ℕ) → Top k high top → Fence k high clear → Steps k low high place x result }
{
    if x % 2 == 0 {
        if within(low, top, x) {
            return Some(Stepped::One(x + k.bytes() as u64));
        }
    }
    step(k, low, clear, place, x)
}

// How far a walk has come: the next word's byte and its *where*, and how many offsets were passed.
#[derive(Clone, Copy)]
pub struct Passed {
    pub at: usize,
    pub place: u64,
    pub count: u64,
}

// Before the first word.
pub fn begin() -> Passed
    ensures { result ≡ origin }
{
    Passed {
        at: 0,
        place: place::NOWHERE,
        count: 0,
    }
}

// Passes the words from here on that lie between the two ends: a comparison with each end for a word, none for a bit. (The place of the word at which it
// stops is an answer, so the loop goes by it.)
pub fn pass(k: Class, s: &[u8], low: u64, high: u64, from: Passed) -> Passed
    requires { Skimmable k s.now low high from }
    ensures { Skims k s.now low high from result }
{
    let c = k.bytes() as usize;
    let top = top(k, high);
    let clear = fence(k, high);
    let mut at = from.at;
    let mut place = from.place;
    let mut count = from.count;
    while at < s.len() {
        let stepped = step_near(k, low, top, clear, place, word::load(k, s, at));
        match stepped {
            None => {
                return Passed { at, place, count };
            }
            Some(Stepped::One(next)) => {
                count += 1;
                place = next;
                at += c;
            }
            Some(Stepped::Many(n, next)) => {
                count += n;
                place = next;
                at += c;
            }
        }
    }
    Passed { at, place, count }
}

// The same for a class that two flags name, so that the compiler makes a loop for each.
fn pass_by<const WIDE: bool, const BIG: bool>(s: &[u8], low: u64, high: u64, from: Passed) -> Passed
    requires { Skimmable (flagged WIDE BIG) s.now low high from }
    ensures { Skims (flagged WIDE BIG) s.now low high from result }
{
    pass(place::chosen(WIDE, BIG), s, low, high, from)
}

// The same for any class.
#[inline(always)]
pub fn pass_class(k: Class, s: &[u8], low: u64, high: u64, from: Passed) -> Passed
    requires { Skimmable k s.now low high from }
    ensures { Skims k s.now low high from result }
{
    match (k.size, k.order) {
        (Size::Four, ByteOrder::Little) => pass_by::<false, false>(s, low, high, from),
        (Size::Four, ByteOrder::Big) => pass_by::<false, true>(s, low, high, from),
        (Size::Eight, ByteOrder::Little) => pass_by::<true, false>(s, low, high, from),
        (Size::Eight, ByteOrder::Big) => pass_by::<true, true>(s, low, high, from),
    }
}
