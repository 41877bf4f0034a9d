// Applying a table to an image: an addition for each offset.
#![tactic(auto)]

ghost use Rattle.std.specs.Prelude.{◌≡◌, ◌+◌, ◌/◌, ◌≤◌, length};
ghost use Rattle.word.specs.Class.{bytes_of};
ghost use Rattle.relr_table.specs.Table.{added, patched};
ghost use Rattle.relr_table.specs.Contract.{AppliesIn};
ghost use Rattle.relr_table.specs.Inner.{flagged, full};
ghost use Rattle.relr_apply.specs.Inner.{spots_of, Patchable, Runs, low_of, Strips, Summed, Strip, StripAdded, Spacious, Windows, Sized, Targeted, Aimed, Patched, End};

use answer::{Answer, Refusal};
use relr_table::place;
use word::{ByteOrder, Class, Size};

// Adds the base to the word at x.
fn add_at(k: Class, image: &mut [u8], x: usize, base: u64)
    requires { x + bytes_of k ≤ length image.old }
    ensures { image.new ≡ added k base image.old x }
{
    let w = word::load(k, image, x);
    word::store(k, &mut *image, x, word::add(k, w, base));
}

// Adds the base to each word that the bits mark from an index on. (Where bits are clear an index may lie outside the image, and below it wraps.)
fn patch_marks(k: Class, image: &mut [u8], base: u64, first: u64, set: u64)
    requires { Patchable k image.old first set }
    ensures { image.new ≡ patched k base (spots_of k set first) image.old }
{
    let mut bits = set;
    while bits != 0 {
        let zeros = bits.trailing_zeros() as u64;
        let x = first.wrapping_add(zeros * (k.bytes() as u64));
        add_at(k, &mut *image, x as usize, base);
        bits &= bits - 1;
    }
}

// The same where all bits are set, n of them. (Where words are low byte first the compiler makes the loop wide.)
fn patch_run(k: Class, n: u64, image: &mut [u8], base: u64, first: u64)
    requires { Runs k n image.old first }
    ensures { image.new ≡ patched k base (spots_of k (full k) first) image.old }
{
    for j in 0..n {
        let x = first.wrapping_add(j * (k.bytes() as u64));
        add_at(k, &mut *image, x as usize, base);
    }
}

// The class of the same words, low byte first.
fn low(k: Class) -> Class
    ensures { result ≡ low_of k }
{
    Class {
        size: k.size,
        order: ByteOrder::Little,
    }
}

// Two bits mark none, one or both of two words. For each two bits the addends of those words stand in a strip: the base, or 0.
fn fill_strips(k: Class, strips: &mut [u8], base: u64)
    requires { length strips.old ≡ 64 }
    ensures { Strips k base strips.new }
{
    let c = k.bytes() as usize;
    for e in 0..8u64 {
        let addend = word::add(k, 0, base * ((e / 2 >> (e % 2)) % 2));
        word::store(low(k), &mut *strips, e as usize * c, addend);
    }
}

// Adds to the image's word at x the one of the strips at y.
fn add_entry(k: Class, image: &mut [u8], x: usize, strips: &[u8], y: usize)
    requires { (x + bytes_of k ≤ length image.old) × (y + bytes_of k ≤ length strips.now) }
    ensures { Summed k strips.now y image.old image.new x }
{
    let w = word::load(k, image, x);
    let v = word::load(low(k), strips, y);
    word::store(k, &mut *image, x, word::add(k, w, v));
}

// Adds a strip to so many bytes of the image, one word or two; the base is what the strips were made of. (Where words are low byte first the compiler adds
// both at once. A loop by `for` is slower: over the words, or over the bytes by steps, up to four times as many instructions.)
fn add_strip(
    k: Class,
    image: &mut [u8],
    x: usize,
    strips: &[u8],
    base: u64,
    bits: u64,
    bytes: usize,
)
    requires { Strip k base strips.now image.old x bits bytes }
    ensures { StripAdded k base bytes bits x image.old image.new }
{
    let c = k.bytes() as usize;
    let y = bits as usize * (2 * c);
    let mut j: usize = 0;
    while j < bytes {
        add_entry(k, &mut *image, x + j, strips, y + j);
        j += c;
    }
}

// Adds the base as the bits say where the whole window lies inside the image: a word whose bit is clear gets 0 added, so that no branch hangs on a bit.
fn patch_window(
    k: Class,
    window: u64,
    strips: &[u8],
    image: &mut [u8],
    base: u64,
    first: u64,
    set: u64,
)
    requires { Spacious k window base strips.now image.old first }
    ensures { image.new ≡ patched k base (spots_of k set first) image.old }
{
    let c = k.bytes() as usize;
    let mut bits = set;
    let mut x = first as usize;
    for j in (0..window).step_by(2) {
        let n = if window - j < 2 { c } else { 2 * c };
        add_strip(k, &mut *image, x, strips, base, bits % 4, n);
        x += 2 * c;
        bits /= 4;
    }
}

// How many indexes of an image, from 0 on, a whole window fits at.
fn windows(k: Class, size: usize) -> u64
    ensures { Windows k size result }
{
    let n = size as u64;
    let stride = k.stride();
    if n < stride {
        return 0;
    }
    n - stride + 1
}

// What the second pass goes by: the locations of a bitmap, the strips, the number above which bits are dense, the bits that are all set, and how many
// indexes of the image a whole window fits at.
#[derive(Clone, Copy)]
struct Pace<'a> {
    window: u64,
    strips: &'a [u8],
    dense: u64,
    all: u64,
    room: u64,
}

// A bitmap, whichever way is fastest. (If two neighbours of its upper bits are set, which makes a number larger than `dense`, most often many bits
// are; full bitmaps are among those.)
fn patch_bitmap(k: Class, pace: Pace, image: &mut [u8], base: u64, first: u64, x: u64)
    requires { Sized k base pace image.old first (x / 2) }
    ensures { image.new ≡ patched k base (spots_of k (x / 2) first) image.old }
{
    let set = x / 2;
    if pace.dense < x & set {
        if set == pace.all {
            patch_run(k, pace.window, image, base, first);
            return;
        }
        if first < pace.room {
            patch_window(k, pace.window, pace.strips, image, base, first, set);
            return;
        }
    }
    patch_marks(k, image, base, first, set);
}

// The second pass, over a table that the first accepted, whose words all lie inside the image. The index of the word before *where* is kept, and
// wraps: beyond the space no bitmap has a bit set. (It is put in line for each class, so that each has a loop of its own. By `for` with a step
// that loop takes a fifth more instructions for an address.)
#[inline(always)]
fn patch(k: Class, pace: Pace, s: &[u8], base: u64, start: u64, image: &mut [u8])
    requires { Aimed k base pace s.now start image.old }
    ensures { Patched k s.now base start image.old image.new }
{
    let c = k.bytes() as usize;
    let stride = k.stride();
    let mut at: usize = 0;
    let mut behind: u64 = 0;
    while at < s.len() {
        let x = word::load(k, s, at);
        at += c;
        if x % 2 == 0 {
            behind = x - start;
            add_at(k, &mut *image, behind as usize, base);
        } else {
            let first = behind.wrapping_add(c as u64);
            patch_bitmap(k, pace, &mut *image, base, first, x);
            behind = behind.wrapping_add(stride);
        }
    }
}

// The same for a class that two flags name, so that the compiler makes a loop for each.
fn patch_by<const WIDE: bool, const BIG: bool>(
    pace: Pace,
    s: &[u8],
    base: u64,
    start: u64,
    image: &mut [u8],
)
    requires { Aimed (flagged WIDE BIG) base pace s.now start image.old }
    ensures { Patched (flagged WIDE BIG) s.now base start image.old image.new }
{
    patch(place::chosen(WIDE, BIG), pace, s, base, start, image);
}

// The same for any class.
fn patch_class(k: Class, s: &[u8], base: u64, start: u64, image: &mut [u8])
    requires { Targeted k s.now start image.old }
    ensures { Patched k s.now base start image.old image.new }
{
    let mut strips: [u8; 64] = [0; 64];
    fill_strips(k, &mut strips, base);
    let pace = Pace {
        window: k.window() as u64,
        strips: &strips,
        dense: k.largest() / 65536,
        all: place::full_bits(k),
        room: windows(k, image.len()),
    };
    match (k.size, k.order) {
        (Size::Four, ByteOrder::Little) => patch_by::<false, false>(pace, s, base, start, image),
        (Size::Four, ByteOrder::Big) => patch_by::<false, true>(pace, s, base, start, image),
        (Size::Eight, ByteOrder::Little) => patch_by::<true, false>(pace, s, base, start, image),
        (Size::Eight, ByteOrder::Big) => patch_by::<true, true>(pace, s, base, start, image),
    }
}

// One more than the last offset of the space whose word lies inside an image of so many bytes that begins at an address, or a number
// that is no more than that address.
fn end(k: Class, start: u64, size: usize) -> u64
    ensures { End k start size result }
{
    let c = k.bytes() as usize;
    let last = k.last();
    if size < c {
        return 0;
    }
    if last < start {
        return 0;
    }
    let most = (size - c) as u64;
    if last - start < most {
        return last + 1;
    }
    start + most + 1
}

// Applying, for a class.
pub fn apply_class(k: Class, table: &[u8], base: u64, start: u64, image: &mut [u8]) -> Answer
    ensures { AppliesIn k table.now base start image.old result image.new }
{
    if k.largest() < base {
        return answer::refuse(Refusal::Base, 0);
    }
    match relr_walk::find(k, table, start, end(k, start, image.len())) {
        Err(refused) => refused.into(),
        Ok(count) => {
            patch_class(k, table, base, start, image);
            answer::accept(count)
        }
    }
}
