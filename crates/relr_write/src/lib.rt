// Writing a list of offsets as a table.
#![tactic(auto)]

ghost use Rattle.std.specs.Prelude.{◌≡◌, ◌≤◌, [], ◌∷◌, ◌++◌, length, drop};
ghost use Rattle.answer.specs.Outcome.{found_of, list_limit};
ghost use Rattle.answer.specs.Written.{Written};
ghost use Rattle.word.specs.Class.{class_in, bytes_of};
ghost use Rattle.word.specs.Word.{bytes_of_words};
ghost use Rattle.relr_table.specs.Contract.{WritesIn};
ghost use Rattle.relr_table.specs.Inner.{flagged_size, flagged};
ghost use Rattle.relr_table.specs.Table.{build, table_bytes, encode};
ghost use Rattle.relr_write.specs.Inner.{fault_of, Encodable, Room, Leaves};

use crate::packer::{Packed, Pending};
use answer::{Answer, Refusal, Refused};
use relr_table::place;
use word::{ByteOrder, Class, Size};

mod packer;

// What is wrong with an offset that may be no less than `least`.
fn faulty(k: Class, x: u64, least: u64) -> Result<(), Refusal>
    ensures { result ≡ fault_of k x least }
{
    if x % 2 == 1 {
        return Err(Refusal::Odd);
    }
    if k.last() < x {
        return Err(Refusal::Space);
    }
    if x < least {
        return Err(Refusal::Order);
    }
    Ok(())
}

// The first pass: how many bytes the table takes, or the first bad offset. Of a pending bitmap it keeps one bit, which is as many words. (An
// offset before which such a bitmap is flushed is looked at again, so the index does not move then, and neither pass is a `for`.)
fn size(k: Class, offsets: &[u64]) -> Result<u64, Refused>
    requires { length offsets.now ≤ list_limit }
    ensures { result ≡ found_of (build k offsets.now) }
{
    let n = offsets.len();
    let mut i: usize = 0;
    let mut least: u64 = 0;
    let mut place = place::NOWHERE;
    let mut bits: u64 = 0;
    let mut words: u64 = 0;
    while i < n {
        let x = offsets[i];
        if let Err(why) = faulty(k, x, least) {
            return Err(Refused {
                why,
                place: i as u64,
            });
        }
        match packer::pack(k, Pending { place, bits }, x) {
            Packed::Joined(_) => {
                bits = 1;
                least = x + 1;
                i += 1;
            }
            Packed::Flushed(_, p) => {
                place = p.place;
                bits = 0;
                words += 1;
            }
            Packed::Alone(p) => {
                place = p.place;
                words += 1;
                least = x + 1;
                i += 1;
            }
        }
    }
    Ok((words + bits) * (k.bytes() as u64))
}

// The same for a class whose size a flag names, so that the compiler makes a loop for each.
fn size_by<const WIDE: bool>(order: ByteOrder, offsets: &[u64]) -> Result<u64, Refused>
    requires { length offsets.now ≤ list_limit }
    ensures { result ≡ found_of (build (class_in (flagged_size WIDE) order) offsets.now) }
{
    let k = Class {
        size: place::chosen_size(WIDE),
        order,
    };
    size(k, offsets)
}

// How many bytes the table of any list takes, or the refusal.
fn measure(k: Class, offsets: &[u64]) -> Result<u64, Refused>
    ensures { result ≡ found_of (encode k offsets.now) }
{
    if answer::LIST_LIMIT < offsets.len() {
        return Err(Refused {
            why: Refusal::Limit,
            place: 0,
        });
    }
    match k.size {
        Size::Four => size_by::<false>(k.order, offsets),
        Size::Eight => size_by::<true>(k.order, offsets),
    }
}

// Stores a word at a place, and returns the place after it.
fn put_word(k: Class, table: &mut [u8], at: usize, w: u64) -> usize
    requires { Room at (bytes_of k) table.old }
    ensures { Written table.old table.new at result (bytes_of_words k (w ∷ [])) }
{
    word::store(k, &mut *table, at, w);
    at + (k.bytes() as usize)
}

// What the second pass leaves: the place after the words that it put, and the bits of a bitmap that is pending there.
#[derive(Clone, Copy)]
pub struct Rest {
    pub at: usize,
    pub bits: u64,
}

// The second pass, over a list that the first accepted, up to the bitmap that is pending at the end. (Its index moves as the first's does.)
fn put(k: Class, offsets: &[u64], table: &mut [u8]) -> Rest
    requires { Encodable k offsets.now table.old }
    ensures { Leaves k offsets.now table.old result table.new }
{
    let n = offsets.len();
    let mut i: usize = 0;
    let mut pending = Pending {
        place: place::NOWHERE,
        bits: 0,
    };
    let mut at: usize = 0;
    while i < n {
        let x = offsets[i];
        match packer::pack(k, pending, x) {
            Packed::Joined(p) => {
                pending = p;
                i += 1;
            }
            Packed::Flushed(w, p) => {
                at = put_word(k, &mut *table, at, w);
                pending = p;
            }
            Packed::Alone(p) => {
                at = put_word(k, &mut *table, at, x);
                pending = p;
                i += 1;
            }
        }
    }
    Rest {
        at,
        bits: pending.bits,
    }
}

// The same for a class that two flags name, so that the compiler makes a loop for each.
fn put_by<const WIDE: bool, const BIG: bool>(offsets: &[u64], table: &mut [u8]) -> Rest
    requires { Encodable (flagged WIDE BIG) offsets.now table.old }
    ensures { Leaves (flagged WIDE BIG) offsets.now table.old result table.new }
{
    put(place::chosen(WIDE, BIG), offsets, table)
}

// The same for any class.
fn put_all(k: Class, offsets: &[u64], table: &mut [u8]) -> Rest
    requires { Encodable k offsets.now table.old }
    ensures { Leaves k offsets.now table.old result table.new }
{
    match (k.size, k.order) {
        (Size::Four, ByteOrder::Little) => put_by::<false, false>(offsets, table),
        (Size::Four, ByteOrder::Big) => put_by::<false, true>(offsets, table),
        (Size::Eight, ByteOrder::Little) => put_by::<true, false>(offsets, table),
        (Size::Eight, ByteOrder::Big) => put_by::<true, true>(offsets, table),
    }
}

// The whole table, at the front of a buffer with room for it.
fn fill(k: Class, offsets: &[u64], table: &mut [u8])
    requires { Encodable k offsets.now table.old }
    ensures { table.new ≡ table_bytes k offsets.now ++ drop (length (table_bytes k offsets.now)) table.old }
{
    let rest = put_all(k, offsets, &mut *table);
    if 0 < rest.bits {
        put_word(k, &mut *table, rest.at, 2 * rest.bits + 1);
    }
}

// Writing, for a class.
pub fn write_class(k: Class, offsets: &[u64], table: &mut [u8]) -> Answer
    ensures { WritesIn k offsets.now table.old result table.new }
{
    match measure(k, offsets) {
        Err(refused) => refused.into(),
        Ok(need) => {
            if (table.len() as u64) < need {
                return answer::short_of(need);
            }
            fill(k, offsets, table);
            answer::accept(need)
        }
    }
}
