// The writer's step: what the next offset does to the words of a table.
ghost use Rattle.std.specs.Prelude.{◌≡◌, ◌+◌, ◌%◌, ◌^◌, ◌<◌, ◌≤◌};
ghost use Rattle.word.specs.Class.{bytes_of};
ghost use Rattle.relr_table.specs.Table.{space_of};
ghost use Rattle.relr_write.specs.Inner.{Near, LocatedAt, Small, ForwardFrom, Packs};

use relr_table::place;
use word::Class;

// Where the next bitmap starts, and the bits of the one that is pending there; with no bits none is.
#[derive(Clone, Copy)]
pub struct Pending {
    pub place: u64,
    pub bits: u64,
}

// What the next offset does: it joins the bitmap that is pending or would start next, has the pending bitmap written and waits for the
// next one, or is written itself.
#[derive(Clone, Copy)]
pub enum Packed {
    Joined(Pending),
    Flushed(u64, Pending),
    Alone(Pending),
}

fn bit(j: u64) -> u64
    requires { j < 63 }
    ensures { result ≡ 2 ^ j }
{
    1u64 << j
}

// The location of x in the bitmap that starts at a place, or none. Nowhere and beyond are odd, so that x falls nowhere from there on.
fn locate(k: Class, place: u64, x: u64) -> Option<u64>
    requires { (x + bytes_of k ≤ space_of k) × (x % 2 ≡ 0) × Near place x }
    ensures { LocatedAt k place x result × Small result }
{
    let d = x.wrapping_sub(place);
    let j = k.in_words(d);
    if j < k.window() as u64 {
        return Some(j);
    }
    None
}

// Where the bitmap after the one at a place starts.
fn forward(k: Class, place: u64) -> u64
    ensures { ForwardFrom k place result }
{
    if place <= k.last() {
        return place::past(k, place, k.stride());
    }
    place::BEYOND
}

// The next offset, above all that joined or were written.
pub fn pack(k: Class, p: Pending, x: u64) -> Packed
    requires { (p.bits < 2 ^ 63) × (x + bytes_of k ≤ space_of k) × (x % 2 ≡ 0) × Near p.place x }
    ensures { Packs k p x result }
{
    let place = p.place;
    match locate(k, place, x) {
        Some(j) => Packed::Joined(Pending {
            place,
            bits: p.bits + bit(j),
        }),
        None => {
            if 0 < p.bits {
                let full = 2 * p.bits + 1;
                return Packed::Flushed(
                    full,
                    Pending {
                        place: forward(k, place),
                        bits: 0,
                    },
                );
            }
            Packed::Alone(Pending {
                place: place::past(k, x, k.bytes() as u64),
                bits: 0,
            })
        }
    }
}
