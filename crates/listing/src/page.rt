// The text as it is made: bytes put one behind the other.
ghost use Rattle.std.specs.Prelude.{ℕ, [], ◌∷◌, ◌+◌, ◌≡◌, ◌≤◌, List, length, take};
ghost use Rattle.listing.specs.Text.{text_room};
ghost use Rattle.listing.specs.Inner.{Prints};

use crate::TEXT_ROOM;
use itoa::{Buffer, Integer};
use std::marker::Model;

// A text so far, with room for every text.
#[derive(Drop)]
pub struct Page {
    bytes: [u8; TEXT_ROOM],
    len: usize,
}

impl Model for Page {
    ghost Value = { List ℕ };

    ghost view = { λ p. take p.len p.bytes };

    ghost invariant = { λ p. p.len ≤ text_room };
}

impl Page {
    // No text yet.
    pub fn new() -> Page
        ensures { result ≡ [] }
    {
        Page {
            bytes: [0; TEXT_ROOM],
            len: 0,
        }
    }

    // The text, which is no longer than its room.
    pub fn text(&self) -> &[u8]
        ensures is { result.now ≡ self.now }
        ensures few { length self.now ≤ text_room }
    {
        &self.bytes[..self.len]
    }

    // One byte.
    pub fn put_byte(&mut self, b: u8)
        requires { length self.old + 1 ≤ text_room }
        ensures { Prints self.old self.new (b ∷ []) 1 }
    {
        self.bytes[self.len] = b;
        self.len += 1;
    }

    // Several bytes.
    pub fn put(&mut self, bytes: &[u8])
        requires { length self.old + length bytes.now ≤ text_room }
        ensures { Prints self.old self.new bytes.now (length bytes.now) }
    {
        let end = self.len + bytes.len();
        self.bytes[self.len..end].copy_from_slice(bytes);
        self.len = end;
    }

    // A number in decimal, in its shortest form.
    pub fn put_number<I: Integer>(&mut self, x: I)
        requires { length self.old + I.MAX_STR_LEN ≤ text_room }
        ensures { Prints self.old self.new (I.text x) I.MAX_STR_LEN }
    {
        let mut digits = Buffer::new();
        self.put(digits.format(x).as_bytes());
    }
}
