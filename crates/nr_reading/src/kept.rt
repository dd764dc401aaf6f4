//! Texts of which the first bytes count.
ghost use Rattle.std.specs.Prelude.{◌≡◌, ◌≤◌, ◌<◌, length, [], take, slice_get};
ghost use Rattle.nr_reading.specs.Kept.{kept};

use std::marker::Model;

/// How many bytes of a text count.
const COUNT: usize = 256;

/// The first 256 bytes of a text: the rest is dropped. Clauses see them as a list.
#[derive(Drop)]
pub struct Kept {
    bytes: [u8; COUNT],
    len: usize,
}

impl Model for Kept {
    ghost use Rattle.std.specs.Prelude.{◌≡◌, ◌≤◌, ℕ, List, length, take};

    ghost Value = { List ℕ };

    ghost view = { λ k. take k.len k.bytes };

    ghost invariant = { λ k. (k.len ≤ 256) × (length k.bytes ≡ 256) };
}

impl Kept {
    /// No bytes.
    pub(crate) fn new() -> Kept
        ensures { result ≡ [] }
    {
        Kept {
            bytes: [0; COUNT],
            len: 0,
        }
    }

    /// Takes the bytes of another.
    pub(crate) fn copy_from(&mut self, other: &Kept)
        ensures { self.new ≡ other.now }
    {
        self.bytes = other.bytes;
        self.len = other.len;
    }

    /// Forgets all bytes.
    pub(crate) fn clear(&mut self)
        ensures { self.new ≡ [] }
    {
        self.len = 0;
    }

    /// Adds a byte, if it counts.
    pub(crate) fn keep(&mut self, byte: u8)
        ensures { self.new ≡ kept byte self.old }
    {
        if self.len < COUNT {
            self.bytes[self.len] = byte;
            self.len += 1;
        }
    }

    /// The bytes.
    pub fn as_slice(&self) -> &[u8]
        ensures value { result.now ≡ self.now }
        ensures within { length result.now ≤ 256 }
    {
        &self.bytes[..self.len]
    }

    /// The byte at a place, counted from 0.
    pub(crate) fn at(&self, place: u64) -> Option<u8>
        ensures { result ≡ slice_get self.now place }
    {
        if place < self.len as u64 {
            return Some(self.bytes[place as usize]);
        }
        None
    }

    /// Puts a text in place of the bytes.
    pub fn set(&mut self, text: &[u8])
        ensures { self.new ≡ take 256 text.now }
    {
        let len = text.len().min(COUNT);
        self.bytes[..len].copy_from_slice(&text[..len]);
        self.len = len;
    }
}
