//! Bytes in memory of their own, which can be lent whole.
ghost use Rattle.std.specs.Prelude.{◌≡◌, ◌+◌, ◌<◌, ◌≤◌, [], ◌++◌, length, slice_get, Some};
ghost use Rattle.tbl_stage.specs.Holding.{nothing};

use nr_vectors::FixedVec;
use std::marker::Model;

/// Bytes, and room for a number of them: memory that was taken once, and is touched as bytes come. Or nothing, in the place of
/// one that is lent.
#[derive(Drop)]
pub struct Space {
    bytes: Option<FixedVec<u8>>,
}

impl Model for Space {
    ghost use Rattle.std.specs.Prelude.{ℕ};
    ghost use Rattle.nr_vectors.specs.Items.{Items};
    ghost use Rattle.tbl_stage.specs.Holding.{items_of};

    ghost Value = { Items ℕ };

    ghost view = { λ s. items_of s.bytes };
}

impl Space {
    /// These bytes, and their room.
    pub fn over(bytes: FixedVec<u8>) -> Space
        ensures { result ≡ bytes }
    {
        Space { bytes: Some(bytes) }
    }

    /// No bytes, and no room.
    pub fn nothing() -> Space
        ensures { result ≡ nothing }
    {
        Space { bytes: None }
    }

    /// The number of bytes.
    pub fn len(&self) -> usize
        ensures value { result ≡ length self.now.items }
        ensures within { result ≤ self.now.capacity }
    {
        match &self.bytes {
            Some(bytes) => bytes.len(),
            None => 0,
        }
    }

    /// The greatest number of bytes.
    pub fn capacity(&self) -> usize
        ensures value { result ≡ self.now.capacity }
        ensures holds { length self.now.items ≤ result }
    {
        match &self.bytes {
            Some(bytes) => bytes.capacity(),
            None => 0,
        }
    }

    /// The bytes.
    pub fn as_slice(&self) -> &[u8]
        ensures value { result.now ≡ self.now.items }
    {
        match &self.bytes {
            Some(bytes) => bytes.as_slice(),
            None => &[],
        }
    }

    /// The byte at a place, counted from 0.
    pub fn get(&self, place: usize) -> u8
        requires { place < length self.now.items }
        ensures { slice_get self.now.items place ≡ Some result }
    {
        let bytes = self.as_slice();
        bytes[place]
    }

    /// Adds bytes at the end.
    pub fn extend(&mut self, more: &[u8])
        requires { length self.old.items + length more.now ≤ self.old.capacity }
        ensures items { self.new.items ≡ self.old.items ++ more.now }
        ensures room { self.new.capacity ≡ self.old.capacity }
    {
        match &mut self.bytes {
            Some(bytes) => bytes.extend(more),
            None => {}
        }
    }

    /// Takes all bytes away.
    pub fn clear(&mut self)
        ensures items { self.new.items ≡ [] }
        ensures room { self.new.capacity ≡ self.old.capacity }
    {
        match &mut self.bytes {
            Some(bytes) => bytes.clear(),
            None => {}
        }
    }
}
