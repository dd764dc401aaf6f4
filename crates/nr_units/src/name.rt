//! Names of requests, macros, strings and registers.
ghost use Rattle.std.specs.Prelude.{◌≡◌, ◌==◌, ◌<◌, ◌≤◌, ◌∷◌, ◌++◌, ◌↔◌, [], length, nat_eq, IsTrue, Some, refl};
ghost use Rattle.std.specs.Ordering.{nat_cmp};
ghost use Rattle.std.specs.Cmp.{partial_equiv_from_equiv};
ghost use Rattle.std.specs.Cmp.Lexicographic.{pointwise, slice_cmp, nat_list_eq_equiv, nat_list_cmp_total, texts_po, texts_ties};
ghost use Rattle.nr_units.specs.Name.{capacity, is_full, name_order, kind_of_name};

use std::cmp::Ordering;
use std::marker::Model;

/// The greatest number of bytes of a name.
const CAPACITY: usize = 32;

/// A name of at most 32 bytes. The empty name names nothing.
///
/// Clauses see its bytes as a list. Names compare by their bytes.
#[derive(Clone, Copy)]
pub struct Name {
    bytes: [u8; CAPACITY],
    len: u8,
}

impl Model for Name {
    ghost use Rattle.std.specs.Prelude.{ℕ, List, length, take};
    ghost use Rattle.nr_units.specs.Name.{IsPadded, padded};
    ghost use Rattle.nr_units.specs.Padding.{padded-take, length-take_padded};

    ghost Value = { List ℕ };

    ghost view = { λ n. take n.len n.bytes };

    ghost invariant = { λ n. IsPadded n.bytes n.len };

    ghost inverse = { λ bytes. record { bytes = padded bytes; len = length bytes } };

    ghost inverse_ok = { λ n h i. record {
      bytes = padded-take n.bytes n.len h i;
      len = length-take_padded n.bytes n.len h i;
    } };
}

impl Default for Name {
    ghost is_default = { λ n. n ≡ [] };

    fn default() -> Self {
        Name::new()
    }
}

impl Name {
    /// The empty name.
    pub fn new() -> Self
        ensures { result ≡ [] }
    {
        Name {
            bytes: [0; CAPACITY],
            len: 0,
        }
    }

    /// The name of these bytes.
    ///
    /// Proved: A name holds its bytes, 32 at most, and names are ordered by the first byte in which they differ.
    /// (`Name::{of, push, compare}`)
    pub fn of(bytes: &[u8]) -> Self
        requires { length bytes.now ≤ capacity }
        ensures { result ≡ bytes.now }
    {
        let mut name = Name::new();
        for byte in bytes {
            name.push(*byte);
        }
        name
    }

    /// Adds a byte at the end.
    pub fn push(&mut self, byte: u8)
        requires { length self.old < capacity }
        ensures { self.new ≡ self.old ++ byte ∷ [] }
    {
        self.bytes[usize::from(self.len)] = byte;
        self.len += 1;
    }

    /// Whether no byte can be added.
    pub fn is_full(&self) -> bool
        ensures value { result ≡ is_full self.now }
        ensures at_most { length self.now ≤ capacity }
    {
        self.len() == CAPACITY
    }

    /// The number of bytes.
    pub fn len(&self) -> usize
        ensures value { result ≡ length self.now }
        ensures at_most { result ≤ capacity }
    {
        usize::from(self.len)
    }

    /// Whether it names nothing.
    pub fn is_empty(&self) -> bool
        ensures { result ≡ (length self.now == 0) }
    {
        self.len == 0
    }

    /// The bytes.
    pub fn as_bytes(&self) -> &[u8]
        ensures value { result.now ≡ self.now }
        ensures at_most { length result.now ≤ capacity }
    {
        &self.bytes[..usize::from(self.len)]
    }

    /// Its kind, of 512, by its first two bytes. Names of two letters are spread over the kinds.
    #[inline]
    pub fn kind(&self) -> u16
        ensures value { result ≡ kind_of_name self.now }
        ensures few { result < 512 }
    {
        ((45 * u32::from(self.bytes[0]) + u32::from(self.bytes[1])) % 512) as u16
    }

    /// Whether both are one name of at most two bytes.
    #[inline]
    pub fn is_same_short(&self, other: &Name) -> bool
        ensures { IsTrue result ↔ ((length self.now ≤ 2) × (self.now ≡ other.now)) }
    {
        self.len <= 2
            && self.len == other.len
            && self.bytes[0] == other.bytes[0]
            && self.bytes[1] == other.bytes[1]
    }

    /// How it stands to another name in the order of names, which is total: by the first byte in which
    /// they differ, and a prefix before what it is a prefix of.
    pub fn compare(&self, other: &Name) -> Ordering
        ensures { result ≡ name_order self.now other.now }
    {
        order_of(self.as_bytes(), other.as_bytes())
    }
}

/// The order of two lists of bytes.
#[inline]
fn order_of(a: &[u8], b: &[u8]) -> Ordering
    ensures { result ≡ name_order a.now b.now }
{
    for i in 0..a.len().min(b.len()) {
        if a[i] != b[i] {
            return a[i].cmp(&b[i]);
        }
    }
    a.len().cmp(&b.len())
}

impl PartialEq for Name {
    ghost eq = { pointwise nat_eq };

    ghost laws = { partial_equiv_from_equiv nat_list_eq_equiv };

    fn eq(&self, other: &Name) -> bool {
        self.compare(other).is_eq()
    }
}

impl Eq for Name {
    ghost laws = { nat_list_eq_equiv };
}

impl PartialOrd for Name {
    ghost partial_cmp = { λ a b. Some (slice_cmp nat_cmp a b) };

    ghost laws = { texts_po };

    fn partial_cmp(&self, other: &Name) -> Option<Ordering> {
        Some(self.compare(other))
    }
}

impl Ord for Name {
    ghost cmp = { slice_cmp nat_cmp };

    ghost total = { nat_list_cmp_total };

    ghost matches_partial_cmp = { λ a b. refl };

    ghost matches_eq = { texts_ties };

    fn cmp(&self, other: &Name) -> Ordering {
        self.compare(other)
    }
}
