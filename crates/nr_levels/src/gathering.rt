//! The arguments of a macro that are being read.
ghost use Rattle.std.specs.Prelude.{◌≡◌, ◌==◌, ◌+◌, ◌^◌, ◌<◌, ◌≤◌, length, map, IfOk};
ghost use Rattle.nr_levels.specs.Gathering.{joined, none_gathered, gathered_len, with_byte, with_bytes, with_end};

use nr_vectors::{CountedAlloc, FixedVec};
use std::alloc::AllocError;
use std::marker::Model;

/// How many arguments a macro has at most.
pub const MOST: usize = 9;

/// Arguments that are being read, with a capacity that stays: nine at most, further ones are dropped
/// (CSTR 54, macros with arguments). Each call takes constant time; `new` is the only one that allocates.
#[derive(Drop)]
pub struct Gathering {
    bytes: FixedVec<u8>,
    // How many arguments are read whole, how long each is, and where the next begins.
    lens: [u32; MOST],
    count: usize,
    start: usize,
}

impl Model for Gathering {
    ghost use Rattle.std.specs.Prelude.{take};
    ghost use Rattle.nr_levels.specs.Gathering.{Gathering, gathered_of, IsGathering};

    ghost Value = { Gathering };

    ghost view = { λ g. record {
      gathered = gathered_of (take g.count g.lens) g.bytes.items g.start;
      capacity = g.bytes.capacity;
    } };

    ghost invariant = { λ g. IsGathering g.lens g.bytes.items g.count g.start g.bytes.capacity };
}

impl Gathering {
    /// No arguments, and room for so many bytes: `AllocError` where there is no memory for them.
    pub fn new(alloc: &mut CountedAlloc, capacity: usize) -> Result<Gathering, AllocError>
        requires { capacity < 2 ^ 32 }
        ensures made { IfOk result (λ made. made ≡ record { gathered = none_gathered; capacity = capacity }) }
        ensures taken { IfOk result (λ made. alloc.new ≡ alloc.old + capacity) }
    {
        Ok(Gathering {
            bytes: FixedVec::new(alloc, capacity)?,
            lens: [0; MOST],
            count: 0,
            start: 0,
        })
    }

    /// Takes what another with as much room has.
    pub fn copy_from(&mut self, other: &Gathering)
        requires { other.now.capacity ≡ self.old.capacity }
        ensures { self.new ≡ other.now }
    {
        self.bytes.copy_from(&other.bytes);
        self.lens = other.lens;
        self.count = other.count;
        self.start = other.start;
    }

    /// How many bytes there is memory for, as their vector tells.
    pub fn memory(&self) -> usize
        ensures { result ≡ self.now.capacity }
    {
        self.bytes.memory()
    }

    /// Whether no argument more counts.
    #[inline]
    pub fn is_full(&self) -> bool
        ensures { result ≡ (length self.now.gathered.kept == 9) }
    {
        self.count == MOST
    }

    /// How many bytes all arguments have.
    #[inline]
    pub fn len(&self) -> usize
        ensures { result ≡ gathered_len self.now.gathered }
    {
        self.bytes.len()
    }

    /// How many bytes the arguments have that are read whole.
    #[inline]
    pub fn kept_len(&self) -> usize
        ensures { result ≡ length (joined self.now.gathered.kept) }
    {
        self.start
    }

    /// Adds a byte to the one under way, where fewer than nine are read whole.
    ///
    /// Proved: The arguments of a macro are gathered byte by byte or many at once; nine count. (`Gathering::{push,
    /// extend, end, clear}`)
    #[inline]
    pub fn push(&mut self, byte: u8)
        requires { gathered_len self.old.gathered < self.old.capacity }
        ensures { self.new ≡ record self.old { gathered = with_byte byte self.old.gathered } }
    {
        if self.count == MOST {
            return;
        }
        self.bytes.push(byte);
    }

    /// Adds bytes to the one under way, where fewer than nine are read whole.
    #[inline]
    pub fn extend(&mut self, bytes: &[u8])
        requires { gathered_len self.old.gathered + length bytes.now ≤ self.old.capacity }
        ensures { self.new ≡ record self.old { gathered = with_bytes bytes.now self.old.gathered } }
    {
        if self.count == MOST {
            return;
        }
        self.bytes.extend(bytes);
    }

    /// The one under way is read whole, and the next begins.
    #[inline]
    pub fn end(&mut self)
        ensures { self.new ≡ record self.old { gathered = with_end self.old.gathered } }
    {
        if self.count == MOST {
            return;
        }
        let len = self.bytes.len();
        self.lens[self.count] = (len - self.start) as u32;
        self.count += 1;
        self.start = len;
    }

    /// Takes all arguments away.
    #[inline]
    pub fn clear(&mut self)
        ensures { self.new ≡ record self.old { gathered = none_gathered } }
    {
        self.bytes.clear();
        self.count = 0;
        self.start = 0;
    }

    /// The bytes of the arguments that are read whole, one after another.
    pub fn kept_bytes(&self) -> &[u8]
        ensures { result.now ≡ joined self.now.gathered.kept }
    {
        &self.bytes.as_slice()[..self.start]
    }

    /// How long each argument is that is read whole.
    pub fn kept_lens(&self) -> &[u32]
        ensures lens { result.now ≡ map (λ bytes. length bytes) self.now.gathered.kept }
        ensures nine { length result.now ≤ 9 }
    {
        &self.lens[..self.count]
    }
}
