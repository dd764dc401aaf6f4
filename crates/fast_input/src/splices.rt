//! The arguments, registers and strings whose bytes were gathered.
ghost use Rattle.std.specs.Prelude.{◌≡◌, ℕ, List, ◌<◌, ◌≤◌, ◌++◌, ◌∷◌, [], length, slice_get, Some, None, IfSome};
ghost use Rattle.fast_input.specs.Gathering.{last_asked};

use nr_units::Name;
use std::marker::Model;

/// How many there may be.
pub(crate) const MOST: usize = 8;

/// An argument, a register or a string whose bytes were gathered.
#[derive(Clone, Copy)]
pub(crate) struct Splice {
    /// How many items of the newest level there are up to the end of its escape.
    pub(crate) afterwards: usize,
    /// How many bytes were gathered before its own.
    pub(crate) before: usize,
    /// How many bytes of its own were.
    pub(crate) count: usize,
    /// How many moves lead into a level of its bytes, besides those that the bytes before them are put in.
    pub(crate) moves: usize,
    /// The name that is asked for last then.
    pub(crate) asked: Name,
    /// Whether they are the text of that name.
    pub(crate) named: bool,
}

/// Those of one gathering, eight at most. Clauses see them as a list.
#[derive(Drop)]
pub(crate) struct Splices {
    all: [Splice; MOST],
    len: usize,
}

impl Model for Splices {
    ghost use Rattle.std.specs.Prelude.{◌≡◌, ◌≤◌, List, length, take};
    ghost use Rattle.fast_input.specs.declared.splices.Splice.{Splice};

    ghost Value = { List Splice };

    ghost view = { λ v. take v.len v.all };

    ghost invariant = { λ v. (v.len ≤ 8) × (length v.all ≡ 8) };
}

impl Splices {
    /// None.
    pub(crate) fn new() -> Splices
        ensures { result ≡ [] }
    {
        Splices {
            all: [Splice {
                afterwards: 0,
                before: 0,
                count: 0,
                moves: 0,
                asked: Name::new(),
                named: false,
            }; MOST],
            len: 0,
        }
    }

    /// None any more.
    #[inline(always)]
    pub(crate) fn clear(&mut self)
        ensures { self.new ≡ [] }
    {
        self.len = 0;
    }

    /// How many there are.
    #[inline(always)]
    pub(crate) fn len(&self) -> usize
        ensures value { result ≡ length self.now }
        ensures most { result ≤ 8 }
    {
        self.len
    }

    /// One more, after the others.
    #[inline(always)]
    pub(crate) fn push(&mut self, splice: Splice)
        requires { length self.old < 8 }
        ensures { self.new ≡ self.old ++ splice ∷ [] }
    {
        self.all[self.len] = splice;
        self.len += 1;
    }

    /// The n-th, counted from 0.
    #[inline(always)]
    pub(crate) fn at(&self, n: usize) -> Splice
        requires within { n < length self.now }
        requires few { n < 8 }
        ensures { slice_get self.now n ≡ Some result }
    {
        self.all[n]
    }

    /// The last.
    #[inline(always)]
    pub(crate) fn last(&self) -> Option<Splice>
        ensures some { IfSome result (λ splice. (name : List ℕ) → last_asked self.now name ≡ splice.asked) }
        ensures there { IfSome result (λ splice. 0 < length self.now) }
        ensures none { result ≡ None → self.now ≡ [] }
    {
        if self.len == 0 {
            return None;
        }
        Some(self.all[self.len - 1])
    }

    /// How many of the first have fewer bytes before their own than these.
    #[inline(always)]
    pub(crate) fn begun(&self, bytes: usize) -> usize
        ensures within { result ≤ length self.now }
        ensures most { result ≤ 8 }
        ensures begun { (n : ℕ) → n < result
            → IfSome (slice_get self.now n) (λ splice. splice.before < bytes) }
        ensures next { IfSome (slice_get self.now result) (λ splice. bytes ≤ splice.before) }
    {
        for n in 0..self.len {
            if bytes <= self.all[n].before {
                return n;
            }
        }
        self.len
    }
}
