//! The escapes whose arguments are half read.
ghost use Rattle.std.specs.Prelude.{◌≡◌, ◌<◌, ◌≤◌, [], ◌∷◌, length, drop, slice_get, count_by, nat_lt, if◌then◌else◌};
ghost use Rattle.std.specs.Option.{option_map};
ghost use Rattle.nr_reading.specs.Nesting.{pushed, counted, is_none};

use super::ask::{Ask, Kind};
use std::marker::Model;

/// How many may be half read at once.
const MOST: usize = 10;

/// The escapes whose arguments are half read. Clauses see the newest first.
#[derive(Drop)]
pub struct Asks {
    asks: [Ask; MOST],
    len: usize,
}

impl Model for Asks {
    ghost use Rattle.std.specs.Prelude.{◌≡◌, ◌≤◌, List, length, take, reverse};
    ghost use Rattle.nr_reading.specs.declared.ask.Ask.{Ask};

    ghost Value = { List Ask };

    ghost view = { λ v. reverse (take v.len v.asks) };

    ghost invariant = { λ v. (v.len ≤ 10) × (length v.asks ≡ 10) };
}

impl Asks {
    /// None is half read.
    pub(crate) fn new() -> Asks
        ensures { result ≡ [] }
    {
        Asks {
            asks: [Ask::begun(Kind::Size); MOST],
            len: 0,
        }
    }

    /// Takes those of another.
    pub(crate) fn copy_from(&mut self, other: &Asks)
        ensures { self.new ≡ other.now }
    {
        for place in 0..MOST {
            self.asks[place] = other.asks[place];
        }
        self.len = other.len;
    }

    /// Whether none is half read.
    pub fn is_empty(&self) -> bool
        ensures { result ≡ is_none self.now }
    {
        self.len == 0
    }

    /// How many count as names in which interpolations nest.
    pub(crate) fn counted(&self) -> usize
        ensures value { result ≡ counted self.now }
        ensures within { result ≤ 10 }
    {
        self.asks[..self.len]
            .iter()
            .rev()
            .filter(|ask| ask.kind.counts())
            .count()
    }

    /// The newest.
    pub(crate) fn newest(&self) -> Option<Ask>
        ensures { result ≡ slice_get self.now 0 }
    {
        if self.len == 0 {
            return None;
        }
        Some(self.asks[self.len - 1])
    }

    /// What the newest asks for.
    #[inline]
    pub(crate) fn newest_kind(&self) -> Option<Kind>
        ensures { result ≡ option_map (λ (a : Ask). a.kind) (slice_get self.now 0) }
    {
        if self.len == 0 {
            return None;
        }
        Some(self.asks[self.len - 1].kind)
    }

    /// Another begins.
    pub(crate) fn push(&mut self, ask: Ask)
        ensures { self.new ≡ pushed ask self.old }
    {
        if self.len < MOST {
            self.asks[self.len] = ask;
            self.len += 1;
        }
    }

    /// Puts another in place of the newest.
    pub(crate) fn set_newest(&mut self, ask: Ask)
        requires { 0 < length self.old }
        ensures { self.new ≡ ask ∷ drop 1 self.old }
    {
        self.asks[self.len - 1] = ask;
    }

    /// Takes the newest away.
    pub(crate) fn pop(&mut self)
        requires { 0 < length self.old }
        ensures { self.new ≡ drop 1 self.old }
    {
        self.len -= 1;
    }

    /// Forgets all.
    pub(crate) fn clear(&mut self)
        ensures { self.new ≡ [] }
    {
        self.len = 0;
    }
}
