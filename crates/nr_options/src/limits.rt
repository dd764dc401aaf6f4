//! The limits under which a text is formatted.
ghost use Rattle.std.specs.Prelude.{◌≡◌, ◌^◌, ◌≤◌, ◌↔◌, IsTrue, IsSome, IfSome};
ghost use Rattle.nr_options.specs.Limits.{AreLimits, IsInRange, with_bound};

use std::marker::Model;

/// One of the limits.
#[derive(Clone, Copy)]
pub enum Limit {
    /// The bytes stored: texts under names, registers, traps, open levels. 64 to 2^24.
    Stored,
    /// The depth of the input: open levels. 1 to 4096.
    Depth,
    /// The cells of a line, and those of a page. 1 to 2^24.
    Cells,
    /// The expansions between two bytes of the input. 1 to 2^32.
    Expansions,
    /// All moves of a run. 64 to 2^64 - 1.
    Moves,
}

impl Limit {
    /// Whether the limit may be set to the number.
    pub fn admits(self, number: u64) -> bool
        ensures { IsTrue result ↔ IsInRange self number }
    {
        match self {
            Limit::Stored => (64..=1 << 24).contains(&number),
            Limit::Depth => (1..=4096).contains(&number),
            Limit::Cells => (1..=1 << 24).contains(&number),
            Limit::Expansions => (1..=1 << 32).contains(&number),
            Limit::Moves => (64..=u64::MAX).contains(&number),
        }
    }
}

/// How much a text may cost: the bytes stored, the depth of the input, the cells of a line and of a
/// page, the expansions between two bytes of the input, and all moves.
#[derive(Clone, Copy)]
pub struct Limits {
    stored: u64,
    depth: u64,
    cells: u64,
    expansions: u64,
    moves: u64,
}

impl Model for Limits {
    ghost use Rattle.nr_options.specs.Limits.{Bounds, AreLimits};

    ghost Value = { Bounds };

    ghost view = { λ l. record {
      stored = l.stored;
      depth = l.depth;
      cells = l.cells;
      expansions = l.expansions;
      moves = l.moves;
    } };

    ghost inverse = { λ b. record {
      stored = b.stored;
      depth = b.depth;
      cells = b.cells;
      expansions = b.expansions;
      moves = b.moves;
    } };

    ghost invariant = { λ l. AreLimits (record {
      stored = l.stored;
      depth = l.depth;
      cells = l.cells;
      expansions = l.expansions;
      moves = l.moves;
    }) };
}

impl Limits {
    /// None outside the ranges: 64 to 2^24 stored bytes, a depth of 1 to 4096, 1 to 2^24 cells, 1 to
    /// 2^32 expansions, 64 to 2^64 - 1 moves.
    ///
    /// Proved: Limits are made exactly where each lies in its range. (`Limits::new`, `Limit::admits`)
    pub fn new(stored: u64, depth: u64, cells: u64, expansions: u64, moves: u64) -> Option<Limits>
        ensures ranges { IsSome result ↔ AreLimits (record {
          stored = stored;
          depth = depth;
          cells = cells;
          expansions = expansions;
          moves = moves;
        }) }
        ensures value { IfSome result (λ limits. limits ≡ record {
          stored = stored;
          depth = depth;
          cells = cells;
          expansions = expansions;
          moves = moves;
        }) }
    {
        let good = Limit::Stored.admits(stored)
            && Limit::Depth.admits(depth)
            && Limit::Cells.admits(cells)
            && Limit::Expansions.admits(expansions)
            && Limit::Moves.admits(moves);
        if !good {
            return None;
        }
        Some(Limits {
            stored,
            depth,
            cells,
            expansions,
            moves,
        })
    }

    /// Sets one limit; the others stay.
    ///
    /// Proved: One limit is set and the others stay.
    pub fn set(&mut self, limit: Limit, number: u64)
        requires { IsInRange limit number }
        ensures { self.new ≡ with_bound limit number self.old }
    {
        match limit {
            Limit::Stored => self.stored = number,
            Limit::Depth => self.depth = number,
            Limit::Cells => self.cells = number,
            Limit::Expansions => self.expansions = number,
            Limit::Moves => self.moves = number,
        }
    }

    /// The most bytes that may be stored.
    pub fn stored(&self) -> usize
        ensures value { result ≡ self.now.stored }
        ensures within { result ≤ 2 ^ 24 }
    {
        self.stored as usize
    }

    /// The most levels of the input that may be open.
    pub fn depth(&self) -> usize
        ensures value { result ≡ self.now.depth }
        ensures within { result ≤ 4096 }
    {
        self.depth as usize
    }

    /// The most that the cells of a line, and of a page, may come to.
    pub fn cells(&self) -> usize
        ensures value { result ≡ self.now.cells }
        ensures within { result ≤ 2 ^ 24 }
    {
        self.cells as usize
    }

    /// The most expansions between two bytes of the input.
    pub fn expansions(&self) -> u64
        ensures value { result ≡ self.now.expansions }
        ensures within { result ≤ 2 ^ 32 }
    {
        self.expansions
    }

    /// The most moves that a run may make.
    pub fn moves(&self) -> u64
        ensures value { result ≡ self.now.moves }
        ensures least { 64 ≤ result }
    {
        self.moves
    }
}

/// The limits where none are given: 262144 stored bytes, a depth of 256, 65536 cells, 1000000
/// expansions, and 2^64 - 1 moves, which take thousands of years.
impl Default for Limits {
    ghost use Rattle.std.specs.Prelude.{◌≡◌};
    ghost use Rattle.nr_options.specs.Limits.{default_bounds};

    ghost is_default = { λ limits. limits ≡ default_bounds };

    /// Proved: The limits where none is given are the manual's.
    fn default() -> Self {
        Limits {
            stored: 262_144,
            depth: 256,
            cells: 65_536,
            expansions: 1_000_000,
            moves: u64::MAX,
        }
    }
}
