//! Tab stops.
use std::marker::Model;

/// The greatest number of stops.
const MOST: usize = 32;

/// Where text stands at a stop.
#[derive(Clone, Copy)]
pub enum StopKind {
    /// After it.
    Left,
    /// Before it.
    Right,
    /// At either side.
    Centre,
}

/// A tab stop at a column, in characters from the line's indent.
#[derive(Clone, Copy)]
pub struct Stop {
    pub column: u32,
    pub kind: StopKind,
}

/// At most 32 tab stops. Clauses see them as a list.
#[derive(Drop)]
pub struct Stops {
    places: [Stop; MOST],
    count: usize,
}

impl Model for Stops {
    ghost use Rattle.std.specs.Prelude.{List, take};
    ghost use Rattle.nr_settings.specs.declared.stops.Stop.{Stop};

    ghost Value = { List Stop };

    ghost use Rattle.nr_settings.specs.Stops.{AreStops};

    ghost view = { λ s. take s.count s.places };

    ghost invariant = { λ s. AreStops s.places s.count };
}

impl Stops {
    ghost use Rattle.std.specs.Prelude.{◌≡◌, ◌<◌, ◌≤◌, ◌∷◌, ◌++◌, [], length, nat_le};

    /// Takes the stops of another.
    pub fn copy_from(&mut self, other: &Stops)
        ensures { self.new ≡ other.now }
    {
        self.places = other.places;
        self.count = other.count;
    }

    /// No stops.
    pub fn new() -> Self
        ensures { result ≡ [] }
    {
        Stops {
            places: [Stop {
                column: 0,
                kind: StopKind::Left,
            }; MOST],
            count: 0,
        }
    }

    /// Whether there are 32.
    pub fn is_full(&self) -> bool
        ensures value { result ≡ nat_le 32 (length self.now) }
        ensures most { length self.now ≤ 32 }
    {
        self.count >= MOST
    }

    /// Adds a stop at the end.
    pub fn push(&mut self, stop: Stop)
        requires { length self.old < 32 }
        ensures { self.new ≡ self.old ++ stop ∷ [] }
    {
        self.places[self.count] = stop;
        self.count += 1;
    }

    /// The stops.
    #[inline]
    pub fn as_slice(&self) -> &[Stop]
        ensures value { result.now ≡ self.now }
        ensures most { length result.now ≤ 32 }
    {
        &self.places[..self.count]
    }
}
