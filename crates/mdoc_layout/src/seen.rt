//! What a step comes to.
ghost use Rattle.std.specs.Prelude.{◌≡◌};
ghost use Rattle.mdoc_layout.specs.Seeing as specs;

use super::acts::{Act, Stack};

/// What a byte does.
#[derive(Clone, Copy)]
pub struct Seen {
    /// What goes out first.
    pub first: Act,
    /// Then.
    pub second: Act,
    /// And then.
    pub third: Act,
    /// What becomes of the open blocks.
    pub stack: Stack,
    /// The byte is taken: one that is left is offered again.
    pub takes: bool,
}

impl Seen {
    /// The byte is left, and three things are said.
    pub fn three(first: Act, second: Act, third: Act) -> Seen
        ensures { result ≡ specs.three first second third }
    {
        Seen {
            first,
            second,
            third,
            stack: Stack::Stay,
            takes: false,
        }
    }

    /// The byte is left, and two things are said.
    pub fn two(first: Act, second: Act) -> Seen
        ensures { result ≡ specs.two first second }
    {
        Seen::three(first, second, Act::Nothing)
    }

    /// The byte is left.
    pub fn left(act: Act) -> Seen
        ensures { result ≡ specs.left act }
    {
        Seen::three(act, Act::Nothing, Act::Nothing)
    }

    /// The byte is taken.
    pub fn taken(act: Act) -> Seen
        ensures { result ≡ specs.taken act }
    {
        Seen::left(act).and_taken()
    }

    /// The byte is taken too.
    pub fn and_taken(self) -> Seen
        ensures { result ≡ specs.and_taken self }
    {
        let mut seen = self;
        seen.takes = true;
        seen
    }

    /// A block opens or closes.
    pub fn with(self, stack: Stack) -> Seen
        ensures { result ≡ specs.with_stack stack self }
    {
        let mut seen = self;
        seen.stack = stack;
        seen
    }
}
