//! What is kept of a level.
ghost use Rattle.std.specs.Prelude.{◌≡◌, ◌+◌, ◌-◌, ◌≤◌};

use nr_pool::Id;

/// A part of a row, from `first` up to `last`.
#[derive(Clone, Copy, Drop)]
pub struct Span {
    pub(crate) first: u32,
    pub(crate) last: u32,
}

impl Span {
    // Without so many of its first places.
    pub(crate) fn afterwards(self, n: u32) -> Span
        requires { n ≤ self.last - self.first }
        ensures { result ≡ record self { first = self.first + n } }
    {
        Span {
            first: self.first + n,
            last: self.last,
        }
    }
}

// What a level reads, and how far it has come.
#[derive(Clone, Copy, Drop)]
pub(crate) enum Reads {
    // A text of a pool, from this place on.
    Text(Id, u32),
    // A part of the bytes that the levels keep.
    Own(Span),
    // Nothing: its end was taken, and its mode is still to be resumed.
    Mark,
}

impl Reads {
    ghost use Rattle.nr_levels.specs.Moving.{gone_on, MayGoOn};

    // So many elements further on.
    #[inline]
    pub(crate) fn go_on(&mut self, n: u32)
        requires { MayGoOn n self.old }
        ensures { self.new ≡ gone_on n self.old }
    {
        match self {
            Reads::Text(_, place) => *place += n,
            Reads::Own(span) => *span = span.afterwards(n),
            Reads::Mark => {}
        }
    }
}

/// A level, but for the mode that is resumed after its end: the levels keep it.
//
// The arguments in force before it are a part of the row of places, and below `height` lie the bytes that were kept
// before it.
#[derive(Clone, Copy, Drop)]
pub struct Frame {
    pub(crate) reads: Reads,
    pub(crate) old: Span,
    pub(crate) charge: u32,
    pub(crate) height: u32,
    // Whether one of the modes that are kept is its own.
    pub(crate) has_mode: bool,
}

/// What the newest level gives next, a mode left where it lies.
#[derive(Clone, Copy, Drop)]
pub enum Next {
    /// There is no level.
    Nothing,
    /// What a text has at a place, or the end where it has no more.
    Text(Id, u32),
    /// A byte.
    Byte(u8),
    /// The level's end.
    End,
    /// The mode that is resumed after a level whose end was taken.
    Resume,
}

/// What the newest level gives next.
#[derive(Clone, Copy, Drop)]
pub enum NextItem<K> {
    /// What a text has at a place, or the end where it has no more.
    Text(Id, u32),
    /// A byte.
    Byte(u8),
    /// The level's end.
    End,
    /// The mode that is resumed after a level whose end was taken.
    Resume(K),
}

/// What is left of a level.
#[derive(Clone, Copy)]
pub enum Rest<'s> {
    /// What a text has from a place on.
    Text(Id, u32),
    /// These bytes.
    Bytes(&'s [u8]),
}
