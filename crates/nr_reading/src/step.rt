//! What comes of an item.
ghost use Rattle.std.specs.Prelude.{◌≡◌};
ghost use Rattle.std.specs.Prelude.{true, false};
ghost use Rattle.nr_reading.specs.declared.step.Jot.TheVariants as jots;
ghost use Rattle.nr_reading.specs.declared.event.Event.TheVariants as events;

use super::ask::Begun;
use super::event::Event;

/// What is noted beside an item.
#[derive(Clone, Copy)]
pub(crate) enum Jot {
    /// Nothing.
    Nothing,
    /// A name begins.
    NewName,
    /// A byte of it.
    Name(u8),
    /// A line or a number begins of which the first bytes count.
    NewLine,
    /// A byte of it.
    Line(u8),
    /// A condition is negated.
    Negated,
    /// The strings of a condition begin.
    Strings,
    /// A byte of the first.
    First(u8),
    /// A byte of the second.
    Second(u8),
    /// An escape whose argument is still to be read.
    Begin(Begun),
}

/// What comes of an item, beside where the reader is then.
#[derive(Clone, Copy)]
pub(crate) struct Said {
    /// What is noted beside.
    pub(crate) note: Jot,
    /// What is emitted.
    pub(crate) event: Event,
    /// The item is taken.
    pub(crate) takes: bool,
}

/// The item is taken.
#[inline(always)]
pub(crate) fn go() -> Said
    ensures { result ≡ record { note = jots.Nothing; event = events.Nothing; takes = true } }
{
    noting(Jot::Nothing)
}

/// The item is left to another mode.
#[inline(always)]
pub(crate) fn leave() -> Said
    ensures { result ≡ record { note = jots.Nothing; event = events.Nothing; takes = false } }
{
    leave_noting(Jot::Nothing)
}

/// The item is taken, and this is emitted.
#[inline(always)]
pub(crate) fn tell(event: Event) -> Said
    ensures { result ≡ record { note = jots.Nothing; event = event; takes = true } }
{
    Said {
        note: Jot::Nothing,
        event,
        takes: true,
    }
}

/// The item is taken, and this is noted.
#[inline(always)]
pub(crate) fn noting(what: Jot) -> Said
    ensures { result ≡ record { note = what; event = events.Nothing; takes = true } }
{
    Said {
        note: what,
        event: Event::Nothing,
        takes: true,
    }
}

/// The item is left, and this is emitted.
#[inline(always)]
pub(crate) fn leave_telling(event: Event) -> Said
    ensures { result ≡ record { note = jots.Nothing; event = event; takes = false } }
{
    Said {
        note: Jot::Nothing,
        event,
        takes: false,
    }
}

/// The item is left, and this is noted.
#[inline(always)]
pub(crate) fn leave_noting(what: Jot) -> Said
    ensures { result ≡ record { note = what; event = events.Nothing; takes = false } }
{
    Said {
        note: what,
        event: Event::Nothing,
        takes: false,
    }
}
