//! Bytes that are taken in many at once.
ghost use Rattle.std.specs.Prelude.{◌≡◌, ◌≤◌, ◌+◌, ◌-◌, ℕ, length, true};
ghost use Rattle.nr_reading.specs.declared.mode.PendingAct.TheVariants as pending_acts;
ghost use Rattle.nr_reading.specs.Many.Passing.{GoesOn, is_plain, drops_plain, passes_plain};
ghost use Rattle.nr_reading.specs.Many.Stretch.{LeadsOn};

use crate::half::Half;
use crate::many::runs::Items;
use crate::mode::{Escape, Mode};
use crate::notes::Defining;

// The byte begins no escape, and ends no line.
#[inline(always)]
pub(crate) fn is_plain(byte: u8) -> bool
    ensures { result ≡ is_plain byte }
{
    !(byte == b'\\' || byte == b'\n')
}

impl Mode {
    // Such a byte does nothing.
    fn drops_plain(self, defining: &Defining) -> bool
        ensures { result ≡ drops_plain self defining.now }
    {
        match self {
            Mode::Skip(_) | Mode::Drop | Mode::TitleRest | Mode::BodyEnd => true,
            Mode::Body => !defining.keeps,
            _ => false,
        }
    }
}

impl Half {
    // Such bytes do nothing.
    #[inline(always)]
    fn passes_plain(&self) -> bool
        ensures { result ≡ passes_plain self.now }
    {
        if !self.asks.is_empty() {
            return false;
        }
        match self.reading.escape {
            Escape::Plain => self.reading.mode.drops_plain(&self.notes.defining),
            Escape::Begun => false,
            Escape::Comment => true,
        }
    }

    // Bytes that do nothing are passed over, so many at most. The result is how many.
    #[inline(never)]
    fn pass_plain<I: Items>(&self, items: &I, most: usize) -> usize
        requires passes { passes_plain self.now ≡ true }
        requires pending_act { self.now.reading.pending_act ≡ pending_acts.Look }
        requires within { most ≤ length (I.next_items items.now) }
        ensures goes { GoesOn (I.next_items items.now) result self.now self.now }
        ensures within { result ≤ most }
    {
        for place in 0..most {
            match items.byte(place) {
                Some(byte) if is_plain(byte) => {}
                _ => return place,
            }
        }
        most
    }

    // Whether a comment is being read.
    #[inline(always)]
    fn is_in_comment(&self) -> bool
        ensures { result ≡ true → passes_plain self.now ≡ true }
    {
        match self.reading.escape {
            Escape::Comment => self.asks.is_empty(),
            Escape::Plain | Escape::Begun => false,
        }
    }

    // Bytes that do nothing are passed over from one place of a stretch on, before another. The result is where they end.
    #[inline(never)]
    fn pass_between<I: Items>(&self, items: &I, from: usize, to: usize) -> usize
        requires passes { passes_plain self.now ≡ true }
        requires pending_act { self.now.reading.pending_act ≡ pending_acts.Look }
        requires prefix { from ≤ to }
        requires within { to ≤ length (I.next_items items.now) }
        ensures leads { (n : ℕ)
            → LeadsOn (I.next_items items.now) from n self.now result (n + (result - from)) self.now }
        ensures prefix { from ≤ result }
        ensures within { result ≤ to }
    {
        for place in from..to {
            match items.byte(place) {
                Some(byte) if is_plain(byte) => {}
                _ => return place,
            }
        }
        to
    }

    /// The bytes of a comment are passed over from a place of a stretch on, so many at most. The result is where they end: there, where
    /// no comment is being read.
    #[inline(always)]
    pub(crate) fn pass_comment<I: Items>(&self, items: &I, from: usize, most: usize) -> usize
        requires pending_act { self.now.reading.pending_act ≡ pending_acts.Look }
        requires within { from ≤ length (I.next_items items.now) }
        ensures leads { (n : ℕ)
            → LeadsOn (I.next_items items.now) from n self.now result (n + (result - from)) self.now }
        ensures prefix { from ≤ result }
        ensures most { result ≤ from + most }
    {
        if !self.is_in_comment() {
            return from;
        }
        let count = most.min(items.count() - from);
        self.pass_between(items, from, from + count)
    }

    /// Bytes that do nothing are passed over from the beginning of a stretch on, so many at most. The result is how many.
    #[inline(always)]
    pub(crate) fn take_in_plain<I: Items>(&self, items: &I, room: usize) -> usize
        requires pending_act { self.now.reading.pending_act ≡ pending_acts.Look }
        ensures goes { GoesOn (I.next_items items.now) result self.now self.now }
        ensures within { result ≤ length (I.next_items items.now) }
        ensures room { result ≤ room }
    {
        if self.passes_plain() {
            return self.pass_plain(items, room.min(items.count()));
        }
        0
    }
}
