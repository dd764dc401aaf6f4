//! The name of a control line, taken in at once.
ghost use Rattle.std.specs.Prelude.{◌≡◌, ◌+◌, ◌<◌, ◌≤◌, ℕ, length, None, IfSome, true};
ghost use Rattle.nr_reading.specs.declared.mode.PendingAct.TheVariants as pending_acts;
ghost use Rattle.nr_reading.specs.Many.ControlNames.{IsSign, NameEnds, goes_on_name, after_name};
ghost use Rattle.nr_reading.specs.declared.mode.Mode.TheVariants as modes;
ghost use Rattle.nr_reading.specs.Half.{reads_next};
ghost use Rattle.nr_reading.specs.Many.Passing.{quiet};
ghost use Rattle.nr_reading.specs.Many.Stretch.{LeadsOn};
ghost use Rattle.nr_reading.specs.Many.Runs.{HasTakenIn};
ghost use Rattle.nr_reading.specs.Spelled.{nothing_spelled, spelled};

use crate::half::Half;
use crate::many::runs::Items;
use crate::many::stretch::byte_of;
use crate::mode::{Mode, PendingAct};
use crate::spelled::{Spelled, ends_name};

/// The name of a control line that was taken in, and is to be looked up.
#[derive(Clone, Copy)]
pub struct TakenInName {
    /// How many items were taken: the control character and the bytes of the name.
    pub taken: usize,
    /// How many moves that was.
    pub moves: usize,
}

// The byte goes on a name, and begins no escape.
#[inline(always)]
pub(crate) fn goes_on_name(byte: u8) -> bool
    ensures { result ≡ goes_on_name byte }
{
    !(ends_name(byte) || byte == b'\\')
}

/// Whether a byte that ends a name stands at a place of a stretch.
#[inline(always)]
pub(crate) fn name_ends<I: Items>(items: &I, place: usize) -> bool
    ensures { result ≡ true → NameEnds (I.next_items items.now) place }
{
    match byte_of(items, place) {
        Some(byte) => ends_name(byte),
        None => false,
    }
}

impl Half {
    // Where the byte is a control character, whether it is the no-break one.
    #[inline(always)]
    fn sign_of(&self, byte: u8) -> Option<bool>
        ensures { IfSome result (λ no_break. IsSign byte no_break self.now.signs) }
    {
        if byte == self.signs.control {
            return Some(false);
        }
        if byte == self.signs.no_break {
            return Some(true);
        }
        None
    }

    // After a name of one byte in a control line, which is to be looked up.
    #[inline(always)]
    fn take_name(&mut self, no_break: bool, first: u8)
        ensures { self.new ≡ after_name no_break (spelled first nothing_spelled) self.old }
    {
        self.reading.mode = Mode::Name;
        self.reading.pending_act = PendingAct::Seek;
        self.reading.no_break = no_break;
        self.notes.name = Spelled::new();
        self.notes.name.push(first);
    }

    // A control character and a name of one byte or two after it are taken in, where they come at this place of a stretch. None where they
    // don't, and where a byte that ends the name would have to follow and does not.
    #[inline(always)]
    pub(crate) fn take_in_name_at<I: Items>(
        &mut self,
        items: &I,
        place: usize,
    ) -> Option<TakenInName>
        requires mode { self.old.reading.mode ≡ modes.Start }
        requires next { reads_next self.old ≡ true }
        ensures taken_in { IfSome result (λ name. (n : ℕ)
            → LeadsOn (I.next_items items.now) place n self.old (place + name.taken) (n + name.moves) self.new) }
        ensures pending_act { IfSome result (λ name. self.new.reading.pending_act ≡ pending_acts.Seek) }
        ensures some { IfSome result (λ name. 0 < name.taken) }
        ensures short { IfSome result (λ name. name.taken ≤ 3) }
        ensures few { IfSome result (λ name. name.moves ≤ 5) }
        ensures within { IfSome result (λ name. place + name.taken ≤ length (I.next_items items.now)) }
        ensures left { result ≡ None → self.new ≡ self.old }
    {
        if items.count() < 3 || place > items.count() - 3 {
            return None;
        }
        let Some(sign) = items.byte(place) else {
            return None;
        };
        let Some(no_break) = self.sign_of(sign) else {
            return None;
        };
        let Some(first) = items.byte(place + 1) else {
            return None;
        };
        let Some(second) = items.byte(place + 2) else {
            return None;
        };
        if !goes_on_name(first) || second == b'\\' {
            return None;
        }
        if ends_name(second) {
            self.take_name(no_break, first);
            return Some(TakenInName { taken: 2, moves: 4 });
        }
        let long = self.signs.long;
        if long && !name_ends(items, place + 3) {
            return None;
        }
        self.take_name(no_break, first);
        self.notes.name.push(second);
        Some(TakenInName {
            taken: 3,
            moves: 4 + usize::from(long),
        })
    }

    /// A control character at a line's beginning and a name of one byte or two after it are taken in, where they come first in a stretch.
    /// None where they don't; where names are long, or the name has one byte, the byte that ends it must be there too, and is left.
    ///
    /// Proved: A control character with a name of one byte or two, whether names are long or not, and the line of a
    /// request with its newline, are taken in by one call as one by one. (`Half::take_in_name`; `Half::take_in_request_line` in
    /// many/request_lines.rt)
    #[inline(always)]
    pub fn take_in_name<I: Items>(&mut self, items: &I) -> Option<TakenInName>
        requires pending_act { self.old.reading.pending_act ≡ pending_acts.Look }
        ensures taken_in { IfSome result (λ name. HasTakenIn name.moves (I.next_items items.now) self.old
            (quiet name.taken self.new)) }
        ensures pending_act { IfSome result (λ name. self.new.reading.pending_act ≡ pending_acts.Seek) }
        ensures some { IfSome result (λ name. 0 < name.taken) }
        ensures short { IfSome result (λ name. name.taken ≤ 3) }
        ensures few { IfSome result (λ name. name.moves ≤ 5) }
        ensures left { result ≡ None → self.new ≡ self.old }
    {
        if !matches!(self.reading.mode, Mode::Start) || !self.reads_plainly() {
            return None;
        }
        self.take_in_name_at(items, 0)
    }
}
