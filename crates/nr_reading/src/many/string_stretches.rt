//! The definitions of strings in a stretch of items.
ghost use Rattle.std.specs.Prelude.{◌≡◌, ◌+◌, ◌≤◌, length, true};
ghost use Rattle.nr_reading.specs.declared.mode.Mode.TheVariants as modes;
ghost use Rattle.nr_reading.specs.Half.{reads_next};
ghost use Rattle.nr_reading.specs.Many.Stretch.{TakesInRest};
ghost use Rattle.nr_reading.specs.Many.StringStretches.{after_name};

use crate::event::Event;
use crate::half::Half;
use crate::many::control_names::{goes_on_name, name_ends};
use crate::many::runs::{Items, Run};
use crate::many::stretch::{byte_of, near};
use crate::mode::{Mode, PendingAct};
use crate::spelled::{Spelled, ends_name, is_blank};

impl Half {
    // After a string's name.
    #[inline(always)]
    fn take_string_name(&mut self, name: Spelled)
        ensures { self.new ≡ after_name name self.old }
    {
        self.notes.name = name;
        self.reading.mode = Mode::StringBlanks;
    }

    /// The definition of a string is taken in from the blanks before its name on.
    #[inline(never)]
    pub(crate) fn take_in_string<I: Items>(&mut self, items: &I, run: &mut Run)
        requires mode { self.old.reading.mode ≡ modes.StringBefore }
        requires next { reads_next self.old ≡ true }
        ensures { TakesInRest (I.next_items items.now) 0 0 self.old run.new self.new }
    {
        let place = self.pass_first_blanks(items);
        let Some(first) = byte_of(items, place) else {
            return self.take_in_rest(items, place, place, run);
        };
        if !goes_on_name(first) {
            return self.take_in_escape(items, place, place, run);
        }
        let Some(second) = byte_of(items, place + 1) else {
            return self.take_in_more(items, place, place, run);
        };
        if second == b'\\' {
            return self.take_in_more(items, place, place, run);
        }
        let lone = Spelled::new().with(first);
        if ends_name(second) {
            self.take_string_name(lone);
            return self.take_in_string_blanks(items, place + 1, place + 3, run);
        }
        let long = self.signs.long;
        if long && !name_ends(items, place + 2) {
            return self.take_in_more(items, place, place, run);
        }
        self.take_string_name(lone.with(second));
        self.take_in_string_blanks(items, place + 2, place + 3 + usize::from(long), run)
    }

    /// It is taken in from the blanks before its text on.
    #[inline(never)]
    pub(crate) fn take_in_string_blanks<I: Items>(
        &mut self,
        items: &I,
        from: usize,
        made: usize,
        run: &mut Run,
    )
        requires mode { self.old.reading.mode ≡ modes.StringBlanks }
        requires next { reads_next self.old ≡ true }
        requires within { from ≤ length (I.next_items items.now) }
        requires few { made ≤ 16384 }
        ensures { TakesInRest (I.next_items items.now) from made self.old run.new self.new }
    {
        let place = self.pass_blanks(items, from, near(items, from));
        let moves = made + (place - from);
        let Some(byte) = byte_of(items, place) else {
            return self.take_in_rest(items, place, moves, run);
        };
        if byte == b'\\' || is_blank(byte) {
            return self.take_in_escape(items, place, moves, run);
        }
        self.reading.mode = Mode::StringText;
        self.reading.pending_act = PendingAct::Begin;
        if byte == b'"' {
            *run = Run {
                taken: place + 1,
                moves: moves + 1,
                event: Event::Nothing,
            };
            return;
        }
        *run = Run {
            taken: place,
            moves: moves + 1,
            event: Event::Nothing,
        };
    }

    /// A byte of its text is taken in, or the newline.
    #[inline(never)]
    pub(crate) fn take_in_string_text<I: Items>(&mut self, items: &I, run: &mut Run)
        requires mode { self.old.reading.mode ≡ modes.StringText }
        requires next { reads_next self.old ≡ true }
        ensures { TakesInRest (I.next_items items.now) 0 0 self.old run.new self.new }
    {
        let Some(byte) = byte_of(items, 0) else {
            return self.take_in_rest(items, 0, 0, run);
        };
        if byte == b'\\' {
            return self.take_in_escape(items, 0, 0, run);
        }
        if byte == b'\n' {
            self.reading.mode = Mode::Start;
            self.reading.pending_act = PendingAct::Define;
            *run = Run {
                taken: 1,
                moves: 1,
                event: Event::Nothing,
            };
            return;
        }
        self.reading.pending_act = PendingAct::Add(byte);
        *run = Run {
            taken: 1,
            moves: 1,
            event: Event::Nothing,
        };
    }
}
