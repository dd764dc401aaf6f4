//! The lines of requests in a stretch of items.
ghost use Rattle.std.specs.Prelude.{◌≡◌, ◌+◌, ◌-◌, ◌≤◌, length, true};
ghost use Rattle.nr_reading.specs.declared.mode.Mode.TheVariants as modes;
ghost use Rattle.nr_reading.specs.Half.{reads_next};
ghost use Rattle.nr_reading.specs.Many.Stretch.{TakesInRest};

use crate::event::Event;
use crate::half::Half;
use crate::many::runs::{Items, Run};
use crate::many::stretch::{byte_of, near};
use crate::mode::Mode;
use crate::spelled::is_blank;
use crate::step::Jot;

impl Half {
    /// The line of a request is taken in from its blanks on.
    #[inline(never)]
    pub(crate) fn take_in_request<I: Items>(&mut self, items: &I, run: &mut Run)
        requires mode { self.old.reading.mode ≡ modes.RequestBlanks }
        requires next { reads_next self.old ≡ true }
        ensures { TakesInRest (I.next_items items.now) 0 0 self.old run.new self.new }
    {
        let place = self.pass_first_blanks(items);
        let Some(byte) = byte_of(items, place) else {
            return self.take_in_rest(items, place, place, run);
        };
        if byte == b'\\' || is_blank(byte) {
            return self.take_in_escape(items, place, place, run);
        }
        self.reading.mode = Mode::RequestLine;
        self.notes.note(Jot::NewLine);
        self.take_in_arguments(items, place, place + 1, run)
    }

    /// It is taken in from its arguments on.
    #[inline(never)]
    pub(crate) fn take_in_arguments<I: Items>(
        &mut self,
        items: &I,
        from: usize,
        made: usize,
        run: &mut Run,
    )
        requires mode { self.old.reading.mode ≡ modes.RequestLine }
        requires next { reads_next self.old ≡ true }
        requires within { from ≤ length (I.next_items items.now) }
        requires few { made ≤ 32768 }
        ensures { TakesInRest (I.next_items items.now) from made self.old run.new self.new }
    {
        let end = near(items, from);
        for place in from..end {
            let moves = made + (place - from);
            let Some(byte) = items.byte(place) else {
                return self.take_in_rest(items, place, moves, run);
            };
            if byte == b'\\' {
                return self.take_in_escape(items, place, moves, run);
            }
            if byte == b'\n' {
                self.reading.mode = Mode::Start;
                *run = Run {
                    taken: place + 1,
                    moves: moves + 1,
                    event: Event::Request,
                };
                return;
            }
            self.notes.note(Jot::Line(byte));
        }
        self.take_in_rest(items, end, made + (end - from), run)
    }
}
