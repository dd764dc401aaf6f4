//! Conditions in a stretch of items.
ghost use Rattle.std.specs.Prelude.{◌≡◌, ◌+◌, ◌≤◌, length, true};
ghost use Rattle.nr_reading.specs.declared.mode.Mode.TheVariants as modes;
ghost use Rattle.nr_reading.specs.Many.ConditionStretches.{delimits, ends_number, is_digit_or_relation};
ghost use Rattle.nr_reading.specs.Half.{reads_next};
ghost use Rattle.nr_reading.specs.Many.Stretch.{TakesInRest};

use crate::conditions::{begins_number, parentheses};
use crate::event::{Event, Question};
use crate::half::Half;
use crate::many::passing::is_plain;
use crate::many::runs::{Items, Run};
use crate::many::stretch::{byte_of, near};
use crate::mode::{Mode, PendingAct};
use crate::spelled::is_blank;
use crate::step::Jot;

// The byte, where it comes first in a condition, delimits two strings.
#[inline(always)]
fn delimits(byte: u8) -> bool
    ensures { result ≡ delimits byte }
{
    is_plain(byte)
        && !(is_blank(byte)
            || byte == b'!'
            || byte == b'o'
            || byte == b'e'
            || byte == b't'
            || byte == b'n')
}

/// A number ends before the byte, where so many parentheses are open.
#[inline(always)]
pub(crate) fn ends_number(byte: u8, depth: u64) -> bool
    ensures { result ≡ ends_number byte depth }
{
    byte == b'\n' || (depth == 0 && (is_blank(byte) || byte == b'\\'))
}

// The byte is a digit, or one of `:;<=>`: it ends no number, begins no escape, and is no parenthesis.
#[inline(always)]
fn is_digit_or_relation(byte: u8) -> bool
    ensures { result ≡ is_digit_or_relation byte }
{
    byte >= b'0' && byte <= b'>'
}

impl Half {
    /// A condition is taken in from its blanks on.
    #[inline(never)]
    pub(crate) fn take_in_condition<I: Items>(&mut self, items: &I, run: &mut Run)
        requires mode { self.old.reading.mode ≡ modes.Condition }
        requires next { reads_next self.old ≡ true }
        ensures { TakesInRest (I.next_items items.now) 0 0 self.old run.new self.new }
    {
        if self.notes.condition.negated {
            return self.take_in_question(items, 0, 0, run);
        }
        let place = self.pass_first_blanks(items);
        if let Some(b'!') = byte_of(items, place) {
            self.notes.note(Jot::Negated);
            return self.take_in_question(items, place + 1, place + 1, run);
        }
        self.take_in_question(items, place, place, run)
    }

    // A condition is taken in from its first byte on.
    #[inline(never)]
    fn take_in_question<I: Items>(&mut self, items: &I, from: usize, made: usize, run: &mut Run)
        requires mode { self.old.reading.mode ≡ modes.Condition }
        requires next { reads_next self.old ≡ true }
        requires few { made ≤ 16384 }
        ensures { TakesInRest (I.next_items items.now) from made self.old run.new self.new }
    {
        let Some(byte) = byte_of(items, from) else {
            return self.take_in_rest(items, from, made, run);
        };
        if begins_number(byte) {
            self.reading.mode = Mode::Number(0);
            self.notes.note(Jot::NewLine);
            return self.take_in_tested(items, from, made + 1, 0, run);
        }
        if !delimits(byte) {
            return self.take_in_escape(items, from, made, run);
        }
        self.reading.mode = Mode::First(byte);
        self.notes.note(Jot::Strings);
        self.take_in_first_string(items, from + 1, made + 1, byte, run)
    }

    /// A condition's number is taken in.
    #[inline(never)]
    pub(crate) fn take_in_tested<I: Items>(
        &mut self,
        items: &I,
        from: usize,
        made: usize,
        depth: u64,
        run: &mut Run,
    )
        requires mode { self.old.reading.mode ≡ modes.Number depth }
        requires next { reads_next self.old ≡ true }
        requires within { from ≤ length (I.next_items items.now) }
        requires few { made ≤ 32768 }
        ensures { TakesInRest (I.next_items items.now) from made self.old run.new self.new }
    {
        let end = near(items, from);
        let mut level = depth;
        for place in from..end {
            let moves = made + (place - from);
            let Some(byte) = items.byte(place) else {
                return self.take_in_rest(items, place, moves, run);
            };
            if is_digit_or_relation(byte) {
                self.notes.note(Jot::Line(byte));
                continue;
            }
            if byte == b'\\' {
                return self.take_in_escape(items, place, moves, run);
            }
            if ends_number(byte, level) {
                self.reading.mode = Mode::Skip(0);
                *run = Run {
                    taken: place,
                    moves: moves + 1,
                    event: Event::Judge(Question::Number),
                };
                return;
            }
            level = parentheses(byte, level);
            self.reading.mode = Mode::Number(level);
            self.notes.note(Jot::Line(byte));
        }
        self.take_in_rest(items, end, made + (end - from), run)
    }

    /// A condition's first string is taken in.
    #[inline(never)]
    pub(crate) fn take_in_first_string<I: Items>(
        &mut self,
        items: &I,
        from: usize,
        made: usize,
        delimiter: u8,
        run: &mut Run,
    )
        requires mode { self.old.reading.mode ≡ modes.First delimiter }
        requires next { reads_next self.old ≡ true }
        requires within { from ≤ length (I.next_items items.now) }
        requires few { made ≤ 32768 }
        ensures { TakesInRest (I.next_items items.now) from made self.old run.new self.new }
    {
        let end = near(items, from);
        for place in from..end {
            let moves = made + (place - from);
            let Some(byte) = items.byte(place) else {
                return self.take_in_rest(items, place, moves, run);
            };
            if !is_plain(byte) {
                return self.take_in_escape(items, place, moves, run);
            }
            if byte == delimiter {
                self.reading.mode = Mode::Second(delimiter);
                return self.take_in_second_string(items, place + 1, moves + 1, delimiter, run);
            }
            self.notes.note(Jot::First(byte));
        }
        self.take_in_rest(items, end, made + (end - from), run)
    }

    /// A condition's second string is taken in.
    #[inline(never)]
    pub(crate) fn take_in_second_string<I: Items>(
        &mut self,
        items: &I,
        from: usize,
        made: usize,
        delimiter: u8,
        run: &mut Run,
    )
        requires mode { self.old.reading.mode ≡ modes.Second delimiter }
        requires next { reads_next self.old ≡ true }
        requires within { from ≤ length (I.next_items items.now) }
        requires few { made ≤ 49152 }
        ensures { TakesInRest (I.next_items items.now) from made self.old run.new self.new }
    {
        let end = near(items, from);
        for place in from..end {
            let moves = made + (place - from);
            let Some(byte) = items.byte(place) else {
                return self.take_in_rest(items, place, moves, run);
            };
            if !is_plain(byte) {
                return self.take_in_escape(items, place, moves, run);
            }
            if byte == delimiter {
                self.reading.pending_act = PendingAct::Judge(self.notes.condition.are_equal());
                *run = Run {
                    taken: place + 1,
                    moves: moves + 1,
                    event: Event::Nothing,
                };
                return;
            }
            self.notes.note(Jot::Second(byte));
        }
        self.take_in_rest(items, end, made + (end - from), run)
    }
}
