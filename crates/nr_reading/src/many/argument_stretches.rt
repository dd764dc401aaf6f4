//! The arguments of macros in a stretch of items.
ghost use Rattle.std.specs.Prelude.{◌≡◌, ◌≤◌, true};
ghost use Rattle.nr_reading.specs.declared.mode.Mode.TheVariants as modes;
ghost use Rattle.nr_reading.specs.Half.{reads_next};
ghost use Rattle.nr_reading.specs.Many.Stretch.{TakesInRest};

use crate::event::Event;
use crate::half::Half;
use crate::many::passing::is_plain;
use crate::many::runs::{Items, Run};
use crate::many::stretch::byte_of;
use crate::mode::{Mode, PendingAct};
use crate::spelled::is_blank;

impl Half {
    /// The blanks before a macro's arguments are taken in, and the first of these.
    #[inline(never)]
    pub(crate) fn take_in_call<I: Items>(&mut self, items: &I, run: &mut Run)
        requires mode { self.old.reading.mode ≡ modes.MacroBlanks }
        requires next { reads_next self.old ≡ true }
        ensures { TakesInRest (I.next_items items.now) 0 0 self.old run.new self.new }
    {
        let place = self.pass_first_blanks(items);
        let Some(byte) = byte_of(items, place) else {
            return self.take_in_rest(items, place, place, run);
        };
        if byte == b'\\' || is_blank(byte) {
            return self.take_in_escape(items, place, place, run);
        }
        self.reading.mode = Mode::MacroGap;
        self.take_in_argument(items, place, place + 1, run)
    }

    /// The space between two arguments is taken in, and what stands after it.
    #[inline(never)]
    pub(crate) fn take_in_gap<I: Items>(&mut self, items: &I, run: &mut Run)
        requires mode { self.old.reading.mode ≡ modes.MacroGap }
        requires next { reads_next self.old ≡ true }
        ensures { TakesInRest (I.next_items items.now) 0 0 self.old run.new self.new }
    {
        match byte_of(items, 0) {
            Some(b' ') => self.take_in_argument(items, 1, 1, run),
            _ => self.take_in_argument(items, 0, 0, run),
        }
    }

    // The beginning of an argument is taken in, or the end of the line.
    #[inline(always)]
    fn take_in_argument<I: Items>(&mut self, items: &I, from: usize, made: usize, run: &mut Run)
        requires mode { self.old.reading.mode ≡ modes.MacroGap }
        requires next { reads_next self.old ≡ true }
        requires few { made ≤ 16384 }
        ensures { TakesInRest (I.next_items items.now) from made self.old run.new self.new }
    {
        let Some(byte) = byte_of(items, from) else {
            return self.take_in_rest(items, from, made, run);
        };
        if byte == b'\\' || byte == b' ' {
            return self.take_in_escape(items, from, made, run);
        }
        if byte == b'"' {
            self.reading.mode = Mode::Quoted;
            return self.take_in_quoted(items, from + 1, made + 1, run);
        }
        if byte == b'\n' {
            self.reading.mode = Mode::Start;
            self.reading.pending_act = PendingAct::Call;
            *run = Run {
                taken: from + 1,
                moves: made + 1,
                event: Event::Nothing,
            };
            return;
        }
        self.reading.mode = Mode::Word;
        self.reading.pending_act = PendingAct::Put(byte);
        *run = Run {
            taken: from + 1,
            moves: made + 1,
            event: Event::Nothing,
        };
    }

    /// A byte of an argument is taken in, or what ends it.
    #[inline(never)]
    pub(crate) fn take_in_word<I: Items>(&mut self, items: &I, run: &mut Run)
        requires mode { self.old.reading.mode ≡ modes.Word }
        requires next { reads_next self.old ≡ true }
        ensures { TakesInRest (I.next_items items.now) 0 0 self.old run.new self.new }
    {
        match byte_of(items, 0) {
            Some(b'\n') => {
                self.reading.mode = Mode::MacroGap;
                self.reading.pending_act = PendingAct::EndArgument;
                *run = Run {
                    taken: 0,
                    moves: 1,
                    event: Event::Nothing,
                };
            }
            Some(b' ') => {
                self.reading.mode = Mode::MacroGap;
                self.reading.pending_act = PendingAct::EndArgument;
                *run = Run {
                    taken: 1,
                    moves: 1,
                    event: Event::Nothing,
                };
            }
            _ => self.take_in_escape(items, 0, 0, run),
        }
    }

    /// A byte of an argument that began with a quote is taken in, or the quote that ends it and what stands after that.
    #[inline(never)]
    pub(crate) fn take_in_quoted<I: Items>(
        &mut self,
        items: &I,
        from: usize,
        made: usize,
        run: &mut Run,
    )
        requires mode { self.old.reading.mode ≡ modes.Quoted }
        requires next { reads_next self.old ≡ true }
        requires few { made ≤ 32768 }
        ensures { TakesInRest (I.next_items items.now) from made self.old run.new self.new }
    {
        let Some(byte) = byte_of(items, from) else {
            return self.take_in_rest(items, from, made, run);
        };
        if !is_plain(byte) {
            return self.take_in_escape(items, from, made, run);
        }
        if byte == b'"' {
            self.reading.mode = Mode::Quote;
            return self.take_in_quote(items, from + 1, made + 1, run);
        }
        self.reading.pending_act = PendingAct::Put(byte);
        *run = Run {
            taken: from + 1,
            moves: made + 1,
            event: Event::Nothing,
        };
    }

    // What stands after the quote is taken in.
    #[inline(always)]
    fn take_in_quote<I: Items>(&mut self, items: &I, from: usize, made: usize, run: &mut Run)
        requires mode { self.old.reading.mode ≡ modes.Quote }
        requires next { reads_next self.old ≡ true }
        requires few { made ≤ 49152 }
        ensures { TakesInRest (I.next_items items.now) from made self.old run.new self.new }
    {
        let Some(byte) = byte_of(items, from) else {
            return self.take_in_rest(items, from, made, run);
        };
        if byte == b'\\' || byte == b'"' {
            return self.take_in_escape(items, from, made, run);
        }
        self.reading.mode = Mode::MacroGap;
        self.reading.pending_act = PendingAct::EndArgument;
        *run = Run {
            taken: from,
            moves: made + 1,
            event: Event::Nothing,
        };
    }
}
