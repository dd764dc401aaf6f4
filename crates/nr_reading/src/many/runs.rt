//! Many items taken in one after another.
ghost use Rattle.std.specs.Prelude.{◌≡◌, ◌<◌, ◌≤◌, ℕ, List, length, map, slice_get, Some, None, IfSome, true};
ghost use Rattle.nr_reading.specs.declared.event.Event.TheVariants as events;
ghost use Rattle.nr_reading.specs.declared.next_item.NextItem.{NextItem as StretchItem};
ghost use Rattle.nr_reading.specs.declared.next_item.NextItem.TheVariants as variants;
ghost use Rattle.nr_reading.specs.declared.mode.PendingAct.TheVariants as pending_acts;
ghost use Rattle.nr_reading.specs.Half.{reads_next};
ghost use Rattle.nr_reading.specs.Many.Stretch.{TakesInRest};
ghost use Rattle.nr_reading.specs.Many.Runs.{HasTakenIn, spot};

use crate::event::Event;
use crate::half::Half;
use crate::mode::{Mode, PendingAct};

/// The most moves of one run.
const LONGEST: usize = 65_536;

/// Items in a stretch.
pub trait Items {
    /// The items.
    ghost next_items: { Self → List StretchItem };

    /// How many there are.
    fn count(&self) -> usize
        ensures { result ≡ length (next_items self.now) };

    /// The n-th, counted from 0, where it is a byte.
    fn byte(&self, n: usize) -> Option<u8>
        requires { n < length (next_items self.now) }
        ensures value { IfSome result (λ byte. slice_get (next_items self.now) n ≡ Some (variants.Byte byte)) }
        ensures other { result ≡ None → (byte : ℕ) → slice_get (next_items self.now) n ≡ Some (variants.Byte byte)
            → ⊥ };
}

/// What came of a stretch of items.
#[derive(Clone, Copy)]
pub struct Run {
    /// How many items were taken.
    pub taken: usize,
    /// How many moves that were.
    pub moves: usize,
    /// What the last of them emitted.
    pub event: Event,
}

impl Half {
    /// Bytes are taken in, up to the first item that is none, the first that tells something, or after which something is pending;
    /// in 65,536 moves at most.
    ///
    /// Proved: A stretch of items is taken in by one call as one by one, of which only the last may emit an event or leave
    /// something pending.
    /// Proved: If a call for a stretch emits nothing, leaves nothing pending and makes fewer than 65,536 moves, the stretch
    /// has no next byte.
    #[inline(always)]
    pub fn take_in_run<I: Items>(&mut self, items: &I) -> Run
        ensures taken_in { HasTakenIn result.moves (I.next_items items.now) self.old (spot result self.new) }
        ensures few { result.moves ≤ 65536 }
        ensures longest { result.event ≡ events.Nothing → self.new.reading.pending_act ≡ pending_acts.Look
            → result.moves < 65536
            → (byte : ℕ) → slice_get (I.next_items items.now) result.taken ≡ Some (variants.Byte byte) → ⊥ }
    {
        let mut run = Run {
            taken: 0,
            moves: 0,
            event: Event::Nothing,
        };
        if items.count() > 0 {
            self.take_in_items(items, &mut run);
        }
        run
    }

    // After so many items and moves, the interpolation that begins with this byte, if it stands whole in the stretch.
    #[inline(always)]
    pub(crate) fn take_in_whole<I: Items>(
        &mut self,
        items: &I,
        byte: u8,
        taken: usize,
        moves: usize,
    ) -> Option<Run>
        requires pending_act { self.old.reading.pending_act ≡ pending_acts.Look }
        requires within { taken < length (I.next_items items.now) }
        requires byte { slice_get (I.next_items items.now) taken ≡ Some (variants.Byte byte) }
        ensures rest { IfSome result
            (λ run. TakesInRest (I.next_items items.now) taken moves self.old run self.new) }
        ensures left { result ≡ None → self.new ≡ self.old }
    {
        if byte != b'\\' || items.count() - taken < 3 || moves > LONGEST - 6 {
            return None;
        }
        let Some(run) = self.take_in_interpolation(items, taken) else {
            return None;
        };
        Some(Run {
            taken: taken + run.taken,
            moves: moves + run.moves,
            event: run.event,
        })
    }

    /// The items after a place of a stretch, to which so many moves led, are taken in one after another.
    #[inline(never)]
    pub(crate) fn take_in_more<I: Items>(
        &mut self,
        items: &I,
        from: usize,
        made: usize,
        run: &mut Run,
    )
        requires pending_act { self.old.reading.pending_act ≡ pending_acts.Look }
        requires few { made ≤ 65536 }
        ensures { TakesInRest (I.next_items items.now) from made self.old run.new self.new }
    {
        let mut taken = from;
        let mut moves = made;
        while taken < items.count() && moves < LONGEST {
            let Some(byte) = items.byte(taken) else {
                break;
            };
            if let Some(whole) = self.take_in_whole(items, byte, taken, moves) {
                *run = whole;
                return;
            }
            let seen = self.take_in_byte(byte);
            moves += 1;
            taken += usize::from(seen.takes);
            if !matches!(seen.event, Event::Nothing)
                || !matches!(self.reading.pending_act, PendingAct::Look)
            {
                *run = Run {
                    taken,
                    moves,
                    event: seen.event,
                };
                return;
            }
            let end = self.pass_comment(items, taken, LONGEST - moves);
            moves += end - taken;
            taken = end;
        }
        *run = Run {
            taken,
            moves,
            event: Event::Nothing,
        };
    }

    // The items of a stretch are taken in: first those that do little, then one after another.
    #[inline(never)]
    fn take_in_others<I: Items>(&mut self, items: &I, run: &mut Run)
        requires pending_act { self.old.reading.pending_act ≡ pending_acts.Look }
        ensures { TakesInRest (I.next_items items.now) 0 0 self.old run.new self.new }
    {
        let taken = self.take_in_plain(items, LONGEST);
        self.take_in_more(items, taken, taken, run)
    }

    // The items of a stretch are taken in by the loop of the mode, where it has one.
    #[inline(always)]
    fn take_in_by_mode<I: Items>(&mut self, items: &I, run: &mut Run)
        requires next { reads_next self.old ≡ true }
        ensures { TakesInRest (I.next_items items.now) 0 0 self.old run.new self.new }
    {
        match self.reading.mode {
            Mode::Start => self.take_in_beginning(items, 0, 0, run),
            Mode::Text => self.take_in_more(items, 0, 0, run),
            Mode::Condition => self.take_in_condition(items, run),
            Mode::Number(depth) => self.take_in_tested(items, 0, 0, depth, run),
            Mode::First(delimiter) => self.take_in_first_string(items, 0, 0, delimiter, run),
            Mode::Second(delimiter) => self.take_in_second_string(items, 0, 0, delimiter, run),
            Mode::RequestBlanks => self.take_in_request(items, run),
            Mode::RequestLine => self.take_in_arguments(items, 0, 0, run),
            Mode::Accepted => self.take_in_accepted(items, run),
            Mode::Skip(count) => self.take_in_rejected(items, count, run),
            Mode::MacroBlanks => self.take_in_call(items, run),
            Mode::MacroGap => self.take_in_gap(items, run),
            Mode::Word => self.take_in_word(items, run),
            Mode::Quoted => self.take_in_quoted(items, 0, 0, run),
            Mode::StringBefore => self.take_in_string(items, run),
            Mode::StringBlanks => self.take_in_string_blanks(items, 0, 0, run),
            Mode::StringText => self.take_in_string_text(items, run),
            _ => self.take_in_others(items, run),
        }
    }

    // The items of a stretch are taken in, as `take_in_run` says; `run` is where that ends.
    #[inline(never)]
    fn take_in_items<I: Items>(&mut self, items: &I, run: &mut Run)
        ensures taken_in { HasTakenIn run.new.moves (I.next_items items.now) self.old (spot run.new self.new) }
        ensures few { run.new.moves ≤ 65536 }
        ensures longest { run.new.event ≡ events.Nothing → self.new.reading.pending_act ≡ pending_acts.Look
            → run.new.moves < 65536
            → (byte : ℕ) → slice_get (I.next_items items.now) run.new.taken ≡ Some (variants.Byte byte) → ⊥ }
    {
        if !matches!(self.reading.pending_act, PendingAct::Look) {
            *run = Run {
                taken: 0,
                moves: 0,
                event: Event::Nothing,
            };
            return;
        }
        if self.reads_plainly() {
            return self.take_in_by_mode(items, run);
        }
        self.take_in_others(items, run)
    }
}
