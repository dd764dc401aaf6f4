//! Places of a stretch of items, and the blanks that do nothing there.
ghost use Rattle.std.specs.Prelude.{◌≡◌, ◌+◌, ◌-◌, ◌^◌, ◌<◌, ◌≤◌, ℕ, length, slice_get, Some, None, IfSome, true};
ghost use Rattle.nr_reading.specs.declared.next_item.NextItem.TheVariants as variants;
ghost use Rattle.nr_reading.specs.declared.mode.PendingAct.TheVariants as pending_acts;
ghost use Rattle.nr_reading.specs.Half.{reads_next};
ghost use Rattle.nr_reading.specs.Many.Stretch.{LeadsOn, TakesInRest, drops_blank};

use crate::event::Event;
use crate::half::Half;
use crate::many::runs::{Items, Run};
use crate::spelled::is_blank;

/// The most items of one loop.
const NEAR: usize = 8_192;

/// The end of what one loop reads of a stretch from a place on.
#[inline(always)]
pub(crate) fn near<I: Items>(items: &I, from: usize) -> usize
    requires { from ≤ length (I.next_items items.now) }
    ensures prefix { from ≤ result }
    ensures within { result ≤ length (I.next_items items.now) }
    ensures few { result ≤ from + 8192 }
{
    from + (items.count() - from).min(NEAR)
}

/// The byte at a place of a stretch, if there is one.
#[inline(always)]
pub(crate) fn byte_of<I: Items>(items: &I, place: usize) -> Option<u8>
    ensures value { IfSome result (λ byte. slice_get (I.next_items items.now) place ≡ Some (variants.Byte byte)) }
    ensures within { IfSome result (λ byte. place < length (I.next_items items.now)) }
    ensures fits { IfSome result (λ byte. place < 2 ^ 64 - 1) }
    ensures other { result ≡ None → (byte : ℕ)
        → slice_get (I.next_items items.now) place ≡ Some (variants.Byte byte) → ⊥ }
{
    if place < items.count() {
        return items.byte(place);
    }
    None
}

impl Half {
    /// Blanks that do nothing are passed over from one place of a stretch on, before another. The result is where they end.
    #[inline(always)]
    pub(crate) fn pass_blanks<I: Items>(&self, items: &I, from: usize, to: usize) -> usize
        requires next { reads_next self.now ≡ true }
        requires drops { drops_blank self.now.reading.mode self.now.notes.condition ≡ true }
        requires prefix { from ≤ to }
        requires within { to ≤ length (I.next_items items.now) }
        ensures leads { (n : ℕ)
            → LeadsOn (I.next_items items.now) from n self.now result (n + (result - from)) self.now }
        ensures prefix { from ≤ result }
        ensures within { result ≤ to }
    {
        for place in from..to {
            match items.byte(place) {
                Some(byte) if is_blank(byte) => {}
                _ => return place,
            }
        }
        to
    }

    /// The same from the beginning of a stretch on.
    #[inline(always)]
    pub(crate) fn pass_first_blanks<I: Items>(&self, items: &I) -> usize
        requires next { reads_next self.now ≡ true }
        requires drops { drops_blank self.now.reading.mode self.now.notes.condition ≡ true }
        ensures leads { LeadsOn (I.next_items items.now) 0 0 self.now result result self.now }
        ensures within { result ≤ length (I.next_items items.now) }
        ensures few { result ≤ 8192 }
    {
        self.pass_blanks(items, 0, near(items, 0))
    }

    /// What stands at a place of a stretch is taken in: an interpolation that stands whole there at once, and else the items one after another.
    #[inline(never)]
    pub(crate) fn take_in_escape<I: Items>(
        &mut self,
        items: &I,
        from: usize,
        made: usize,
        run: &mut Run,
    )
        requires pending_act { self.old.reading.pending_act ≡ pending_acts.Look }
        requires few { made ≤ 65536 }
        ensures { TakesInRest (I.next_items items.now) from made self.old run.new self.new }
    {
        let Some(byte) = byte_of(items, from) else {
            return self.take_in_more(items, from, made, run);
        };
        if let Some(whole) = self.take_in_whole(items, byte, from, made) {
            *run = whole;
            return;
        }
        self.take_in_more(items, from, made, run)
    }

    /// The same, but where the stretch ends there.
    #[inline(always)]
    pub(crate) fn take_in_rest<I: Items>(
        &mut self,
        items: &I,
        from: usize,
        made: usize,
        run: &mut Run,
    )
        requires pending_act { self.old.reading.pending_act ≡ pending_acts.Look }
        requires few { made ≤ 65536 }
        ensures { TakesInRest (I.next_items items.now) from made self.old run.new self.new }
    {
        if from < items.count() {
            return self.take_in_escape(items, from, made, run);
        }
        *run = Run {
            taken: from,
            moves: made,
            event: Event::Nothing,
        };
    }
}
