//! The parts after conditions in a stretch of items.
ghost use Rattle.std.specs.Prelude.{◌≡◌, ◌≤◌, true};
ghost use Rattle.nr_reading.specs.declared.mode.Mode.TheVariants as modes;
ghost use Rattle.nr_reading.specs.Many.Braces.{opens_at};
ghost use Rattle.nr_reading.specs.Half.{reads_next};
ghost use Rattle.nr_reading.specs.Many.Stretch.{TakesInRest};

use crate::half::Half;
use crate::many::passing::is_plain;
use crate::many::runs::{Items, Run};
use crate::many::stretch::byte_of;
use crate::mode::Mode;
use crate::skipping::braces;
use crate::spelled::is_blank;

/// The most items of a rejected part that are taken in by one call.
const FAR: usize = 64_000;

// Whether an opening brace, `\{`, stands at a place of a stretch.
#[inline(always)]
fn opens<I: Items>(items: &I, place: usize) -> bool
    ensures { result ≡ opens_at place (I.next_items items.now) }
{
    matches!(byte_of(items, place), Some(b'\\')) && matches!(byte_of(items, place + 1), Some(b'{'))
}

impl Half {
    /// An accepted part is taken in: its blanks, an opening brace after them, and what begins a line there.
    #[inline(never)]
    pub(crate) fn take_in_accepted<I: Items>(&mut self, items: &I, run: &mut Run)
        requires mode { self.old.reading.mode ≡ modes.Accepted }
        requires next { reads_next self.old ≡ true }
        ensures { TakesInRest (I.next_items items.now) 0 0 self.old run.new self.new }
    {
        let place = self.pass_first_blanks(items);
        let Some(byte) = byte_of(items, place) else {
            return self.take_in_rest(items, place, place, run);
        };
        if !is_plain(byte) || is_blank(byte) {
            return self.take_in_opened(items, place, run);
        }
        self.reading.mode = Mode::Start;
        self.take_in_beginning(items, place, place + 1, run)
    }

    // What stands at a place of an accepted part is taken in, to which as many moves led: an opening brace with what begins a line after it,
    // and else one item after another.
    #[inline(always)]
    fn take_in_opened<I: Items>(&mut self, items: &I, place: usize, run: &mut Run)
        requires mode { self.old.reading.mode ≡ modes.Accepted }
        requires next { reads_next self.old ≡ true }
        requires few { place ≤ 8192 }
        ensures { TakesInRest (I.next_items items.now) place place self.old run.new self.new }
    {
        if !opens(items, place) {
            return self.take_in_more(items, place, place, run);
        }
        let Some(byte) = byte_of(items, place + 2) else {
            return self.take_in_more(items, place, place, run);
        };
        if !is_plain(byte) || is_blank(byte) {
            return self.take_in_more(items, place, place, run);
        }
        self.reading.mode = Mode::Start;
        self.take_in_beginning(items, place + 2, place + 3, run)
    }

    /// A rejected part is taken in, in which so many braces are open, and what begins a line after it.
    #[inline(never)]
    pub(crate) fn take_in_rejected<I: Items>(&mut self, items: &I, count: u64, run: &mut Run)
        requires mode { self.old.reading.mode ≡ modes.Skip count }
        requires next { reads_next self.old ≡ true }
        ensures { TakesInRest (I.next_items items.now) 0 0 self.old run.new self.new }
    {
        let end = items.count().min(FAR);
        let mut level = count;
        let mut place = 0;
        while place < end {
            let Some(byte) = items.byte(place) else {
                return self.take_in_more(items, place, place, run);
            };
            if byte == b'\\' {
                let Some(afterwards) = byte_of(items, place + 1) else {
                    return self.take_in_more(items, place, place, run);
                };
                level = braces(afterwards, level);
                self.reading.mode = Mode::Skip(level);
                place += 2;
                continue;
            }
            if byte == b'\n' && level == 0 {
                self.reading.mode = Mode::Start;
                return self.take_in_beginning(items, place + 1, place + 1, run);
            }
            place += 1;
        }
        self.take_in_more(items, place, place, run)
    }
}
