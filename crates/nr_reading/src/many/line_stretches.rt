//! The beginnings of lines in a stretch of items.
ghost use Rattle.std.specs.Prelude.{◌≡◌, ◌≤◌, true};
ghost use Rattle.nr_reading.specs.declared.mode.Mode.TheVariants as modes;
ghost use Rattle.nr_reading.specs.Many.LineBeginnings.{begins_text};
ghost use Rattle.nr_reading.specs.Half.{reads_next};
ghost use Rattle.nr_reading.specs.Many.Stretch.{TakesInRest};

use crate::event::Event;
use crate::half::Half;
use crate::many::runs::{Items, Run};
use crate::mode::Mode;

impl Half {
    // Whether a byte at a line's beginning begins its text, and no escape.
    #[inline(always)]
    fn begins_text(&self, byte: u8) -> bool
        ensures { result ≡ begins_text byte self.now.signs }
    {
        !(byte == b'\\' || byte == b'\n' || byte == b' ' || self.signs.begins_control(byte))
    }

    /// The items after a line's beginning are taken in: the name of a control line, or the first byte of its text, and else one after another.
    #[inline(never)]
    pub(crate) fn take_in_beginning<I: Items>(
        &mut self,
        items: &I,
        from: usize,
        made: usize,
        run: &mut Run,
    )
        requires mode { self.old.reading.mode ≡ modes.Start }
        requires next { reads_next self.old ≡ true }
        requires few { made ≤ 65000 }
        ensures { TakesInRest (I.next_items items.now) from made self.old run.new self.new }
    {
        if from >= items.count() {
            *run = Run {
                taken: from,
                moves: made,
                event: Event::Nothing,
            };
            return;
        }
        if let Some(name) = self.take_in_name_at(items, from) {
            *run = Run {
                taken: from + name.taken,
                moves: made + name.moves,
                event: Event::Nothing,
            };
            return;
        }
        let Some(byte) = items.byte(from) else {
            return self.take_in_more(items, from, made, run);
        };
        if !self.begins_text(byte) {
            return self.take_in_more(items, from, made, run);
        }
        self.begin_text();
        *run = Run {
            taken: from + 1,
            moves: made + 1,
            event: Event::Byte(byte),
        };
    }
}
