//! The line of a request, taken in at once.
ghost use Rattle.std.specs.Prelude.{◌≡◌, ◌<◌, ◌≤◌, All, length, map, take, slice_index, true, false};
ghost use Rattle.nr_reading.specs.declared.next_item.NextItem.TheVariants as variants;
ghost use Rattle.nr_reading.specs.Many.RequestLines.{after_request_line};
ghost use Rattle.nr_reading.specs.Many.Runs.{HasTakenIn, spot};
ghost use Rattle.nr_reading.specs.Spelled.{is_blank};

use crate::event::Event;
use crate::half::Half;
use crate::many::arguments::plain_count;
use crate::many::runs::Run;
use crate::mode::Mode;
use crate::spelled::is_blank;

/// The most bytes of a line that is taken in at once, its newline among them.
const LONGEST: usize = 32_768;

// How many blanks there are before the first byte that is none.
#[inline(always)]
fn blank_count(bytes: &[u8]) -> usize
    ensures prefix { result ≤ length bytes.now }
    ensures blanks { All (λ byte. is_blank byte ≡ true) (take result bytes.now) }
    ensures stops { result < length bytes.now → is_blank (slice_index bytes.now result) ≡ false }
{
    let mut count = 0;
    for byte in bytes {
        if !is_blank(*byte) {
            return count;
        }
        count += 1;
    }
    count
}

impl Half {
    // The line has ended.
    #[inline(always)]
    fn end_request_line(&mut self, line: &[u8])
        ensures { self.new ≡ after_request_line line.now self.old }
    {
        self.notes.line.set(line);
        self.reading.mode = Mode::Start;
    }

    /// The line of a request, after its name: its blanks, its arguments and its newline are taken in, if these bytes begin with all of
    /// it and no escape stands in it. No move is made where they don't, or where no such line is read.
    #[inline(always)]
    pub fn take_in_request_line(&mut self, bytes: &[u8]) -> Run
        ensures taken_in { HasTakenIn result.moves (map variants.Byte bytes.now) self.old (spot result self.new) }
        ensures few { result.moves ≤ 32769 }
        ensures within { result.taken ≤ length bytes.now }
    {
        let none = Run {
            taken: 0,
            moves: 0,
            event: Event::Nothing,
        };
        if !matches!(self.reading.mode, Mode::RequestBlanks) || !self.reads_next() {
            return none;
        }
        let near = &bytes[..bytes.len().min(LONGEST)];
        let blanks = blank_count(near);
        let rest = &near[blanks..];
        let count = plain_count(b'\n', rest);
        if count == rest.len() || rest[count] != b'\n' {
            return none;
        }
        self.end_request_line(&rest[..count]);
        Run {
            taken: blanks + count + 1,
            moves: blanks + count + 2,
            event: Event::Request,
        }
    }
}
