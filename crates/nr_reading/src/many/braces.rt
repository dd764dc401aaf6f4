//! Closing braces in text, which do nothing.
ghost use Rattle.std.specs.Prelude.{◌≡◌, ◌≤◌, length, true};
ghost use Rattle.nr_reading.specs.Many.Braces.{begins_with_brace};
ghost use Rattle.nr_reading.specs.Many.InText.{is_in_text};
ghost use Rattle.nr_reading.specs.Many.Passing.{quiet};
ghost use Rattle.nr_reading.specs.Many.Runs.{HasTakenIn};

use crate::half::Half;
use crate::many::runs::Items;

impl Half {
    /// Whether a stretch begins with `\}`, which in the midst of a text line does nothing: two moves, which take the two items and leave all else as it was.
    ///
    /// Proved: `\}` before a stretch in the middle of a text line is two moves, which take it and leave all else as it
    /// was.
    #[inline(always)]
    pub fn takes_in_brace<I: Items>(&self, items: &I) -> bool
        requires text { is_in_text self.now ≡ true }
        ensures brace { result ≡ begins_with_brace (I.next_items items.now) }
        ensures taken_in { result ≡ true → HasTakenIn 2 (I.next_items items.now) self.now (quiet 2 self.now) }
        ensures there { result ≡ true → 2 ≤ length (I.next_items items.now) }
    {
        if items.count() < 2 {
            return false;
        }
        matches!((items.byte(0), items.byte(1)), (Some(b'\\'), Some(b'}')))
    }
}
