//! What a line takes of the settings when it begins. (CSTR 54, sections 4 and 6.)
ghost use Rattle.std.specs.Prelude.{◌≡◌, ◌==◌, ◌&&◌, if◌then◌else◌};
ghost use Rattle.nr_fill.specs.Spreading.{other_turn};

pub use nr_settings::Margins;

/// Where a line that is spread has its wider gaps.
#[derive(Clone, Copy)]
pub enum Turn {
    Left,
    Right,
}

/// The margins after a line with these, where so many pieces are left, and no word is being read where `wordless`:
/// `next` where something is left, with which a line begins.
pub(crate) fn margins_after(margins: Margins, left: usize, wordless: bool, next: Margins) -> Margins
    ensures { result ≡ (if left == 0 && wordless then margins else next) }
{
    if left == 0 && wordless { margins } else { next }
}

impl Turn {
    /// The turn after a line, which was spread or not.
    pub(crate) fn afterwards(self, spread: bool) -> Self
        ensures { result ≡ (if spread then other_turn self else self) }
    {
        match (spread, self) {
            (false, _) => self,
            (true, Turn::Left) => Turn::Right,
            (true, Turn::Right) => Turn::Left,
        }
    }
}
