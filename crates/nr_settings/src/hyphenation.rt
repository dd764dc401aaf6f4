//! Whether words are hyphenated (CSTR 54, hyphenation).
use crate::lengths::Height;
use crate::numbers::is_zero;

/// Whether words are hyphenated at the points that `.hw` gave.
#[derive(Clone, Copy)]
pub struct Hyphenation {
    pub on: bool,
}

impl Hyphenation {
    ghost use Rattle.std.specs.Prelude.{◌≡◌};
    ghost use Rattle.nr_settings.specs.Hyphenation.{hy, nh, first_hyphenation};

    /// On.
    pub fn new() -> Self
        ensures { result ≡ first_hyphenation }
    {
        Hyphenation { on: true }
    }

    /// `.hy`
    ///
    /// Proved: `.hy .nh .cc .c2 .cp` each set what the definition says. (`Hyphenation::{hy, nh}`; `cc`, `c2`, `cp` in
    /// characters.rt)
    pub fn hy(&mut self, line: &[u8], v: Height)
        ensures { self.new ≡ hy line.now v self.old }
    {
        self.on = !is_zero(line, v);
    }

    /// `.nh`
    pub fn nh(&mut self)
        ensures { self.new ≡ nh self.old }
    {
        self.on = false;
    }
}
