//! How many cells `\h` and `\l` make. (CSTR 54, sections 11 and 12.)
ghost use Rattle.std.specs.Prelude.{◌≡◌};
ghost use Rattle.nr_formatter.specs.Motions.{next_place, motion_cells, rule_cells};

use crate::formatter::Formatter;
use nr_settings::{Repeated, motion, rule};

impl Formatter {
    /// Where the next cell of the line stands, in u.
    fn next_place(&self) -> i64
        ensures { result ≡ next_place self.now }
    {
        24 * self.line.column() as i64
    }

    /// How many blank cells `\h` makes.
    pub(crate) fn motion_cells(&self) -> u32
        ensures { result ≡ motion_cells self.now }
    {
        match motion(
            self.reader.argument(),
            self.settings.pages.spacing,
            self.next_place(),
        ) {
            Some(width) => width.cells(),
            None => 0,
        }
    }

    /// The cells that `\l` makes.
    pub(crate) fn rule_cells(&self) -> Repeated
        ensures { result ≡ rule_cells self.now }
    {
        rule(
            self.reader.argument(),
            self.settings.pages.spacing,
            self.next_place(),
        )
    }
}
