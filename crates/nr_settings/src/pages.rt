//! Pages and vertical spacing (CSTR 54, page control; vertical spacing; three-part titles).
ghost use Rattle.std.specs.Prelude.{◌≡◌};
ghost use Rattle.nr_settings.specs.Pages.{page_number};

use crate::arguments::Arguments;
use crate::lengths::Height;
use crate::numbers::{first_change, first_value};
use nr_units::Scale;

/// The page length, the vertical space V and the one before the last change, whether no-space mode is on, the place in
/// units that `.mk` marked, and the page number character of titles.
#[derive(Clone, Copy)]
pub struct Pages {
    pub page_length: Height,
    pub spacing: Height,
    pub previous_spacing: Height,
    pub no_space: bool,
    pub mark: u32,
    pub number_character: Option<u8>,
}

impl Pages {
    ghost use Rattle.std.specs.Prelude.{◌≡◌};
    ghost use Rattle.nr_settings.specs.Pages.{pl, vs, ns, rs, pc, first_pages};

    /// Those at first: pages of 11 inches, lines of a sixth of an inch, `%` for the page number.
    pub fn new() -> Self
        ensures { result ≡ first_pages }
    {
        Pages {
            page_length: Height::of(2640),
            spacing: Height::of(40),
            previous_spacing: Height::of(40),
            no_space: false,
            mark: 0,
            number_character: Some(b'%'),
        }
    }

    /// `.pl`; `here` is the present place, in units.
    ///
    /// Proved: `.pl .vs .ns .rs .pc` each change the page's settings by one equation. (`Pages::{pl, vs, ns, rs, pc}`)
    pub fn pl(&mut self, line: &[u8], here: i64)
        ensures { self.new ≡ pl line.now here self.old }
    {
        self.page_length = match first_change(line, Scale::VerticalSpace, self.spacing, here) {
            None => Height::of(2640),
            Some(change) => Height::nearest(change.applied(i64::from(self.page_length.units()))),
        };
    }

    /// `.vs`; `here` is the present place, in units.
    pub fn vs(&mut self, line: &[u8], here: i64)
        ensures { self.new ≡ vs line.now here self.old }
    {
        let old = self.spacing;
        self.spacing = match first_value(line, Scale::Point, old, here) {
            None => self.previous_spacing,
            Some(units) => Height::nearest(i64::from(units)),
        };
        self.previous_spacing = old;
    }

    /// `.ns`
    pub fn ns(&mut self)
        ensures { self.new ≡ ns self.old }
    {
        self.no_space = true;
    }

    /// `.rs`
    pub fn rs(&mut self)
        ensures { self.new ≡ rs self.old }
    {
        self.no_space = false;
    }

    /// `.pc`
    pub fn pc(&mut self, line: &[u8])
        ensures { self.new ≡ pc line.now self.old }
    {
        self.number_character = Arguments::of(line).byte();
    }
}

/// The page number that `.bp` or `.pn` gives, from the number at hand. None where it is absent, or not from -2147483647
/// to 2147483647.
pub fn page_number(line: &[u8], v: Height, number: i32) -> Option<i32>
    ensures { result ≡ page_number line.now v number }
{
    match first_change(line, Scale::Unit, v, 0) {
        None => None,
        Some(change) => {
            let number = change.applied(i64::from(number));
            if number.unsigned_abs() <= 2_147_483_647 {
                Some(number as i32)
            } else {
                None
            }
        }
    }
}
