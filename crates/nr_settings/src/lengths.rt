//! Widths and heights, in units.
ghost use Rattle.std.specs.Prelude.{◌≡◌, ◌*◌, ◌≤◌};
ghost use Rattle.nr_settings.specs.Lengths.{IsWidth, IsHeight, width_from, height_of};

use nr_units::{round_h, round_v};
use std::marker::Model;

/// The greatest width and the greatest height, in units.
const LONGEST: u32 = 32760;

/// A width of 0 to 1365 characters. Clauses see it in units, 24 to a character.
#[derive(Clone, Copy)]
pub struct Width {
    units: u32,
}

impl Model for Width {
    ghost use Rattle.std.specs.Prelude.{ℕ};
    ghost use Rattle.nr_settings.specs.Lengths.{IsWidth};

    ghost Value = { ℕ };

    ghost view = { λ w. w.units };

    ghost invariant = { λ w. IsWidth w.units };

    ghost inverse = { λ n. record { units = n } };
}

impl Width {
    /// The width of no character.
    pub fn zero() -> Self
        ensures { result ≡ 0 }
    {
        Width { units: 0 }
    }

    /// The width of so many units, a multiple of 24.
    pub(crate) fn of(units: u32) -> Self
        requires { IsWidth units }
        ensures { result ≡ units }
    {
        Width { units }
    }

    /// The multiple of 24 nearest to `n` units, half away from zero; outside `least` to 32760 the nearer end.
    pub(crate) fn nearest(n: i64, least: Width) -> Self
        ensures { result ≡ width_from least n }
    {
        let units = round_h(n);
        if units <= i64::from(least.units) {
            return least;
        }
        if units >= i64::from(LONGEST) {
            return Width { units: LONGEST };
        }
        Width {
            units: units as u32,
        }
    }

    /// In units.
    #[inline]
    pub fn units(&self) -> u32
        ensures value { result ≡ self.now }
        ensures most { result ≤ 32760 }
    {
        self.units
    }

    /// In characters.
    ///
    /// Proved: Every width is whole characters, 0 to 1365, and every height whole lines, 1 to 819. (`Width::cells`,
    /// `Height::rows`)
    #[inline]
    pub fn cells(&self) -> u32
        ensures value { 24 * result ≡ self.now }
        ensures most { result ≤ 1365 }
    {
        self.units / 24
    }
}

/// A height of 1 to 819 lines. Clauses see it in units, 40 to a line.
#[derive(Clone, Copy)]
pub struct Height {
    units: u32,
}

impl Model for Height {
    ghost use Rattle.std.specs.Prelude.{ℕ};
    ghost use Rattle.nr_settings.specs.Lengths.{IsHeight};

    ghost Value = { ℕ };

    ghost view = { λ h. h.units };

    ghost invariant = { λ h. IsHeight h.units };

    ghost inverse = { λ n. record { units = n } };
}

impl Height {
    /// The height of so many units, a multiple of 40.
    pub(crate) fn of(units: u32) -> Self
        requires { IsHeight units }
        ensures { result ≡ units }
    {
        Height { units }
    }

    /// The multiple of 40 nearest to `n` units, half away from zero; outside 40 to 32760 the nearer end.
    pub(crate) fn nearest(n: i64) -> Self
        ensures { result ≡ height_of n }
    {
        let units = round_v(n);
        if units <= 40 {
            return Height { units: 40 };
        }
        if units >= i64::from(LONGEST) {
            return Height { units: LONGEST };
        }
        Height {
            units: units as u32,
        }
    }

    /// In units.
    #[inline]
    pub fn units(&self) -> u32
        ensures value { result ≡ self.now }
        ensures least { 40 ≤ result }
        ensures most { result ≤ 32760 }
    {
        self.units
    }

    /// In lines of text.
    #[inline]
    pub fn rows(&self) -> u32
        ensures value { 40 * result ≡ self.now }
        ensures least { 1 ≤ result }
        ensures most { result ≤ 819 }
    {
        self.units / 40
    }
}
