//! Distances and places of vertical motion (CSTR 54, vertical spacing; page control).
ghost use Rattle.std.specs.Prelude.{◌≡◌};
ghost use Rattle.nr_settings.specs.Spacing.{sp, ne, rt as return_place};

use crate::lengths::Height;
use crate::numbers::{first_change, first_value};
use nr_units::{Scale, round_v};

/// The distance of `.sp` in units, a multiple of 40, negative upward; `here` is the present place.
pub fn sp(line: &[u8], v: Height, here: i64) -> i32
    ensures { result ≡ sp line.now v here }
{
    match first_value(line, Scale::VerticalSpace, v, here) {
        None => v.units() as i32,
        Some(n) => round_v(i64::from(n)) as i32,
    }
}

/// The distance of `.ne` in units, a multiple of 40; `here` is the present place.
pub fn ne(line: &[u8], v: Height, here: i64) -> i32
    ensures { result ≡ ne line.now v here }
{
    sp(line, v, here)
}

/// The place in units to which `.rt` returns, from the present place and the marked one.
pub fn rt(line: &[u8], v: Height, place: u32, mark: u32) -> i64
    ensures { result ≡ return_place line.now v place mark }
{
    match first_change(line, Scale::VerticalSpace, v, i64::from(place)) {
        None => i64::from(mark),
        Some(change) => round_v(change.applied(i64::from(place))),
    }
}
