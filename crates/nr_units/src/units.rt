//! Units, scales and rounding.
//!
//! All lengths are whole numbers of the basic unit u, 240 to the inch. One character is 24u wide and one line of
//! text 40u high.
ghost use Rattle.std.specs.Prelude.{◌≡◌, ◌+◌, ◌<◌, ◌*◌, ◌^◌, ◌≤◌, unsigned_abs};
ghost use Rattle.nr_units.specs.Units.{nearest, with_sign_of, nearest_multiple, in_range};

/// The greatest magnitude that a value may have.
const MAX_VALUE: u64 = 2_147_483_647;

/// A scale of numbers, named by the letter after the number (CSTR 54, numerical input).
#[derive(Clone, Copy)]
pub enum Scale {
    /// `i`, 240u.
    Inch,
    /// `c`, 12000/127 u.
    Centimetre,
    /// `P`, a sixth of an inch: 40u.
    Pica,
    /// `v`, the vertical space between lines.
    VerticalSpace,
    /// `m`, 24u.
    Em,
    /// `n`, 24u.
    En,
    /// `p`, a 72nd of an inch: 10/3 u.
    Point,
    /// `u`, one unit.
    Unit,
}

impl Scale {
    ghost use Rattle.nr_units.specs.Units.{numerator, denominator};

    /// The units of one of this scale, times its denominator. `v` is the vertical space in units.
    fn numerator(self, v: i64) -> i64
        ensures { result ≡ numerator v self }
    {
        match self {
            Scale::Inch => 240,
            Scale::Centimetre => 12_000,
            Scale::Pica => 40,
            Scale::VerticalSpace => v,
            Scale::Em | Scale::En => 24,
            Scale::Point => 10,
            Scale::Unit => 1,
        }
    }

    fn denominator(self) -> u64
        ensures value { result ≡ denominator self }
        ensures low { 0 < result }
        ensures high { result < 128 }
    {
        match self {
            Scale::Centimetre => 127,
            Scale::Point => 3,
            _ => 1,
        }
    }

    ghost use Rattle.nr_units.specs.Units.{scaled};

    /// What a number of so many ten-thousandths means under this scale, in units. `v` is the vertical space.
    ///
    /// Proved: A number with a scale means the nearest unit, half away from zero, and nothing where that is not from
    /// -2147483647 to 2147483647.
    pub(crate) fn scaled(self, number: u64, v: i64) -> Option<i32>
        ensures { result ≡ scaled v self number }
    {
        let factor = self.numerator(v);
        let product = number.checked_mul(factor.unsigned_abs())?;
        let magnitude = nearest(product, 10_000 * self.denominator());
        if magnitude > MAX_VALUE {
            return None;
        }
        in_range(with_sign_of(factor, magnitude))
    }
}

/// The whole number nearest to `n / d`, the greater of two as near.
fn nearest(n: u64, d: u64) -> u64
    requires low { 1 < d }
    requires high { d < 2 ^ 32 }
    ensures value { result ≡ nearest n d }
    ensures at_most_half_above { 2 * d * result ≤ 2 * n + d }
    ensures less_than_half_below { 2 * n < 2 * d * result + d }
{
    let whole = n / d;
    if 2 * (n % d) < d { whole } else { whole + 1 }
}

/// `n`, if no value may be farther from zero.
pub(crate) fn in_range(n: i64) -> Option<i32>
    ensures { result ≡ in_range n }
{
    if n.unsigned_abs() <= MAX_VALUE {
        Some(n as i32)
    } else {
        None
    }
}

/// The number of this magnitude with the sign of `n`.
fn with_sign_of(n: i64, magnitude: u64) -> i64
    requires { magnitude < 2 ^ 63 }
    ensures { result ≡ with_sign_of n magnitude }
{
    let magnitude = magnitude as i64;
    if n < 0 { -magnitude } else { magnitude }
}

/// The multiple of the width of a character, 24u, nearest to `n` units, half away from zero.
///
/// Proved: Lengths are rounded to the nearest multiple of 24 or of 40 units, half away from zero. (`round_h`,
/// `round_v`)
pub fn round_h(n: i64) -> i64
    ensures { result ≡ nearest_multiple 24 n }
{
    with_sign_of(n, 24 * nearest(n.unsigned_abs(), 24))
}

/// The multiple of the height of a line, 40u, nearest to `n` units, half away from zero.
pub fn round_v(n: i64) -> i64
    ensures { result ≡ nearest_multiple 40 n }
{
    with_sign_of(n, 40 * nearest(n.unsigned_abs(), 40))
}
