//! Numbers of few digits, with the letter of a scale or none, which are valued at once, and comparisons of two of them.
ghost use Rattle.std.specs.Prelude.{◌≡◌, ℕ, ◌*◌, ◌≤◌, Some, IfSome, ℤ, length, pos, unsigned_abs};
ghost use Rattle.nr_units.specs.Grammar.{letter};
ghost use Rattle.nr_units.specs.Units.{scaled};
ghost use Rattle.nr_settings.specs.Numbers.{is_true_number, value_of};
ghost use Rattle.nr_settings.specs.PlainNumbers.{IsWhole, ReadsDigits};

use crate::lengths::Height;
use nr_units::Scale;

/// The greatest number after which a digit more is read.
const MOST: u32 = 999;

/// The units of one of this scale, if they are a whole number. `v` is the vertical space.
#[inline]
fn whole_units(scale: Scale, v: Height) -> Option<u32>
    ensures { IfSome result (IsWhole scale v) }
{
    match scale {
        Scale::Inch => Some(240),
        Scale::Pica => Some(40),
        Scale::VerticalSpace => Some(v.units()),
        Scale::Em | Scale::En => Some(24),
        Scale::Unit => Some(1),
        Scale::Centimetre | Scale::Point => None,
    }
}

/// The scale of one of the letters `u`, `v`, `m`, `n` and `i`.
#[inline]
fn scale_of(byte: u8) -> Option<Scale>
    ensures { IfSome result (λ scale. letter scale ≡ byte) }
{
    match byte {
        b'u' => Some(Scale::Unit),
        b'v' => Some(Scale::VerticalSpace),
        b'm' => Some(Scale::Em),
        b'n' => Some(Scale::En),
        b'i' => Some(Scale::Inch),
        _ => None,
    }
}

/// So many of a scale, in units.
#[inline]
fn units_of(number: u32, scale: Scale, v: Height) -> Option<i32>
    requires { number ≤ 9999 }
    ensures value { IfSome result (λ n. scaled (pos v) scale (10000 * number) ≡ Some n) }
    ensures range { IfSome result (λ n. unsigned_abs n ≤ 2147483647) }
{
    match whole_units(scale, v) {
        Some(units) => Some((number * units) as i32),
        None => None,
    }
}

/// The value of an argument of digits that write no more than 9999, alone or with a letter of a scale after them. None of most others.
#[inline]
pub(crate) fn plain_value(argument: &[u8], scale: Scale, v: Height) -> Option<i32>
    ensures value { (here : ℤ) → IfSome result (λ n. value_of scale v here argument.now ≡ Some n) }
    ensures range { IfSome result (λ n. unsigned_abs n ≤ 2147483647) }
{
    let mut number = 0u32;
    for (at, byte) in argument.iter().enumerate() {
        if byte.is_ascii_digit() {
            if number > MOST {
                return None;
            }
            number = 10 * number + u32::from(*byte - b'0');
            continue;
        }
        if at == 0 || at + 1 < argument.len() {
            return None;
        }
        return match scale_of(*byte) {
            Some(scale) => units_of(number, scale, v),
            None => None,
        };
    }
    if argument.is_empty() {
        return None;
    }
    units_of(number, scale, v)
}

/// Digits that a text begins with.
#[derive(Clone, Copy)]
struct Digits {
    /// How many.
    count: usize,
    /// The number that they write.
    number: u32,
}

/// The digits that a text begins with: up to the first byte that is none, or after which they would write more than 9999.
#[inline(always)]
fn digits_of(text: &[u8]) -> Digits
    ensures reads { ReadsDigits text.now result.count result.number }
    ensures prefix { result.count ≤ length text.now }
{
    let mut number = 0u32;
    for (at, byte) in text.iter().enumerate() {
        if !byte.is_ascii_digit() || number > MOST {
            return Digits { count: at, number };
        }
        number = 10 * number + u32::from(*byte - b'0');
    }
    Digits {
        count: text.len(),
        number,
    }
}

/// Whether a condition's number is true, where it compares two numbers of digits, neither above 9999, by `<`, `>` or `=`. None of most
/// others.
#[inline]
pub(crate) fn plain_comparison(argument: &[u8]) -> Option<bool>
    ensures { (v : ℕ) → IfSome result (λ holds. is_true_number v argument.now ≡ holds) }
{
    let left = digits_of(argument);
    if left.count == 0 || left.count == argument.len() {
        return None;
    }
    let afterwards = &argument[left.count + 1..];
    let right = digits_of(afterwards);
    if right.count == 0 || right.count < afterwards.len() {
        return None;
    }
    match argument[left.count] {
        b'<' => Some(left.number < right.number),
        b'>' => Some(left.number > right.number),
        b'=' => Some(left.number == right.number),
        _ => None,
    }
}
