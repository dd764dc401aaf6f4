//! Numbers in the arguments of requests (CSTR 54, numerical parameter input).
ghost use Rattle.std.specs.Prelude.{◌≡◌, ◌<◌, ◌≤◌, ◌^◌, IfSome, pos, unsigned_abs};
ghost use Rattle.nr_settings.specs.Numbers.{value_of, change_of, applied, is_true_number, first_value, first_change, counted_lines, is_zero};
ghost use Rattle.nr_units.specs.declared.units.Scale.TheVariants.{Unit};

use crate::arguments::Arguments;
use crate::lengths::Height;
use crate::plain_numbers::{plain_comparison, plain_value};
use nr_units::{Ctx, Scale, read_expr};

/// What the argument of a signed request says.
#[derive(Clone, Copy)]
pub enum Change {
    /// The new value.
    To(i32),
    /// What is added to the old one.
    By(i32),
}

impl Change {
    /// The new value, from the old one.
    pub fn applied(self, old: i64) -> i64
        requires { unsigned_abs old < 2 ^ 32 }
        ensures { result ≡ applied self old }
    {
        match self {
            Change::To(n) => i64::from(n),
            Change::By(n) => old + i64::from(n),
        }
    }
}

/// The value of a number argument under a default scale, `v` being the vertical space and `here` the present place in
/// units. None for one that is absent or invalid.
///
/// Proved: A number's value, what a signed one makes of an old value, and whether that of a condition is true are
/// those of the definition. (`value_of`, `change_of`, `is_true_number`, `Change::applied`)
pub(crate) fn value_of(argument: &[u8], scale: Scale, v: Height, here: i64) -> Option<i32>
    ensures value { result ≡ value_of scale v here argument.now }
    ensures range { IfSome result (λ n. unsigned_abs n ≤ 2147483647) }
{
    if argument.is_empty() {
        return None;
    }
    if let Some(n) = plain_value(argument, scale, v) {
        return Some(n);
    }
    let ctx = Ctx {
        v: i64::from(v.units()),
        here,
        default: scale,
    };
    match read_expr(argument, &ctx).value {
        Some(n) => Some(n as i32),
        None => None,
    }
}

/// What the argument of a signed request says; None for one that is absent or invalid.
pub(crate) fn change_of(argument: &[u8], scale: Scale, v: Height, here: i64) -> Option<Change>
    ensures { result ≡ change_of scale v here argument.now }
{
    let Some((first, rest)) = argument.split_first() else {
        return None;
    };
    let signed = *first == b'+' || *first == b'-';
    let number = if signed { rest } else { argument };
    let Some(n) = value_of(number, scale, v, here) else {
        return None;
    };
    if !signed {
        return Some(Change::To(n));
    }
    Some(Change::By(if *first == b'-' { -n } else { n }))
}

/// Whether the number of a condition is true: above 0. One that is absent or invalid is false.
pub fn is_true_number(argument: &[u8], v: Height) -> bool
    ensures { result ≡ is_true_number v argument.now }
{
    if let Some(holds) = plain_comparison(argument) {
        return holds;
    }
    match value_of(argument, Scale::Unit, v, 0) {
        Some(n) => n > 0,
        None => false,
    }
}

/// The value of the first number of a request's line.
pub(crate) fn first_value(line: &[u8], scale: Scale, v: Height, here: i64) -> Option<i32>
    ensures value { result ≡ first_value scale v here line.now }
    ensures range { IfSome result (λ n. unsigned_abs n ≤ 2147483647) }
{
    value_of(Arguments::of(line).number(), scale, v, here)
}

/// What the first number of a signed request's line says.
pub(crate) fn first_change(line: &[u8], scale: Scale, v: Height, here: i64) -> Option<Change>
    ensures { result ≡ first_change scale v here line.now }
{
    change_of(Arguments::of(line).number(), scale, v, here)
}

/// The number of lines that `.ce` or `.ul` counts: one where the line has no number, none where it is below 1.
pub(crate) fn counted_lines(line: &[u8], v: Height) -> u32
    ensures { result ≡ counted_lines line.now v }
{
    match first_value(line, Scale::Unit, v, 0) {
        None => 1,
        Some(n) if n < 0 => 0,
        Some(n) => n as u32,
    }
}

/// Whether the first number of a request's line is there, and 0.
pub(crate) fn is_zero(line: &[u8], v: Height) -> bool
    ensures { result ≡ is_zero (first_value Unit v (pos 0) line.now) }
{
    match first_value(line, Scale::Unit, v, 0) {
        None => false,
        Some(n) => n == 0,
    }
}
