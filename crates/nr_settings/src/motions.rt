//! Horizontal motions and lines (CSTR 54, local horizontal motions; line drawing).
ghost use Rattle.std.specs.Prelude.{◌≡◌, drop};
ghost use Rattle.nr_units.specs.declared.units.Scale.TheVariants.{Em};
ghost use Rattle.nr_settings.specs.Numbers.{context};
ghost use Rattle.nr_settings.specs.Motions.{motion_by, motion, first_printing, rule_byte, rule as rule_of};

use crate::characters::prints;
use crate::lengths::{Height, Width};
use nr_units::{Ctx, Scale, read_expr, round_h};

/// So many cells of one byte.
#[derive(Clone, Copy)]
pub struct Repeated {
    pub cells: u32,
    pub byte: u8,
}

/// What a motion is read against: ems are its units.
fn context(v: Height, here: i64) -> Ctx
    ensures { result ≡ context Em v here }
{
    Ctx {
        v: i64::from(v.units()),
        here,
        default: Scale::Em,
    }
}

/// The width of a motion by so many units.
fn motion_by(units: Option<i64>) -> Option<Width>
    ensures { result ≡ motion_by units }
{
    match units {
        Some(units) if round_h(units) >= 0 => Some(Width::nearest(units, Width::zero())),
        _ => None,
    }
}

/// The width of the motion `\h'N'`, `here` being the present column in units: None where its number is absent, invalid
/// or negative. One past 32760 is 32760.
///
/// Proved: `\h` and `\l` make as many cells as the definition says. (`motion`, `rule`)
pub fn motion(argument: &[u8], v: Height, here: i64) -> Option<Width>
    ensures { result ≡ motion v here argument.now }
{
    motion_by(read_expr(argument, &context(v, here)).value)
}

/// The first byte, or `_` where there is none, or an escape, or one that prints nothing.
fn first_printing(text: &[u8]) -> u8
    ensures { result ≡ first_printing text.now }
{
    match text.first().copied() {
        Some(byte) if byte != b'\\' && prints(byte) => byte,
        _ => b'_',
    }
}

/// The byte of a line, from what stands after its number.
fn rule_byte(text: &[u8]) -> u8
    ensures { result ≡ rule_byte text.now }
{
    let Some((first, rest)) = text.split_first() else {
        return b'_';
    };
    if *first != b'\\' {
        return first_printing(text);
    }
    match rest.split_first() {
        Some((b'&', rest)) => first_printing(rest),
        _ => b'_',
    }
}

/// What stands after the first bytes of a text.
fn afterwards(text: &[u8], used: usize) -> &[u8]
    ensures { result.now ≡ drop used text.now }
{
    &text[used.min(text.len())..]
}

/// The cells of the line `\l'Nc'`, `here` being the present column in units.
pub fn rule(argument: &[u8], v: Height, here: i64) -> Repeated
    ensures { result ≡ rule_of v here argument.now }
{
    let read = read_expr(argument, &context(v, here));
    let cells = match motion_by(read.value) {
        None => 0,
        Some(width) => width.units() / 24,
    };
    Repeated {
        cells,
        byte: rule_byte(afterwards(argument, read.used)),
    }
}
