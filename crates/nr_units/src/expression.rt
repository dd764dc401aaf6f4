//! What a number expression is read against, and what is read of it.
ghost use Rattle.std.specs.Prelude.{◌≡◌};

use crate::units::Scale;

/// What an expression is read against: the vertical space `v` and the present place `here` in units, and the scale of
/// numbers without a letter.
#[derive(Clone, Copy)]
pub struct Ctx {
    pub v: i64,
    pub here: i64,
    pub default: Scale,
}

/// What was read: the value, where there is one, and the number of bytes.
#[derive(Clone, Copy)]
pub struct Read {
    pub value: Option<i64>,
    pub used: usize,
}

impl Read {
    /// So many bytes with this value.
    pub(crate) fn of(value: Option<i32>, used: usize) -> Read
        ensures { result ≡ record { value = value; used = used } }
    {
        let value = match value {
            Some(value) => Some(i64::from(value)),
            None => None,
        };
        Read { value, used }
    }
}
