//! The signs and bars in front of an operand of a number expression.
ghost use Rattle.std.specs.Prelude.{◌≡◌};

use crate::units::in_range;

/// The signs and bars in front of an operand, as one map: `shift + x`, or `shift - x`.
///
/// `least` and `greatest` are those of 0 and the shifts at each bar: a result farther than 2147483647 from one of
/// them had a value out of range on the way.
#[derive(Clone, Copy, Default)]
pub(crate) struct Prefix {
    pub negated: bool,
    pub shift: i64,
    pub least: i64,
    pub greatest: i64,
}

impl Prefix {
    ghost use Rattle.nr_units.specs.Prefix.{no_prefix, after_minus, after_bar, shift_after_bar, prefixed, shifted, checked};
    ghost use Rattle.nr_units.specs.Units.{in_range};

    /// No sign and no bar.
    pub(crate) fn none() -> Self
        ensures { result ≡ no_prefix }
    {
        Prefix {
            negated: false,
            shift: 0,
            least: 0,
            greatest: 0,
        }
    }

    /// With a minus sign after it.
    pub(crate) fn after_minus(self) -> Self
        ensures { result ≡ after_minus self }
    {
        Prefix {
            negated: !self.negated,
            ..self
        }
    }

    /// The shift with a bar after, as near as it fits: one so far makes every value out of range.
    fn shift_after_bar(self, here: i64) -> i64
        ensures { result ≡ shift_after_bar here self }
    {
        if self.negated {
            self.shift.saturating_add(here)
        } else {
            self.shift.saturating_sub(here)
        }
    }

    /// With a bar after it.
    pub(crate) fn after_bar(self, here: i64) -> Self
        ensures { result ≡ after_bar here self }
    {
        Prefix {
            negated: self.negated,
            shift: self.shift_after_bar(here),
            least: self.least.min(self.shift),
            greatest: self.greatest.max(self.shift),
        }
    }

    /// The result, if it is in range.
    fn shifted(self, x: i32) -> Option<i32>
        ensures { result ≡ in_range (shifted self x) }
    {
        let x = i64::from(x);
        if self.negated {
            in_range(self.shift.saturating_sub(x))
        } else {
            in_range(self.shift.saturating_add(x))
        }
    }

    /// The result, if all values on the way were in range.
    fn checked(self, result_value: i32) -> Option<i32>
        ensures { result ≡ checked self result_value }
    {
        let wide = i64::from(result_value);
        if self.greatest > wide + 2_147_483_647 {
            return None;
        }
        if self.least < wide - 2_147_483_647 {
            return None;
        }
        Some(result_value)
    }

    /// What it makes of a value.
    pub(crate) fn prefixed(self, value: Option<i32>) -> Option<i32>
        ensures { result ≡ prefixed self value }
    {
        let shifted = self.shifted(value?)?;
        self.checked(shifted)
    }
}
