//! The operators of number expressions.
ghost use Rattle.std.specs.Prelude.{◌≡◌};
ghost use Rattle.nr_units.specs.Expression.{applied, quotient, remainder};

use crate::units::in_range;

/// An operator between two operands (CSTR 54, numerical input).
#[derive(Clone, Copy)]
pub(crate) enum Operator {
    /// `+`
    Add,
    /// `-`
    Subtract,
    /// `*`
    Multiply,
    /// `/`, truncating toward zero.
    Divide,
    /// `%`, with the sign of the dividend.
    Remainder,
    /// `<`
    Less,
    /// `<=`
    LessOrEqual,
    /// `>`
    Greater,
    /// `>=`
    GreaterOrEqual,
    /// `=`
    Equal,
    /// `==`, the same as `=`.
    DoubleEqual,
    /// `&`: 1 where both operands are above 0, else 0.
    And,
    /// `:`: 1 where at least one operand is above 0, else 0.
    Or,
}

impl Operator {
    /// The value of `x` and `y` joined: None for a divisor of 0, or where it is out of range.
    pub(crate) fn applied(self, x: i32, y: i32) -> Option<i32>
        ensures { result ≡ applied self x y }
    {
        let (divided, divisor) = (x, y);
        let (x, y) = (i64::from(x), i64::from(y));
        match self {
            Operator::Add => in_range(x + y),
            Operator::Subtract => in_range(x - y),
            Operator::Multiply => in_range(x * y),
            Operator::Divide => quotient(divided, divisor),
            Operator::Remainder => remainder(divided, divisor),
            Operator::Less => Some(i32::from(x < y)),
            Operator::LessOrEqual => Some(i32::from(x <= y)),
            Operator::Greater => Some(i32::from(x > y)),
            Operator::GreaterOrEqual => Some(i32::from(x >= y)),
            Operator::Equal | Operator::DoubleEqual => Some(i32::from(x == y)),
            Operator::And => Some(i32::from(x > 0 && y > 0)),
            Operator::Or => Some(i32::from(x > 0 || y > 0)),
        }
    }
}

/// `x / y`, truncated toward zero.
fn quotient(x: i32, y: i32) -> Option<i32>
    ensures { result ≡ quotient x y }
{
    if y == 0 {
        return None;
    }
    in_range(i64::from(x) / i64::from(y))
}

/// What `quotient` leaves of `x`.
fn remainder(x: i32, y: i32) -> Option<i32>
    ensures { result ≡ remainder x y }
{
    if y == 0 {
        return None;
    }
    in_range(i64::from(x) % i64::from(y))
}
