//! The bytes of number expressions.
ghost use Rattle.std.specs.Prelude.{◌≡◌};
ghost use Rattle.nr_units.specs.Scan.{symbol_of};

use crate::operators::Operator;
use crate::units::Scale;

/// What a byte is in an expression.
#[derive(Clone, Copy)]
pub(crate) enum Symbol {
    /// A digit, 0 to 9.
    Digit(u8),
    /// `.`
    Point,
    /// The letter of a scale.
    Letter(Scale),
    /// An operator of one byte; `+` and `-` may be signs.
    Mark(Operator),
    /// `|`
    Bar,
    /// `(`
    Open,
    /// `)`
    Close,
    /// A space.
    Blank,
}

/// What a byte is in an expression; None for one that stands in none.
pub(crate) fn symbol_of(byte: u8) -> Option<Symbol>
    ensures { result ≡ symbol_of byte }
{
    Some(match byte {
        b'0'..=b'9' => Symbol::Digit(byte - b'0'),
        b'.' => Symbol::Point,
        b'i' => Symbol::Letter(Scale::Inch),
        b'c' => Symbol::Letter(Scale::Centimetre),
        b'P' => Symbol::Letter(Scale::Pica),
        b'v' => Symbol::Letter(Scale::VerticalSpace),
        b'm' => Symbol::Letter(Scale::Em),
        b'n' => Symbol::Letter(Scale::En),
        b'p' => Symbol::Letter(Scale::Point),
        b'u' => Symbol::Letter(Scale::Unit),
        b'+' => Symbol::Mark(Operator::Add),
        b'-' => Symbol::Mark(Operator::Subtract),
        b'*' => Symbol::Mark(Operator::Multiply),
        b'/' => Symbol::Mark(Operator::Divide),
        b'%' => Symbol::Mark(Operator::Remainder),
        b'<' => Symbol::Mark(Operator::Less),
        b'>' => Symbol::Mark(Operator::Greater),
        b'=' => Symbol::Mark(Operator::Equal),
        b'&' => Symbol::Mark(Operator::And),
        b':' => Symbol::Mark(Operator::Or),
        b'|' => Symbol::Bar,
        b'(' => Symbol::Open,
        b')' => Symbol::Close,
        b' ' => Symbol::Blank,
        _ => return None,
    })
}
