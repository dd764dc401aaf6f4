//! One level of a number expression: what is read of it, from its start or its parenthesis on.
ghost use Rattle.std.specs.Prelude.{◌≡◌, ◌-◌, Some, IfSome, option_and_then};
ghost use Rattle.std.specs.Option.{option_map};

use crate::expression::{Ctx, Read};
use crate::operators::Operator;
use crate::prefix::Prefix;
use crate::symbols::Symbol;
use crate::units::Scale;

/// What stands on the left of an operand in its level.
#[derive(Clone, Copy)]
pub(crate) struct Left {
    pub value: Option<i32>,
    pub operator: Operator,
}

/// What waits for an operand.
#[derive(Clone, Copy, Default)]
pub(crate) struct Waiting {
    pub left: Option<Left>,
    pub prefix: Prefix,
}

/// What stands right in front of the place where an operand is wanted.
#[derive(Clone, Copy)]
pub(crate) enum Preceding {
    /// The beginning, a blank, a bar, or an operator that no `=` can make longer.
    Nothing,
    /// An operator of one byte.
    AnOperator,
    /// A sign: no blank may follow.
    ASign,
}

/// How far the operand is read.
#[derive(Clone, Copy)]
pub(crate) enum Mode {
    Before(Preceding),
    /// A point without digits in front.
    LonePoint,
    /// Digits: their value, or the greatest `u32` where that is less.
    Whole(u32),
    /// The whole part as before, the fraction in ten-thousandths, and what the next digit counts.
    Fraction {
        whole: u32,
        fraction: u32,
        place: u32,
    },
    /// The operand ended, with the value of the level so far.
    Complete(Option<i32>),
}

/// A level of an expression.
#[derive(Clone, Copy)]
pub(crate) struct Level {
    pub mode: Mode,
    pub waiting: Waiting,
}

impl Waiting {
    ghost use Rattle.nr_units.specs.Prefix.{no_prefix};
    ghost use Rattle.nr_units.specs.Scan.{nothing_waits, finished, joined_left};

    /// Nothing on the left and nothing in front.
    pub(crate) fn nothing() -> Self
        ensures { result ≡ nothing_waits }
    {
        Waiting {
            left: None,
            prefix: Prefix::none(),
        }
    }

    /// After this value and operator.
    pub(crate) fn following(value: Option<i32>, operator: Operator) -> Self
        ensures { result ≡ record {
          left = Some (record { value = value; operator = operator });
          prefix = no_prefix;
        } }
    {
        Waiting {
            left: Some(Left { value, operator }),
            prefix: Prefix::none(),
        }
    }

    /// The value of the level, with this value for the operand.
    pub(crate) fn finished(self, value: Option<i32>) -> Option<i32>
        ensures { result ≡ finished self value }
    {
        let operand = self.prefix.prefixed(value);
        match self.left {
            None => operand,
            Some(left) => left.operator.applied(left.value?, operand?),
        }
    }
}

impl Mode {
    ghost use Rattle.nr_units.specs.Character.{code};
    ghost use Rattle.nr_units.specs.Scan.{more_whole, more_fraction, with_digit, with_point, number_of, symbol_of};
    ghost use Rattle.nr_units.specs.declared.symbols.Symbol.TheVariants.{Digit};

    /// With a digit after the whole part.
    pub(crate) fn more_whole(whole: u32, digit: u32) -> Self
        ensures { result ≡ more_whole whole digit }
    {
        Mode::Whole(whole.saturating_mul(10).saturating_add(digit))
    }

    /// After the byte, if it is a digit of a whole number.
    #[inline(always)]
    pub(crate) fn after_digit(self, byte: u8) -> Option<Self>
        ensures { IfSome result (λ mode. (symbol_of byte ≡ Some (Digit (byte - code "0")))
            × (with_digit (byte - code "0") self ≡ Some mode)) }
    {
        if !byte.is_ascii_digit() {
            return None;
        }
        let digit = u32::from(byte - b'0');
        match self {
            Mode::Before(_) => Some(Mode::Whole(digit)),
            Mode::Whole(whole) => Some(Mode::more_whole(whole, digit)),
            _ => None,
        }
    }

    /// With a digit after the fraction.
    pub(crate) fn more_fraction(whole: u32, fraction: u32, place: u32, digit: u32) -> Self
        ensures { result ≡ more_fraction whole fraction place digit }
    {
        Mode::Fraction {
            whole,
            fraction: fraction.saturating_add(place.saturating_mul(digit)),
            place: place / 10,
        }
    }

    fn with_point(self) -> Option<Self>
        ensures { result ≡ with_point self }
    {
        match self {
            Mode::Before(_) => Some(Mode::LonePoint),
            Mode::Whole(whole) => Some(Mode::Fraction {
                whole,
                fraction: 0,
                place: 1000,
            }),
            _ => None,
        }
    }

    /// The ten-thousandths of a number that may end here.
    fn number(self) -> Option<u64>
        ensures { result ≡ number_of self }
    {
        match self {
            Mode::Whole(whole) => Some(10_000 * u64::from(whole)),
            Mode::Fraction {
                whole,
                fraction,
                ..
            } => Some(10_000 * u64::from(whole) + u64::from(fraction)),
            _ => None,
        }
    }
}

impl Level {
    ghost use Rattle.nr_units.specs.Scan.{fresh, completed, level_value, in_mode, with_point, with_letter, with_mark, bar_in, blank_in, with_sign, widened_left, after_operator};

    /// Where an expression begins.
    pub(crate) fn fresh() -> Self
        ensures { result ≡ fresh }
    {
        Level {
            mode: Mode::Before(Preceding::Nothing),
            waiting: Waiting::nothing(),
        }
    }

    /// Where an operand ended, with this value of the level.
    pub(crate) fn completed(value: Option<i32>) -> Self
        ensures { result ≡ completed value }
    {
        Level {
            mode: Mode::Complete(value),
            waiting: Waiting::nothing(),
        }
    }

    /// The value of the level, if an operand may end here.
    pub(crate) fn value(self, ctx: &Ctx) -> Option<Option<i32>>
        ensures { result ≡ level_value ctx.now self }
    {
        if let Mode::Complete(value) = self.mode {
            return Some(value);
        }
        let number = self.mode.number()?;
        Some(self.waiting.finished(ctx.default.scaled(number, ctx.v)))
    }

    fn with_point(self) -> Option<Self>
        ensures { result ≡ option_map (in_mode self) (with_point self.mode) }
    {
        let mode = self.mode.with_point()?;
        Some(Level {
            mode,
            waiting: self.waiting,
        })
    }

    fn with_letter(self, scale: Scale, ctx: &Ctx) -> Option<Self>
        ensures { result ≡ with_letter ctx.now scale self }
    {
        let number = self.mode.number()?;
        Some(Level::completed(self.waiting.finished(scale.scaled(number, ctx.v))))
    }

    /// With an operator of one byte, a sign, or the `=` that makes an operator longer.
    fn with_mark(self, operator: Operator, ctx: &Ctx) -> Option<Self>
        ensures { result ≡ with_mark ctx.now operator self }
    {
        if let Mode::Before(preceding) = self.mode {
            return self.waiting.with_sign(preceding, operator);
        }
        let value = self.value(ctx)?;
        let left = Some(Left { value, operator });
        Some(Level {
            mode: Mode::Before(Preceding::AnOperator),
            waiting: Waiting {
                left,
                prefix: Prefix::none(),
            },
        })
    }

    fn with_bar(self, here: i64) -> Option<Self>
        ensures { result ≡ bar_in here self.waiting self.mode }
    {
        if let Mode::Before(_) = self.mode {
            let Waiting { left, prefix } = self.waiting;
            let waiting = Waiting {
                left,
                prefix: prefix.after_bar(here),
            };
            return Some(Level {
                mode: Mode::Before(Preceding::Nothing),
                waiting,
            });
        }
        None
    }

    /// With a blank, inside parentheses.
    fn with_blank(self, ctx: &Ctx) -> Option<Self>
        ensures { result ≡ blank_in ctx.now self.waiting self.mode }
    {
        match self.mode {
            Mode::Before(Preceding::ASign) => None,
            Mode::Before(_) => Some(Level {
                mode: Mode::Before(Preceding::Nothing),
                waiting: self.waiting,
            }),
            _ => Some(Level::completed(self.value(ctx)?)),
        }
    }
}

impl Level {
    ghost use Rattle.nr_units.specs.Scan.{level_after};

    /// After a symbol that is no digit and no parenthesis; None where no expression goes on so.
    pub(crate) fn after(self, symbol: Symbol, inside: bool, ctx: &Ctx) -> Option<Self>
        ensures { result ≡ level_after ctx.now inside self symbol }
    {
        match symbol {
            Symbol::Point => self.with_point(),
            Symbol::Letter(scale) => self.with_letter(scale, ctx),
            Symbol::Mark(operator) => self.with_mark(operator, ctx),
            Symbol::Bar => self.with_bar(ctx.here),
            Symbol::Blank if inside => self.with_blank(ctx),
            Symbol::Blank | Symbol::Digit(_) | Symbol::Open | Symbol::Close => None,
        }
    }
}

impl Level {
    ghost use Rattle.std.specs.Prelude.{[], true, false, None};
    ghost use Rattle.nr_units.specs.Scan.{with_digit, with_mark, in_mode, level_value, on_level, outermost, after_symbol};
    ghost use Rattle.nr_units.specs.Scanner.{read_at, noted};
    ghost use Rattle.nr_units.specs.declared.symbols.Symbol.TheVariants.{Open};

    /// With a digit.
    fn with_digit(self, digit: u8) -> Option<Self>
        ensures { result ≡ option_map (in_mode self) (with_digit digit self.mode) }
    {
        let digit = u32::from(digit);
        let mode = match self.mode {
            Mode::Before(_) => Mode::Whole(digit),
            Mode::LonePoint => Mode::more_fraction(0, 0, 1000, digit),
            Mode::Whole(whole) => Mode::more_whole(whole, digit),
            Mode::Fraction {
                whole,
                fraction,
                place,
            } => Mode::more_fraction(whole, fraction, place, digit),
            Mode::Complete(_) => return None,
        };
        Some(Level {
            mode,
            waiting: self.waiting,
        })
    }

    /// After a symbol that opens no parenthesis, outside parentheses; None where no expression goes on so.
    pub(crate) fn step(self, symbol: Symbol, ctx: &Ctx) -> Option<Self>
        requires { symbol ≡ Open → ⊥ }
        ensures { on_level [] result ≡ after_symbol ctx.now (outermost self) symbol }
    {
        match symbol {
            Symbol::Digit(digit) => self.with_digit(digit),
            _ => self.after(symbol, false, ctx),
        }
    }

    /// Takes a symbol that opens no parenthesis, outside parentheses, after `at` bytes, and notes the longest expression
    /// before it. Answers whether an expression may go on so; where none does, it is unchanged.
    #[inline(never)]
    pub(crate) fn take(&mut self, symbol: Symbol, ctx: &Ctx, at: usize, longest: &mut Read) -> bool
        requires { symbol ≡ Open → ⊥ }
        ensures taken { result ≡ true → after_symbol ctx.now (outermost self.old) symbol
            ≡ Some (outermost self.new) }
        ensures stuck { result ≡ false → after_symbol ctx.now (outermost self.old) symbol ≡ None }
        ensures same { result ≡ false → self.new ≡ self.old }
        ensures noted { longest.new ≡ noted (level_value ctx.now self.old) symbol at longest.old }
    {
        if let Symbol::Mark(operator) = symbol {
            return self.take_mark(operator, ctx, at, longest);
        }
        let Some(next) = self.step(symbol, ctx) else {
            return false;
        };
        *self = next;
        true
    }

    /// The same with an operator's byte, which may also be a sign or the end of a longer operator.
    #[inline(always)]
    fn take_mark(&mut self, operator: Operator, ctx: &Ctx, at: usize, longest: &mut Read) -> bool
        ensures taken { result ≡ true → with_mark ctx.now operator self.old ≡ Some self.new }
        ensures stuck { result ≡ false → with_mark ctx.now operator self.old ≡ None }
        ensures same { result ≡ false → self.new ≡ self.old }
        ensures noted { longest.new ≡ read_at (level_value ctx.now self.old) at longest.old }
    {
        if let Mode::Before(_) = self.mode {
            let Some(next) = self.with_mark(operator, ctx) else {
                return false;
            };
            *self = next;
            return true;
        }
        let Some(value) = self.value(ctx) else {
            return false;
        };
        *longest = Read::of(value, at);
        self.waiting = Waiting::following(value, operator);
        self.mode = Mode::Before(Preceding::AnOperator);
        true
    }

    /// The longest expression among the bytes so far, of which there are `at`: all of them, or the one given.
    pub(crate) fn read(self, ctx: &Ctx, at: usize, longest: Read) -> Read
        ensures { result ≡ read_at (level_value ctx.now self) at longest }
    {
        match self.value(ctx) {
            Some(value) => Read::of(value, at),
            None => longest,
        }
    }
}

impl Waiting {
    ghost use Rattle.nr_units.specs.Scan.{with_sign, widened_left};

    /// An operator's byte where an operand is wanted: a sign, or the `=` after an operator.
    fn with_sign(self, preceding: Preceding, operator: Operator) -> Option<Level>
        ensures { result ≡ with_sign preceding operator self }
    {
        let mode = Mode::Before(Preceding::ASign);
        match (operator, preceding) {
            (Operator::Add, _) => Some(Level {
                mode,
                waiting: self,
            }),
            (Operator::Subtract, _) => {
                let waiting = Waiting {
                    left: self.left,
                    prefix: self.prefix.after_minus(),
                };
                Some(Level { mode, waiting })
            }
            (Operator::Equal, Preceding::AnOperator) => {
                let left = self.left?.widened()?;
                let waiting = Waiting {
                    left: Some(left),
                    prefix: self.prefix,
                };
                Some(Level {
                    mode: Mode::Before(Preceding::Nothing),
                    waiting,
                })
            }
            _ => None,
        }
    }
}

impl Left {
    ghost use Rattle.nr_units.specs.Scan.{widened};

    /// With `=` after the operator.
    fn widened(self) -> Option<Self>
        ensures { result ≡ option_map (λ o. record { value = self.value; operator = o })
            (widened self.operator) }
    {
        let operator = match self.operator {
            Operator::Less => Operator::LessOrEqual,
            Operator::Greater => Operator::GreaterOrEqual,
            Operator::Equal => Operator::DoubleEqual,
            _ => return None,
        };
        Some(Left {
            value: self.value,
            operator,
        })
    }
}
