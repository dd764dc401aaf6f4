//! The longest prefix of a text that is a number expression.
ghost use Rattle.std.specs.Prelude.{◌≡◌, IfSome, false};
ghost use Rattle.nr_units.specs.Expression.{IsAnswer, expression_value};
ghost use Rattle.nr_units.specs.Grammar.{Expression, expression_text};
ghost use Rattle.nr_units.specs.LongestPrefix.{read_of};
ghost use Rattle.nr_units.specs.Units.{IsInRange};

use crate::expression::{Ctx, Read};
use crate::level::Level;
use crate::scanner::{Scanner, Step};
use crate::symbols::{Symbol, symbol_of};

// What `read_expr` answers, where no byte that it looks at opens a parenthesis.
//
// The outermost level is all that is kept, and no room for what waits at parentheses.
fn read_outermost(text: &[u8], ctx: &Ctx) -> Option<Read>
    ensures answer { IfSome result (λ r. IsAnswer ctx.now text.now r) }
    ensures computed { IfSome result (λ r. r ≡ read_of ctx.now text.now) }
    ensures range { IfSome result (λ r. IfSome r.value IsInRange) }
{
    let mut level = Level::fresh();
    let mut longest = Read {
        value: None,
        used: 0,
    };
    for (at, byte) in text.iter().enumerate() {
        if let Some(mode) = level.mode.after_digit(*byte) {
            level.mode = mode;
            continue;
        }
        let Some(symbol) = symbol_of(*byte) else {
            return Some(level.read(ctx, at, longest));
        };
        if matches!(symbol, Symbol::Open) {
            return None;
        }
        if !level.take(symbol, ctx, at, &mut longest) {
            return Some(level.read(ctx, at, longest));
        }
    }
    Some(level.read(ctx, text.len(), longest))
}

// What `read_expr` answers, with room for what waits at 64 parentheses.
#[inline(never)]
fn read_nested(text: &[u8], ctx: &Ctx) -> Read
    ensures answer { IsAnswer ctx.now text.now result }
    ensures computed { result ≡ read_of ctx.now text.now }
    ensures range { IfSome result.value IsInRange }
{
    let mut scanner = Scanner::new();
    let mut longest = Read {
        value: None,
        used: 0,
    };
    for (at, byte) in text.iter().enumerate() {
        let Some(symbol) = symbol_of(*byte) else {
            return scanner.read(ctx, at, longest);
        };
        longest = scanner.noted(symbol, ctx, at, longest);
        match scanner.step(symbol, ctx) {
            Step::Taken => {}
            Step::Stuck => return scanner.read(ctx, at, longest),
            Step::TooDeep => return Read {
                value: None,
                used: at,
            },
        }
    }
    scanner.read(ctx, text.len(), longest)
}

/// Reads the longest prefix of a text that is a number expression (CSTR 54, numerical input).
///
/// An expression is evaluated from left to right without precedence; blanks stand in it inside parentheses only,
/// before or after an operand or operator. Where a parenthesis is opened while 64 are open, the reading ends: there is
/// no value, and `used` is that place, counted from 0. `ctx.v` and `ctx.here` may be any numbers: a value out of range
/// that comes of them is none.
///
/// Proved: Of a text the longest prefix is read that is a number expression of the grammar, with its value from left
/// to right, and nothing where no prefix is one.
/// Proved: Where a parenthesis is opened while 64 are open, in a text that may still become an expression, there is
/// no value.
/// Proved: Two expressions of one text have one value, the answer is one function of the text, and a value is from
/// -2147483647 to 2147483647.
#[tactic(auto, using(crate::proofs::ExpressionPrefixes::one_value))]
pub fn read_expr(text: &[u8], ctx: &Ctx) -> Read
    ensures answer { IsAnswer ctx.now text.now result }

    // No text has two values.
    ensures unambiguous { (a b : Expression) → expression_text false a ≡ expression_text false b
        → expression_value ctx.now a ≡ expression_value ctx.now b }

    // So the answer is one function of the text, and its value in range.
    ensures computed { result ≡ read_of ctx.now text.now }
    ensures range { IfSome result.value IsInRange }
{
    match read_outermost(text, ctx) {
        Some(read) => read,
        None => read_nested(text, ctx),
    }
}
