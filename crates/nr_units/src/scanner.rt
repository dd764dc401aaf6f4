//! The scan of a number expression, one byte after another.
ghost use Rattle.std.specs.Prelude.{◌≡◌, ℕ};

use crate::expression::{Ctx, Read};
use crate::level::{Level, Mode, Preceding, Waiting};
use crate::operators::Operator;
use crate::symbols::Symbol;
use arrayvec::ArrayVec;

/// What a symbol did.
#[derive(Clone, Copy)]
pub(crate) enum Step {
    /// An expression may go on so.
    Taken,
    /// No expression goes on so; the scan is unchanged.
    Stuck,
    /// It opens a parenthesis while 64 are open.
    TooDeep,
}

/// What is kept of the bytes so far: the innermost level, and what waits at each open parenthesis.
#[derive(Drop)]
pub(crate) struct Scanner {
    pub level: Level,
    pub outer: ArrayVec<Waiting, 64>,
}

impl Scanner {
    ghost use Rattle.nr_units.specs.Scan.{start, whole_value};
    ghost use Rattle.nr_units.specs.Scanner.{scan_of, Steps, read_at, noted};
    ghost use Rattle.nr_units.specs.declared.symbols.Symbol.TheVariants.{Digit, Mark, Open, Close};
    ghost use Rattle.nr_units.specs.declared.expression.Ctx.{Ctx};

    /// Before the first byte.
    pub(crate) fn new() -> Self
        ensures { scan_of result ≡ start }
    {
        Scanner {
            level: Level::fresh(),
            outer: ArrayVec::new(),
        }
    }

    /// The value, if the bytes so far are an expression.
    pub(crate) fn value(&self, ctx: &Ctx) -> Option<Option<i32>>
        ensures { result ≡ whole_value ctx.now (scan_of self.now) }
    {
        if self.outer.is_empty() {
            self.level.value(ctx)
        } else {
            None
        }
    }

    /// The longest expression among the bytes so far, of which there are `at`: all of them, or the one given.
    pub(crate) fn read(&self, ctx: &Ctx, at: usize, longest: Read) -> Read
        ensures { result ≡ read_at (whole_value ctx.now (scan_of self.now)) at longest }
    {
        match self.value(ctx) {
            Some(Some(value)) => Read {
                value: Some(i64::from(value)),
                used: at,
            },
            Some(None) => Read {
                value: None,
                used: at,
            },
            None => longest,
        }
    }

    /// The same before an operator; before another symbol the one given.
    pub(crate) fn noted(&self, symbol: Symbol, ctx: &Ctx, at: usize, longest: Read) -> Read
        ensures { result ≡ noted (whole_value ctx.now (scan_of self.now)) symbol at longest }
    {
        match symbol {
            Symbol::Mark(_) => self.read(ctx, at, longest),
            _ => longest,
        }
    }

    /// Takes the next symbol.
    pub(crate) fn step(&mut self, symbol: Symbol, ctx: &Ctx) -> Step
        ensures { Steps ctx.now (scan_of self.old) symbol result (scan_of self.new) }
    {
        match symbol {
            Symbol::Digit(digit) => self.digit(digit),
            Symbol::Mark(operator) => self.mark(operator, ctx),
            Symbol::Open => self.open(),
            Symbol::Close => self.close(ctx),
            _ => self.go_on(symbol, ctx),
        }
    }

    fn digit(&mut self, digit: u8) -> Step
        ensures { (c : Ctx) → Steps c (scan_of self.old) (Digit digit) result (scan_of self.new) }
    {
        let digit = u32::from(digit);
        match self.level.mode {
            Mode::Before(_) => {
                self.level.mode = Mode::Whole(digit);
                Step::Taken
            }
            Mode::LonePoint => {
                self.level.mode = Mode::more_fraction(0, 0, 1000, digit);
                Step::Taken
            }
            Mode::Whole(whole) => {
                self.level.mode = Mode::more_whole(whole, digit);
                Step::Taken
            }
            Mode::Fraction {
                whole,
                fraction,
                place,
            } => {
                self.level.mode = Mode::more_fraction(whole, fraction, place, digit);
                Step::Taken
            }
            Mode::Complete(_) => Step::Stuck,
        }
    }

    /// Takes an operator's byte, which may also be a sign or the end of a longer operator.
    fn mark(&mut self, operator: Operator, ctx: &Ctx) -> Step
        ensures { Steps ctx.now (scan_of self.old) (Mark operator) result (scan_of self.new) }
    {
        if let Mode::Before(_) = self.level.mode {
            return self.go_on(Symbol::Mark(operator), ctx);
        }
        let Some(value) = self.level.value(ctx) else {
            return Step::Stuck;
        };
        self.level.waiting = Waiting::following(value, operator);
        self.level.mode = Mode::Before(Preceding::AnOperator);
        Step::Taken
    }

    fn open(&mut self) -> Step
        ensures { (c : Ctx) → Steps c (scan_of self.old) Open result (scan_of self.new) }
    {
        let Mode::Before(_) = self.level.mode else {
            return Step::Stuck;
        };
        if self.outer.is_full() {
            return Step::TooDeep;
        }
        self.outer.push(self.level.waiting);
        self.level = Level::fresh();
        Step::Taken
    }

    fn close(&mut self, ctx: &Ctx) -> Step
        ensures { Steps ctx.now (scan_of self.old) Close result (scan_of self.new) }
    {
        let Some(value) = self.level.value(ctx) else {
            return Step::Stuck;
        };
        let Some(waiting) = self.outer.pop() else {
            return Step::Stuck;
        };
        self.level = Level::completed(waiting.finished(value));
        Step::Taken
    }

    /// Takes a symbol that is no digit and no parenthesis.
    fn go_on(&mut self, symbol: Symbol, ctx: &Ctx) -> Step
        requires digit { (d : ℕ) → symbol ≡ Digit d → ⊥ }
        requires open { symbol ≡ Open → ⊥ }
        requires close { symbol ≡ Close → ⊥ }
        ensures { Steps ctx.now (scan_of self.old) symbol result (scan_of self.new) }
    {
        let Some(level) = self.level.after(symbol, !self.outer.is_empty(), ctx) else {
            return Step::Stuck;
        };
        self.level = level;
        Step::Taken
    }
}
