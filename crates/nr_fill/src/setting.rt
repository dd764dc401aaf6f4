//! How a line is set. (CSTR 54, sections 4.1 and 4.2.)
ghost use Rattle.std.specs.Prelude.{◌≡◌, ◌/◌, ◌<◌, ◌^◌};
ghost use Rattle.nr_fill.specs.Setting.{shift, is_spread};
ghost use Rattle.nr_fill.specs.Spreading.{shared, extra_at, no_extra};

use crate::margins::Turn;
pub use nr_settings::Align;

/// How a line is set.
#[derive(Clone, Copy)]
pub struct Setting {
    pub align: Align,
    /// How many blanks stand before the indent.
    pub offset: u32,
}

/// By how many blanks the gaps of a line are widened.
#[derive(Clone, Copy)]
pub struct Extra {
    /// Each gap.
    pub(crate) each: usize,
    /// 1 more those above this one,
    pub(crate) above: usize,
    /// up to this one.
    pub(crate) up_to: usize,
}

/// How far a line that leaves so many cells stands from the indent.
pub(crate) fn shift_of(align: Align, left_over: usize) -> usize
    ensures { result ≡ shift align left_over }
{
    match align {
        Align::Left | Align::Spread => 0,
        Align::Right => left_over,
        Align::Centre => left_over / 2,
    }
}

/// Whether a line that leaves so many cells and has so many gaps is spread.
pub(crate) fn spreads_gaps(align: Align, left_over: usize, gaps: usize) -> bool
    ensures { result ≡ is_spread align left_over gaps }
{
    match align {
        Align::Spread => left_over > 0 && gaps > 0,
        Align::Left | Align::Right | Align::Centre => false,
    }
}

impl Extra {
    /// No gap is widened.
    pub(crate) fn none() -> Self
        ensures { result ≡ no_extra }
    {
        Extra {
            each: 0,
            above: 0,
            up_to: 0,
        }
    }

    /// These blanks over so many gaps.
    pub(crate) fn share(turn: Turn, blanks: usize, gaps: usize) -> Self
        requires { 0 < gaps }
        ensures { result ≡ shared turn blanks gaps }
    {
        let each = blanks / gaps;
        let rest = blanks % gaps;
        match turn {
            Turn::Left => Extra {
                each,
                above: 0,
                up_to: rest,
            },
            Turn::Right => Extra {
                each,
                above: gaps - rest,
                up_to: gaps,
            },
        }
    }

    /// By how much a gap is widened, counted from 1.
    #[inline]
    pub(crate) fn at(self, gap: usize) -> usize
        requires { self.each < 2 ^ 63 }
        ensures { result ≡ extra_at self gap }
    {
        if self.above < gap && gap <= self.up_to {
            self.each + 1
        } else {
            self.each
        }
    }
}
