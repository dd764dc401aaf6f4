//! The length of a line that `.ll` says.
ghost use Rattle.std.specs.Prelude.{◌≡◌};
ghost use Rattle.nr_units.specs.declared.units.Scale.TheVariants.{En, Unit};
ghost use Rattle.tbl_setting.specs.Lengths as specs;

use nr_units::{Ctx, Scale, read_expr};

/// The units of a cell.
const CELL: usize = 24;

/// The units of a line.
const LINE: i64 = 40;

/// The greatest length of a line in units.
const MOST: u64 = 1_000_000;

/// A number in cells: none below zero is one.
fn cells_in(units: i64) -> Option<usize>
    ensures { result ≡ specs.cells_in units }
{
    if units < 0 {
        return None;
    }
    Some(units.unsigned_abs().min(MOST) as usize / CELL)
}

/// The cells that an expression says, whose numbers have this scale where they say none.
fn length_in(text: &[u8], default: Scale) -> Option<usize>
    ensures { result ≡ specs.length_in text.now default }
{
    let context = Ctx {
        v: LINE,
        here: 0,
        default,
    };
    cells_in(read_expr(text, &context).value?)
}

/// The cells of a line that the register of papers says.
pub(crate) fn paper_cells(text: &[u8]) -> Option<usize>
    ensures { result ≡ specs.length_in text.now Unit }
{
    length_in(text, Scale::Unit)
}

/// The cells that an argument of a macro says.
pub(crate) fn en_cells(text: &[u8]) -> Option<usize>
    ensures { result ≡ specs.length_in text.now En }
{
    length_in(text, Scale::En)
}

/// The cells that a line has after `.ll`, where it had so many before.
pub(crate) fn cells_said(text: &[u8], cells: usize) -> Option<usize>
    ensures { result ≡ specs.cells_said text.now cells }
{
    match text {
        [b'+', more @ ..] => Some(cells.saturating_add(length_in(more, Scale::En)?)),
        [b'-', less @ ..] => Some(cells.saturating_sub(length_in(less, Scale::En)?)),
        _ => length_in(text, Scale::En),
    }
}
