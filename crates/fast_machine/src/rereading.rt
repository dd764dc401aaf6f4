//! Cells of a diverted line that is read again: many moves in one call.
ghost use Rattle.std.specs.Prelude.{◌≤◌, ◌<◌, ◌^◌, length, take};
ghost use Rattle.nr_fill.specs.CellRow.{AddsToRow};
ghost use Rattle.fast_machine.specs.Rereading.{AreCells, cells_of};
ghost use Rattle.nr_machine.specs.Holding.{shape};
ghost use Rattle.fast_machine.specs.Running.{MakesInPlace};

use nr_fill::cells::CellSink;
use nr_fill::out::Out;
use nr_machine::Engine;
use nr_store::Rest;
use nr_store::element::Element;

/// How many elements are looked at in one call.
const LONGEST_RUN: usize = 4096;

/// Adds a prefix of these elements to the row, up to the first that is no cell, and tells how many.
fn put_cells(row: &mut Out, elements: &[Element]) -> usize
    ensures prefix { result ≤ length elements.now }
    ensures cells { AreCells (take result elements.now) }
    ensures adds { AddsToRow row.old (cells_of (take result elements.now)) row.new }
{
    let mut count = 0;
    for element in elements {
        let Element::Cell(cell) = *element else {
            return count;
        };
        row.push(cell);
        count += 1;
    }
    count
}

/// Reads and puts the cells that come next of a diverted line that goes on the page, and tells how many moves that was.
#[inline(always)]
pub(crate) fn put_row(engine: &mut Engine) -> u128
    ensures puts { MakesInPlace result (shape engine.old) (shape engine.new) }
    ensures few { result ≤ 8192 }
{
    if !engine.formatter.is_rereading() || engine.row.is_empty() {
        return 0;
    }
    let Rest::Text(elements) = engine.formatter.store.rest() else {
        return 0;
    };
    let count = put_cells(
        &mut engine.row,
        &elements[..elements.len().min(LONGEST_RUN)],
    );
    engine.formatter.store.skip(count as u32);
    2 * count as u128
}
