// Bytes are gathered and go out to a sink many at a time.
ghost use Rattle.std.specs.Prelude.{◌≡◌, ℕ, ◌+◌, ◌*◌, ◌<◌, ◌≤◌, List, [], ◌∷◌, ◌++◌, length, replicate, false, All, OnOk, OnErr};
ghost use Rattle.nr_units.specs.Character.{code};
ghost use Rattle.nr_vectors.specs.declared.cell.Cell.{Cell as CellValue};
ghost use Rattle.std.specs.List.{flat_map};
ghost use Rattle.nr_units.specs.Failures.{put_counted};
ghost use Rattle.nr_page.specs.Gathering.{GathersOrFails};
ghost use Rattle.nr_page.specs.Faces.{cell_bytes, may_show, shown_look};

use crate::faces::Faces;
use nr_units::sink::Sink;
use nr_units::source::Fault;
use nr_vectors::cell::{Cell, Look};
use nr_vectors::slice_vec::SliceVec;

/// How many bytes are gathered.
pub(crate) const GATHERED: usize = 1024;

/// How many cells are gathered at once. Each is at most three bytes.
pub(crate) const RUN: usize = 256;

/// Makes room for so many bytes: where there is none, all that is pending goes out.
pub(crate) fn make_room<W: Sink>(
    pending: &mut SliceVec<'_, u8>,
    more: usize,
    output: &mut W,
) -> Result<(), Fault>
    requires { more ≤ pending.old.capacity }
    ensures gathers { GathersOrFails (W.held output.old) (W.held output.new) pending.old.items
        pending.new.items [] result }
    ensures fits { OnOk result (length pending.new.items + more ≤ pending.new.capacity) }
    ensures failures { W.failures output.new ≡ put_counted (W.failures output.old) result }
    ensures room { pending.new.capacity ≡ pending.old.capacity }
{
    if pending.capacity() - pending.len() >= more {
        return Ok(());
    }
    output.put(pending.as_slice())?;
    pending.clear();
    Ok(())
}

/// The look that shows of a cell.
fn shown_look(faces: Faces, cell: Cell) -> Look
    ensures { result ≡ shown_look faces cell }
{
    match faces {
        Faces::Letters => {
            if matches!(cell.look, Look::Under) && cell.byte.is_ascii_alphanumeric() {
                return Look::Under;
            }
            Look::Plain
        }
        Faces::All => {
            if cell.byte <= b' ' {
                return Look::Plain;
            }
            cell.look
        }
    }
}

/// The bytes of a cell, three at most.
fn gather_cell(pending: &mut SliceVec<'_, u8>, faces: Faces, cell: Cell)
    requires { length pending.old.items + 3 ≤ pending.old.capacity }
    ensures items { pending.new.items ≡ pending.old.items ++ cell_bytes faces cell }
    ensures few { length pending.new.items ≤ length pending.old.items + 3 }
    ensures room { pending.new.capacity ≡ pending.old.capacity }
{
    match shown_look(faces, cell) {
        Look::Plain => pending.push(cell.byte),
        Look::Under => pending.extend(&[b'_', 8, cell.byte]),
        Look::Bold => pending.extend(&[cell.byte, 8, cell.byte]),
    }
}

/// Whether a cell of this look may show as more than its byte.
fn may_show(faces: Faces, look: Look) -> bool
    ensures { result ≡ may_show faces look }
{
    match faces {
        Faces::Letters => matches!(look, Look::Under),
        Faces::All => !matches!(look, Look::Plain),
    }
}

/// Whether one of the cells may show as more than its byte.
fn any_shown(faces: Faces, cells: &[Cell]) -> bool
    ensures { result ≡ false → All (λ (cell : CellValue). may_show faces cell.look ≡ false) cells.now }
{
    let mut any = false;
    for cell in cells {
        any |= may_show(faces, cell.look);
    }
    any
}

/// Most rows are plain, and their bytes are copied in one plain loop.
fn gather_cells(pending: &mut SliceVec<'_, u8>, faces: Faces, cells: &[Cell])
    requires { length pending.old.items + 3 * length cells.now ≤ pending.old.capacity }
    ensures items { pending.new.items ≡ pending.old.items ++ flat_map (cell_bytes faces) cells.now }
    ensures room { pending.new.capacity ≡ pending.old.capacity }
{
    if !any_shown(faces, cells) {
        pending.extend_bytes(cells);
        return;
    }
    for cell in cells {
        gather_cell(pending, faces, *cell);
    }
}

/// The bytes of the cells.
pub(crate) fn write_cells<W: Sink>(
    pending: &mut SliceVec<'_, u8>,
    faces: Faces,
    cells: &[Cell],
    output: &mut W,
) -> Result<(), Fault>
    requires { 3 * RUN ≤ pending.old.capacity }
    ensures gathers { GathersOrFails (W.held output.old) (W.held output.new) pending.old.items
        pending.new.items (flat_map (cell_bytes faces) cells.now) result }
    ensures failures { W.failures output.new ≡ put_counted (W.failures output.old) result }
    ensures room { pending.new.capacity ≡ pending.old.capacity }
{
    let mut at = 0;
    while at < cells.len() {
        let end = at + RUN.min(cells.len() - at);
        make_room(pending, 3 * (end - at), output)?;
        gather_cells(pending, faces, &cells[at..end]);
        at = end;
    }
    Ok(())
}

/// So many newlines.
pub(crate) fn write_newlines<W: Sink>(
    pending: &mut SliceVec<'_, u8>,
    count: usize,
    output: &mut W,
) -> Result<(), Fault>
    requires { 0 < pending.old.capacity }
    ensures gathers { GathersOrFails (W.held output.old) (W.held output.new) pending.old.items
        pending.new.items (replicate count (code "\n")) result }
    ensures failures { W.failures output.new ≡ put_counted (W.failures output.old) result }
    ensures room { pending.new.capacity ≡ pending.old.capacity }
{
    for _line in 0..count {
        make_room(pending, 1, output)?;
        pending.push(b'\n');
    }
    Ok(())
}
