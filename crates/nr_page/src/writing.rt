// The rows of a page, from the top on.
ghost use Rattle.std.specs.Prelude.{◌≡◌, ℕ, ◌*◌, ◌≤◌, ◌++◌, length, replicate, OnOk, OnErr};
ghost use Rattle.std.specs.Io.KnownBytes.{Appends};
ghost use Rattle.nr_units.specs.Character.{code};
ghost use Rattle.nr_units.specs.Sink.{AppendsPrefix};
ghost use Rattle.nr_units.specs.Failures.{put_counted};
ghost use Rattle.nr_page.specs.Gathering.{GathersOrFails};
ghost use Rattle.nr_page.specs.Overlay.{IsTrimmed, line_bytes, rows_bytes};
ghost use Rattle.nr_page.specs.Rows.{rows_of, AreAbove, AreKept};

use crate::faces::Faces;
use crate::gap_vec::GapVec;
use crate::gathering::{GATHERED, RUN, make_room, write_cells, write_newlines};
use crate::row::{BLANK, RowSlot};
use nr_pool::Pool;
use nr_units::sink::Sink;
use nr_units::source::Fault;
use nr_vectors::cell::Cell;
use nr_vectors::slice_vec::SliceVec;

/// How many cells there are up to the last that is not blank.
fn trimmed_len(cells: &[Cell]) -> usize
    ensures trimmed { IsTrimmed cells.now result }
    ensures within { result ≤ length cells.now }
{
    let mut len = cells.len();
    while len > 0 && cells[len - 1].byte == BLANK {
        len -= 1;
    }
    len
}

/// So many empty rows, and then one with these cells.
fn write_row<W: Sink>(
    pending: &mut SliceVec<'_, u8>,
    faces: Faces,
    empty: usize,
    cells: &[Cell],
    output: &mut W,
) -> Result<(), Fault>
    requires { 3 * RUN ≤ pending.old.capacity }
    ensures gathers { GathersOrFails (W.held output.old) (W.held output.new) pending.old.items
        pending.new.items (replicate empty (code "\n") ++ line_bytes faces cells.now) result }
    ensures failures { W.failures output.new ≡ put_counted (W.failures output.old) result }
    ensures room { pending.new.capacity ≡ pending.old.capacity }
{
    write_newlines(pending, empty, output)?;
    write_cells(pending, faces, &cells[..trimmed_len(cells)], output)?;
    write_newlines(pending, 1, output)
}

/// So many rows, and all that have cells are among them.
fn write_rows<W: Sink>(
    pending: &mut SliceVec<'_, u8>,
    faces: Faces,
    texts: &Pool<Cell>,
    rows: &GapVec<RowSlot>,
    count: usize,
    output: &mut W,
) -> Result<(), Fault>
    requires kept { AreKept texts.now rows.now.items }
    requires above { AreAbove count rows.now.items }
    requires room { 3 * RUN ≤ pending.old.capacity }
    ensures gathers { GathersOrFails (W.held output.old) (W.held output.new) pending.old.items
        pending.new.items (rows_bytes faces (rows_of texts.now rows.now.items) 0 count) result }
    ensures failures { W.failures output.new ≡ put_counted (W.failures output.old) result }
    ensures room { pending.new.capacity ≡ pending.old.capacity }
{
    let mut done = 0;
    for place in 0..rows.len() {
        let row = rows.get(place);
        let number = row.number as usize;
        write_row(pending, faces, number - done, texts.text(row.text), output)?;
        done = number + 1;
    }
    write_newlines(pending, count - done, output)
}

/// The bytes of so many rows, all that were gathered too.
pub(crate) fn write_all<W: Sink>(
    faces: Faces,
    texts: &Pool<Cell>,
    rows: &GapVec<RowSlot>,
    count: usize,
    output: &mut W,
) -> Result<(), Fault>
    requires kept { AreKept texts.now rows.now.items }
    requires above { AreAbove count rows.now.items }
    ensures ok { OnOk result
        (Appends (W.held output.old) (W.held output.new)
        (rows_bytes faces (rows_of texts.now rows.now.items) 0 count)) }
    ensures err { OnErr result
        (AppendsPrefix (W.held output.old) (W.held output.new)
        (rows_bytes faces (rows_of texts.now rows.now.items) 0 count)) }
    ensures failures { W.failures output.new ≡ put_counted (W.failures output.old) result }
{
    let mut bytes = [0; GATHERED];
    let mut pending = SliceVec::over(&mut bytes);
    write_rows(&mut pending, faces, texts, rows, count, output)?;
    let room = pending.capacity();
    make_room(&mut pending, room, output)
}
