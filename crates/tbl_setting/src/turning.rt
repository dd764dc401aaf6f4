//! A whole page is turned.
ghost use Rattle.std.specs.Prelude.{◌≡◌, ◌+◌, [], true, false, IfOk, min};
ghost use Rattle.tbl_setting.specs.Drawing.{signs_of};
ghost use Rattle.tbl_setting.specs.Running as specs;
ghost use Rattle.tbl_setting.specs.Bounds.{page_setting};
ghost use Rattle.tbl_setting.specs.Held.{emptied};
ghost use Rattle.tbl_setting.specs.Setting.{first_tape};
ghost use Rattle.tbl_reader.specs.Running.{TellsReads, is_write_fault};
ghost use Rattle.nr_units.specs.Failures.{put_counted_if};

use super::drawing::signs_of;
use super::press::Press;
use super::setting::Setting;
use nr_units::sink::Sink;
use nr_units::source::Source;
use nr_vectors::slice_vec::SliceVec;
use nr_vectors::{CountedAlloc, FixedVec};
use std::alloc::AllocError;
use std::marker::Model;
use tbl_drawing::Out;
use tbl_reader::{Complaint, Limits, ReadEnd, Reader, read_page};
use tbl_table::Signs;
use utf8_characters::FixedTable as Characters;

/// The bytes that wait to go out at most.
const PENDING: usize = 4_096;

/// The greatest limit.
const MOST: usize = 18_446_744_073_709_551_614;

/// How a run ended, and what it tells beside what went out.
#[derive(Clone, Copy, Debug, PartialEq, Eq)]
pub struct Report {
    /// How it ended.
    pub outcome: ReadEnd,
    /// There were more complaints than there was room for.
    pub missed: bool,
    /// A table that was longer than what is held went out in parts, whose columns may differ.
    pub uneven: bool,
}

/// The memory that texts are turned in, taken once.
pub struct Rooms {
    reader: Reader,
    setting: Setting,
    pending: FixedVec<u8>,
}

// Derived, it would be gone through part by part in the proof of each function that owns rooms.
impl Drop for Rooms {
    fn drop(self) {
        let Rooms {
            reader: _,
            setting: _,
            pending: _,
        } = self;
    }
}

impl Model for Rooms {
    ghost use Rattle.std.specs.Prelude.{◌≡◌};
    ghost use Rattle.tbl_setting.specs.Bounds.{Bounds, page_setting};
    ghost use Rattle.tbl_setting.specs.Held.{emptied};
    ghost use Rattle.tbl_setting.specs.Running.{bounds_in};

    ghost Value = { Bounds };

    ghost view = { λ r. bounds_in r.reader r.setting };

    ghost invariant = { λ r. emptied r.setting ≡ page_setting (bounds_in r.reader r.setting) };
}

impl Rooms {
    /// Takes the memory: for a table of so many bytes, of which rows have so many at most, where the line has so
    /// many cells, and frames are drawn with what a table of characters has, or in ASCII.
    ///
    /// Proved: Tables are turned in as many elements of memory as the two limits ask for, by the count of the
    /// allocator. (`taken` of what `Rooms::{new, drawn_with}` ensure)
    pub fn new(
        alloc: &mut CountedAlloc,
        table: usize,
        row: usize,
        cells: usize,
        characters: Option<Characters>,
    ) -> Result<Rooms, AllocError>
        ensures signs { IfOk result (λ made. made.signs ≡ signs_of characters) }
        ensures table { IfOk result (λ made. made.limits.formats ≡ min table 18446744073709551614) }
        ensures row { IfOk result (λ made. made.limits.row ≡ min row 18446744073709551614) }
        ensures cells { IfOk result (λ made. made.cells ≡ cells) }
        ensures fits { IfOk result (λ made. made.fits ≡ true) }
        ensures taken { IfOk result (λ made. alloc.new ≡ alloc.old + specs.memory_of made.limits) }
    {
        Rooms::drawn_with(alloc, table, row, cells, signs_of(characters))
    }

    /// The same, where frames are drawn with these bytes.
    pub fn drawn_with(
        alloc: &mut CountedAlloc,
        table: usize,
        row: usize,
        cells: usize,
        signs: Signs,
    ) -> Result<Rooms, AllocError>
        ensures signs { IfOk result (λ made. made.signs ≡ signs) }
        ensures table { IfOk result (λ made. made.limits.formats ≡ min table 18446744073709551614) }
        ensures row { IfOk result (λ made. made.limits.row ≡ min row 18446744073709551614) }
        ensures cells { IfOk result (λ made. made.cells ≡ cells) }
        ensures fits { IfOk result (λ made. made.fits ≡ true) }
        ensures taken { IfOk result (λ made. alloc.new ≡ alloc.old + specs.memory_of made.limits) }
    {
        let limits = Limits {
            formats: table.min(MOST),
            row: row.min(MOST),
        };
        Ok(Rooms {
            pending: FixedVec::new(alloc, PENDING)?,
            reader: Reader::new(alloc, limits)?,
            setting: Setting::new(alloc, limits.formats, limits.row, signs, cells)?,
        })
    }

    /// Tables of manual pages that are wider than the line are narrowed, or stay as they are.
    pub fn set_fits(&mut self, fits: bool)
        ensures { self.new ≡ specs.with_fits fits self.old }
    {
        self.setting.set_fits(fits);
    }
}

/// The input is read, and what is reported of it set.
fn run<R: Source, W: Sink>(
    reader: &mut Reader,
    input: &mut R,
    press: &mut Press<'_, '_, '_, '_, W>,
) -> ReadEnd
    requires setting { press.old.setting.now ≡ page_setting (specs.bounds_in reader.old press.old.setting.now) }
    requires tape { press.old.out ≡ first_tape press.old.out.held press.old.out.failures }
    requires empty { press.old.complaints.now.items ≡ [] }
    requires missed { press.old.missed ≡ false }
    ensures ran { specs.Ran (specs.bounds_in reader.old press.old.setting.now) (R.supply input.old) (R.supply input.new)
        press.old.out.held press.new.out.held press.new.complaints.now press.new.missed press.new.setting.now.layout.uneven result }
    ensures setting_same { press.new.setting.ghost_name ≡ press.old.setting.ghost_name }
    ensures setting_room { emptied press.new.setting.now ≡ emptied press.old.setting.now }
    ensures same { press.new.complaints.ghost_name ≡ press.old.complaints.ghost_name }
    ensures room { press.new.complaints.now.capacity ≡ press.old.complaints.now.capacity }
    ensures read_faults { TellsReads result (R.failures input.old) (R.failures input.new) }
    ensures write_faults { press.new.out.failures ≡ put_counted_if (is_write_fault result)
        press.old.out.failures }
    ensures limits { reader.new.limits ≡ reader.old.limits }
{
    let outcome = read_page(reader, input, press);
    press.ends(outcome)
}

/// How a page was turned with parts that are lent, and its output.
struct Turned<W> {
    outcome: ReadEnd,
    missed: bool,
    output: W,
}

/// The same with parts that are lent.
fn turn<R: Source, W: Sink>(
    reader: &mut Reader,
    input: &mut R,
    setting: &mut Setting,
    out: Out<'_, W>,
    complaints: &mut SliceVec<'_, Complaint>,
) -> Turned<W>
    requires setting { setting.old ≡ page_setting (specs.bounds_in reader.old setting.old) }
    requires tape { out ≡ first_tape out.held out.failures }
    requires empty { complaints.old.items ≡ [] }
    ensures ran { specs.Ran (specs.bounds_in reader.old setting.old) (R.supply input.old) (R.supply input.new)
        out.entry.held (W.held result.output) complaints.new result.missed setting.new.layout.uneven result.outcome }
    ensures setting_room { emptied setting.new ≡ emptied setting.old }
    ensures room { complaints.new.capacity ≡ complaints.old.capacity }
    ensures read_faults { TellsReads result.outcome (R.failures input.old) (R.failures input.new) }
    ensures write_faults { W.failures result.output ≡ put_counted_if (is_write_fault result.outcome)
        out.entry.failures }
    ensures limits { reader.new.limits ≡ reader.old.limits }
{
    let mut press = Press {
        setting,
        out,
        complaints,
        missed: false,
    };
    let outcome = run(reader, input, &mut press);
    let missed = press.missed;
    let Press {
        setting: _setting,
        out,
        complaints: _complaints,
        missed: _,
    } = press;
    Turned {
        outcome,
        missed,
        output: out.into_sink(),
    }
}

/// Turns the tables of what the input gives into lines of text, and puts it to the output, which is not flushed, and comes back.
/// Nothing is allocated.
///
/// Proved: What `convert` puts out is one function of the bytes that came, of what frames are drawn with, of the two
/// limits, of the line's length, and of whether tables of manual pages are narrowed, however the bytes came: `set_page`,
/// the bytes of the strokes that the page's pieces draw, one after the other, each from the table that those before it
/// left and what they said of the page, the first from a table that holds nothing. At a read fault, and where the input
/// is too long, it is what the bytes before come to, but for what is half read; at a write fault a prefix of it went
/// out.
/// Proved: The complaints that are kept are the first of the definition's for the bytes that came, each with its
/// line, in input order, as many as there is room for; that a table is wider than the line comes after what is wrong
/// inside it, with the line of its `.TS`. That there were more is reported exactly then. If the run is done those of the end
/// are among them; at a write fault they may be.
/// Proved: A read fault is reported only where a call of the source failed, and then always, but where the sink
/// failed too; a write fault where a call of the sink failed, and else none did.
/// Proved: The next page is turned as the first one was: by the same limits, from a table that holds nothing, in the
/// same room. (`same` of what `convert` ensures, with the invariant of `Rooms`)
pub fn convert<R: Source, W: Sink>(
    input: &mut R,
    output: W,
    rooms: &mut Rooms,
    complaints: &mut SliceVec<'_, Complaint>,
) -> (Report, W)
    ensures ran { specs.Ran rooms.old (R.supply input.old) (R.supply input.new) (W.held output) (W.held result.1)
        complaints.new result.0.missed result.0.uneven result.0.outcome }
    // A read fault is reported only where the source failed once, and then always, but where the output fails too.
    ensures read_faults { TellsReads result.0.outcome (R.failures input.old) (R.failures input.new) }
    // A write fault is reported where a call of the sink failed, and else none did.
    ensures write_faults { W.failures result.1 ≡ put_counted_if (is_write_fault result.0.outcome)
        (W.failures output) }
    ensures room { complaints.new.capacity ≡ complaints.old.capacity }
    // The next page is turned by the same limits, for a line of as many cells.
    ensures same { rooms.new ≡ rooms.old }
{
    rooms.pending.clear();
    rooms.setting.begin_page();
    complaints.clear();
    let out = Out::over(&mut rooms.pending, output);
    let Turned {
        outcome,
        missed,
        output,
    } = turn(
        &mut rooms.reader,
        input,
        &mut rooms.setting,
        out,
        complaints,
    );
    let report = Report {
        outcome,
        missed,
        uneven: rooms.setting.is_uneven(),
    };
    (report, output)
}
