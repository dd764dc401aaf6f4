//! A whole page is read.
ghost use Rattle.std.specs.Prelude.{◌≡◌, ◌+◌, ◌^◌, ◌<◌, ◌≤◌};
ghost use Rattle.nr_units.specs.Failures.{counted_if};
ghost use Rattle.tbl_reader.specs.Reading.{Fits};
ghost use Rattle.tbl_reader.specs.Running as specs;
ghost use Rattle.tbl_reader.specs.Whole.{LinesAreRead, LinesPass};

use super::reader::Reader;
use super::telling::Setter;
use nr_units::source::{Fault, Source};

/// The number of bytes that are too many.
const TOO_MANY: u64 = 1_099_511_627_776;

/// How many bytes are taken at once at most.
const CHUNK: usize = 16384;

/// How a run ended.
#[derive(Clone, Copy, Debug, PartialEq, Eq)]
pub enum ReadEnd {
    /// All was turned and went out.
    Done,
    /// The input failed after so many bytes.
    ReadFault {
        /// How many.
        at: u64,
    },
    /// The input has 2^40 bytes or more.
    TooLong,
    /// The output failed.
    WriteFault,
}

/// What one turn came to.
#[derive(Clone, Copy)]
enum TurnResult {
    /// So many bytes were taken. More may come.
    Took(u64),
    /// The input has ended.
    End,
    /// The input failed.
    ReadFault,
}

/// Bytes at hand are taken, so many at most, and how many is returned: of none there is nothing at hand.
fn take_at_hand<R: Source, S: Setter>(
    reader: &mut Reader,
    input: &mut R,
    setter: &mut S,
    most: u64,
) -> u64
    requires lines { reader.old.state.line + most < 2 ^ 64 }
    requires fits { Fits reader.old }
    ensures took { specs.Took S.shows S.hears (R.supply input.old) (R.supply input.new) reader.old reader.new
        setter.old setter.new result }
    ensures few { result ≤ most }
    ensures failures { R.failures input.new ≡ R.failures input.old }
{
    let window = input.window();
    let len = window.len().min(CHUNK).min(most as usize);
    if len == 0 {
        return 0;
    }
    let count = reader.read(&window[..len], setter);
    input.skip(count);
    count as u64
}

/// One turn: bytes at hand are taken, or the next byte.
fn make_turn<R: Source, S: Setter>(
    reader: &mut Reader,
    input: &mut R,
    setter: &mut S,
    most: u64,
) -> TurnResult
    requires some { 0 < most }
    requires lines { reader.old.state.line + most < 2 ^ 64 }
    requires fits { Fits reader.old }
    ensures turns { specs.Turns S.shows S.hears (R.supply input.old) (R.supply input.new) reader.old
        reader.new setter.old setter.new result }
    ensures measured { specs.IsMeasured most result }
    ensures failures { R.failures input.new ≡ counted_if (specs.is_fault result) (R.failures input.old) }
{
    let count = take_at_hand(reader, input, setter, most);
    if count > 0 {
        return TurnResult::Took(count);
    }
    match input.next() {
        Ok(Some(byte)) => {
            reader.read(&[byte], setter);
            TurnResult::Took(1)
        }
        Ok(None) => {
            reader.finish(setter);
            TurnResult::End
        }
        Err(Fault) => TurnResult::ReadFault,
    }
}

/// Reads all that the input gives, and tells what it says of tables and what is outside of them. Nothing is allocated.
///
/// What is emitted is one function of the bytes that came, however they came. At a read fault, and where the input is too long,
/// it is that of the bytes before, but for what is half read. Where the setter fails, no more is read.
///
/// Proved: What is said of a page is one function of the bytes that came and of the two limits,
/// however the bytes came: `page_said`, a list of pieces, of which a setter hears one after the other.
/// Proved: At a read fault, and where the input is too long, what the bytes before say was heard, but for what is
/// half read; where the setter fails, no more is read.
/// Proved: A read fault is reported only where a call of the source failed, and then always, but where the setter
/// failed too; a write fault where the setter failed.
/// Proved: At most sixteen pieces are said for each byte that came, and sixteen for the end.
/// Proved: Lines outside of tables pass, and lines of a table that there is room for are taken as wholes, as the
/// definition that reads byte by byte says. (`passing` and `reading` of what `read_page` ensures)
pub fn read_page<R: Source, S: Setter>(
    reader: &mut Reader,
    input: &mut R,
    setter: &mut S,
) -> ReadEnd
    ensures ran { specs.Ran S.shows S.hears reader.old.limits (R.supply input.old) (R.supply input.new) setter.old setter.new result }
    // A read fault is emitted only where the source failed once, and then always, but where the setter fails too.
    ensures read_faults { specs.TellsReads result (R.failures input.old) (R.failures input.new) }
    ensures write_faults { S.failed setter.new ≡ specs.is_write_fault result }
    // Whole lines are read: those outside of tables pass, and those of a table that there is room for are taken as wholes.
    ensures passing { LinesPass }
    ensures reading { LinesAreRead }
    // The next page is read by the same limits.
    ensures limits { reader.new.limits ≡ reader.old.limits }
{
    reader.begins();
    let mut taken = 0;
    while taken < TOO_MANY {
        let turn = make_turn(reader, input, setter, TOO_MANY - taken);
        if setter.has_failed() {
            return ReadEnd::WriteFault;
        }
        match turn {
            TurnResult::Took(count) => taken += count,
            TurnResult::End => return ReadEnd::Done,
            TurnResult::ReadFault => return ReadEnd::ReadFault { at: taken },
        }
    }
    ReadEnd::TooLong
}
