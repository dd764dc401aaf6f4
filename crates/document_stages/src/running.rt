//! All that a source gives is turned by a stage, and put into a sink.
ghost use Rattle.std.specs.Prelude.{◌≡◌, ◌+◌, ◌≤◌, [], length, false, OnOk};
ghost use Rattle.std.specs.Io.KnownBytes.{Appends};
ghost use Rattle.nr_units.specs.Failures.{put_counted, put_counted_if};
ghost use Rattle.document_stages.specs.Pulling.{fits_always};
ghost use Rattle.document_stages.specs.Running as specs;

use super::stage::Stage;
use super::step::{Step, make_step};
use nr_units::sink::Sink;
use nr_units::source::{Fault, Source};
use nr_vectors::slice_vec::SliceVec;

/// The number of bytes that are too many.
const TOO_MANY: u64 = 1_099_511_627_776;

/// How a run ended.
#[derive(Clone, Copy, Debug, PartialEq, Eq)]
pub enum RunEnd {
    /// All was turned and went out.
    Done,
    /// The input failed after so many bytes.
    ReadFault {
        /// How many.
        at: u64,
    },
    /// The input has 2^40 bytes or more.
    TooLong,
    /// The output failed.
    WriteFault,
}

/// All that waits goes out.
fn put_waiting<W: Sink>(out: &mut SliceVec<'_, u8>, output: &mut W) -> Result<(), Fault>
    ensures ok { OnOk result (Appends (W.held output.old) (W.held output.new) out.old.items) }
    ensures err { specs.PrefixAtErr result (W.held output.old) (W.held output.new) out.old.items }
    ensures empty { OnOk result (out.new.items ≡ []) }
    ensures failures { W.failures output.new ≡ put_counted (W.failures output.old) result }
    ensures room { out.new.capacity ≡ out.old.capacity }
{
    output.put(out.as_slice())?;
    out.clear();
    Ok(())
}

/// Room is made for so many bytes: where there is none, all that waits goes out.
fn make_room<W: Sink>(out: &mut SliceVec<'_, u8>, output: &mut W, wants: usize) -> Result<(), Fault>
    requires { wants ≤ out.old.capacity }
    ensures ok { OnOk result (specs.Flushes (W.held output.old) (W.held output.new) out.old.items
        out.new.items) }
    ensures err { specs.PrefixAtErr result (W.held output.old) (W.held output.new) out.old.items }
    ensures fits { OnOk result (length out.new.items + wants ≤ out.new.capacity) }
    ensures failures { W.failures output.new ≡ put_counted (W.failures output.old) result }
    ensures room { out.new.capacity ≡ out.old.capacity }
{
    if out.capacity() - out.len() >= wants {
        return Ok(());
    }
    put_waiting(out, output)
}

/// The rest goes out, and the run has ended so.
fn ended<W: Sink>(out: &mut SliceVec<'_, u8>, output: &mut W, outcome: RunEnd) -> RunEnd
    ensures ends { specs.EndsAs outcome result (W.held output.old) (W.held output.new) out.old.items }
    ensures failures { specs.is_write_fault outcome ≡ false
        → W.failures output.new ≡ put_counted_if (specs.is_write_fault result) (W.failures output.old) }
{
    match put_waiting(out, output) {
        Ok(()) => outcome,
        Err(Fault) => RunEnd::WriteFault,
    }
}

/// Turns all that a source gives by a stage in which all fits, and puts what comes of it into a sink, which is not flushed. In the
/// buffer, which has the room that a turn of the stage needs, waits what goes out; what it held is of no account.
///
/// Proved: What goes out of a source that a stage turns is what the stage makes of all bytes that came and of the end
/// after them, however they come. At a read fault, and where the input is too long, it is what it makes of the bytes
/// before, but for what is half read; at a write fault a prefix of it. So much is counted as the stage counts of these
/// bytes, and no more bytes go out for each that came, and for the end, than it may make of one. (`run` of document_stages)
/// Proved: A fault is reported only where a call of the source or the sink failed, and always then; where both
/// failed, that of the sink.
pub fn run<R: Source, W: Sink, T: Stage>(
    stage: &mut T,
    input: &mut R,
    output: &mut W,
    buffer: &mut [u8],
) -> RunEnd
    requires fits { T.fits stage.old ≡ fits_always }
    requires room { T.wants stage.old ≤ length buffer.old }
    ensures ran { specs.Ran (T.says stage.old) (T.counts stage.old) (T.wants stage.old) (R.supply input.old)
        (R.supply input.new) (W.held output.old) (W.held output.new) (T.counts stage.new false []) result }
    // A read fault is reported only where the source failed once, and then always, but where the output fails too.
    ensures read_faults { specs.TellsReads result (R.failures input.old) (R.failures input.new) }
    ensures write_faults { W.failures output.new ≡ put_counted_if (specs.is_write_fault result)
        (W.failures output.old) }
{
    let wants = stage.room();
    let mut out = SliceVec::over(buffer);
    let mut taken = 0;
    while taken < TOO_MANY {
        match make_room(&mut out, output, wants) {
            Ok(()) => {}
            Err(Fault) => return RunEnd::WriteFault,
        }
        match make_step(stage, input, &mut out, TOO_MANY - taken) {
            Ok(Step::Took(count)) => taken += count,
            Ok(Step::End) => return ended(&mut out, output, RunEnd::Done),
            Ok(Step::Full) => unreachable!(),
            Err(Fault) => return ended(&mut out, output, RunEnd::ReadFault { at: taken }),
        }
    }
    ended(&mut out, output, RunEnd::TooLong)
}
