// The line that reports how a run ended.
ghost use Rattle.std.specs.Prelude.{◌≡◌, OnOk, OnErr, IsOk};
ghost use Rattle.std.specs.Io.KnownBytes.{Appends};
ghost use Rattle.nr_units.specs.Failures.{put_counted};
ghost use Rattle.nr_units.specs.Sink.{AppendsPrefix};
ghost use Rattle.nr_command.specs.Faults.{limited_text, line_of, place_text};

use itoa::Buffer;
use nr_engine::{Fault, Measure, Outcome, Sink, WriteFault};

/// Writes the one line that reports how a run ended, and nothing where it is done.
///
/// `WriteFault` where the sink failed; a prefix of the line went out then.
///
/// Proved: The line that reports an outcome goes out whole, or a prefix of it where the sink failed; where all is
/// done there is none.
pub fn fault_line<W: Sink>(outcome: &Outcome, errors: &mut W) -> Result<(), WriteFault>
    ensures ok { OnOk result (Appends (W.held errors.old) (W.held errors.new) (line_of outcome.now)) }
    ensures err { OnErr result (AppendsPrefix (W.held errors.old) (W.held errors.new) (line_of outcome.now)) }
    ensures failures { W.failures errors.new ≡ put_counted (W.failures errors.old) result }
    ensures done { outcome.now ≡ Outcome.Done → IsOk result × (errors.new ≡ errors.old) }
{
    match put_line(outcome, errors) {
        Ok(()) => Ok(()),
        Err(Fault) => Err(WriteFault),
    }
}

/// The same, with the sink's own error.
fn put_line<W: Sink>(outcome: &Outcome, errors: &mut W) -> Result<(), Fault>
    ensures ok { OnOk result (Appends (W.held errors.old) (W.held errors.new) (line_of outcome.now)) }
    ensures err { OnErr result (AppendsPrefix (W.held errors.old) (W.held errors.new) (line_of outcome.now)) }
    ensures failures { W.failures errors.new ≡ put_counted (W.failures errors.old) result }
    ensures done { outcome.now ≡ Outcome.Done → IsOk result × (errors.new ≡ errors.old) }
{
    match *outcome {
        Outcome::Done => Ok(()),
        Outcome::Limit { which, at } => put_limit(which, at, errors),
        Outcome::ReadFault { at } => put_read_fault(at, errors),
        Outcome::TooLong => errors.put(b"nroff: input too long\n"),
        Outcome::WriteFault => errors.put(b"nroff: write fault\n"),
    }
}

/// The line of a limit that the next move would pass.
fn put_limit<W: Sink>(which: Measure, at: u64, errors: &mut W) -> Result<(), Fault>
    ensures ok { OnOk result
        (Appends (W.held errors.old) (W.held errors.new) (line_of (Outcome.Limit which at))) }
    ensures err { OnErr result
        (AppendsPrefix (W.held errors.old) (W.held errors.new) (line_of (Outcome.Limit which at))) }
    ensures failures { W.failures errors.new ≡ put_counted (W.failures errors.old) result }
{
    errors.put(b"nroff: ")?;
    errors.put(limited(which))?;
    errors.put(b" limit passed")?;
    put_place(at, errors)
}

/// The line of an input that failed.
fn put_read_fault<W: Sink>(at: u64, errors: &mut W) -> Result<(), Fault>
    ensures ok { OnOk result
        (Appends (W.held errors.old) (W.held errors.new) (line_of (Outcome.ReadFault at))) }
    ensures err { OnErr result
        (AppendsPrefix (W.held errors.old) (W.held errors.new) (line_of (Outcome.ReadFault at))) }
    ensures failures { W.failures errors.new ≡ put_counted (W.failures errors.old) result }
{
    errors.put(b"nroff: read fault")?;
    put_place(at, errors)
}

/// What is limited.
fn limited(which: Measure) -> &'static [u8]
    ensures { result.now ≡ limited_text which }
{
    match which {
        Measure::Stored => b"stored bytes",
        Measure::Depth => b"input depth",
        Measure::LineCells => b"line cells",
        Measure::PageCells => b"page cells",
        Measure::Expansions => b"expansions",
        Measure::Moves => b"moves",
    }
}

/// A place in the input, and the line's end.
fn put_place<W: Sink>(at: u64, errors: &mut W) -> Result<(), Fault>
    ensures ok { OnOk result (Appends (W.held errors.old) (W.held errors.new) (place_text at)) }
    ensures err { OnErr result (AppendsPrefix (W.held errors.old) (W.held errors.new) (place_text at)) }
    ensures failures { W.failures errors.new ≡ put_counted (W.failures errors.old) result }
{
    let mut digits = Buffer::new();
    errors.put(b" at byte ")?;
    errors.put(digits.format(at).as_bytes())?;
    errors.put(b"\n")
}
