// Lines of several parts.
ghost use Rattle.std.specs.Prelude.{◌≡◌, OnOk, OnErr};
ghost use Rattle.std.specs.Io.KnownBytes.{Appends};
ghost use Rattle.nr_units.specs.Failures.{put_counted};
ghost use Rattle.nr_units.specs.Sink.{AppendsPrefix};
ghost use Rattle.filters.specs.Lines.{joined};

use nr_units::sink::Sink;
use nr_units::source::Fault;

/// Writes these bytes, one after the other.
///
/// Proved: Bytes in several parts go out one after the other, a prefix of them where a call failed.
pub fn put_all<W: Sink>(parts: &[&[u8]], output: &mut W) -> Result<(), Fault>
    ensures ok { OnOk result (Appends (W.held output.old) (W.held output.new) (joined parts.now)) }
    ensures err { OnErr result (AppendsPrefix (W.held output.old) (W.held output.new) (joined parts.now)) }
    ensures failures { W.failures output.new ≡ put_counted (W.failures output.old) result }
{
    for part in parts {
        output.put(part)?;
    }
    Ok(())
}
