//! Where bytes go.
ghost use Rattle.std.specs.Prelude.{◌≡◌, ℕ, List, Bool, Option, OnOk, OnErr};
ghost use Rattle.std.specs.Io.KnownBytes.{Appends, Keeps};
ghost use Rattle.nr_units.specs.Failures.{SinkFailures, put_counted, flush_counted};
ghost use Rattle.nr_units.specs.Sink.{AppendsPrefix, passed_on_with, passed_on_by};

use super::source::Fault;

/// Takes bytes, and counts the calls that answered an error.
pub trait Sink {
    /// The bytes that it holds, where they are known.
    ghost held: { Self → Option (List ℕ) };

    /// Whether it passed on all of the bytes that it took.
    ghost passed_on: { Self → Bool };

    /// How many calls answered an error.
    ghost failures: { Self → SinkFailures };

    /// Takes all of the bytes, or a prefix of them and answers an error.
    ///
    /// Proved: A sink takes all bytes of a call, or a prefix of them and answers an error, and each error is counted.
    fn put(&mut self, bytes: &[u8]) -> Result<(), Fault>
        ensures ok { OnOk result (Appends (held self.old) (held self.new) bytes.now) }
        ensures err { OnErr result (AppendsPrefix (held self.old) (held self.new) bytes.now) }
        // Bytes that came last are not known to be passed on.
        ensures passed_on { OnOk result (passed_on self.new ≡ passed_on_with (passed_on self.old) bytes.now) }
        ensures failures { failures self.new ≡ put_counted (failures self.old) result };

    /// Passes on what it took and has not passed on yet.
    ///
    /// Proved: All that a sink took was passed on after a flush that succeeded, as long as no bytes come.
    /// (`Sink::{flush, put}`)
    fn flush(&mut self) -> Result<(), Fault>
        ensures held { Keeps (held self.old) (held self.new) }
        ensures passed_on { passed_on self.new ≡ passed_on_by (passed_on self.old) result }
        ensures failures { failures self.new ≡ flush_counted (failures self.old) result };
}

impl<W: Sink> Sink for &mut W {
    ghost held = { λ s. W.held s.now };

    ghost passed_on = { λ s. W.passed_on s.now };

    ghost failures = { λ s. W.failures s.now };

    #[inline]
    fn put(&mut self, bytes: &[u8]) -> Result<(), Fault> {
        W::put(&mut **self, bytes)
    }

    #[inline]
    fn flush(&mut self) -> Result<(), Fault> {
        W::flush(&mut **self)
    }
}
