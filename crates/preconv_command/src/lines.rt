// A sink that knows whether a line is open.
ghost use Rattle.std.specs.Prelude.{◌≡◌, OnOk, OnErr, codes};
ghost use Rattle.nr_units.specs.Failures.{put_counted};
ghost use Rattle.nr_units.specs.Sink.{AppendsPrefix};
ghost use Rattle.preconv_command.specs.Converting.{EndsLine};

use nr_units::sink::Sink;
use nr_units::source::Fault;

/// What goes out, and whether it ends in the midst of a line.
pub struct Lines<W> {
    /// Where it goes.
    pub output: W,
    /// Whether a line is open.
    pub open: bool,
}

impl<W: Sink> Lines<W> {
    /// A line that is open is ended.
    pub fn end_line(&mut self) -> Result<(), Fault>
        ensures ok { OnOk result (EndsLine (W.held self.old.output) (W.held self.new.output)) }
        ensures err { OnErr result (AppendsPrefix (W.held self.old.output) (W.held self.new.output) (codes "\n")) }
        ensures failures { W.failures self.new.output ≡ put_counted (W.failures self.old.output) result }
    {
        if self.open {
            return self.put(b"\n");
        }
        Ok(())
    }
}

impl<W: Sink> Sink for Lines<W> {
    ghost held = { λ s. W.held s.output };

    ghost passed_on = { λ s. W.passed_on s.output };

    ghost failures = { λ s. W.failures s.output };

    fn put(&mut self, bytes: &[u8]) -> Result<(), Fault> {
        if let Some(last) = bytes.last() {
            self.open = *last != b'\n';
        }
        self.output.put(bytes)
    }

    fn flush(&mut self) -> Result<(), Fault> {
        self.output.flush()
    }
}
