//! A sink that keeps nothing.

use nr_units::sink::Sink;
use nr_units::source::Fault;

/// Takes all bytes, and keeps none.
#[derive(Drop)]
pub(crate) struct Nowhere {
    flushed: bool,
}

impl Nowhere {
    /// Nothing was put yet.
    pub(crate) fn new() -> Nowhere {
        Nowhere { flushed: false }
    }
}

impl Sink for Nowhere {
    ghost use Rattle.std.specs.Prelude.{None};

    ghost held = { λ s. None };

    ghost passed_on = { λ s. s.flushed };

    ghost failures = { λ s. record { puts = 0; flushes = 0 } };

    fn put(&mut self, bytes: &[u8]) -> Result<(), Fault> {
        if !bytes.is_empty() {
            self.flushed = false;
        }
        Ok(())
    }

    fn flush(&mut self) -> Result<(), Fault> {
        self.flushed = true;
        Ok(())
    }
}
