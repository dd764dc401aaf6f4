//! Where no page may go out.
ghost use Rattle.std.specs.Prelude.{◌≡◌, Some, []};

use nr_units::sink::Sink;
use nr_units::source::{Fault, next_count};

/// Takes no byte: a call that brings one fails.
#[derive(Drop)]
pub(crate) struct NoPages {
    failures: u64,
}

impl NoPages {
    /// No call has failed yet.
    pub(crate) fn new() -> Self
        ensures { ⟦<NoPages as Sink>⟧.held result ≡ Some [] }
    {
        NoPages { failures: 0 }
    }
}

impl Sink for NoPages {
    ghost use Rattle.std.specs.Prelude.{Some, [], true};

    ghost held = { λ s. Some [] };

    ghost passed_on = { λ s. true };

    ghost failures = { λ s. record { puts = s.failures; flushes = 0 } };

    fn put(&mut self, bytes: &[u8]) -> Result<(), Fault> {
        if bytes.is_empty() {
            return Ok(());
        }
        self.failures = next_count(self.failures);
        Err(Fault)
    }

    fn flush(&mut self) -> Result<(), Fault> {
        Ok(())
    }
}
