//! A sink in memory that is lent.
ghost use Rattle.std.specs.Prelude.{◌≡◌, ◌<◌, length};

use super::space::Space;
use nr_units::sink::Sink;
use nr_units::source::{Fault, next_count};
use std::marker::Model;

/// Takes what there is room for, and fails at a call that brings more.
#[derive(Drop)]
pub(crate) struct Filling {
    bytes: Space,
    passed_on: bool,
    failed_puts: u64,
}

impl Model for Filling {
    ghost use Rattle.std.specs.Prelude.{◌≡◌, ◌<◌, length};
    ghost use Rattle.tbl_stage.specs.Filling.{Filled};

    ghost Value = { Filled };

    ghost view = { λ f. record {
      bytes = f.bytes.items;
      room = f.bytes.capacity;
      is_passed_on = f.passed_on;
      failures = f.failed_puts;
    } };

    // Where a call failed there is no room left.
    ghost invariant = { λ f. 0 < f.failed_puts → length f.bytes.items ≡ f.bytes.capacity };
}

impl Filling {
    /// What the bytes hold is of account.
    pub(crate) fn over(bytes: Space) -> Filling
        ensures bytes { result.bytes ≡ bytes.items }
        ensures room { result.room ≡ bytes.capacity }
        ensures failures { result.failures ≡ 0 }
    {
        Filling {
            bytes,
            passed_on: false,
            failed_puts: 0,
        }
    }

    /// What it took.
    pub(crate) fn into_bytes(self) -> Space
        ensures bytes { result.items ≡ self.bytes }
        ensures room { result.capacity ≡ self.room }
        ensures full { 0 < self.failures → length result.items ≡ result.capacity }
    {
        self.bytes
    }
}

impl Sink for Filling {
    ghost use Rattle.std.specs.Prelude.{Some};

    ghost held = { λ s. Some s.bytes };

    ghost passed_on = { λ s. s.is_passed_on };

    // No flush fails, so the count of those that do may begin anywhere. It begins at the room, which is so known of a sink
    // that comes back.
    ghost failures = { λ s. record { puts = s.failures; flushes = s.room } };

    fn put(&mut self, bytes: &[u8]) -> Result<(), Fault> {
        let room = self.bytes.capacity() - self.bytes.len();
        if bytes.len() <= room {
            self.bytes.extend(bytes);
            if !bytes.is_empty() {
                self.passed_on = false;
            }
            return Ok(());
        }
        self.bytes.extend(&bytes[..room]);
        self.failed_puts = next_count(self.failed_puts);
        Err(Fault)
    }

    fn flush(&mut self) -> Result<(), Fault> {
        self.passed_on = true;
        Ok(())
    }
}
