//! A sink in memory of its own.
ghost use Rattle.std.specs.Prelude.{◌≡◌, ◌+◌, ◌<◌, [], length, min, IfOk, true};

use nr_units::sink::Sink;
use nr_units::source::{Fault, next_count};
use nr_vectors::{CountedAlloc, FixedVec};
use std::alloc::AllocError;
use std::marker::Model;

/// The most room.
const MOST: usize = 1_099_511_627_775;

/// Takes what there is room for, and fails at a call that brings more. Its memory is taken once, and what isn't used
/// of it isn't touched.
#[derive(Drop)]
pub struct Buffer {
    bytes: FixedVec<u8>,
    passed_on: bool,
    failed_puts: u64,
}

impl Model for Buffer {
    ghost use Rattle.std.specs.Prelude.{◌<◌};
    ghost use Rattle.document_stages.specs.Buffer.{Kept};

    ghost Value = { Kept };

    ghost view = { λ b. record {
      bytes = b.bytes.items;
      is_passed_on = b.passed_on;
      failures = b.failed_puts;
    } };

    ghost invariant = { λ b. b.bytes.capacity < 1099511627776 };
}

impl Buffer {
    /// Empty, with room for so many bytes, less than 2^40: `AllocError` where there is no memory for them.
    pub fn new(alloc: &mut CountedAlloc, room: usize) -> Result<Buffer, AllocError>
        ensures empty { IfOk result (λ made. made.bytes ≡ []) }
        ensures taken { IfOk result (λ made. alloc.new ≡ alloc.old + min room 1099511627775) }
    {
        Ok(Buffer {
            bytes: FixedVec::new(alloc, room.min(MOST))?,
            passed_on: false,
            failed_puts: 0,
        })
    }

    /// It holds nothing, and no call failed yet.
    pub fn clear(&mut self)
        ensures empty { self.new.bytes ≡ [] }
        ensures failures { self.new.failures ≡ 0 }
    {
        self.bytes.clear();
        self.failed_puts = 0;
    }

    /// The bytes that it holds.
    pub fn as_slice(&self) -> &[u8]
        ensures value { result.now ≡ self.now.bytes }
        ensures short { length result.now < 1099511627776 }
    {
        self.bytes.as_slice()
    }
}

impl Sink for Buffer {
    ghost use Rattle.std.specs.Prelude.{Some};

    ghost held = { λ s. Some s.bytes };

    ghost passed_on = { λ s. s.is_passed_on };

    ghost failures = { λ s. record { puts = s.failures; flushes = 0 } };

    fn put(&mut self, bytes: &[u8]) -> Result<(), Fault> {
        let room = self.bytes.capacity() - self.bytes.len();
        if bytes.len() <= room {
            self.bytes.extend(bytes);
            if !bytes.is_empty() {
                self.passed_on = false;
            }
            return Ok(());
        }
        self.bytes.extend(&bytes[..room]);
        self.failed_puts = next_count(self.failed_puts);
        Err(Fault)
    }

    fn flush(&mut self) -> Result<(), Fault> {
        self.passed_on = true;
        Ok(())
    }
}
