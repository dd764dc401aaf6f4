// A sink in memory of its own, with room for so many bytes.
ghost use Rattle.std.specs.Prelude.{◌≡◌, ◌+◌, [], length, take, drop, min, Some, IfOk};
ghost use Rattle.nr_units.specs.Failures.{no_failures};

use nr_units::sink::Sink;
use nr_units::source::{Fault, next_count};
use nr_vectors::{CountedAlloc, FixedVec};
use std::alloc::AllocError;

/// Takes what fits, and fails at a call that brings more.
#[derive(Drop)]
pub(crate) struct Pages {
    bytes: FixedVec<u8>,
    passed_on: bool,
    failed_puts: u64,
}

impl Pages {
    /// Nothing yet: `AllocError` where there is no memory for so many bytes.
    ///
    /// Proved: The pages of a call have as many bytes of memory as the caller's buffer, by the count of the allocator.
    /// (`taken` of what `Pages::new` ensures)
    pub(crate) fn new(alloc: &mut CountedAlloc, room: usize) -> Result<Pages, AllocError>
        ensures held { IfOk result (λ pages. ⟦<Pages as Sink>⟧.held pages ≡ Some []) }
        ensures failures { IfOk result (λ pages. ⟦<Pages as Sink>⟧.failures pages ≡ no_failures) }
        ensures taken { IfOk result (λ pages. alloc.new ≡ alloc.old + room) }
    {
        Ok(Pages {
            bytes: FixedVec::new(alloc, room)?,
            passed_on: false,
            failed_puts: 0,
        })
    }

    /// The bytes that it took.
    pub(crate) fn as_slice(&self) -> &[u8]
        ensures { ⟦<Pages as Sink>⟧.held self.now ≡ Some result.now }
    {
        self.bytes.as_slice()
    }
}

impl Sink for Pages {
    ghost use Rattle.std.specs.Prelude.{Some};

    ghost held = { λ s. Some s.bytes.items };

    ghost passed_on = { λ s. s.passed_on };

    ghost failures = { λ s. record { puts = s.failed_puts; flushes = 0 } };

    fn put(&mut self, bytes: &[u8]) -> Result<(), Fault> {
        let room = self.bytes.capacity() - self.bytes.len();
        if bytes.len() <= room {
            self.bytes.extend(bytes);
            if !bytes.is_empty() {
                self.passed_on = false;
            }
            return Ok(());
        }
        self.bytes.extend(&bytes[..room]);
        self.failed_puts = next_count(self.failed_puts);
        Err(Fault)
    }

    fn flush(&mut self) -> Result<(), Fault> {
        self.passed_on = true;
        Ok(())
    }
}

/// Copies bytes to the beginning of the output, as many as fit, and answers how many. What stands after them stays.
///
/// Proved: Of a caller's buffer what stands after the bytes that are written stays as it was, whatever the outcome.
/// (`rest` of each call, `hand_over`)
pub(crate) fn hand_over(bytes: &[u8], output: &mut [u8]) -> usize
    ensures prefix { take result output.new ≡ take result bytes.now }
    ensures count { result ≡ min (length bytes.now) (length output.new) }
    ensures rest { drop result output.new ≡ drop result output.old }
{
    let count = bytes.len().min(output.len());
    output[..count].copy_from_slice(&bytes[..count]);
    count
}
