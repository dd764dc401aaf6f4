//! Bytes go out in UTF-8 as they come: a sink over a sink.
ghost use Rattle.std.specs.Prelude.{◌≡◌, ◌≢◌, ℕ, List, ◌++◌, false, IsOk};
ghost use Rattle.std.proofs.Math.Logic.{∥∥₁_prop};
ghost use Rattle.nr_units.specs.Failures.{no_failures};
ghost use Rattle.nr_units.specs.Sink.{AppendsPrefix};
ghost use Rattle.utf8_converter.specs.Cells.{converted};
ghost use Rattle.utf8_converter.specs.Showing.{Making, Finishes, StandsOr, made_of};

use super::came::Came;
use super::waiting::Waiting;
use nr_units::sink::Sink;
use nr_units::source::{Fault, next_count};
use std::marker::Model;
use std::snapshot::Snapshot;
use utf8_characters::FixedTable;

/// Takes bytes of a table, as `convert` does, and puts what they come to into another sink. Once that failed, each `put`
/// fails.
///
/// Proved: A sink that shows bytes in another one puts out the same: once it is finished, what is out is what
/// `convert` would put out of all bytes that came, in pieces of any size, whatever flushes came between. Where a put
/// fails, a prefix of that is out, also of what more bytes would have come to; nothing goes out after it, and the end
/// reports it. (`Shown`; `Finishes` in Showing.antt)
#[derive(Drop)]
pub struct Shown<'a, W: Sink> {
    output: W,
    begun: Snapshot<W>,
    came: Came,
    table: FixedTable,
    escapes: bool,
    waiting: Waiting<'a>,
    broken: bool,
    flushed: bool,
    failed_puts: u64,
    failed_flushes: u64,
    ghost stands: { ∥ StandsOr broken (record {
      table = table;
      escapes = escapes;
      begun = W.held begun.value;
      failed = (W.failures begun.value).puts;
    }) came.bytes (W.held output) (W.failures output).puts waiting.turner.reader waiting.out.items waiting.turner.strays ∥₁ } by { ∥∥₁_prop },
    ghost counts: { broken ≡ false → failed_puts ≡ 0 },
}

impl<'a, W: Sink> Model for Shown<'a, W> {
    ghost use Rattle.std.specs.Prelude.{◌++◌};
    ghost use Rattle.utf8_converter.specs.Showing.{ShownSoFar, made_of};

    ghost Value = { ShownSoFar };

    ghost view = { λ s. record {
      bytes = made_of (record {
        table = s.table;
        escapes = s.escapes;
        begun = W.held s.begun.value;
        failed = (W.failures s.begun.value).puts;
      }) ++ s.came.bytes;
      is_passed_on = s.flushed;
      failures = record { puts = s.failed_puts; flushes = s.failed_flushes };
    } };
}

impl<'a, W: Sink> Shown<'a, W> {
    /// Nothing came yet. Bytes from 128 on are characters of the table; with `escapes` looks stand between escape sequences.
    /// In the room waits what goes out; what it held is of no account.
    pub fn over(output: W, table: FixedTable, escapes: bool, room: &'a mut [u8]) -> Self
        ensures held { result.bytes ≡ made_of (record {
          table = table;
          escapes = escapes;
          begun = W.held output;
          failed = (W.failures output).puts;
        }) }
        ensures passed_on { result.is_passed_on ≡ false }
        ensures failures { result.failures ≡ no_failures }
    {
        let begun = Snapshot::of(&output);
        Shown {
            output,
            begun,
            came: Came::nothing(),
            table,
            escapes,
            waiting: Waiting::new(table, escapes, room),
            broken: false,
            flushed: false,
            failed_puts: 0,
            failed_flushes: 0,
        }
    }

    /// The end comes, and all goes out. Gives the sink back, and the number of bytes that were dropped, or a fault where
    /// the sink failed.
    pub fn finish(self) -> (W, Result<u64, Fault>)
        // What it holds says how it was made and what came, and the other sink got what that comes to.
        ensures shown { (m : Making) (came : List ℕ) → self.entry.bytes ≡ made_of m ++ came →
            Finishes m came (W.held result.0) (W.failures result.0).puts result.1 }
        // Once a put failed, it got a prefix of what these bytes come to and any that would have followed.
        ensures broke { (m : Making) (came more : List ℕ) → self.entry.bytes ≡ made_of m ++ came →
            self.entry.failures.puts ≢ 0 →
            AppendsPrefix m.begun (W.held result.0) (converted m.table m.escapes (came ++ more)) }
        ensures fails { IsOk result.1 → self.entry.failures.puts ≡ 0 }
    {
        let Shown {
            mut output,
            begun: _,
            came: _,
            table: _,
            escapes: _,
            mut waiting,
            broken,
            flushed: _,
            failed_puts: _,
            failed_flushes: _,
        } = self;
        if broken {
            return (output, Err(Fault));
        }
        let strays = waiting.close(&mut output);
        (output, strays)
    }
}

impl<'a, W: Sink> Sink for Shown<'a, W> {
    ghost use Rattle.std.specs.Prelude.{Some};

    ghost held = { λ s. Some s.bytes };

    ghost passed_on = { λ s. s.is_passed_on };

    ghost failures = { λ s. s.failures };

    fn put(&mut self, bytes: &[u8]) -> Result<(), Fault> {
        self.came.note(bytes);
        if self.broken || self.waiting.take_all(bytes, &mut self.output).is_err() {
            self.broken = true;
            self.failed_puts = next_count(self.failed_puts);
            return Err(Fault);
        }
        if !bytes.is_empty() {
            self.flushed = false;
        }
        Ok(())
    }

    fn flush(&mut self) -> Result<(), Fault> {
        if self.broken || self.waiting.pass_on(&mut self.output).is_err() {
            self.broken = true;
            self.failed_flushes = next_count(self.failed_flushes);
            return Err(Fault);
        }
        if self.output.flush().is_err() {
            self.failed_flushes = next_count(self.failed_flushes);
            return Err(Fault);
        }
        self.flushed = true;
        Ok(())
    }
}
