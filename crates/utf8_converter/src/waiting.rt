//! Bytes are turned as they come, and what goes out waits.
ghost use Rattle.std.specs.Prelude.{◌≡◌, ◌+◌, ◌<◌, ◌≤◌, [], ◌++◌, length, IfOk, OnOk};
ghost use Rattle.std.specs.Io.KnownBytes.{Appends};
ghost use Rattle.nr_units.specs.Failures.{put_counted};
ghost use Rattle.document_stages.specs.Running.{Flushes, PrefixAtErr, at_most};
ghost use Rattle.utf8_converter.specs.Reading.{ended, first_reader};
ghost use Rattle.utf8_converter.specs.Showing as specs;

use super::staged::Utf8Converter;
use nr_units::sink::Sink;
use nr_units::source::Fault;
use nr_vectors::slice_vec::SliceVec;
use utf8_characters::FixedTable;

/// A text that is turned, and what waits to go out.
#[derive(Drop)]
pub(crate) struct Waiting<'a> {
    turner: Utf8Converter,
    out: SliceVec<'a, u8>,
}

/// All that is pending goes out.
fn put_pending<W: Sink>(out: &mut SliceVec<'_, u8>, output: &mut W) -> Result<(), Fault>
    ensures ok { OnOk result (Appends (W.held output.old) (W.held output.new) out.old.items) }
    ensures err { PrefixAtErr result (W.held output.old) (W.held output.new) out.old.items }
    ensures empty { OnOk result (out.new.items ≡ []) }
    ensures failures { W.failures output.new ≡ put_counted (W.failures output.old) result }
    ensures room { out.new.capacity ≡ out.old.capacity }
{
    output.put(out.as_slice())?;
    out.clear();
    Ok(())
}

/// These bytes go out after those that wait, or wait with them.
fn emit<W: Sink>(bytes: &[u8], out: &mut SliceVec<'_, u8>, output: &mut W) -> Result<(), Fault>
    ensures ok { OnOk result (Flushes (W.held output.old) (W.held output.new) (out.old.items ++ bytes.now)
        out.new.items) }
    ensures err { PrefixAtErr result (W.held output.old) (W.held output.new) (out.old.items ++ bytes.now) }
    ensures failures { W.failures output.new ≡ put_counted (W.failures output.old) result }
{
    if out.capacity() - out.len() >= bytes.len() {
        out.extend(bytes);
        return Ok(());
    }
    put_pending(out, output)?;
    if out.capacity() >= bytes.len() {
        out.extend(bytes);
        return Ok(());
    }
    output.put(bytes)
}

impl<'a> Waiting<'a> {
    /// Nothing came yet.
    pub(crate) fn new(table: FixedTable, escapes: bool, out: &'a mut [u8]) -> Waiting<'a>
        ensures reader { result.turner.reader ≡ first_reader table escapes }
        ensures out { result.out.items ≡ [] }
        ensures strays { result.turner.strays ≡ 0 }
    {
        Waiting {
            turner: Utf8Converter::new(table, escapes),
            out: SliceVec::over(out),
        }
    }

    /// Some of these bytes are read, and what they come to goes out or waits. Tells how many were.
    fn take_some<W: Sink>(&mut self, bytes: &[u8], output: &mut W) -> Result<usize, Fault>
        requires some { 0 < length bytes.now }
        ensures takes { specs.TakesSome (W.held output.old) (W.held output.new) self.old.turner.reader self.new.turner.reader
            self.old.out.items self.new.out.items self.old.turner.strays self.new.turner.strays bytes.now result }
        ensures failures { W.failures output.new ≡ put_counted (W.failures output.old) result }
    {
        let some = self.turner.read_some(bytes);
        emit(self.turner.text(some.end), &mut self.out, output)?;
        Ok(some.taken)
    }

    /// All of these bytes are read.
    pub(crate) fn take_all<W: Sink>(&mut self, bytes: &[u8], output: &mut W) -> Result<(), Fault>
        ensures takes { specs.TakesAll (W.held output.old) (W.held output.new) self.old.turner.reader self.new.turner.reader
            self.old.out.items self.new.out.items self.old.turner.strays self.new.turner.strays bytes.now result }
        ensures failures { W.failures output.new ≡ put_counted (W.failures output.old) result }
    {
        let mut at = 0;
        while at < bytes.len() {
            at += self.take_some(&bytes[at..], output)?;
        }
        Ok(())
    }

    /// What waits goes out.
    pub(crate) fn pass_on<W: Sink>(&mut self, output: &mut W) -> Result<(), Fault>
        ensures takes { specs.TakesAll (W.held output.old) (W.held output.new) self.old.turner.reader self.new.turner.reader
            self.old.out.items self.new.out.items self.old.turner.strays self.new.turner.strays [] result }
        ensures failures { W.failures output.new ≡ put_counted (W.failures output.old) result }
    {
        put_pending(&mut self.out, output)
    }

    /// The end comes, and all goes out. Tells how many bytes were dropped.
    pub(crate) fn close<W: Sink>(&mut self, output: &mut W) -> Result<u64, Fault>
        ensures ok { OnOk result (Appends (W.held output.old) (W.held output.new)
            (self.old.out.items ++ (ended self.old.turner.reader).bytes)) }
        ensures err { PrefixAtErr result (W.held output.old) (W.held output.new)
            (self.old.out.items ++ (ended self.old.turner.reader).bytes) }
        ensures strays { IfOk result (λ n. n ≡ at_most (self.old.turner.strays + (ended self.old.turner.reader).strays)) }
        ensures failures { W.failures output.new ≡ put_counted (W.failures output.old) result }
    {
        let end = self.turner.read_end();
        emit(self.turner.text(end), &mut self.out, output)?;
        put_pending(&mut self.out, output)?;
        Ok(self.turner.strays())
    }
}
