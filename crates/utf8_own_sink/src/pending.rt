//! Bytes are shown as they come, and what goes out waits.
ghost use Rattle.std.specs.Prelude.{◌≡◌, ◌+◌, ◌≤◌, [], ◌∷◌, ◌++◌, length, OnOk};
ghost use Rattle.std.specs.Io.KnownBytes.{Appends};
ghost use Rattle.nr_units.specs.Failures.{put_counted};
ghost use Rattle.document_stages.specs.Running.{Flushes, PrefixAtErr};
ghost use Rattle.utf8_own_characters.specs.Table.{Characters};
ghost use Rattle.utf8_own_sink.specs.Reading.{ended, first};
ghost use Rattle.utf8_own_sink.specs.Showing as specs;

use super::cells::{MOST, Reader};
use nr_units::sink::Sink;
use nr_units::source::Fault;
use nr_vectors::slice_vec::SliceVec;
use utf8_own_characters::OwnTable;

/// What is half read, and what waits to go out.
#[derive(Drop)]
pub(crate) struct PendingText<'a> {
    reader: Reader,
    out: SliceVec<'a, u8>,
    ghost room: { 512 ≤ out.capacity },
}

/// All that waits goes out.
fn put_waiting<W: Sink>(out: &mut SliceVec<'_, u8>, output: &mut W) -> Result<(), Fault>
    ensures ok { OnOk result (Appends (W.held output.old) (W.held output.new) out.old.items) }
    ensures err { PrefixAtErr result (W.held output.old) (W.held output.new) out.old.items }
    ensures empty { OnOk result (out.new.items ≡ []) }
    ensures failures { W.failures output.new ≡ put_counted (W.failures output.old) result }
    ensures room { out.new.capacity ≡ out.old.capacity }
{
    output.put(out.as_slice())?;
    out.clear();
    Ok(())
}

/// Room is made for what comes of one byte: where there is none, all that waits goes out.
#[inline]
fn make_room<W: Sink>(out: &mut SliceVec<'_, u8>, output: &mut W) -> Result<(), Fault>
    requires { 512 ≤ out.old.capacity }
    ensures ok { OnOk result (Flushes (W.held output.old) (W.held output.new) out.old.items out.new.items) }
    ensures err { PrefixAtErr result (W.held output.old) (W.held output.new) out.old.items }
    ensures fits { OnOk result (length out.new.items + 256 ≤ out.new.capacity) }
    ensures failures { W.failures output.new ≡ put_counted (W.failures output.old) result }
    ensures room { out.new.capacity ≡ out.old.capacity }
{
    if out.capacity() - out.len() >= MOST {
        return Ok(());
    }
    put_waiting(out, output)
}

impl<'a> PendingText<'a> {
    /// Nothing came yet.
    pub(crate) fn new(escapes: bool, room: &'a mut [u8]) -> PendingText<'a>
        requires { 512 ≤ length room.now }
        ensures reader { result.reader ≡ first escapes }
        ensures out { result.out.items ≡ [] }
    {
        PendingText {
            reader: Reader::new(escapes),
            out: SliceVec::over(room),
        }
    }

    /// All of these bytes are read.
    pub(crate) fn take_all<W: Sink>(
        &mut self,
        bytes: &[u8],
        table: &OwnTable<'_>,
        output: &mut W,
    ) -> Result<(), Fault>
        ensures takes { specs.Takes table.now (W.held output.old) (W.held output.new) self.old.reader self.new.reader
            self.old.out.items self.new.out.items bytes.now result }
        ensures failures { W.failures output.new ≡ put_counted (W.failures output.old) result }
    {
        let mut at = 0;
        while at < bytes.len() {
            make_room(&mut self.out, output)?;
            at += self.reader.read_some(&bytes[at..], table, &mut self.out);
        }
        Ok(())
    }

    /// What waits goes out.
    pub(crate) fn pass_on<W: Sink>(&mut self, output: &mut W) -> Result<(), Fault>
        ensures takes { (table : Characters) → specs.Takes table (W.held output.old) (W.held output.new) self.old.reader self.new.reader
            self.old.out.items self.new.out.items [] result }
        ensures failures { W.failures output.new ≡ put_counted (W.failures output.old) result }
    {
        put_waiting(&mut self.out, output)
    }

    /// The end comes, and all goes out.
    pub(crate) fn close<W: Sink>(
        &mut self,
        table: &OwnTable<'_>,
        output: &mut W,
    ) -> Result<(), Fault>
        ensures ok { OnOk result (Appends (W.held output.old) (W.held output.new)
            (self.old.out.items ++ ended table.now self.old.reader)) }
        ensures err { PrefixAtErr result (W.held output.old) (W.held output.new)
            (self.old.out.items ++ ended table.now self.old.reader) }
        ensures failures { W.failures output.new ≡ put_counted (W.failures output.old) result }
    {
        make_room(&mut self.out, output)?;
        self.reader.finish(table, &mut self.out);
        put_waiting(&mut self.out, output)
    }
}
