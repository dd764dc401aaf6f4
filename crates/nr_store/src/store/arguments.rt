// Arguments that are being read, and the call of a macro with them.
ghost use Rattle.std.specs.Prelude.{◌≡◌, ◌<◌, ◌≤◌, length, take, slice_index, OnOk, OnErr, is_some};
ghost use Rattle.nr_symbol_tables.specs.Table.{find};
ghost use Rattle.nr_store.specs.Store.{charge_of, afforded, checked, words, gathering, gathering_all, gathered_whole, ungathered, called};

use crate::refusal::{Refusal, StoredBytes};
use crate::store::Store;
use crate::store::names::text_in;
use nr_units::Name;

impl<K: Copy> Store<K> {
    /// Begins to read a macro's arguments: there are none yet.
    ///
    /// Proved: The arguments of a macro are gathered byte by byte, nine of them. (`Store::{begin_arguments,
    /// add_argument_byte, end_argument}`)
    pub fn begin_arguments(&mut self)
        ensures { self.new ≡ ungathered self.old }
    {
        self.charge -= self.gathering.len() as u32;
        self.gathering.clear();
    }

    /// Adds a byte to the argument that is being read. Nothing happens where nine are read whole: further ones are
    /// dropped (CSTR 54, macros with arguments).
    #[inline]
    pub fn add_argument_byte(&mut self, byte: u8) -> Result<(), StoredBytes>
        ensures answer { result ≡ afforded (gathering byte self.old) tt }
        ensures ok { OnOk result (self.new ≡ gathering byte self.old) }
        ensures err { OnErr result (self.new ≡ self.old) }
    {
        if self.gathering.is_full() {
            return Ok(());
        }
        if self.charge == self.stored {
            return Err(StoredBytes);
        }
        self.gathering.push(byte);
        self.charge += 1;
        Ok(())
    }

    /// Adds bytes to the argument that is being read, as calls of `add_argument_byte` for one after another do, up to the
    /// first that is refused. Answers how many.
    ///
    /// Proved: Bytes are added to an argument or to a text that is being built, as many as pass no limit.
    /// (`Store::add_argument_bytes`; `Store::add_bytes` in store/building.rt)
    #[inline]
    pub fn add_argument_bytes(&mut self, bytes: &[u8]) -> usize
        ensures within { result ≤ length bytes.now }
        ensures added { self.new ≡ gathering_all (take result bytes.now) self.old }
        ensures afforded { charge_of self.new ≤ self.new.limit }
        ensures most { result < length bytes.now
            → self.new.limit < charge_of (gathering (slice_index bytes.now result) self.new) }
    {
        let drops = self.gathering.is_full();
        if drops {
            return bytes.len();
        }
        let room = (self.stored - self.charge) as usize;
        let count = room.min(bytes.len());
        self.gathering.extend(&bytes[..count]);
        self.charge += count as u32;
        count
    }

    /// The argument that is being read is read whole.
    pub fn end_argument(&mut self)
        ensures { self.new ≡ gathered_whole self.old }
    {
        self.gathering.end();
    }

    /// Opens a level that reads the text of a name, with the arguments in force that were read whole. Answers whether
    /// there is such a text. No arguments are being read then.
    pub fn call(&mut self, name: Name) -> Result<bool, Refusal>
        ensures answer { let text = words (find name self.old.names) in
            result ≡ checked (called name text self.old) (is_some text) }
        ensures ok { OnOk result (self.new ≡ called name (words (find name self.old.names)) self.old) }
        ensures err { OnErr result (self.new ≡ self.old) }
    {
        let Some(id) = text_in(&self.names, name) else {
            self.begin_arguments();
            return Ok(false);
        };
        let kept = self.gathering.kept_len() as u32;
        let before = self.charge - self.gathering.len() as u32;
        if self.stored - before < 16 {
            return Err(Refusal::Stored);
        }
        if self.stored - before - 16 < kept {
            return Err(Refusal::Stored);
        }
        if self.levels.is_full() {
            return Err(Refusal::Depth);
        }
        self.pool.hold(id);
        let bytes = self.gathering.kept_bytes();
        let lens = self.gathering.kept_lens();
        self.levels.open_call(id, bytes, lens, 16 + kept);
        self.gathering.clear();
        self.charge = before + 16 + kept;
        Ok(true)
    }
}
