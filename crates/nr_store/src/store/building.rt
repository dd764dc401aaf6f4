// Texts being built, and diversions.
ghost use Rattle.std.specs.Prelude.{◌≡◌, ◌+◌, ◌∷◌, [], ◌++◌, ◌<◌, ◌≤◌, length, map, replicate, take, OnOk, OnErr, None, Some, slice_get, slice_index};
ghost use Rattle.nr_pool.specs.Texts.{IsOpen, text, used, with_text};
ghost use Rattle.nr_store.specs.declared.element.Element.TheVariants as elements;
ghost use Rattle.nr_store.specs.Store.{charge_of, afforded, begun, text_of, fresh, added, diverted, defined, innermost, trapped, newest_diversion, diversion_ended, taken};

use crate::element::{Diversion, Draft, Element};
use crate::named::Sense;
use crate::refusal::StoredBytes;
use crate::store::Store;
use crate::store::lines::append_all;
use crate::store::names::{lone_share, text_in};
use nr_symbol_tables::Trap;
use nr_units::Name;
use nr_vectors::cell::Cell;

impl<K: Copy> Store<K> {
    /// Begins an empty text.
    ///
    /// Proved: A text is built apart, empty or from a copy of an old one, and takes its name when it is whole.
    /// (`Store::{begin, begin_from, add, define}`)
    /// Proved: A call is refused exactly where its charge would pass the limit, or a level more the deepest, and then
    /// nothing has changed. (`Store::{begin, add}`; `Store::{enter, spring}` in store/levels.rt; `Store::call` in
    /// store/arguments.rt; `Store::set_register` in store/registers.rt; `Store::plant` in store/traps.rt;
    /// `Store::add_word` in store/words.rt)
    pub fn begin(&mut self) -> Result<(), StoredBytes>
        ensures answer { result ≡ afforded (begun [] None self.old) tt }
        ensures ok { OnOk result (self.new ≡ begun [] None self.old) }
        ensures err { OnErr result (self.new ≡ self.old) }
    {
        self.begin_empty(None)
    }

    /// Begins a text that is a copy of a name's, or empty where that is no text's.
    pub fn begin_from(&mut self, name: Name) -> Result<(), StoredBytes>
        ensures answer { result ≡ afforded (begun (text_of name self.old) None self.old) tt }
        ensures ok { OnOk result (self.new ≡ begun (text_of name self.old) None self.old) }
        ensures err { OnErr result (self.new ≡ self.old) }
    {
        self.begin_copy(name, None)
    }

    /// Begins a diversion that is empty (CSTR 54, `.di`).
    ///
    /// Proved: Diversions nest, and the one that ends reports its height and width. (`Store::{begin_diversion,
    /// begin_appending, diversion, end_diversion}`)
    pub fn begin_diversion(&mut self, name: Name) -> Result<(), StoredBytes>
        ensures answer { result ≡ afforded (begun [] (Some (fresh name)) self.old) tt }
        ensures ok { OnOk result (self.new ≡ begun [] (Some (fresh name)) self.old) }
        ensures err { OnErr result (self.new ≡ self.old) }
    {
        self.begin_empty(Some(Diversion::fresh(name)))
    }

    /// Begins a diversion that is a copy of the text that has its name, or empty where that is no text's (CSTR 54,
    /// `.da`).
    pub fn begin_appending(&mut self, name: Name) -> Result<(), StoredBytes>
        ensures answer { result ≡ afforded (begun (text_of name self.old) (Some (fresh name)) self.old) tt }
        ensures ok { OnOk result (self.new ≡ begun (text_of name self.old) (Some (fresh name)) self.old) }
        ensures err { OnErr result (self.new ≡ self.old) }
    {
        self.begin_copy(name, Some(Diversion::fresh(name)))
    }

    // Begins an empty text.
    fn begin_empty(&mut self, diversion: Option<Diversion>) -> Result<(), StoredBytes>
        ensures answer { result ≡ afforded (begun [] diversion self.old) tt }
        ensures ok { OnOk result (self.new ≡ begun [] diversion self.old) }
        ensures err { OnErr result (self.new ≡ self.old) }
    {
        if self.stored - self.charge < 48 {
            return Err(StoredBytes);
        }
        let Ok(id) = self.pool.open() else {
            return Err(StoredBytes);
        };
        self.drafts.push(Draft { id, diversion });
        self.charge += 48;
        Ok(())
    }

    // Begins a text that is a copy of a name's, or empty where that is no text's.
    fn begin_copy(&mut self, name: Name, diversion: Option<Diversion>) -> Result<(), StoredBytes>
        ensures answer { result ≡ afforded (begun (text_of name self.old) diversion self.old) tt }
        ensures ok { OnOk result (self.new ≡ begun (text_of name self.old) diversion self.old) }
        ensures err { OnErr result (self.new ≡ self.old) }
    {
        let Some(from) = text_in(&self.names, name) else {
            return self.begin_empty(diversion);
        };
        let len = self.pool.len(from) as u32;
        if self.stored - self.charge < 48 {
            return Err(StoredBytes);
        }
        if self.stored - self.charge - 48 < len {
            return Err(StoredBytes);
        }
        let Ok(id) = self.pool.open() else {
            return Err(StoredBytes);
        };
        let Ok(()) = self.pool.copy_text(from, id) else {
            return Err(StoredBytes);
        };
        self.drafts.push(Draft { id, diversion });
        self.charge += 48 + len;
        Ok(())
    }

    /// Adds an element to the newest text being built. Nothing happens where none is.
    #[inline]
    pub fn add(&mut self, element: Element) -> Result<(), StoredBytes>
        ensures answer { result ≡ afforded (added (element ∷ []) self.old) tt }
        ensures ok { OnOk result (self.new ≡ added (element ∷ []) self.old) }
        ensures err { OnErr result (self.new ≡ self.old) }
    {
        let Some(draft) = self.drafts.top() else {
            return Ok(());
        };
        if self.charge == self.stored {
            return Err(StoredBytes);
        }
        let Ok(()) = self.pool.append(draft.id, element) else {
            return Err(StoredBytes);
        };
        self.charge += 1;
        Ok(())
    }

    /// Adds bytes to the newest text being built, as calls of `add` for one after another do, up to the first that is
    /// refused. Answers how many: all of them where no text is being built.
    #[inline]
    pub fn add_bytes(&mut self, bytes: &[u8]) -> usize
        ensures within { result ≤ length bytes.now }
        ensures added { self.new ≡ added (map elements.Byte (take result bytes.now)) self.old }
        ensures afforded { charge_of self.new ≤ self.new.limit }
        ensures most { result < length bytes.now
            → self.new.limit
            < charge_of (added (elements.Byte (slice_index bytes.now result) ∷ []) self.new) }
    {
        let Some(draft) = self.drafts.top() else {
            return bytes.len();
        };
        let room = (self.stored - self.charge) as usize;
        let count = room.min(bytes.len());
        append_all(&mut self.pool, draft.id, &bytes[..count]);
        self.charge += count as u32;
        count
    }

    /// Gives the newest text being built a name. Levels go on reading the text that had it. Nothing happens where no text
    /// is being built.
    pub fn define(&mut self, name: Name)
        ensures is { self.new ≡ defined name self.old }
        ensures no_more { charge_of self.new ≤ charge_of self.old }
    {
        let Some(draft) = self.drafts.top() else {
            return;
        };
        self.drafts.pop();
        let Some(old) = self.names.put(name, Sense::Text(draft.id)) else {
            return;
        };
        let Sense::Text(old) = old else {
            return;
        };
        self.charge -= 32 + lone_share(&self.pool, old);
        self.pool.release(old);
    }

    /// The diversion that was opened last, also where a text is built inside it.
    pub fn diversion(&self) -> Option<Diversion>
        ensures { result ≡ innermost self.now.building }
    {
        for n in 0..self.drafts.len() {
            let draft = self.drafts.get(n);
            if draft.diversion.is_some() {
                return draft.diversion;
            }
        }
        None
    }

    /// Gives the newest text being built this trap, if it is a diversion's (CSTR 54, `.dt`).
    pub fn set_diversion_trap(&mut self, trap: Option<Trap>)
        ensures { self.new ≡ trapped trap self.old }
    {
        let Some(draft) = self.drafts.top() else {
            return;
        };
        let Draft { id, diversion } = draft;
        let Some(diversion) = diversion else {
            return;
        };
        self.drafts.set_top(Draft {
            id,
            diversion: Some(diversion.with_trap(trap)),
        });
    }

    /// Ends the newest text being built, if it is a diversion's: it takes its name. Answers the diversion.
    pub fn end_diversion(&mut self) -> Option<Diversion>
        ensures was { result ≡ newest_diversion self.old.building }
        ensures is { self.new ≡ diversion_ended self.old }
    {
        let Some(draft) = self.drafts.top() else {
            return None;
        };
        let Draft { diversion, .. } = draft;
        let Some(diversion) = diversion else {
            return None;
        };
        self.define(diversion.name);
        Some(diversion)
    }
}
