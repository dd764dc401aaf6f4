// The name list: what names stand for, removed and renamed.
ghost use Rattle.std.specs.Prelude.{◌≡◌, ◌^◌, ◌<◌, ◌≤◌, None, Some, IfSome};
ghost use Rattle.nr_pool.specs.Texts.{IsOpen, text};
ghost use Rattle.nr_symbol_tables.specs.Table.{find, is_same};
ghost use Rattle.nr_store.specs.Senses.{text_id};
ghost use Rattle.nr_store.specs.Store.{charge_of, meaning_of, share, removed, renamed, moved, words};
ghost use Rattle.nr_store.specs.Holders.{lone};

use crate::element::Element;
use crate::named::{Meaning, Sense};
use crate::store::Store;
use nr_pool::{Id, Pool};
use nr_symbol_tables::SymbolTable;
use nr_units::Name;

// The number of the text of a name.
pub(crate) fn text_in(names: &SymbolTable<Sense>, name: Name) -> Option<Id>
    ensures { result ≡ text_id (find name names.now.entries) }
{
    let Some(sense) = names.get(name) else {
        return None;
    };
    match sense {
        Sense::Request(_) => None,
        Sense::Text(id) => Some(id),
    }
}

// What is no longer charged for a text where one of those who hold it lets it go: 16 and its length where no other holds
// it, else nothing. (A name gives back 32 beside it, a level what it is charged itself.)
pub(crate) fn lone_share(pool: &Pool<Element>, id: Id) -> u32
    requires is_open { IsOpen pool.now id }
    requires small { share (text pool.now id) < 2 ^ 32 }
    ensures { result ≡ lone pool.now id }
{
    if pool.holders(id) == 1 {
        return 16 + pool.len(id) as u32;
    }
    0
}

impl<K: Copy> Store<K> {
    /// What a name stands for.
    ///
    /// Proved: A name stands for nothing, a request or a text.
    pub fn lookup(&self, name: Name) -> Meaning
        ensures { result ≡ meaning_of (find name self.now.names) }
    {
        let Some(sense) = self.names.get(name) else {
            return Meaning::Unknown;
        };
        match sense {
            Sense::Request(request) => Meaning::Request(request),
            Sense::Text(_) => Meaning::Text,
        }
    }

    /// The text of a name, if it has one.
    #[inline]
    pub fn text(&self, name: Name) -> Option<&[Element]>
        ensures text { IfSome result (λ text. words (find name self.now.names) ≡ Some text.now) }
        ensures none { result ≡ None → words (find name self.now.names) ≡ None }
    {
        let Some(id) = text_in(&self.names, name) else {
            return None;
        };
        Some(self.pool.text(id))
    }

    /// Takes a name away (CSTR 54, `.rm`). Levels go on reading its text.
    ///
    /// Proved: Names are removed and renamed as lists of named values are. (`Store::{remove, rename}`)
    /// Proved: A text that is being read stays as it was, whatever becomes of its name. (`Store::{remove, rename}`;
    /// `Store::define` in store/building.rt)
    /// Proved: Removing, renaming or defining a name never raises what is charged. (`Store::{remove, rename}`;
    /// `Store::define` in store/building.rt)
    pub fn remove(&mut self, name: Name)
        ensures is { self.new ≡ removed name self.old }
        ensures gone { find name self.new.names ≡ None }
        ensures no_more { charge_of self.new ≤ charge_of self.old }
    {
        let Some(old) = self.names.remove(name) else {
            return;
        };
        let Sense::Text(old) = old else {
            return;
        };
        self.charge -= 32 + lone_share(&self.pool, old);
        self.pool.release(old);
    }

    /// Gives what has the one name the other name, whose meaning goes (CSTR 54, `.rn`). Nothing changes where nothing has
    /// the one name, or the other is the same.
    pub fn rename(&mut self, from: Name, to: Name)
        ensures is { self.new ≡ renamed from to self.old }
        ensures no_more { charge_of self.new ≤ charge_of self.old }
    {
        if from.compare(&to).is_eq() {
            return;
        }
        self.move_name(from, to);
    }

    // Gives what has the one name the other name.
    fn move_name(&mut self, from: Name, to: Name)
        ensures is { self.new ≡ moved (find from self.old.names) from to self.old }
        ensures no_more { charge_of self.new ≤ charge_of self.old }
    {
        let Some(sense) = self.names.remove(from) else {
            return;
        };
        let Some(old) = self.names.put(to, sense) else {
            return;
        };
        let Sense::Text(old) = old else {
            return;
        };
        self.charge -= 32 + lone_share(&self.pool, old);
        self.pool.release(old);
    }
}
