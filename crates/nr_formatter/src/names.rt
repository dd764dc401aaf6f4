//! Names and the texts that they stand for. (CSTR 54, section 7)
ghost use Rattle.std.specs.Prelude.{◌≡◌, ◌≤◌, length, OnOk, Some};
ghost use Rattle.nr_store.specs.Store.{afforded, charge_of};
ghost use Rattle.nr_formatter.specs.Limits.{IsWithin, limits_of, stored_limits};
ghost use Rattle.nr_formatter.specs.Names.{with_lines, named_definition, de, am, ig, rm, rn, cc, c2, cp, with_words, hw};

use crate::formatter::Formatter;
use crate::tasks::{Resume, Task};
use nr_input::Definition;
use nr_settings as settings;
use nr_settings::Arguments;
use nr_store::{Store, StoredBytes};
use nr_units::Name;

/// The words of a line are stored.
fn add_words(store: &mut Store<Resume>, line: &[u8]) -> Result<(), StoredBytes>
    ensures answer { charge_of store.old ≤ store.old.limit
        → result ≡ afforded (with_words (length line.now) line.now store.old) tt }
    ensures ok { OnOk result (store.new ≡ with_words (length line.now) line.now store.old) }
    ensures limits { stored_limits store.new ≡ stored_limits store.old }
{
    let mut arguments = Arguments::of(line);
    for _word in 0..line.len() {
        let word = arguments.word();
        if word.is_empty() {
            return Ok(());
        }
        match store.add_word(word) {
            Err(full) => return Err(full),
            Ok(()) => {}
        }
    }
    Ok(())
}

impl Formatter {
    /// The lines that follow are a definition's.
    fn begin_definition(
        &mut self,
        definition: Definition,
        name: Name,
        ending: Option<Name>,
    ) -> Result<(), StoredBytes>
        ensures result { IsWithin self.old
            → result ≡ afforded (with_lines definition name ending self.old).store tt }
        ensures ok { OnOk result (self.new ≡ with_lines definition name ending self.old) }
        ensures limits { limits_of self.new ≡ limits_of self.old }
    {
        let ending = ending.unwrap_or(Name::new());
        self.reader
            .define(&mut self.store, definition, name, ending)
    }

    /// A definition of the name that the request's line has, if it has one.
    fn define(&mut self, definition: Definition) -> Result<(), StoredBytes>
        ensures result { IsWithin self.old
            → result ≡ afforded (named_definition definition self.old).store tt }
        ensures ok { OnOk result (self.new ≡ named_definition definition self.old) }
        ensures limits { limits_of self.new ≡ limits_of self.old }
    {
        self.task = Task::Read;
        let long = self.reader.long_names();
        let mut arguments = Arguments::of(self.reader.line());
        let Some(name) = arguments.name(long) else {
            return Ok(());
        };
        let ending = arguments.name(long);
        self.begin_definition(definition, name, ending)
    }

    /// `.de xx yy`: the lines that follow replace what xx has.
    pub(crate) fn de(&mut self) -> Result<(), StoredBytes>
        ensures result { IsWithin self.old → result ≡ afforded (de self.old).store tt }
        ensures ok { OnOk result (self.new ≡ de self.old) }
        ensures limits { limits_of self.new ≡ limits_of self.old }
    {
        self.define(Definition::De)
    }

    /// `.am xx yy`: the lines that follow are added to what xx has.
    pub(crate) fn am(&mut self) -> Result<(), StoredBytes>
        ensures result { IsWithin self.old → result ≡ afforded (am self.old).store tt }
        ensures ok { OnOk result (self.new ≡ am self.old) }
        ensures limits { limits_of self.new ≡ limits_of self.old }
    {
        self.define(Definition::Am)
    }

    /// `.ig yy`: the lines that follow are dropped.
    pub(crate) fn ig(&mut self) -> Result<(), StoredBytes>
        ensures result { IsWithin self.old → result ≡ afforded (ig self.old).store tt }
        ensures ok { OnOk result (self.new ≡ ig self.old) }
        ensures limits { limits_of self.new ≡ limits_of self.old }
    {
        self.task = Task::Read;
        let ending = Arguments::of(self.reader.line()).name(self.reader.long_names());
        self.begin_definition(Definition::Ig, Name::new(), ending)
    }

    /// `.rm xx`: xx has nothing any more.
    pub(crate) fn rm(&mut self)
        ensures { self.new ≡ rm self.old }
    {
        self.task = Task::Read;
        if let Some(name) = Arguments::of(self.reader.line()).name(self.reader.long_names()) {
            self.store.remove(name);
        }
    }

    /// `.rn xx yy`: yy has what xx had.
    pub(crate) fn rn(&mut self)
        ensures { self.new ≡ rn self.old }
    {
        self.task = Task::Read;
        let long = self.reader.long_names();
        let mut arguments = Arguments::of(self.reader.line());
        let Some(from) = arguments.name(long) else {
            return;
        };
        let Some(to) = arguments.name(long) else {
            return;
        };
        self.store.rename(from, to);
    }

    /// `.cc c`: the control character.
    pub(crate) fn cc(&mut self)
        ensures { self.new ≡ cc self.old }
    {
        let byte = settings::cc(self.reader.line());
        self.reader.set_control(byte);
        self.task = Task::Read;
    }

    /// `.c2 c`: the no-break control character.
    pub(crate) fn c2(&mut self)
        ensures { self.new ≡ c2 self.old }
    {
        let byte = settings::c2(self.reader.line());
        self.reader.set_no_break_control(byte);
        self.task = Task::Read;
    }

    /// `.cp N`: names of more than two bytes.
    pub(crate) fn cp(&mut self)
        ensures { self.new ≡ cp self.old }
    {
        let long = settings::cp(self.reader.line(), self.settings.pages.spacing);
        self.reader.set_long_names(long);
        self.task = Task::Read;
    }

    /// `.hw w ..`: all words of its line.
    pub(crate) fn hw(&mut self) -> Result<(), StoredBytes>
        ensures result { IsWithin self.old → result ≡ afforded (hw self.old).store tt }
        ensures ok { OnOk result (self.new ≡ hw self.old) }
        ensures limits { limits_of self.new ≡ limits_of self.old }
    {
        self.task = Task::Read;
        add_words(&mut self.store, self.reader.line())
    }
}
