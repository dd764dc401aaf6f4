//! Registers. (CSTR 54, section 8)
ghost use Rattle.std.specs.Prelude.{◌≡◌, ◌<◌, ◌^◌, [], OnOk, OnErr, None, Some, unsigned_abs};
ghost use Rattle.nr_store.specs.Store.{afforded};
ghost use Rattle.nr_reading.specs.declared.event.Event.TheVariants as events;
ghost use Rattle.nr_input.specs.Weights.{Splices};
ghost use Rattle.nr_formatter.specs.Access.{diversion};
ghost use Rattle.nr_formatter.specs.Limits.{IsWithin, limits_of};
ghost use Rattle.nr_formatter.specs.Places.{place_in, to_read};
ghost use Rattle.nr_formatter.specs.BuiltIn.{given_named};
ghost use Rattle.nr_formatter.specs.Registers.{spliced, splice_checked, distance, given_value, given_format, given_formatted, name_of, given_by, given_register, register_set_by, register_set, set_checked, register_value, nr, nr_checked, formatted_by, af, rr, mk};
ghost use Rattle.nr_formatter.specs.Weights.{Falls};

use crate::built_in::BuiltInRegister;
use crate::formatter::Formatter;
use crate::paper::Given;
use crate::tasks::Task;
use nr_input::{Event, Refusal};
use nr_settings as settings;
use nr_settings::Arguments;
use nr_store::StoredBytes;
use nr_units::{Format, Name, format_number};

/// The greatest number that a register holds.
const GREATEST: usize = 2_147_483_647;

impl Given {
    /// The format of a built-in register.
    fn format(&self, register: BuiltInRegister) -> Format
        ensures { result ≡ given_format register self.now }
    {
        match register {
            BuiltInRegister::Page => self.page_format,
            BuiltInRegister::Place => self.place_format,
            BuiltInRegister::Height => self.height_format,
            BuiltInRegister::Width => self.width_format,
            _ => Format::Arabic { places: 1 },
        }
    }

    /// Sets the format of a built-in register: of `%`, `nl`, `dn` and `dl` alone.
    fn set_format(&mut self, register: BuiltInRegister, format: Format)
        ensures { self.new ≡ given_formatted register format self.old }
    {
        match register {
            BuiltInRegister::Page => self.page_format = format,
            BuiltInRegister::Place => self.place_format = format,
            BuiltInRegister::Height => self.height_format = format,
            BuiltInRegister::Width => self.width_format = format,
            _ => {}
        }
    }
}

impl Formatter {
    /// The present place, in u: in the innermost diversion, and else on the open page.
    fn place(&self) -> u32
        ensures { result ≡ place_in (diversion self.now) self.now }
    {
        match self.store.diversion() {
            Some(diversion) => diversion.height,
            None => self.paper.page_place(),
        }
    }

    /// The distance to the next trap or the bottom, in u; in a diversion to its trap.
    fn distance(&self) -> u32
        ensures { result ≡ distance self.now }
    {
        if self.store.diversion().is_some() {
            return self.diversion_room();
        }
        self.distance_below(self.paper.page_place())
    }

    /// The value of a built-in register.
    fn given_value(&self, register: BuiltInRegister) -> i64
        ensures value { result ≡ given_value register self.now }
        ensures within { unsigned_abs result < 2 ^ 32 }
    {
        match register {
            BuiltInRegister::Page => i64::from(self.paper.number),
            BuiltInRegister::Place => i64::from(self.paper.page_place()),
            BuiltInRegister::Height => i64::from(self.given.height),
            BuiltInRegister::Width => i64::from(self.given.width),
            BuiltInRegister::Arguments => self.store.argument_count().min(GREATEST) as i64,
            BuiltInRegister::DiversionPlace => i64::from(self.place()),
            BuiltInRegister::Indent => i64::from(self.settings.indents.indent.value.units()),
            BuiltInRegister::LineLength => i64::from(
                self.settings.indents.line_length.value.units(),
            ),
            BuiltInRegister::Offset => i64::from(self.settings.indents.page_offset.value.units()),
            BuiltInRegister::PageLength => i64::from(self.settings.pages.page_length.units()),
            BuiltInRegister::Spacing => i64::from(self.settings.pages.spacing.units()),
            BuiltInRegister::TextWidth => i64::from(self.settings.text_width),
            BuiltInRegister::Distance => i64::from(self.distance()),
            BuiltInRegister::Fill => i64::from(self.settings.filling.fill),
            BuiltInRegister::HorizontalUnit => 24,
            BuiltInRegister::VerticalUnit => 40,
            BuiltInRegister::Diversion | BuiltInRegister::Other => 0,
        }
    }

    /// The name of the innermost diversion, empty where there is none.
    fn diversion_name(&self) -> Name
        ensures { result ≡ name_of (diversion self.now) }
    {
        match self.store.diversion() {
            Some(diversion) => diversion.name,
            None => Name::new(),
        }
    }

    /// A text is spliced.
    pub(crate) fn splice(&mut self, bytes: &[u8]) -> Result<(), Refusal>
        ensures result { result ≡ splice_checked (spliced bytes.now self.old) }
        ensures ok { OnOk result (self.new ≡ spliced bytes.now self.old) }
        ensures limits { limits_of self.new ≡ limits_of self.old }
        ensures pays { OnOk result (Splices self.old.store self.old.reader self.new.store self.new.reader) }
    {
        self.reader.give(&mut self.store, bytes)
    }

    /// The text of a built-in register is spliced.
    fn give_given(&mut self, register: BuiltInRegister) -> Result<(), Refusal>
        ensures result { result ≡ splice_checked (given_by (Some register) self.old) }
        ensures ok { OnOk result (self.new ≡ given_by (Some register) self.old) }
        ensures limits { limits_of self.new ≡ limits_of self.old }
        ensures pays { OnOk result (Splices self.old.store self.old.reader self.new.store self.new.reader) }
    {
        if matches!(register, BuiltInRegister::Diversion) {
            let name = self.diversion_name();
            return self.splice(name.as_bytes());
        }
        let text = format_number(self.given_value(register), self.given.format(register));
        self.splice(text.as_slice())
    }

    /// The text of the register that was asked for is spliced.
    pub(crate) fn give_register(&mut self) -> Result<(), Refusal>
        ensures result { IsWithin self.old → result ≡ splice_checked (given_register self.old) }
        ensures ok { OnOk result (self.new ≡ given_register self.old) }
        ensures limits { limits_of self.new ≡ limits_of self.old }
        ensures falls { self.old.event ≡ events.Given → OnOk result (Falls 1 0 self.old self.new) }
    {
        let name = self.reader.asked();
        let Some(register) = BuiltInRegister::of(name.as_bytes()) else {
            self.event = Event::Nothing;
            return Ok(());
        };
        self.give_given(register)?;
        self.event = Event::Nothing;
        Ok(())
    }

    /// The value of a register.
    fn register_value(&self, name: Name) -> i64
        ensures value { result ≡ register_value name self.now }
        ensures within { unsigned_abs result < 2 ^ 32 }
    {
        match BuiltInRegister::of(name.as_bytes()) {
            Some(register) => self.given_value(register),
            None => i64::from(self.store.register(name).value),
        }
    }

    /// Sets a built-in register: `%`, `dn` and `dl` alone. A value out of range sets nothing.
    fn set_given(&mut self, register: BuiltInRegister, value: i64)
        ensures { self.new ≡ register_set_by (Some register) [] value None self.old }
    {
        if value.unsigned_abs() > 2_147_483_647 {
            return;
        }
        match register {
            BuiltInRegister::Page => self.paper.number = value as i32,
            BuiltInRegister::Height => self.given.height = value as i32,
            BuiltInRegister::Width => self.given.width = value as i32,
            _ => {}
        }
    }

    /// Sets a register, as `.nr` does. A value out of range sets nothing.
    pub fn set_register(
        &mut self,
        name: Name,
        value: i64,
        step: Option<i32>,
    ) -> Result<(), StoredBytes>
        ensures answer { result ≡ set_checked name value step self.old }
        ensures result { IsWithin self.old
            → result ≡ afforded (register_set name value step self.old).store tt }
        ensures ok { OnOk result (self.new ≡ register_set name value step self.old) }
        ensures err { OnErr result (self.new ≡ self.old) }
        ensures limits { limits_of self.new ≡ limits_of self.old }
    {
        match BuiltInRegister::of(name.as_bytes()) {
            None => self.store.set_register(name, value, step),
            Some(register) => {
                self.set_given(register, value);
                Ok(())
            }
        }
    }

    /// `.nr R ±N M`: a register's value and step.
    pub(crate) fn nr(&mut self) -> Result<(), StoredBytes>
        ensures answer { result ≡ nr_checked self.old }
        ensures result { IsWithin self.old → result ≡ afforded (nr self.old).store tt }
        ensures ok { OnOk result (self.new ≡ nr self.old) }
        ensures err { OnErr result (self.new ≡ to_read self.old) }
        ensures limits { limits_of self.new ≡ limits_of self.old }
    {
        self.task = Task::Read;
        let Some(nr) = settings::nr(
            self.reader.line(),
            self.reader.long_names(),
            self.settings.pages.spacing,
        ) else {
            return Ok(());
        };
        let value = nr.change.applied(self.register_value(nr.name));
        self.set_register(nr.name, value, nr.step)
    }

    /// Sets the format of a register.
    fn set_format(&mut self, name: Name, format: Format) -> Result<(), StoredBytes>
        ensures result { IsWithin self.old
            → result ≡ afforded (formatted_by (given_named name) name format self.old).store tt }
        ensures ok { OnOk result (self.new ≡ formatted_by (given_named name) name format self.old) }
        ensures limits { limits_of self.new ≡ limits_of self.old }
    {
        match BuiltInRegister::of(name.as_bytes()) {
            None => self.store.set_format(name, format),
            Some(register) => {
                self.given.set_format(register, format);
                Ok(())
            }
        }
    }

    /// `.af R c`: a register's format.
    pub(crate) fn af(&mut self) -> Result<(), StoredBytes>
        ensures result { IsWithin self.old → result ≡ afforded (af self.old).store tt }
        ensures ok { OnOk result (self.new ≡ af self.old) }
        ensures limits { limits_of self.new ≡ limits_of self.old }
    {
        self.task = Task::Read;
        let Some(af) = settings::af(self.reader.line(), self.reader.long_names()) else {
            return Ok(());
        };
        self.set_format(af.name, af.format)
    }

    /// `.rr R`: a register is undefined.
    pub(crate) fn rr(&mut self)
        ensures { self.new ≡ rr self.old }
    {
        self.task = Task::Read;
        let Some(name) = Arguments::of(self.reader.line()).name(self.reader.long_names()) else {
            return;
        };
        if BuiltInRegister::of(name.as_bytes()).is_none() {
            self.store.remove_register(name);
        }
    }

    /// `.mk R`: the present place into a register or, without one, into the inner mark.
    pub(crate) fn mk(&mut self) -> Result<(), StoredBytes>
        ensures result { IsWithin self.old → result ≡ afforded (mk self.old).store tt }
        ensures ok { OnOk result (self.new ≡ mk self.old) }
        ensures limits { limits_of self.new ≡ limits_of self.old }
    {
        self.task = Task::Read;
        let place = self.place();
        let Some(name) = Arguments::of(self.reader.line()).name(self.reader.long_names()) else {
            self.settings.pages.mark = place;
            return Ok(());
        };
        self.set_register(name, i64::from(place), None)
    }
}
