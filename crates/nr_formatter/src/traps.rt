//! Page traps and input line traps. (CSTR 54, section 7.5)
ghost use Rattle.std.specs.Prelude.{◌≡◌, OnOk};
ghost use Rattle.nr_formatter.specs.Limits.{IsWithin, limits_of};
ghost use Rattle.nr_formatter.specs.Traps.{wh, ch, it};
ghost use Rattle.nr_store.specs.Store.{afforded};

use crate::formatter::{Formatter, InputTrap};
use crate::tasks::Task;
use nr_settings as settings;
use nr_settings::{LineTrap, PageTrap};
use nr_store::StoredBytes;

impl Formatter {
    /// `.wh`
    pub(crate) fn wh(&mut self) -> Result<(), StoredBytes>
        ensures result { IsWithin self.old → result ≡ afforded (wh self.old).store tt }
        ensures ok { OnOk result (self.new ≡ wh self.old) }
        ensures limits { limits_of self.new ≡ limits_of self.old }
    {
        let here = self.here();
        let wh = settings::wh(
            self.reader.line(),
            self.reader.long_names(),
            self.settings.pages.spacing,
            here,
        );
        self.task = Task::Read;
        match wh {
            PageTrap::Plant(place, name) => self.store.plant(place, name),
            PageTrap::Remove(place) => {
                self.store.remove_trap(place);
                Ok(())
            }
            PageTrap::Nothing => Ok(()),
        }
    }

    /// `.ch`
    pub(crate) fn ch(&mut self)
        ensures { self.new ≡ ch self.old }
    {
        let here = self.here();
        let ch = settings::ch(
            self.reader.line(),
            self.reader.long_names(),
            self.settings.pages.spacing,
            here,
        );
        self.task = Task::Read;
        match ch {
            Some(change) => self.store.move_trap(change.name, change.place),
            None => {}
        }
    }

    /// `.it`
    pub(crate) fn it(&mut self)
        ensures { self.new ≡ it self.old }
    {
        let it = settings::it(
            self.reader.line(),
            self.reader.long_names(),
            self.settings.pages.spacing,
        );
        self.task = Task::Read;
        match it {
            LineTrap::After(lines, name) => self.input_trap = Some(InputTrap { lines, name }),
            LineTrap::Off => self.input_trap = None,
            LineTrap::Nothing => {}
        }
    }
}
