// Number registers.
ghost use Rattle.std.specs.Prelude.{◌≡◌, OnOk, OnErr, None};
ghost use Rattle.nr_symbol_tables.specs.Table.{find};
ghost use Rattle.nr_store.specs.Store.{afforded, register_of, with_register, written, registered, stepped, formatted, unregistered};

use crate::refusal::StoredBytes;
use crate::register::Register;
use crate::store::Store;
use nr_units::{Format, Name};

impl<K: Copy> Store<K> {
    /// A register; an undefined one has the value and the step 0, in Arabic digits.
    ///
    /// Proved: Registers are read, set, stepped, formatted and removed; a number that none holds changes nothing.
    /// (`Store::{register, set_register, step_register, set_format, remove_register}`)
    pub fn register(&self, name: Name) -> Register
        ensures { result ≡ register_of (find name self.now.registers) }
    {
        self.registers.get(name).unwrap_or(Register::unset())
    }

    /// Sets a register's value, and its step if one is given (CSTR 54, `.nr`). A value outside -2147483647 to 2147483647
    /// changes nothing.
    pub fn set_register(
        &mut self,
        name: Name,
        value: i64,
        step: Option<i32>,
    ) -> Result<(), StoredBytes>
        ensures answer { result ≡ afforded (registered name value step self.old) tt }
        ensures ok { OnOk result (self.new ≡ registered name value step self.old) }
        ensures err { OnErr result (self.new ≡ self.old) }
    {
        let register = self.register(name).set_to(value, step);
        self.write_register(name, register)
    }

    /// Adds a defined register's step to its value, or takes it away (CSTR 54, `\n+`). A value outside -2147483647 to
    /// 2147483647 changes nothing.
    pub fn step_register(&mut self, name: Name, up: bool)
        ensures { self.new ≡ stepped name up self.old }
    {
        let Some(was) = self.registers.get(name) else {
            return;
        };
        let Some(register) = was.gone_on(up) else {
            return;
        };
        let _ = self.registers.put(name, register);
    }

    /// Sets how a register is written (CSTR 54, `.af`). It is defined with the value 0 if it was not.
    pub fn set_format(&mut self, name: Name, format: Format) -> Result<(), StoredBytes>
        ensures answer { result ≡ afforded (formatted name format self.old) tt }
        ensures ok { OnOk result (self.new ≡ formatted name format self.old) }
        ensures err { OnErr result (self.new ≡ self.old) }
    {
        let was = self.register(name);
        let register = Register {
            value: was.value,
            step: was.step,
            format,
        };
        self.put_register(name, register)
    }

    /// Makes a register undefined (CSTR 54, `.rr`).
    pub fn remove_register(&mut self, name: Name)
        ensures is { self.new ≡ unregistered name self.old }
        ensures gone { find name self.new.registers ≡ None }
    {
        let Some(_) = self.registers.remove(name) else {
            return;
        };
        self.charge -= 48;
    }

    // Defines a register, if there is one.
    fn write_register(&mut self, name: Name, register: Option<Register>) -> Result<(), StoredBytes>
        ensures answer { result ≡ afforded (written register name self.old) tt }
        ensures ok { OnOk result (self.new ≡ written register name self.old) }
        ensures err { OnErr result (self.new ≡ self.old) }
    {
        let _ = &self.stored;
        let Some(register) = register else {
            return Ok(());
        };
        self.put_register(name, register)
    }

    // Defines a register.
    fn put_register(&mut self, name: Name, register: Register) -> Result<(), StoredBytes>
        ensures answer { result ≡ afforded (with_register name register self.old) tt }
        ensures ok { OnOk result (self.new ≡ with_register name register self.old) }
        ensures err { OnErr result (self.new ≡ self.old) }
    {
        let Some(_) = self.registers.get(name) else {
            if self.stored - self.charge < 48 {
                return Err(StoredBytes);
            }
            let _ = self.registers.put(name, register);
            self.charge += 48;
            return Ok(());
        };
        let _ = self.registers.put(name, register);
        Ok(())
    }
}
