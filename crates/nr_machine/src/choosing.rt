//! The options take effect. (CSTR 54, usage, options -n and -r.)
ghost use Rattle.std.specs.Prelude.{◌≡◌, ◌≤◌};
ghost use Rattle.nr_machine.specs.State.{Register as SetRegister};
ghost use Rattle.nr_machine.specs.Machine.{first_set};
ghost use Rattle.nr_machine.specs.Choosing.{Chooses, ChoosesAll};
ghost use Rattle.nr_machine.specs.Holding.{shape};
ghost use Rattle.nr_machine.specs.Limits.{limits_of};

use crate::engine::Engine;
use crate::outcome::{Measure, Outcome};
use nr_options::Options;
use nr_units::Name;

/// The greatest number that a register holds, and without its sign the least.
const GREATEST: u64 = 2_147_483_647;

impl Engine {
    /// The number of the first page, if a register holds it.
    fn set_first(&mut self, number: i64)
        ensures { shape self.new ≡ record (shape self.old)
            { formatter = first_set number self.old.formatter } }
    {
        if number.unsigned_abs() <= GREATEST {
            self.formatter.set_first(number as i32);
        }
    }

    /// A register of a name of one byte takes this number.
    fn set_register(&mut self, name: u8, number: i64) -> Result<(), Outcome>
        ensures chooses { Chooses (SetRegister name number) (shape self.old) (shape self.new) result }
        ensures limits { limits_of (shape self.new) ≡ limits_of (shape self.old) }
    {
        let name = [name];
        match self.formatter.set_register(Name::of(&name), number, None) {
            Ok(()) => Ok(()),
            Err(_) => Err(self.passed(Measure::Stored)),
        }
    }

    /// The options take effect, each as a move. Sets `moves` to how many were made.
    ///
    /// Proved: Each option is one move of the machine, up to the first that would pass a limit.
    pub fn choose(&mut self, options: &Options, moves: &mut u128) -> Result<(), Outcome>
        ensures chooses { ChoosesAll options.now (shape self.old) (shape self.new) moves.new result }
        ensures limits { limits_of (shape self.new) ≡ limits_of (shape self.old) }
        ensures bound { moves.new ≤ 33 }
    {
        self.set_first(options.first);
        *moves = 1;
        for choice in options.registers.as_slice() {
            let (name, number) = *choice;
            match self.set_register(name, number) {
                Ok(()) => *moves += 1,
                Err(outcome) => return Err(outcome),
            }
        }
        Ok(())
    }
}
