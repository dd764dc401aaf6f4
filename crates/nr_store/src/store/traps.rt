// Traps on pages.
ghost use Rattle.std.specs.Prelude.{◌≡◌, OnOk, OnErr};
ghost use Rattle.nr_symbol_tables.specs.Trap.{nearest};
ghost use Rattle.nr_store.specs.Store.{afforded, trap_planted, trap_changed, trap_removed};

use crate::refusal::StoredBytes;
use crate::store::Store;
use nr_symbol_tables::Trap;
use nr_symbol_tables::trap::{trap_at, trap_for};
use nr_units::Name;

impl<K: Copy> Store<K> {
    /// Plants a trap, in place of the first one at the same place if there is one, else after all others (CSTR 54,
    /// `.wh`). The place is in u.
    ///
    /// Proved: Traps are planted, moved, removed and found as the definition says. (`Store::{plant, move_trap,
    /// remove_trap, next_trap}`)
    pub fn plant(&mut self, place: i32, name: Name) -> Result<(), StoredBytes>
        ensures answer { result ≡ afforded (trap_planted place name self.old) tt }
        ensures ok { OnOk result (self.new ≡ trap_planted place name self.old) }
        ensures err { OnErr result (self.new ≡ self.old) }
    {
        let trap = Trap { place, name };
        let Some(at) = trap_at(self.traps.as_slice(), place) else {
            if self.stored - self.charge < 48 {
                return Err(StoredBytes);
            }
            self.traps.push(trap);
            self.charge += 48;
            return Ok(());
        };
        self.traps.set(at, trap);
        Ok(())
    }

    /// Moves the first trap for a macro, which keeps its turn, or removes it where no place is given (CSTR 54, `.ch`).
    /// Another trap at that place stays.
    pub fn move_trap(&mut self, name: Name, place: Option<i32>)
        ensures { self.new ≡ trap_changed name place self.old }
    {
        let Some(at) = trap_for(self.traps.as_slice(), name) else {
            return;
        };
        let Some(place) = place else {
            self.traps.remove(at);
            self.charge -= 48;
            return;
        };
        self.traps.set(at, Trap { place, name });
    }

    /// Removes the first trap that was planted or moved to this place (CSTR 54, `.wh` without a macro).
    pub fn remove_trap(&mut self, place: i32)
        ensures { self.new ≡ trap_removed place self.old }
    {
        let Some(at) = trap_at(self.traps.as_slice(), place) else {
            return;
        };
        self.traps.remove(at);
        self.charge -= 48;
    }

    /// The nearest trap that lies beyond a place and has effect on a page of this length: that of least place, and of
    /// these the first planted. Its place is counted from the top. Beyond -1 a trap at the top is found too.
    pub fn next_trap(&self, above: i32, length: i32) -> Option<Trap>
        ensures { result ≡ nearest above length self.now.traps }
    {
        self.traps.nearest(above, length)
    }
}
