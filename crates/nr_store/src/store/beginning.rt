// A store with nothing but the requests.
ghost use Rattle.std.specs.Prelude.{◌≡◌, ◌+◌, ◌*◌, ◌/◌, ◌^◌, ◌<◌, ◌≤◌, [], length, min, replicate, IfOk};
ghost use Rattle.nr_pool.specs.Texts.{no_text};
ghost use Rattle.nr_levels.specs.Gathering.{none_gathered};
ghost use Rattle.nr_store.specs.declared.request.TheConstants.{REQUESTS};
ghost use Rattle.nr_store.specs.Store.{nothing};
ghost use Rattle.nr_store.specs.Memory.{rooms_of, elements_in};
ghost use Rattle.nr_store.specs.Request.{request_names, with_senses};

use crate::element::{Draft, Element};
use crate::memory::Room;
use crate::named::Sense;
use crate::register::Register;
use crate::request::{REQUESTS, Request};
use crate::store::Store;
use nr_levels::{Gathering, Levels, Stack};
use nr_pool::Pool;
use nr_symbol_tables::{HyphenationWords, SymbolTable, Traps};
use nr_units::Name;
use nr_vectors::CountedAlloc;
use std::alloc::AllocError;

// Puts these requests under their names.
fn name_requests(names: &mut SymbolTable<Sense>, requests: &[(u8, u8, Request)])
    requires room { length names.old.entries + length requests.now ≤ names.old.capacity }
    ensures { names.new ≡ record names.old { entries = with_senses requests.now names.old.entries } }
{
    for entry in requests {
        let (first, second, request) = *entry;
        let _ = names.put(Name::of(&[first, second]), Sense::Request(request));
    }
}

// The names of a store, and its texts that are being built.
struct Named {
    names: SymbolTable<Sense>,
    drafts: Stack<Draft>,
}

// Derived, it would be gone through part by part in the proof of `Store::new`.
impl Drop for Named {
    fn drop(self) {
        let Named {
            names: _,
            drafts: _,
        } = self;
    }
}

impl Named {
    // The requests under their names, and room for so much.
    fn new(alloc: &mut CountedAlloc, room: Room) -> Result<Named, AllocError>
        requires { length REQUESTS ≤ room.names }
        ensures names { IfOk result (λ made. made.names ≡ record { entries = with_senses REQUESTS []; capacity = room.names }) }
        ensures drafts { IfOk result (λ made. made.drafts ≡ record { items = []; capacity = room.drafts }) }
        ensures taken { IfOk result (λ made. alloc.new ≡ alloc.old + room.names + 512 + room.drafts) }
    {
        let mut names = SymbolTable::new(alloc, room.names)?;
        name_requests(&mut names, &REQUESTS);
        let drafts = Stack::new(alloc, room.drafts)?;
        Ok(Named { names, drafts })
    }

    // They, each by itself.
    fn into_parts(self) -> (SymbolTable<Sense>, Stack<Draft>)
        ensures names { result.0 ≡ self.names }
        ensures drafts { result.1 ≡ self.drafts }
    {
        let Named { names, drafts } = self;
        (names, drafts)
    }
}

// The texts of a store, and its levels.
struct Held<K: Copy> {
    pool: Pool<Element>,
    levels: Levels<K>,
}

// Derived, it would be gone through part by part in the proof of `Store::new`.
impl<K: Copy> Drop for Held<K> {
    fn drop(self) {
        let Held { pool: _, levels: _ } = self;
    }
}

impl<K: Copy> Held<K> {
    // Nothing, and room for so much.
    fn new(alloc: &mut CountedAlloc, room: Room) -> Result<Held<K>, AllocError>
        requires elements { room.elements < 2 ^ 32 }
        requires slots { room.slots < 2 ^ 32 }
        requires bytes { room.bytes < 2 ^ 32 }
        ensures capacity { IfOk result (λ made. made.pool.capacity ≡ room.elements) }
        ensures empty { IfOk result (λ made. made.pool.texts ≡ replicate room.slots no_text) }
        ensures levels { IfOk result (λ made. made.levels ≡ record { levels = []; arguments = []; capacity = room.bytes; most = room.frames }) }
        ensures taken { IfOk result (λ made. alloc.new ≡ alloc.old + room.elements + room.slots + 2 * room.frames + room.bytes
            + 9 * min room.frames (room.bytes / 16)) }
    {
        let pool = Pool::new(alloc, room.elements, room.slots)?;
        let levels = Levels::new(alloc, room.bytes, room.frames)?;
        Ok(Held { pool, levels })
    }

    // They, each by itself.
    fn into_parts(self) -> (Pool<Element>, Levels<K>)
        ensures pool { result.0 ≡ self.pool }
        ensures levels { result.1 ≡ self.levels }
    {
        let Held { pool, levels } = self;
        (pool, levels)
    }
}

// What a store has beside texts, names and levels.
#[derive(Drop)]
struct Beside {
    gathering: Gathering,
    registers: SymbolTable<Register>,
    traps: Traps,
    words: HyphenationWords,
}

impl Beside {
    // Nothing, and room for so much.
    fn new(alloc: &mut CountedAlloc, room: Room) -> Result<Beside, AllocError>
        requires { room.gathering < 2 ^ 32 }
        ensures gathering { IfOk result (λ made.
            made.gathering ≡ record { gathered = none_gathered; capacity = room.gathering }) }
        ensures registers { IfOk result (λ made.
            made.registers ≡ record { entries = []; capacity = room.registers }) }
        ensures traps { IfOk result (λ made. made.traps ≡ record { items = []; capacity = room.traps }) }
        ensures words { IfOk result (λ made. made.words ≡ record { items = []; capacity = room.words }) }
        ensures taken { IfOk result (λ made. alloc.new
            ≡ alloc.old + room.gathering + (room.registers + 512) + 2 * room.traps + (room.words + 256)) }
    {
        Ok(Beside {
            gathering: Gathering::new(alloc, room.gathering)?,
            registers: SymbolTable::new(alloc, room.registers)?,
            traps: Traps::new(alloc, room.traps)?,
            words: HyphenationWords::new(alloc, room.words)?,
        })
    }
}

impl<K: Copy> Store<K> {
    /// A store under this limit, with room for so many levels, and with the requests under their names and nothing else:
    /// `AllocError` where there is not the memory that `Room::of` tells.
    ///
    /// Proved: A new store has the names of the requests alone.
    pub fn new(alloc: &mut CountedAlloc, limit: u32, deepest: u32) -> Result<Store<K>, AllocError>
        ensures made { IfOk result (λ made. made ≡ nothing request_names limit deepest) }
        ensures taken { IfOk result (λ made. alloc.new ≡ alloc.old + elements_in (rooms_of limit deepest)) }
    {
        let room = Room::of(limit, deepest);
        let named = Named::new(alloc, room)?;
        let held = Held::new(alloc, room)?;
        let Beside {
            gathering,
            registers,
            traps,
            words,
        } = Beside::new(alloc, room)?;
        let (names, drafts) = named.into_parts();
        let (pool, levels) = held.into_parts();
        Ok(Store {
            pool,
            names,
            drafts,
            levels,
            gathering,
            registers,
            traps,
            words,
            charge: 0,
            stored: limit,
        })
    }

    /// Takes all that another store under the same limits has in place of its own.
    ///
    /// Proved: A store is made equal to another under the same limits.
    pub fn copy_from(&mut self, other: &Store<K>)
        requires limit { other.now.limit ≡ self.old.limit }
        requires deepest { other.now.deepest ≡ self.old.deepest }
        ensures { self.new ≡ other.now }
    {
        self.pool.copy_from(&other.pool);
        self.names.copy_from(&other.names);
        self.drafts.copy_from(&other.drafts);
        self.levels.copy_from(&other.levels);
        self.gathering.copy_from(&other.gathering);
        self.registers.copy_from(&other.registers);
        self.traps.copy_from(&other.traps);
        self.words.copy_from(&other.words);
        self.charge = other.charge;
    }

    /// Takes all away but the requests, which stand under their names.
    pub fn clear(&mut self)
        ensures { self.new ≡ nothing request_names self.old.limit self.old.deepest }
    {
        self.pool.remove_all();
        self.names.clear();
        name_requests(&mut self.names, &REQUESTS);
        self.drafts.clear();
        self.levels.clear();
        self.gathering.clear();
        self.registers.clear();
        self.traps.clear();
        self.words.clear();
        self.charge = 0;
    }
}
