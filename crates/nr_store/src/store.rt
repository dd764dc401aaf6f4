//! The store.
ghost use Rattle.std.specs.Prelude.{◌≡◌, ◌≤◌, length};
ghost use Rattle.nr_store.specs.Store.{charge_of};
ghost use Rattle.nr_store.specs.Memory.{rooms_of};

mod arguments;
mod beginning;
mod building;
mod levels;
mod lines;
mod names;
mod registers;
mod traps;
mod words;

use crate::element::{Draft, Element};
use crate::memory::Room;
use crate::named::Sense;
use crate::register::Register;
use nr_levels::{Gathering, Levels, Stack};
use nr_pool::Pool;
use nr_symbol_tables::{HyphenationWords, SymbolTable, Traps};
use std::marker::Model;

/// Names with their requests and texts, texts being built, and levels that read texts, with modes `K` that sprung texts
/// resume.
///
/// Clauses see one record of plain lists. Each call makes of it what its definition says, or is refused, and then
/// nothing has changed. A name is found among those of its kind, of 512 kinds; what comes next of the
/// levels is found in constant time; no text is copied or moved for a level. `new` is the only call that allocates.
///
/// Proved: What is charged is at all times a sum over the pool in which each text stands once, however many levels
/// read it: under its name or while it is built, else for the levels. (`IsStore`, the invariant of `Store`, in
/// Holders.antt)
#[derive(Drop)]
pub struct Store<K: Copy> {
    pool: Pool<Element>,
    names: SymbolTable<Sense>,
    drafts: Stack<Draft>,
    levels: Levels<K>,
    gathering: Gathering,
    registers: SymbolTable<Register>,
    traps: Traps,
    words: HyphenationWords,
    charge: u32,
    stored: u32,
}

impl<K: Copy> Model for Store<K> {
    ghost use Rattle.nr_store.specs.Store.{Stored};
    ghost use Rattle.nr_store.specs.Holders.{stored_of, IsStore, beside_of};

    ghost Value = { Stored K };

    ghost view = { λ s. stored_of s.pool s.names.entries s.drafts.items s.levels
        (beside_of s.gathering s.registers s.traps s.words) s.stored };

    ghost invariant = { λ s. IsStore s.pool s.names s.drafts s.levels
        (beside_of s.gathering s.registers s.traps s.words) s.charge s.stored };
}

impl<K: Copy> Store<K> {
    /// How many of each there is memory for, as the vectors tell.
    ///
    /// Proved: There is memory for as many elements, texts, names, levels, registers, traps and words as the limits
    /// ask for, no more and no fewer.
    pub fn memory(&self) -> Room
        ensures { result ≡ rooms_of self.now.limit self.now.deepest }
    {
        Room {
            elements: self.pool.element_memory(),
            slots: self.pool.text_memory(),
            names: self.names.memory(),
            drafts: self.drafts.memory(),
            frames: self.levels.frame_memory(),
            modes: self.levels.mode_memory(),
            bytes: self.levels.byte_memory(),
            places: self.levels.place_memory(),
            gathering: self.gathering.memory(),
            registers: self.registers.memory(),
            traps: self.traps.memory(),
            trap_order: self.traps.order_memory(),
            words: self.words.memory(),
            kinds: self.names.kinds() + self.registers.kinds() + self.words.kinds(),
        }
    }

    /// What all is charged.
    ///
    /// Proved: What is charged is one sum over the record, and never above the limit.
    #[inline]
    pub fn charge(&self) -> u32
        ensures value { result ≡ charge_of self.now }
        ensures within { result ≤ self.now.limit }
    {
        self.charge
    }

    /// How many levels there are. A mode that is still to be resumed counts as the level that it stands after.
    #[inline]
    pub fn depth(&self) -> usize
        ensures value { result ≡ length self.now.levels }
        ensures within { result ≤ self.now.deepest }
    {
        self.levels.depth()
    }

    /// How many texts are being built.
    #[inline]
    pub fn building(&self) -> usize
        ensures { result ≡ length self.now.building }
    {
        self.drafts.len()
    }
}
