// What a handle keeps: how pages are set, the macros that stand before each, and memory.
ghost use Rattle.std.specs.Prelude.{◌≡◌, ◌≢◌, drop, IfOk};
ghost use Rattle.preconv_coding.specs.UnderCoding.{text_of};
ghost use Rattle.nulbiko.specs.Formatting.{bounds_of};
ghost use Rattle.nulbiko.specs.Own.{AreShort, PrintsPage};
ghost use Rattle.nulbiko.specs.Reported.{nothing_reported};

use super::document::{Asked, DocumentSetup, options_for, print_in};
use super::printed::Memory;
use super::reported::Report;
use nr_engine::{CountedAlloc, Limits};
use std::alloc::{AllocError, Global};

/// How pages are set, the macros that stand before each, and the memory that they are printed in.
#[derive(Drop)]
pub struct Kept {
    setup: DocumentSetup,
    macros: Vec<u8>,
    memory: Memory,
}

impl Kept {
    /// Keeps this, and a copy of macros, and takes the memory for pages under these limits.
    pub(crate) fn of(
        alloc: Global,
        setup: &DocumentSetup,
        limits: Limits,
        macros: &[u8],
    ) -> Result<Box<Kept>, AllocError>
        ensures limits { IfOk result (λ kept. kept.value.memory.desk ≡ limits) }
        ensures setup { IfOk result (λ kept. kept.value.setup ≡ setup.now) }
        ensures macros { IfOk result (λ kept. kept.value.macros.items ≡ macros.now) }
    {
        let mut copy = Vec::with_capacity(alloc, macros.len())?;
        copy.extend_from_slice(macros)?;
        let mut counted = CountedAlloc::new(alloc);
        let mut memory = Memory::new(&mut counted, limits)?;
        memory.keep(&mut counted, options_for(setup.options), macros);
        let kept = Box::new(
            alloc,
            Kept {
                setup: *setup,
                macros: copy,
                memory,
            },
        )?;
        Ok(kept)
    }

    /// Prints a page by it.
    pub(crate) fn print(
        &mut self,
        alloc: Global,
        page: &[u8],
        output: &mut [u8],
        reported: &mut Report,
    ) -> u32
        ensures printed { self.old.memory.desk ≡ bounds_of self.old.setup.limits → result ≢ 5
            → AreShort self.old.setup (text_of page.now)
            → PrintsPage self.old.setup self.old.macros.items (text_of page.now) output.new reported.new result }
        ensures setup { self.new.setup ≡ self.old.setup }
        ensures macros { self.new.macros ≡ self.old.macros }
        ensures desk { self.new.memory.desk ≡ self.old.memory.desk }
        ensures not_range { result ≢ 2 }
        ensures no_memory { result ≡ 5 → (output.new ≡ output.old) × (reported.new ≡ nothing_reported) }
        ensures rest { drop reported.new.written output.new ≡ drop reported.new.written output.old }
    {
        let asked = Asked {
            setup: &self.setup,
            macros: &self.macros,
        };
        print_in(alloc, &mut self.memory, asked, page, output, reported)
    }
}
