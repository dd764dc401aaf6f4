//! The memory of a run, taken once and lent as often as wanted.
ghost use Rattle.std.specs.Prelude.{◌≡◌, ◌+◌, ◌*◌, ◌≤◌, length, IfOk};
ghost use Rattle.nr_machine.specs.Lengths.{sizes_of, sum_of};

use crate::keeping::Kept;
use nr_machine::{Engine, Sizes};
use nr_options::{Limits, Options};
use nr_vectors::CountedAlloc;
use std::alloc::AllocError;
use std::marker::Model;

/// A working space, under the limits that gave its sizes. Contracts see its limits.
pub struct Desk {
    pub(crate) limits: Limits,
    pub(crate) engine: Engine,
    pub(crate) kept: Option<Kept>,
}

// Derived, it would be gone through part by part in the proof of each function that owns a desk.
impl Drop for Desk {
    fn drop(self) {
        let Desk {
            limits: _,
            engine: _,
            kept: _,
        } = self;
    }
}

impl Model for Desk {
    ghost use Rattle.nr_options.specs.Limits.{Bounds};

    ghost Value = { Bounds };

    ghost use Rattle.std.specs.Prelude.{◌≡◌, IfSome};
    ghost use Rattle.nr_machine.specs.Holding.{shape};
    ghost use Rattle.nr_machine.specs.Limits.{limits_of, limits_under};

    ghost view = { λ d. d.limits };

    ghost invariant = { λ d. (limits_of (shape d.engine) ≡ limits_under d.limits)
        × IfSome d.kept (λ kept. kept.limits ≡ d.limits) };
}

/// A working space, lent by a desk for one run. `format` empties it.
#[derive(Drop)]
pub struct Work<'a> {
    /// The desk that lends it.
    pub desk: &'a mut Desk,
}

impl Desk {
    /// Takes all memory that runs under these limits need: `AllocError` where there is not so much.
    ///
    /// Proved: A desk is made of as many elements of memory as `sizes` reports, by the count of the allocator.
    /// Proved: A desk has the limits that it was made for, and is lent as often as wanted. (`Desk::{new, lend}`)
    pub fn new(alloc: &mut CountedAlloc, limits: Limits) -> Result<Desk, AllocError>
        ensures limits { IfOk result (λ desk. desk ≡ limits) }
        ensures taken { IfOk result (λ desk. alloc.new ≡ alloc.old + sum_of (sizes_of limits)) }
    {
        Ok(Desk {
            limits,
            engine: Engine::new(alloc, limits)?,
            kept: None,
        })
    }

    /// The lengths of the vectors that hold a run's memory, as these tell. They never change.
    ///
    /// Proved: The vectors of a desk, asked one by one, have the lengths that its limits ask for, whatever was
    /// formatted. (`Desk::memory`, by the invariants of the eighteen vectors' holders; `format` in run.rt keeps the
    /// desk's limits)
    pub fn memory(&self) -> Sizes
        ensures sizes { result ≡ sizes_of self.now }
        ensures bound { sum_of result ≤ 4 * self.now.stored + 4 * self.now.depth + 6 * self.now.cells + 8192 }
    {
        self.engine.memory()
    }

    /// Reads the first bytes of inputs, as macro files, with these options, and keeps what comes of it in memory of its own:
    /// `AllocError` where there is not so much. A run by `format_after` goes on from there. Where a run over these bytes alone stops
    /// before all are read, or a page goes out, nothing is kept.
    ///
    /// Proved: What is kept of first bytes takes as many elements of memory as a desk, and one for each of these bytes.
    pub fn keep(
        &mut self,
        alloc: &mut CountedAlloc,
        options: Options,
        first: &[u8],
    ) -> Result<(), AllocError>
        ensures limits { self.new ≡ self.old }
        ensures taken { IfOk result (λ done. alloc.new ≡ alloc.old + length first.now + sum_of (sizes_of self.old)) }
    {
        self.kept = Kept::new(alloc, self.limits, options, first)?;
        Ok(())
    }

    /// The working space of one run, under the desk's limits.
    pub fn lend(&mut self) -> Work<'_>
        ensures same_desk { result.desk.ghost_name ≡ self.entry.ghost_name }
        ensures limits { result.desk.now ≡ self.old }
    {
        Work { desk: self }
    }
}
