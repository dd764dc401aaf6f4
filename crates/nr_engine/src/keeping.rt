//! An engine that has read the first bytes of an input, from which runs over inputs that begin with them go on.
ghost use Rattle.std.specs.Prelude.{◌≡◌, ◌+◌, ◌*◌, ◌≤◌, Some, true, false, length, IfOk, IfSome};
ghost use Rattle.nr_units.specs.Source.{Supply};
ghost use Rattle.nr_input.specs.Place.{has_failed};
ghost use Rattle.nr_machine.specs.State.{start};
ghost use Rattle.nr_machine.specs.FirstBytes.{preceded};
ghost use Rattle.nr_machine.specs.Run.{Answers, ReportedFaults};
ghost use Rattle.nr_machine.specs.Holding.{shape, weight, worth};
ghost use Rattle.nr_machine.specs.Lengths.{sizes_of, sum_of};
ghost use Rattle.nr_machine.specs.Limits.{limits_of, limits_under};
ghost use Rattle.nr_engine.specs.Keeping.{GoesOn, Reads};

use crate::first_part::FirstPart;
use crate::no_pages::NoPages;
use crate::run::run;
use nr_machine::{Engine, Outcome};
use nr_options::{Limits, Options};
use nr_units::sink::Sink;
use nr_units::source::Source;
use nr_vectors::{CountedAlloc, FixedVec};
use std::alloc::AllocError;
use std::marker::Model;

/// An engine that has read the first bytes of an input. Contracts see its limits, its options, these bytes, how it stands, and how
/// many moves led there.
pub(crate) struct Kept {
    limits: Limits,
    options: Options,
    first: FixedVec<u8>,
    engine: Engine,
    moves: u128,
}

// Derived, it would be gone through part by part in the proof of each function that owns one.
impl Drop for Kept {
    fn drop(self) {
        let Kept {
            limits: _,
            options: _,
            first: _,
            engine: _,
            moves: _,
        } = self;
    }
}

impl Model for Kept {
    ghost use Rattle.nr_machine.specs.Holding.{shape};
    ghost use Rattle.nr_engine.specs.Keeping.{GoesOn, Keeping};

    ghost Value = { Keeping };

    ghost view = { λ k. record { limits = k.limits; options = k.options; first = k.first.items; engine = shape k.engine; moves = k.moves } };

    ghost invariant = { λ k. GoesOn (record { limits = k.limits; options = k.options; first = k.first.items; engine = shape k.engine; moves = k.moves }) };
}

/// Makes moves until all of these bytes are taken, `most` at most, with those that were made before, and tells how many those
/// are then. `None` where the run stops before, or a byte goes out.
fn read_all(engine: &mut Engine, most: u64, first: &[u8], before: u128) -> Option<u128>
    requires bound { before + weight (shape engine.old) ≤ worth (shape engine.old)
        * (engine.old.place.taken + 1) }
    requires unfailed { has_failed engine.old.place.ahead ≡ false }
    requires allowed { before ≤ most }
    ensures reads { IfSome result (λ moves. Reads most (shape engine.old) first.now before moves
        (shape engine.new)) }
    ensures limits { limits_of (shape engine.new) ≡ limits_of (shape engine.old) }
{
    let mut input = FirstPart::of(first);
    let mut output = NoPages::new();
    let mut left = most - before as u64;
    loop {
        if input.is_over() && engine.place.is_unseen() {
            return Some(u128::from(most - left));
        }
        if left == 0 {
            return None;
        }
        match engine.advance(&mut input, &mut output) {
            Ok(()) => left -= 1,
            Err(_) => return None,
        }
    }
}

/// Reads these bytes from the beginning of a run, and tells how many moves that took. `None` where they are not all read.
fn read_in(engine: &mut Engine, limits: Limits, options: &Options, first: &[u8]) -> Option<u128>
    requires limits { limits_of (shape engine.old) ≡ limits_under limits }
    ensures { IfSome result (λ moves. GoesOn (record {
      limits = limits;
      options = options.now;
      first = first.now;
      engine = shape engine.new;
      moves = moves;
    })) }
{
    let most = limits.moves();
    engine.clear(limits, options);
    let mut moves = 0;
    match engine.choose(options, &mut moves) {
        Err(_) => None,
        Ok(()) => read_all(engine, most, first, moves),
    }
}

/// Whether these registers are set alike.
fn same_registers(one: &[(u8, i64)], other: &[(u8, i64)]) -> bool
    ensures { result ≡ true → one.now ≡ other.now }
{
    if one.len() != other.len() {
        return false;
    }
    for place in 0..one.len() {
        if one[place].0 != other[place].0 || one[place].1 != other[place].1 {
            return false;
        }
    }
    true
}

/// Whether these options are the same, and print all pages.
fn same_options(one: &Options, other: &Options) -> bool
    ensures { result ≡ true → one.now ≡ other.now }
{
    one.first == other.first
        && one.faces == other.faces
        && one.select.is_all()
        && other.select.is_all()
        && same_registers(one.registers.as_slice(), other.registers.as_slice())
}

impl Kept {
    /// Reads the first bytes of an input, as macro files, with memory of its own: `AllocError` where there is not so much, and
    /// `None` where a run over them alone stops before all are read, or a page goes out.
    pub(crate) fn new(
        alloc: &mut CountedAlloc,
        limits: Limits,
        options: Options,
        first: &[u8],
    ) -> Result<Option<Kept>, AllocError>
        ensures limits { IfOk result (λ made. IfSome made (λ kept. kept.limits ≡ limits)) }
        ensures taken { IfOk result (λ made. alloc.new ≡ alloc.old + length first.now + sum_of (sizes_of limits)) }
    {
        let mut copy = FixedVec::new(alloc, first.len())?;
        copy.extend(first);
        let mut engine = Engine::new(alloc, limits)?;
        match read_in(&mut engine, limits, &options, first) {
            Some(moves) => Ok(Some(Kept {
                limits,
                options,
                first: copy,
                engine,
                moves,
            })),
            None => Ok(None),
        }
    }

    /// Whether it has read these bytes with these options.
    pub(crate) fn has_read(&self, options: &Options, first: &[u8]) -> bool
        ensures options { result ≡ true → self.now.options ≡ options.now }
        ensures first { result ≡ true → self.now.first ≡ first.now }
    {
        same_options(&self.options, options) && self.first.as_slice() == first
    }
}

/// A run over what was read before, and then an input.
pub(crate) fn go_on<R: Source, W: Sink>(
    engine: &mut Engine,
    kept: &Kept,
    input: &mut R,
    output: &mut W,
    moves: &mut u128,
) -> Outcome
    requires limits { limits_of (shape engine.old) ≡ limits_under kept.now.limits }
    ensures answers { (rest : Supply) → R.supply input.old ≡ Some rest →
        Answers kept.now.limits (start kept.now.limits kept.now.options (preceded kept.now.first rest)) moves.new result
        (W.held output.old) (W.held output.new) }
    ensures faults { ReportedFaults result (R.failures input.old) (R.failures input.new) (W.failures output.old)
        (W.failures output.new) }
    ensures stay { limits_of (shape engine.new) ≡ limits_of (shape engine.old) }
{
    engine.copy_from(&kept.engine);
    *moves = kept.moves;
    run(engine, kept.limits.moves(), input, output, moves)
}
