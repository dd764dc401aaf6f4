// The complaints about a text: the first of them, and whether there were more.
ghost use Rattle.std.specs.Prelude.{◌≡◌, ◌||◌, ◌==◌, ℕ, List, OnOk, OnErr, length, not};
ghost use Rattle.std.specs.Io.KnownBytes.{Appends};
ghost use Rattle.nr_units.specs.Failures.{put_counted};
ghost use Rattle.nr_units.specs.Sink.{AppendsPrefix};
ghost use Rattle.filters_complaints.specs.Complaints as specs;

use nr_units::sink::Sink;
use nr_units::source::Fault;
use nr_vectors::slice_vec::SliceVec;
use std::marker::Model;

/// How many complaints about a text are reported.
pub const MOST_COMPLAINTS: usize = 64;

/// What is wrong with a line.
pub trait Complains {
    /// The line, from 1 on.
    ghost at: { Self → ℕ };

    /// What is reported of it, up to the end of a line.
    ghost says: { Self → List ℕ };

    /// The line, from 1 on.
    fn line(&self) -> u64
        ensures { result ≡ at self.now };

    /// Writes what is reported of it, up to the end of a line.
    fn put<E: Sink>(&self, errors: &mut E) -> Result<(), Fault>
        ensures ok { OnOk result (Appends (E.held errors.old) (E.held errors.new) (says self.now)) }
        ensures err { OnErr result (AppendsPrefix (E.held errors.old) (E.held errors.new) (says self.now)) }
        ensures failures { E.failures errors.new ≡ put_counted (E.failures errors.old) result };
}

/// The complaints about a text.
#[derive(Drop)]
pub struct Complaints<'a, C: Copy> {
    first: SliceVec<'a, C>,
    missed: bool,
}

impl<'a, C: Copy> Model for Complaints<'a, C> {
    ghost use Rattle.filters_complaints.specs.Complaints.{AllReported};

    ghost Value = { AllReported C };

    ghost view = { λ c. record { first = c.first; missed = c.missed } };
}

impl<'a, C: Copy> Complaints<'a, C> {
    /// There is none: they come into this room.
    pub fn over(room: &'a mut [C]) -> Self
        ensures { result ≡ specs.none_reported (length room.entry.now) }
    {
        Complaints {
            first: SliceVec::over(room),
            missed: false,
        }
    }

    /// The first complaints, as many as there is room for.
    pub fn first(&self) -> &[C]
        ensures { result.now ≡ self.now.first.items }
    {
        self.first.as_slice()
    }

    /// There was more to report.
    pub fn has_missed(&self) -> bool
        ensures { result ≡ self.now.missed }
    {
        self.missed
    }

    /// Whether there is a complaint.
    pub fn are_some(&self) -> bool
        ensures { result ≡ (self.now.missed || not (length self.now.first.items == 0)) }
    {
        self.missed || !self.first.is_empty()
    }

    /// A complaint comes.
    ///
    /// Proved: The first complaints about a page are reported, as many as there is room for, and whether there were more.
    pub fn report(&mut self, complaint: C)
        ensures { self.new ≡ specs.reported complaint self.old }
    {
        if self.first.is_full() {
            self.missed = true;
        } else {
            self.first.push(complaint);
        }
    }
}
