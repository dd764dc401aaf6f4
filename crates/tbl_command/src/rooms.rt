// The memory that texts are turned in.
ghost use Rattle.std.specs.Prelude.{◌≡◌, IfOk, length};
ghost use Rattle.tbl_setting.specs.Drawing.{signs_of};
ghost use Rattle.tbl_setting.specs.Running.{with_fits};
ghost use Rattle.tbl_command.specs.Converting.{bounds_of, ending_of};

use super::arguments::Job;
use super::complaints::tell_complaints;
use filters::{BUFFER_SIZE, Ending, Turns};
use nr_units::buffered::Buffered;
use nr_units::sink::Sink;
use nr_vectors::CountedAlloc;
use nr_vectors::slice_vec::SliceVec;
use std::alloc::{AllocError, Global};
use std::io::Read;
use tbl_setting::{Complaint, ReadEnd, Signs, convert};
use utf8_characters::FixedTable;

/// How many complaints about the tables of a text are reported.
const MOST_COMPLAINTS: usize = 64;

/// The memory that texts are turned in, taken once.
#[derive(Drop)]
pub struct Rooms {
    /// What was read of a text and is not taken yet.
    input: Vec<u8>,
    /// What is held of a table, and what is to go out.
    pub held: tbl_setting::Rooms,
    /// What is wrong with its tables.
    pub complaints: Vec<Complaint>,
}

impl Rooms {
    /// Takes the memory of a job beside what is held of a table.
    fn around(job: Job, held: tbl_setting::Rooms, alloc: Global) -> Result<Rooms, AllocError>
        ensures held { IfOk result (λ rooms. rooms.held ≡ with_fits job.fits held) }
        ensures complaints { IfOk result (λ rooms. length rooms.complaints.items ≡ 64) }
    {
        let mut held = held;
        held.set_fits(job.fits);
        Ok(Rooms {
            input: vec![in alloc; 0u8; BUFFER_SIZE]?,
            complaints: vec![in alloc; Complaint::NONE; MOST_COMPLAINTS]?,
            held,
        })
    }

    /// Takes the memory of a job whose frames are drawn with what a fixed table has, or in ASCII.
    pub fn new(job: Job, fixed: Option<FixedTable>, alloc: Global) -> Result<Rooms, AllocError>
        ensures held { IfOk result (λ rooms. rooms.held ≡ bounds_of (signs_of fixed) job) }
        ensures complaints { IfOk result (λ rooms. length rooms.complaints.items ≡ 64) }
    {
        let mut counted = CountedAlloc::new(alloc);
        let held = tbl_setting::Rooms::new(&mut counted, job.formats, job.row, job.line, fixed)?;
        Rooms::around(job, held, alloc)
    }

    /// The same, where they are drawn with these bytes.
    pub fn drawn_with(job: Job, signs: Signs, alloc: Global) -> Result<Rooms, AllocError>
        ensures { IfOk result (λ rooms. rooms.held ≡ bounds_of signs job) }
    {
        let mut counted = CountedAlloc::new(alloc);
        let held = tbl_setting::Rooms::drawn_with(
            &mut counted,
            job.formats,
            job.row,
            job.line,
            signs,
        )?;
        Rooms::around(job, held, alloc)
    }
}

impl Turns for Rooms {
    ghost use Rattle.tbl_command.specs.Converting.{tbl};

    ghost filter = { λ rooms. tbl rooms.held };

    fn turn<'a, T: Read + Drop, W: Sink, E: Sink>(
        &mut self,
        name: &'a str,
        text: T,
        output: W,
        errors: &mut E,
    ) -> (Ending<'a>, W) {
        let mut source = Buffered::over(text, &mut self.input);
        let mut complaints = SliceVec::over(&mut self.complaints);
        let (report, output) = convert(&mut source, output, &mut self.held, &mut complaints);
        let wrong = tell_complaints("tbl", name, report, complaints.as_slice(), errors);
        (ended(report.outcome, wrong), output)
    }
}

/// How a text ended, in which something was wrong or not.
fn ended<'a>(outcome: ReadEnd, wrong: bool) -> Ending<'a>
    ensures { result ≡ ending_of wrong outcome }
{
    match outcome {
        ReadEnd::Done if wrong => Ending::Complained,
        ReadEnd::Done => Ending::Done,
        ReadEnd::TooLong => Ending::TooLong(None),
        ReadEnd::ReadFault { at } => Ending::ReadFault(None, at),
        ReadEnd::WriteFault => Ending::WriteFault,
    }
}
