// The tables of a page are looked at, and not set.
ghost use Rattle.std.specs.Prelude.{◌≡◌, IfOk, IfSome, Some};
ghost use Rattle.nr_units.specs.Source.{Supply};
ghost use Rattle.tbl_command.specs.Looking.{AreReportedOf};

use super::arguments::Job;
use super::rooms::Rooms;
use nr_units::sink::Sink;
use nr_units::source::Source;
use nr_vectors::slice_vec::SliceVec;
use std::alloc::{AllocError, Global};
use tbl_setting::{Complaint, ReadEnd, Report, convert};

/// What is wrong with the tables of a page.
#[derive(Drop)]
pub struct Tables {
    /// Whether there was more to tell, and whether a table went out in parts.
    pub report: Report,
    /// The first complaints.
    pub complaints: Vec<Complaint>,
}

/// What tbl would tell of the tables of a text, by the limits and the line of a job, drawn in ASCII; nothing where the
/// text or the output fails. The tables go out of `output`.
pub fn look_at<S: Source, W: Sink + Drop>(
    text: &mut S,
    output: W,
    job: Job,
    alloc: Global,
) -> Result<Option<Tables>, AllocError>
    ensures { IfOk result (λ made. IfSome made (λ tables. (q : Supply) → S.supply text.old ≡ Some q →
        AreReportedOf job q.bytes tables)) }
{
    let mut rooms = Rooms::new(job, None, alloc)?;
    let mut complaints = SliceVec::over(&mut rooms.complaints);
    let (report, _) = convert(text, output, &mut rooms.held, &mut complaints);
    match report.outcome {
        ReadEnd::Done => {
            let complaints = Vec::from_slice(alloc, complaints.as_slice())?;
            Ok(Some(Tables { report, complaints }))
        }
        _ => Ok(None),
    }
}
