//! One step of a stage over a source: bytes at hand are turned, or the next one, or the end.
ghost use Rattle.std.specs.Prelude.{◌≡◌, ◌+◌, ◌*◌, ◌<◌, ◌≤◌, length};
ghost use Rattle.nr_units.specs.Failures.{counted};
ghost use Rattle.document_stages.specs.Stepping as specs;

use super::stage::Stage;
use nr_units::source::{Fault, Source};
use nr_vectors::slice_vec::SliceVec;

/// What one step came to.
#[derive(Clone, Copy)]
pub(crate) enum Step {
    /// So many bytes were taken.
    Took(u64),
    /// The end came.
    End,
    /// The end came, and what comes of it doesn't fit.
    Full,
}

/// So many of the bytes at hand are turned, or the first of them.
fn take_window<R: Source, T: Stage>(
    stage: &mut T,
    input: &mut R,
    out: &mut SliceVec<'_, u8>,
    len: usize,
) -> usize
    requires room { length out.old.items + T.wants stage.old ≤ out.old.capacity }
    requires some { 0 < len }
    requires within { len ≤ length (R.at_hand input.old) }
    ensures turned { specs.Turned (R.supply input.old) (R.supply input.new)
        (record { says = T.says stage.old; fits = T.fits stage.old; counts = T.counts stage.old })
        (record { says = T.says stage.new; fits = T.fits stage.new; counts = T.counts stage.new })
        out.old.items out.new.items result }
    ensures some { 0 < result }
    ensures few { result ≤ len }
    ensures measured { length out.new.items ≤ length out.old.items + T.wants stage.old * result }
    ensures failures { R.failures input.new ≡ R.failures input.old }
    ensures wants { T.wants stage.new ≡ T.wants stage.old }
    ensures room { out.new.capacity ≡ out.old.capacity }
{
    let window = input.window();
    let count = stage.turn(&window[..len], out);
    input.skip(count);
    count
}

/// The next byte is turned, or the end.
fn take_next<R: Source, T: Stage>(
    stage: &mut T,
    input: &mut R,
    out: &mut SliceVec<'_, u8>,
) -> Result<Step, Fault>
    requires room { length out.old.items + T.wants stage.old ≤ out.old.capacity }
    ensures steps { specs.Steps (R.supply input.old) (R.supply input.new)
        (record { says = T.says stage.old; fits = T.fits stage.old; counts = T.counts stage.old })
        (record { says = T.says stage.new; fits = T.fits stage.new; counts = T.counts stage.new })
        out.old.items out.new.items 1 result }
    ensures measured { specs.IsMeasured (T.wants stage.old) (length out.old.items) (length out.new.items) result }
    ensures failures { R.failures input.new ≡ counted (R.failures input.old) result }
    ensures wants { T.wants stage.new ≡ T.wants stage.old }
    ensures room { out.new.capacity ≡ out.old.capacity }
{
    match input.next() {
        Ok(Some(byte)) => {
            let count = stage.turn(&[byte], out);
            Ok(Step::Took(count as u64))
        }
        Ok(None) => {
            if stage.finish(out) {
                Ok(Step::End)
            } else {
                Ok(Step::Full)
            }
        }
        Err(fault) => Err(fault),
    }
}

/// Bytes at hand are turned, so many at most, or the next one, or the end. What comes of them stands after what waits.
pub(crate) fn make_step<R: Source, T: Stage>(
    stage: &mut T,
    input: &mut R,
    out: &mut SliceVec<'_, u8>,
    most: u64,
) -> Result<Step, Fault>
    requires room { length out.old.items + T.wants stage.old ≤ out.old.capacity }
    requires some { 0 < most }
    ensures steps { specs.Steps (R.supply input.old) (R.supply input.new)
        (record { says = T.says stage.old; fits = T.fits stage.old; counts = T.counts stage.old })
        (record { says = T.says stage.new; fits = T.fits stage.new; counts = T.counts stage.new })
        out.old.items out.new.items most result }
    ensures measured { specs.IsMeasured (T.wants stage.old) (length out.old.items) (length out.new.items) result }
    ensures failures { R.failures input.new ≡ counted (R.failures input.old) result }
    ensures wants { T.wants stage.new ≡ T.wants stage.old }
    ensures room { out.new.capacity ≡ out.old.capacity }
{
    let len = input.window().len().min(most as usize);
    if len == 0 {
        return take_next(stage, input, out);
    }
    let count = take_window(stage, input, out, len);
    Ok(Step::Took(count as u64))
}
