// What a source gives is handed over, as much as there is room for.
ghost use Rattle.std.specs.Prelude.{◌≡◌, ◌≢◌, ◌<◌, ◌≤◌, ℕ, List, Ok, Some, IfErr, IfOk, drop, length, take};
ghost use Rattle.document_stages.specs.Joined.{joined};
ghost use Rattle.document_stages.specs.Pulling.{MayBreak, Stays, whole};
ghost use Rattle.nulbiko.specs.Handed.{IsOver};
ghost use Rattle.nulbiko.specs.Reported.{IsHanded, code_within};

use super::reported::{DONE, FULL, TOO_LONG};
use nr_units::source::{Fault, Source};

/// Takes some of the bytes that come next, or none at the end. Tells how many.
fn take_some<R: Source>(source: &mut R, room: &mut [u8]) -> Result<usize, Fault>
    requires { 0 < length room.old }
    ensures few { IfOk result (λ count. count ≤ length room.old) }
    ensures same { length room.new ≡ length room.old }
    ensures came { IfOk result (λ count. Stays (R.supply source.old) (joined (take count room.new) (R.supply source.new))) }
    ensures over { result ≡ Ok 0 → IsOver (R.supply source.old) }
    ensures fault { IfErr result (λ _. MayBreak (R.supply source.old)) }
    ensures rest { IfOk result (λ count. drop count room.new ≡ drop count room.old) }
    ensures none { IfErr result (λ _. room.new ≡ room.old) }
{
    let window = source.window();
    let count = window.len().min(room.len());
    if count > 0 {
        room[..count].copy_from_slice(&window[..count]);
        source.skip(count);
        return Ok(count);
    }
    let Some(byte) = source.next()? else {
        return Ok(0);
    };
    room[0] = byte;
    Ok(1)
}

/// The number where there is no more room: whether more is to come.
fn code_at_end<R: Source>(source: &mut R) -> u32
    ensures value { (rest : List ℕ) → R.supply source.old ≡ Some (whole rest) → result ≡ code_within 0 (length rest) 0 }
    ensures not_range { result ≢ 2 }
    ensures not_memory { result ≢ 5 }
{
    match source.next() {
        Ok(None) => DONE,
        Ok(Some(_)) => FULL,
        Err(_) => TOO_LONG,
    }
}

/// Puts what a source gives at the beginning of the output, as much as fits, and gives how many bytes and the number of the
/// outcome. What stands after them stays. A source over a text fails only where 2^40 bytes came.
///
/// Proved: What a page's own table makes of a text stands at the beginning of the output, or as much of it as fits, and
/// exactly where not all of it fits the number is 4. (`hand_all`)
pub(crate) fn hand_all<R: Source>(source: &mut R, output: &mut [u8]) -> (usize, u32)
    ensures handed { (text : List ℕ) → R.supply source.old ≡ Some (whole text) → IsHanded text output.new result.0 }
    ensures code { (text : List ℕ) → R.supply source.old ≡ Some (whole text)
        → result.1 ≡ code_within 0 (length text) (length output.new) }
    ensures not_range { result.1 ≢ 2 }
    ensures not_memory { result.1 ≢ 5 }
    ensures rest { drop result.0 output.new ≡ drop result.0 output.old }
{
    let mut at = 0;
    while at < output.len() {
        match take_some(source, &mut output[at..]) {
            Ok(0) => return (at, DONE),
            Ok(count) => at += count,
            Err(Fault) => return (at, TOO_LONG),
        }
    }
    (at, code_at_end(source))
}
