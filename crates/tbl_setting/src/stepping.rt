//! A page is turned a byte at a time.
ghost use Rattle.std.specs.Prelude.{◌≡◌, ◌+◌, ◌^◌, ◌<◌};
ghost use Rattle.tbl_reader.specs.Ending.{GoesOn, next_read};
ghost use Rattle.tbl_reader.specs.Reading.{Fits};
ghost use Rattle.tbl_setting.specs.Held.{emptied};
ghost use Rattle.tbl_setting.specs.Setting.{KeepsMore, first_tape, set, wrongs};
ghost use Rattle.tbl_setting.specs.Stepping as specs;

use super::press::Press;
use super::setting::Setting;
use nr_units::sink::Sink;
use nr_vectors::slice_vec::SliceVec;
use tbl_drawing::Out;
use tbl_reader::{Complaint, ReadEnd, Reader};

/// What is left of a step.
pub struct Step<W> {
    /// The output.
    pub output: W,
    /// There were more complaints than there was room for, now or before.
    pub missed: bool,
}

/// What comes next is read, a byte or the end, where there is none; what it says is set, and what goes out for it is put to the
/// output.
fn read_and_set<W: Sink>(
    reader: &mut Reader,
    next: Option<u8>,
    press: &mut Press<'_, '_, '_, '_, W>,
)
    requires lines { reader.old.state.line + 1 < 2 ^ 64 }
    requires fits { Fits reader.old }
    requires tape { press.old.out ≡ first_tape press.old.out.held press.old.out.failures }
    requires kept { specs.AreKept press.old.complaints.now press.old.missed }
    ensures page { reader.new ≡ (next_read next reader.old).page }
    ensures goes_on { GoesOn next reader.old reader.new }
    ensures setting { press.new.setting.now ≡ set (next_read next reader.old).pieces press.old.setting.now }
    ensures setting_same { press.new.setting.ghost_name ≡ press.old.setting.ghost_name }
    ensures setting_room { emptied press.new.setting.now ≡ emptied press.old.setting.now }
    ensures sent { specs.Sent (specs.next_bytes next reader.old press.old.setting.now) press.old.out.held
        press.new.out.held press.old.out.failures press.new.out.failures }
    ensures keeps { KeepsMore press.old.complaints.now press.old.missed press.new.complaints.now press.new.missed
        (wrongs (next_read next reader.old).pieces press.old.setting.now) }
    ensures same { press.new.complaints.ghost_name ≡ press.old.complaints.ghost_name }
    ensures room { press.new.complaints.now.capacity ≡ press.old.complaints.now.capacity }
{
    reader.read_next(next, press);
    press.ends(ReadEnd::Done);
}

/// What comes next of a page is read, a byte or the end, where there is none; what it says is set, and what goes out for it
/// is put to the output. Once that fails nothing more of it is put.
pub fn set_next<W: Sink>(
    reader: &mut Reader,
    setting: &mut Setting,
    next: Option<u8>,
    out: Out<'_, W>,
    complaints: &mut SliceVec<'_, Complaint>,
    missed: bool,
) -> Step<W>
    requires lines { reader.old.state.line + 1 < 2 ^ 64 }
    requires fits { Fits reader.old }
    requires tape { out ≡ first_tape out.held out.failures }
    requires kept { specs.AreKept complaints.old missed }
    ensures page { reader.new ≡ (next_read next reader.old).page }
    ensures goes_on { GoesOn next reader.old reader.new }
    ensures setting { setting.new ≡ set (next_read next reader.old).pieces setting.old }
    ensures setting_room { emptied setting.new ≡ emptied setting.old }
    ensures sent { specs.Sent (specs.next_bytes next reader.old setting.old) out.entry.held (W.held result.output)
        out.entry.failures (W.failures result.output) }
    ensures keeps { KeepsMore complaints.old missed complaints.new result.missed
        (wrongs (next_read next reader.old).pieces setting.old) }
    ensures room { complaints.new.capacity ≡ complaints.old.capacity }
{
    let mut press = Press {
        setting,
        out,
        complaints,
        missed,
    };
    read_and_set(reader, next, &mut press);
    let missed = press.missed;
    let Press {
        setting: _setting,
        out,
        complaints: _complaints,
        missed: _,
    } = press;
    Step {
        output: out.into_sink(),
        missed,
    }
}
