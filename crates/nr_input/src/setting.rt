//! What those who read events set, and what they read.
ghost use Rattle.std.specs.Prelude.{◌≡◌, ◌≤◌, length};

use super::reader::Reader;
use nr_reading::Standing;
use nr_store::Request;
use nr_units::Name;

impl Reader {
    ghost use Rattle.nr_reading.specs.declared.mode.Mode.TheVariants as modes;
    ghost use Rattle.nr_reading.specs.Conditionals.{judged, in_mode};
    ghost use Rattle.nr_reading.specs.Mode.{standing_of};
    ghost use Rattle.nr_reading.specs.Setting.{with_control, with_no_break, with_long_names, not_continued, with_line, resumed};
    ghost use Rattle.nr_reading.specs.Weights.{weight_of_text, weight_of_judged};
    ghost use Rattle.nr_input.specs.Acting.{on_half};
    ghost use Rattle.nr_input.specs.Weights.{CostsAtMost, cost_of_standing};

    /// The condition that was to be judged holds, or not. One that is not judged is rejected.
    ///
    /// Proved: What sets what is read next costs a fixed number of moves at most. (`Reader::{accept, begin_title,
    /// begin_diverted_line, stand}`)
    pub fn accept(&mut self, holds: bool)
        ensures sets { self.new ≡ on_half (judged holds) self.old }
        ensures costs { CostsAtMost weight_of_judged self.old.half self.new.half }
    {
        self.half.judge(holds);
    }

    /// The line of a title is read.
    pub fn begin_title(&mut self)
        ensures sets { self.new ≡ on_half (in_mode modes.TitleBefore) self.old }
        ensures costs { CostsAtMost weight_of_text self.old.half self.new.half }
    {
        self.half.begin_title();
    }

    /// A diverted line is read, if one comes next.
    pub fn begin_diverted_line(&mut self)
        ensures sets { self.new ≡ on_half (in_mode modes.Diverting) self.old }
        ensures costs { CostsAtMost 1 self.old.half self.new.half }
    {
        self.half.begin_diverted_line();
    }

    /// Where the line stands in whose middle a macro may be sprung.
    pub fn standing(&self) -> Standing
        ensures { result ≡ standing_of self.now.half.reading.mode }
    {
        self.half.standing()
    }

    /// The line goes on there: of its leading blanks one was read.
    pub fn stand(&mut self, standing: Standing)
        ensures sets { self.new ≡ on_half (resumed standing) self.old }
        ensures costs { CostsAtMost cost_of_standing self.old.half self.new.half }
    {
        self.half.stand(standing);
    }

    /// The next text line continues no word.
    pub fn end_continuing(&mut self)
        ensures { self.new ≡ on_half not_continued self.old }
    {
        self.half.end_continuing();
    }

    /// Sets the control character.
    pub fn set_control(&mut self, byte: u8)
        ensures { self.new ≡ on_half (with_control byte) self.old }
    {
        self.half.set_control(byte);
    }

    /// Sets the no-break control character.
    pub fn set_no_break_control(&mut self, byte: u8)
        ensures { self.new ≡ on_half (with_no_break byte) self.old }
    {
        self.half.set_no_break(byte);
    }

    /// Turns long names on or off.
    pub fn set_long_names(&mut self, long: bool)
        ensures { self.new ≡ on_half (with_long_names long) self.old }
    {
        self.half.set_long_names(long);
    }

    /// Puts a line, as far as its bytes count, in place of the one that was read.
    pub fn set_line(&mut self, line: &[u8])
        ensures { self.new ≡ on_half (with_line line.now) self.old }
    {
        self.half.set_line(line);
    }

    /// The line of a request, or the bytes of a condition's number.
    pub fn line(&self) -> &[u8]
        ensures value { result.now ≡ self.now.half.notes.line }
        ensures within { length result.now ≤ 256 }
    {
        self.half.notes.line.as_slice()
    }

    /// The text between delimiters that was read last.
    pub fn argument(&self) -> &[u8]
        ensures value { result.now ≡ self.now.half.delimited.last }
        ensures within { length result.now ≤ 256 }
    {
        self.half.delimited.last()
    }

    /// The name that an escape asked for last.
    pub fn asked(&self) -> Name
        ensures { result ≡ self.now.half.notes.asked }
    {
        self.half.notes.asked
    }

    /// The request that was called last.
    pub fn request(&self) -> Request
        ensures { result ≡ self.now.request }
    {
        self.request
    }

    /// The control line began with the no-break character.
    pub fn no_break(&self) -> bool
        ensures { result ≡ self.now.half.reading.no_break }
    {
        self.half.reading.no_break
    }

    /// Names may be long.
    pub fn long_names(&self) -> bool
        ensures { result ≡ self.now.half.signs.long }
    {
        self.half.signs.long
    }
}
