//! Bytes of which no more is said than that they pass, or nothing.
ghost use Rattle.std.specs.Prelude.{◌≡◌, ◌+◌, ◌^◌, ◌<◌, ◌≤◌, [], length, take, true};
ghost use Rattle.tbl_reader.specs.Pages.{at_mode, effect};
ghost use Rattle.tbl_reader.specs.Quiet as specs;
ghost use Rattle.tbl_reader.specs.Reading.{Fits, fed, is_kept, limit_of, lines_on, with_kept};
ghost use Rattle.tbl_reader.specs.Telling.{each};
ghost use Rattle.tbl_reader.specs.declared.command.Start.TheVariants.{Nothing, Other};
ghost use Rattle.tbl_reader.specs.declared.state.Mode.TheVariants.{Passing};
ghost use Rattle.tbl_reader.specs.declared.telling.Tell.TheVariants as tells;

use super::command::Start;
use super::passing::{free_lines, line_len};
use super::reader::Reader;
use super::state::Mode;

impl Reader {
    /// Bytes of lines outside of tables that pass as they are. Tells how many were read, none where the first of them may not.
    pub fn pass(&mut self, bytes: &[u8]) -> usize
        requires lines { self.old.state.line + length bytes.now < 2 ^ 64 }
        requires fits { Fits self.old }
        ensures within { result ≤ length bytes.now }
        ensures passes { fed (take result bytes.now) self.old ≡ effect self.new (each tells.Pass (take result bytes.now)) }
        ensures stays { specs.Stays self.old self.new result }
    {
        match self.state.mode {
            Mode::Passing(start) => self.pass_in(start, bytes),
            _ => 0,
        }
    }

    /// The same, in a line that begins so.
    fn pass_in(&mut self, start: Start, bytes: &[u8]) -> usize
        requires lines { self.old.state.line + length bytes.now < 2 ^ 64 }
        requires mode { self.old.state.mode ≡ Passing start }
        requires fits { Fits self.old }
        ensures within { result ≤ length bytes.now }
        ensures passes { fed (take result bytes.now) self.old ≡ effect self.new (each tells.Pass (take result bytes.now)) }
        ensures stays { specs.Stays self.old self.new result }
    {
        if matches!(start, Start::Nothing) {
            let len = self.pass_lines(bytes);
            if len > 0 {
                return len;
            }
        }
        self.pass_part(start, bytes)
    }

    /// Whole lines that are no commands.
    fn pass_lines(&mut self, bytes: &[u8]) -> usize
        requires lines { self.old.state.line + length bytes.now < 2 ^ 64 }
        requires mode { self.old.state.mode ≡ Passing Nothing }
        requires fits { Fits self.old }
        ensures within { result ≤ length bytes.now }
        ensures passes { fed (take result bytes.now) self.old ≡ effect self.new (each tells.Pass (take result bytes.now)) }
        ensures stays { specs.Stays self.old self.new result }
        ensures none { result ≡ 0 → self.new ≡ self.old }
    {
        let lines = free_lines(bytes);
        if lines.len > 0 {
            self.counts(lines.count);
        }
        lines.len
    }

    /// So many lines passed.
    fn counts(&mut self, count: usize)
        requires { self.old.state.line + count < 2 ^ 64 }
        ensures { self.new ≡ lines_on count self.old }
    {
        self.state.line += count as u64;
        self.state.mode = Mode::Passing(Start::Nothing);
    }

    /// What came of a line, but for its end, if it is no command.
    fn pass_part(&mut self, start: Start, bytes: &[u8]) -> usize
        requires mode { self.old.state.mode ≡ Passing start }
        requires fits { Fits self.old }
        ensures within { result ≤ length bytes.now }
        ensures passes { fed (take result bytes.now) self.old ≡ effect self.new (each tells.Pass (take result bytes.now)) }
        ensures stays { specs.Stays self.old self.new result }
    {
        if !start.is_free(bytes) {
            return 0;
        }
        let len = line_len(bytes);
        if len > 0 {
            self.is_midst();
        }
        len
    }

    /// It is read in the midst of a line that is no command.
    fn is_midst(&mut self)
        ensures { self.new ≡ at_mode (Passing Other) self.old }
    {
        self.state.mode = Mode::Passing(Start::Other);
    }

    /// Bytes of a line of a table that are kept, but for its end. Tells how many were read, none where the first of them may not.
    pub fn keep(&mut self, bytes: &[u8]) -> usize
        requires fits { Fits self.old }
        ensures within { result ≤ length bytes.now }
        ensures keeps { fed (take result bytes.now) self.old ≡ effect self.new [] }
        ensures stays { specs.Stays self.old self.new 0 }
    {
        match self.state.mode {
            Mode::Passing(_) | Mode::Plain(_) | Mode::BlockLine => 0,
            _ => self.keep_prefix(bytes),
        }
    }

    /// The same, in a line that is kept.
    fn keep_prefix(&mut self, bytes: &[u8]) -> usize
        requires kept { is_kept self.old.state.mode ≡ true }
        requires fits { Fits self.old }
        ensures within { result ≤ length bytes.now }
        ensures keeps { fed (take result bytes.now) self.old ≡ effect self.new [] }
        ensures stays { specs.Stays self.old self.new 0 }
    {
        let free = self.limit() - self.kept.len();
        let count = line_len(bytes).min(free);
        self.add_kept(&bytes[..count]);
        count
    }

    /// These bytes are kept too.
    fn add_kept(&mut self, bytes: &[u8])
        requires { length self.old.kept + length bytes.now ≤ limit_of self.old }
        ensures { self.new ≡ with_kept bytes.now self.old }
    {
        self.kept.extend(bytes);
    }
}
