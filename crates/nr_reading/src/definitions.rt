//! Definitions of macros.
ghost use Rattle.std.specs.Prelude.{◌≡◌, ◌≤◌, length, slice_index};
ghost use Rattle.nr_reading.specs.Step.{joined};
ghost use Rattle.nr_reading.specs.Definitions.{last_line, ends_whole, kept_byte, released, in_body, not_last, nearer_last, read_body_start, read_body, read_body_end, over_body_start};

use super::mode::{Mode, PendingAct, Reading};
use super::notes::Defining;
use super::spelled::is_blank;
use super::step::{Said, go, leave};

impl Defining {
    // How many bytes tell the last line.
    fn last_line_len(&self) -> u8
        ensures value { result ≡ length (last_line self.now) }
        ensures within { result ≤ 33 }
    {
        if self.ending.is_empty() {
            return 2;
        }
        self.ending.len() as u8 + 1
    }

    /// The byte of the last line at a place, counted from 0.
    pub fn last_line_byte(&self, place: u8) -> u8
        ensures { result ≡ slice_index (last_line self.now) place }
    {
        if place == 0 {
            return b'.';
        }
        if self.ending.is_empty() {
            return if place == 1 { b'.' } else { 0 };
        }
        let bytes = self.ending.as_bytes();
        let at = usize::from(place) - 1;
        if at < bytes.len() {
            return bytes[at];
        }
        0
    }

    // A blank or the newline has to follow what tells the last line.
    fn ends_whole(&self) -> bool
        ensures { result ≡ ends_whole self.now }
    {
        self.long && !self.ending.is_empty()
    }

    // A byte of the text.
    fn kept_byte(&self, byte: u8) -> PendingAct
        ensures { result ≡ kept_byte self.now byte }
    {
        if self.keeps {
            return PendingAct::Add(byte);
        }
        PendingAct::Look
    }

    // Bytes that were held back, and then perhaps another.
    fn released(&self, held: u8, then: Option<u8>) -> PendingAct
        ensures { result ≡ released self.now held then }
    {
        if self.keeps {
            return PendingAct::Release {
                held,
                next: 0,
                then,
            };
        }
        PendingAct::Look
    }

    // The line is not the last.
    #[inline(always)]
    fn not_last(&self, byte: u8, held: u8, reading: &mut Reading) -> Said
        ensures { joined reading.new result ≡ not_last byte self.now held reading.old }
    {
        if held == 0 {
            reading.mode = in_body(byte);
            reading.pending_act = self.kept_byte(byte);
            return go();
        }
        reading.mode = in_body(byte);
        reading.pending_act = self.released(held, Some(byte));
        go()
    }

    // One more byte of the last line came.
    fn nearer_last(&self, held: u8) -> Mode
        requires { held ≤ 40 }
        ensures { result ≡ nearer_last self.now held }
    {
        if held + 1 == self.last_line_len() && !self.ends_whole() {
            return Mode::BodyEnd;
        }
        Mode::BodyStart(held + 1)
    }

    /// In a line that may be the last.
    #[inline(always)]
    pub(crate) fn read_body_start(&self, byte: u8, held: u8, reading: &mut Reading) -> Said
        ensures { joined reading.new result ≡ read_body_start byte self.now held reading.old }
    {
        if held < self.last_line_len() {
            if byte == self.last_line_byte(held) {
                reading.mode = self.nearer_last(held);
                return go();
            }
            return self.not_last(byte, held, reading);
        }
        if byte == b'\n' || is_blank(byte) {
            reading.mode = Mode::BodyEnd;
            return leave();
        }
        self.not_last(byte, held, reading)
    }

    /// In another line.
    #[inline(always)]
    pub(crate) fn read_body(&self, byte: u8, reading: &mut Reading) -> Said
        ensures { joined reading.new result ≡ read_body byte self.now reading.old }
    {
        reading.mode = in_body(byte);
        reading.pending_act = self.kept_byte(byte);
        go()
    }

    /// The list ends in a line that may be the last.
    pub(crate) fn over_body_start(&self, held: u8, reading: &mut Reading) -> Said
        ensures { joined reading.new result ≡ over_body_start self.now held reading.old }
    {
        if held == 0 {
            reading.mode = Mode::Start;
            reading.pending_act = PendingAct::Define;
            return leave();
        }
        if held < self.last_line_len() {
            reading.mode = Mode::Body;
            reading.pending_act = self.released(held, None);
            return leave();
        }
        reading.mode = Mode::BodyEnd;
        leave()
    }
}

// In a line that is not the last, or at the beginning of the next.
fn in_body(byte: u8) -> Mode
    ensures { result ≡ in_body byte }
{
    if byte == b'\n' {
        return Mode::BodyStart(0);
    }
    Mode::Body
}

/// In the last line, after what tells it.
#[inline(always)]
pub(crate) fn read_body_end(byte: u8, reading: &mut Reading) -> Said
    ensures { joined reading.new result ≡ read_body_end byte reading.old }
{
    if byte == b'\n' {
        reading.mode = Mode::Start;
        reading.pending_act = PendingAct::DefineAndCall;
        return go();
    }
    go()
}
