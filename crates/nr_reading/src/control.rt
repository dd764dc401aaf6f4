//! Control lines: names, the lines of requests, and the arguments of macros.
ghost use Rattle.std.specs.Prelude.{◌≡◌};
ghost use Rattle.nr_reading.specs.Step.{joined};
ghost use Rattle.nr_reading.specs.Control.{read_control, completes, read_name, read_drop, read_request_blanks, read_request_line, read_macro_blanks, read_macro_gap, read_word, read_quoted, read_quote};

use super::event::Event;
use super::mode::{Mode, PendingAct, Reading};
use super::spelled::{Spelled, ends_name, is_blank};
use super::step::{Jot, Said, go, leave, leave_noting, noting, tell};

/// After the control character.
#[inline(always)]
pub(crate) fn read_control(byte: u8, reading: &mut Reading) -> Said
    ensures { joined reading.new result ≡ read_control byte reading.old }
{
    if is_blank(byte) {
        return go();
    }
    reading.mode = Mode::Name;
    leave()
}

/// The byte is the second of a name of two.
pub(crate) fn completes(long: bool, name: &Spelled) -> bool
    ensures { result ≡ completes long name.now }
{
    !long && name.bytes.len() == 1
}

/// In a control line's name.
#[inline(always)]
pub(crate) fn read_name(byte: u8, long: bool, name: &Spelled, reading: &mut Reading) -> Said
    ensures { joined reading.new result ≡ read_name byte long name.now reading.old }
{
    if ends_name(byte) {
        reading.pending_act = PendingAct::Seek;
        return leave();
    }
    if completes(long, name) {
        reading.pending_act = PendingAct::Seek;
        return noting(Jot::Name(byte));
    }
    noting(Jot::Name(byte))
}

/// In a line that does nothing.
#[inline(always)]
pub(crate) fn read_drop(byte: u8, reading: &mut Reading) -> Said
    ensures { joined reading.new result ≡ read_drop byte reading.old }
{
    if byte == b'\n' {
        reading.mode = Mode::Start;
        return go();
    }
    go()
}

/// In the blanks before a request's arguments.
#[inline(always)]
pub(crate) fn read_request_blanks(byte: u8, reading: &mut Reading) -> Said
    ensures { joined reading.new result ≡ read_request_blanks byte reading.old }
{
    if is_blank(byte) {
        return go();
    }
    reading.mode = Mode::RequestLine;
    leave_noting(Jot::NewLine)
}

/// In a request's arguments.
#[inline(always)]
pub(crate) fn read_request_line(byte: u8, reading: &mut Reading) -> Said
    ensures { joined reading.new result ≡ read_request_line byte reading.old }
{
    if byte == b'\n' {
        reading.mode = Mode::Start;
        return tell(Event::Request);
    }
    noting(Jot::Line(byte))
}

/// In the blanks before a macro's arguments.
#[inline(always)]
pub(crate) fn read_macro_blanks(byte: u8, reading: &mut Reading) -> Said
    ensures { joined reading.new result ≡ read_macro_blanks byte reading.old }
{
    if is_blank(byte) {
        return go();
    }
    reading.mode = Mode::MacroGap;
    leave()
}

/// Before an argument of a macro.
#[inline(always)]
pub(crate) fn read_macro_gap(byte: u8, reading: &mut Reading) -> Said
    ensures { joined reading.new result ≡ read_macro_gap byte reading.old }
{
    if byte == b'\n' {
        reading.mode = Mode::Start;
        reading.pending_act = PendingAct::Call;
        return go();
    }
    if byte == b' ' {
        return go();
    }
    if byte == b'"' {
        reading.mode = Mode::Quoted;
        return go();
    }
    reading.mode = Mode::Word;
    reading.pending_act = PendingAct::Put(byte);
    go()
}

/// In an argument of a macro.
#[inline(always)]
pub(crate) fn read_word(byte: u8, reading: &mut Reading) -> Said
    ensures { joined reading.new result ≡ read_word byte reading.old }
{
    if byte == b'\n' {
        reading.mode = Mode::MacroGap;
        reading.pending_act = PendingAct::EndArgument;
        return leave();
    }
    if byte == b' ' {
        reading.mode = Mode::MacroGap;
        reading.pending_act = PendingAct::EndArgument;
        return go();
    }
    reading.pending_act = PendingAct::Put(byte);
    go()
}

/// In an argument of a macro that began with a quote.
#[inline(always)]
pub(crate) fn read_quoted(byte: u8, reading: &mut Reading) -> Said
    ensures { joined reading.new result ≡ read_quoted byte reading.old }
{
    if byte == b'\n' {
        reading.mode = Mode::MacroGap;
        reading.pending_act = PendingAct::EndArgument;
        return leave();
    }
    if byte == b'"' {
        reading.mode = Mode::Quote;
        return go();
    }
    reading.pending_act = PendingAct::Put(byte);
    go()
}

/// In such an argument, after a quote.
#[inline(always)]
pub(crate) fn read_quote(byte: u8, reading: &mut Reading) -> Said
    ensures { joined reading.new result ≡ read_quote byte reading.old }
{
    if byte == b'"' {
        reading.mode = Mode::Quoted;
        reading.pending_act = PendingAct::Put(b'"');
        return go();
    }
    reading.mode = Mode::MacroGap;
    reading.pending_act = PendingAct::EndArgument;
    leave()
}
