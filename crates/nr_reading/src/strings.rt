//! Definitions of strings, and transparent lines.
ghost use Rattle.std.specs.Prelude.{◌≡◌};
ghost use Rattle.nr_reading.specs.Step.{joined};
ghost use Rattle.nr_reading.specs.Strings.{read_string_before, after_string_name, read_string_name, read_string_blanks, read_string_text, read_transparent};

use super::control::completes;
use super::mode::{Mode, PendingAct, Reading};
use super::spelled::{Spelled, ends_name, is_blank};
use super::step::{Jot, Said, go, leave, leave_noting, noting};

/// In the blanks before a string's name.
#[inline(always)]
pub(crate) fn read_string_before(byte: u8, reading: &mut Reading) -> Said
    ensures { joined reading.new result ≡ read_string_before byte reading.old }
{
    if is_blank(byte) {
        return go();
    }
    reading.mode = Mode::StringName;
    leave_noting(Jot::NewName)
}

// A string's name ends.
fn end_string_name(name: &Spelled, reading: &mut Reading)
    ensures { reading.new ≡ after_string_name name.now reading.old }
{
    if name.name().is_empty() {
        reading.mode = Mode::Drop;
        return;
    }
    reading.mode = Mode::StringBlanks;
}

/// In a string's name.
#[inline(always)]
pub(crate) fn read_string_name(byte: u8, long: bool, name: &Spelled, reading: &mut Reading) -> Said
    ensures { joined reading.new result ≡ read_string_name byte long name.now reading.old }
{
    if ends_name(byte) {
        end_string_name(name, reading);
        return leave();
    }
    if completes(long, name) {
        reading.mode = Mode::StringBlanks;
        return noting(Jot::Name(byte));
    }
    noting(Jot::Name(byte))
}

/// In the blanks before a string's text.
#[inline(always)]
pub(crate) fn read_string_blanks(byte: u8, reading: &mut Reading) -> Said
    ensures { joined reading.new result ≡ read_string_blanks byte reading.old }
{
    if is_blank(byte) {
        return go();
    }
    reading.mode = Mode::StringText;
    reading.pending_act = PendingAct::Begin;
    if byte == b'"' {
        return go();
    }
    leave()
}

/// In a string's text.
#[inline(always)]
pub(crate) fn read_string_text(byte: u8, reading: &mut Reading) -> Said
    ensures { joined reading.new result ≡ read_string_text byte reading.old }
{
    if byte == b'\n' {
        reading.mode = Mode::Start;
        reading.pending_act = PendingAct::Define;
        return go();
    }
    reading.pending_act = PendingAct::Add(byte);
    go()
}

/// In a transparent line.
#[inline(always)]
pub(crate) fn read_transparent(byte: u8, reading: &mut Reading) -> Said
    ensures { joined reading.new result ≡ read_transparent byte reading.old }
{
    if byte == b'\n' {
        reading.mode = Mode::Start;
        reading.pending_act = PendingAct::Add(b'\n');
        return go();
    }
    reading.pending_act = PendingAct::Add(byte);
    go()
}
