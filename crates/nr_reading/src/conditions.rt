//! Conditions.
ghost use Rattle.std.specs.Prelude.{◌≡◌};
ghost use Rattle.nr_reading.specs.Step.{joined};
ghost use Rattle.nr_reading.specs.Conditions.{begins_number, read_condition_byte, read_condition, parentheses, read_number, read_first, read_second};

use super::ask::is_digit;
use super::event::{Event, Question};
use super::mode::{Mode, PendingAct, Reading};
use super::notes::Condition;
use super::spelled::is_blank;
use super::step::{Jot, Said, go, leave, leave_noting, leave_telling, noting, tell};

// The byte begins a number.
#[inline(always)]
pub(crate) fn begins_number(byte: u8) -> bool
    ensures { result ≡ begins_number byte }
{
    is_digit(byte) || byte == b'(' || byte == b'+' || byte == b'-' || byte == b'.' || byte == b'|'
}

// The first byte of a condition.
#[inline(always)]
fn read_condition_byte(byte: u8, reading: &mut Reading) -> Said
    ensures { joined reading.new result ≡ read_condition_byte byte reading.old }
{
    if byte == b'o' {
        reading.mode = Mode::Skip(0);
        return tell(Event::Judge(Question::Odd));
    }
    if byte == b'e' {
        reading.mode = Mode::Skip(0);
        return tell(Event::Judge(Question::Even));
    }
    if byte == b't' {
        reading.pending_act = PendingAct::Judge(false);
        return go();
    }
    if byte == b'n' {
        reading.pending_act = PendingAct::Judge(true);
        return go();
    }
    if begins_number(byte) {
        reading.mode = Mode::Number(0);
        return leave_noting(Jot::NewLine);
    }
    reading.mode = Mode::First(byte);
    noting(Jot::Strings)
}

/// Before a condition.
#[inline(always)]
pub(crate) fn read_condition(byte: u8, negated: bool, reading: &mut Reading) -> Said
    ensures { joined reading.new result ≡ read_condition byte negated reading.old }
{
    if byte == b'\n' {
        reading.pending_act = PendingAct::Judge(false);
        return leave();
    }
    if is_blank(byte) {
        if negated {
            reading.pending_act = PendingAct::Judge(false);
            return leave();
        }
        return go();
    }
    if byte == b'!' && !negated {
        return noting(Jot::Negated);
    }
    read_condition_byte(byte, reading)
}

// The parentheses that are open after a byte.
#[inline(always)]
pub(crate) fn parentheses(byte: u8, depth: u64) -> u64
    ensures { result ≡ parentheses byte depth }
{
    if byte == b'(' {
        return depth.saturating_add(1);
    }
    if byte == b')' {
        return depth.saturating_sub(1);
    }
    depth
}

/// In a number.
#[inline(always)]
pub(crate) fn read_number(byte: u8, depth: u64, reading: &mut Reading) -> Said
    ensures { joined reading.new result ≡ read_number byte depth reading.old }
{
    if byte == b'\n' || (depth == 0 && (is_blank(byte) || byte == b'\\')) {
        reading.mode = Mode::Skip(0);
        return leave_telling(Event::Judge(Question::Number));
    }
    reading.mode = Mode::Number(parentheses(byte, depth));
    noting(Jot::Line(byte))
}

/// In the first string.
#[inline(always)]
pub(crate) fn read_first(
    byte: u8,
    delimiter: u8,
    condition: Condition,
    reading: &mut Reading,
) -> Said
    ensures { joined reading.new result ≡ read_first byte delimiter condition reading.old }
{
    if byte == b'\n' {
        reading.pending_act = PendingAct::Judge(condition.are_equal());
        return leave();
    }
    if byte == delimiter {
        reading.mode = Mode::Second(delimiter);
        return go();
    }
    noting(Jot::First(byte))
}

/// In the second string.
#[inline(always)]
pub(crate) fn read_second(
    byte: u8,
    delimiter: u8,
    condition: Condition,
    reading: &mut Reading,
) -> Said
    ensures { joined reading.new result ≡ read_second byte delimiter condition reading.old }
{
    if byte == b'\n' {
        reading.pending_act = PendingAct::Judge(condition.are_equal());
        return leave();
    }
    if byte == delimiter {
        reading.pending_act = PendingAct::Judge(condition.are_equal());
        return go();
    }
    noting(Jot::Second(byte))
}
