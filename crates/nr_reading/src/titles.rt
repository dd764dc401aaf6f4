//! Titles.
ghost use Rattle.std.specs.Prelude.{◌≡◌};
ghost use Rattle.nr_reading.specs.Step.{joined};
ghost use Rattle.nr_reading.specs.Titles.{ended_title, before_title_byte, before_title, next_part, title_byte, title, read_title_rest};

use super::event::Event;
use super::mode::{Mode, Reading};
use super::next_item::NextItem;
use super::spelled::is_blank;
use super::step::{Said, go, leave_telling, tell};
use super::text::begin_escape;

// A title's line ends.
fn end_title(reading: &mut Reading)
    ensures { reading.new ≡ ended_title reading.old }
{
    reading.mode = Mode::Start;
}

// A byte before the first delimiter.
#[inline(always)]
fn before_title_byte(byte: u8, reading: &mut Reading) -> Said
    ensures { joined reading.new result ≡ before_title_byte byte reading.old }
{
    if byte == b'\n' {
        end_title(reading);
        return tell(Event::TitleEnd);
    }
    if byte == b'\\' {
        return begin_escape(reading);
    }
    if is_blank(byte) {
        return go();
    }
    reading.mode = Mode::Title(byte, 0);
    tell(Event::TitlePart)
}

/// Before the first delimiter.
#[inline(always)]
pub(crate) fn before_title(next_item: NextItem, reading: &mut Reading) -> Said
    ensures { joined reading.new result ≡ before_title next_item reading.old }
{
    match next_item {
        NextItem::Mark | NextItem::Cell(_) => go(),
        NextItem::Byte(byte) => before_title_byte(byte, reading),
        NextItem::LineEnd(_) => {
            end_title(reading);
            tell(Event::TitleEnd)
        }
        NextItem::Resume | NextItem::Over => {
            end_title(reading);
            leave_telling(Event::TitleEnd)
        }
    }
}

// A part ends.
fn end_part(delimiter: u8, part: u8, reading: &mut Reading)
    ensures { reading.new ≡ next_part delimiter part reading.old }
{
    match part {
        0 => reading.mode = Mode::Title(delimiter, 1),
        1 => reading.mode = Mode::Title(delimiter, 2),
        _ => reading.mode = Mode::TitleRest,
    }
}

// A byte in a part.
#[inline(always)]
fn title_byte(byte: u8, delimiter: u8, part: u8, reading: &mut Reading) -> Said
    ensures { joined reading.new result ≡ title_byte byte delimiter part reading.old }
{
    if byte == b'\n' {
        end_title(reading);
        return tell(Event::TitleEnd);
    }
    if byte == b'\\' {
        return begin_escape(reading);
    }
    if byte == delimiter {
        end_part(delimiter, part, reading);
        return tell(Event::TitlePart);
    }
    tell(Event::Byte(byte))
}

/// In a part.
#[inline(always)]
pub(crate) fn title(next_item: NextItem, delimiter: u8, part: u8, reading: &mut Reading) -> Said
    ensures { joined reading.new result ≡ title next_item delimiter part reading.old }
{
    match next_item {
        NextItem::Mark => go(),
        NextItem::Byte(byte) => title_byte(byte, delimiter, part, reading),
        NextItem::Cell(cell) => tell(Event::Cell(cell)),
        NextItem::LineEnd(_) => {
            end_title(reading);
            tell(Event::TitleEnd)
        }
        NextItem::Resume | NextItem::Over => {
            end_title(reading);
            leave_telling(Event::TitleEnd)
        }
    }
}

/// After the last delimiter.
#[inline(always)]
pub(crate) fn read_title_rest(byte: u8, reading: &mut Reading) -> Said
    ensures { joined reading.new result ≡ read_title_rest byte reading.old }
{
    if byte == b'\n' {
        end_title(reading);
        return tell(Event::TitleEnd);
    }
    go()
}
