//! Escapes in text.
ghost use Rattle.std.specs.Prelude.{◌≡◌};
ghost use Rattle.nr_reading.specs.Step.{ask_of, joined};
ghost use Rattle.std.specs.Option.{option_map};
ghost use Rattle.nr_reading.specs.TextEscape.{interpolated, asked_in_text, is_nothing, is_plain, other_byte, event_after, is_titled, after_escape, escape_in_text, escape_at_start, escape_by, escaped_byte, lone_escape, escaped};

use super::ask::{Begun, Kind, Sign};
use super::event::Event;
use super::mode::{Escape, Mode, Reading};
use super::next_item::NextItem;
use super::step::{Jot, Said, go, leave, noting, tell};
use super::text::text_after_blanks;

// What is interpolated, by the byte after `\`.
fn interpolated(byte: u8) -> Option<Kind>
    ensures { result ≡ interpolated byte }
{
    match byte {
        b'n' => Some(Kind::Register(Sign::None)),
        b'*' => Some(Kind::String),
        b'$' => Some(Kind::Argument),
        b'w' => Some(Kind::Width),
        _ => None,
    }
}

// An escape whose argument is still to be read, by the byte after `\`.
fn asked_in_text(byte: u8, long: bool) -> Option<Begun>
    ensures { option_map ask_of result ≡ asked_in_text byte long }
{
    match byte {
        b'(' => Some(Begun::Of(Kind::Special)),
        b'[' if long => Some(Begun::Bracket),
        b'f' => Some(Begun::Of(Kind::Font)),
        b'k' => Some(Begun::Of(Kind::Mark)),
        b'h' => Some(Begun::Of(Kind::Horizontal)),
        b'l' => Some(Begun::Of(Kind::Rule)),
        b'v' | b'x' | b'b' | b'o' | b'L' | b'D' => Some(Begun::Of(Kind::Ignored)),
        b's' => Some(Begun::Of(Kind::Size)),
        _ => None,
    }
}

// Escapes that do nothing in text.
fn is_nothing(byte: u8) -> bool
    ensures { result ≡ is_nothing byte }
{
    matches!(
        byte,
        b'|' | b'^' | b'!' | b'd' | b'u' | b'r' | b'z' | b'{' | b'}' | b'c'
    )
}

// Escapes that are cells of their own.
fn is_plain(byte: u8) -> bool
    ensures { result ≡ is_plain byte }
{
    matches!(byte, b'-' | b'.' | b'\'' | b'`')
}

// What any other byte after `\` tells.
fn other_byte(titled: bool, byte: u8) -> Event
    ensures { result ≡ other_byte titled byte }
{
    if byte == b'\t' {
        return Event::Tab;
    }
    if byte == 1 {
        return Event::Leader;
    }
    if titled {
        return Event::Plain(byte);
    }
    Event::Byte(byte)
}

// What an escape without an argument tells.
fn event_after(byte: u8, titled: bool) -> Event
    ensures { result ≡ event_after byte titled }
{
    if byte == b'\\' || byte == b'e' {
        return Event::Plain(b'\\');
    }
    if byte == b'&' {
        return Event::Zero;
    }
    if byte == b' ' || byte == b'0' {
        return Event::Fixed;
    }
    if is_nothing(byte) {
        return Event::Nothing;
    }
    if is_plain(byte) {
        return Event::Plain(byte);
    }
    match byte {
        b'%' => Event::Percent,
        b'p' => Event::BreakWord,
        b'a' => Event::Leader,
        b't' => Event::Tab,
        _ => other_byte(titled, byte),
    }
}

// In a title.
fn is_titled(mode: Mode) -> bool
    ensures { result ≡ is_titled mode }
{
    matches!(mode, Mode::TitleBefore | Mode::Title(_, _))
}

// The mode after an escape.
fn after_escape(byte: u8, mode: Mode) -> Mode
    ensures { result ≡ after_escape byte mode }
{
    match mode {
        Mode::Text => {
            if byte == b'c' {
                return Mode::Interrupted;
            }
            Mode::Text
        }
        _ => mode,
    }
}

// An escape in the text itself.
fn escape_in_text(byte: u8, asked: Option<Begun>, reading: &mut Reading) -> Said
    ensures { joined reading.new result ≡ escape_in_text byte (option_map ask_of asked) reading.old }
{
    let Some(begun) = asked else {
        let event = event_after(byte, is_titled(reading.mode));
        reading.mode = after_escape(byte, reading.mode);
        reading.escape = Escape::Plain;
        return tell(event);
    };
    reading.escape = Escape::Plain;
    noting(Jot::Begin(begun))
}

// An escape that begins the line's text, or `\!`.
fn escape_at_start(byte: u8, reading: &mut Reading) -> Said
    ensures { joined reading.new result ≡ escape_at_start byte reading.old }
{
    if byte == b'!' {
        reading.mode = Mode::Transparent;
        reading.escape = Escape::Plain;
        return go();
    }
    reading.mode = Mode::Text;
    reading.continued = false;
    leave()
}

// Any escape that is not interpolated.
fn escape_by(byte: u8, long: bool, reading: &mut Reading) -> Said
    ensures { joined reading.new result ≡ escape_by byte long reading.old.mode reading.old }
{
    match reading.mode {
        Mode::Start | Mode::Diverting => escape_at_start(byte, reading),
        Mode::Leading(count) => text_after_blanks(count, reading),
        Mode::Continued => {
            reading.mode = Mode::Text;
            reading.continued = false;
            leave()
        }
        Mode::Interrupted => {
            reading.mode = Mode::Text;
            leave()
        }
        _ => escape_in_text(byte, asked_in_text(byte, long), reading),
    }
}

// A byte after `\`.
fn escaped_byte(byte: u8, long: bool, reading: &mut Reading) -> Said
    ensures { joined reading.new result ≡ escaped_byte byte long reading.old }
{
    let Some(kind) = interpolated(byte) else {
        if byte == b'\n' {
            reading.escape = Escape::Plain;
            return go();
        }
        if byte == b'"' {
            reading.escape = Escape::Comment;
            return go();
        }
        return escape_by(byte, long, reading);
    };
    reading.escape = Escape::Plain;
    noting(Jot::Begin(Begun::Of(kind)))
}

// A `\` before what is no byte.
fn lone_escape(reading: &mut Reading) -> Said
    ensures { joined reading.new result ≡ lone_escape reading.old.mode reading.old }
{
    match reading.mode {
        Mode::Start | Mode::Diverting | Mode::Continued => {
            reading.mode = Mode::Text;
            reading.continued = false;
            reading.escape = Escape::Plain;
            leave()
        }
        Mode::Leading(count) => {
            reading.escape = Escape::Plain;
            text_after_blanks(count, reading)
        }
        Mode::Interrupted => {
            reading.mode = Mode::Text;
            reading.escape = Escape::Plain;
            leave()
        }
        _ => {
            reading.escape = Escape::Plain;
            leave()
        }
    }
}

/// The item after `\`.
pub(crate) fn escaped(next_item: NextItem, long: bool, reading: &mut Reading) -> Said
    ensures { joined reading.new result ≡ escaped next_item long reading.old }
{
    match next_item {
        NextItem::Mark => go(),
        NextItem::Byte(byte) => escaped_byte(byte, long, reading),
        _ => lone_escape(reading),
    }
}
