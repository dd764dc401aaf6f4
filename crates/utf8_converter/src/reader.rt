//! What is half read, and how it goes out.
ghost use Rattle.std.specs.Prelude.{◌≡◌, ◌+◌, ◌≤◌, length};
ghost use Rattle.utf8_converter.specs.Cells.{Over, closing, is_same, is_shown, look_of, opening, turning};
ghost use Rattle.utf8_converter.specs.Reading.{first_reader, turned};
ghost use Rattle.utf8_converter.specs.Spelling.{Puts, is_shut, keeps_backspaces};

use nr_vectors::cell::Look;
use utf8_characters::FixedTable;

/// What was read of a cell.
#[derive(Clone, Copy)]
pub(crate) enum Half {
    /// Nothing.
    Nothing,
    /// A byte that shows: another may be struck over it.
    Byte(u8),
    /// The same, and a backspace.
    Backspaced(u8),
}

/// How looks go out.
#[derive(Clone, Copy)]
pub(crate) enum Way {
    /// By backspaces, as they came.
    Backspaces,
    /// Between escape sequences, and this look is open.
    Escapes(Look),
}

/// What is half read, and how it goes out.
#[derive(Clone, Copy)]
pub(crate) struct Reader {
    /// What is half read of a cell.
    pub half: Half,
    /// How looks go out.
    pub way: Way,
    /// What bytes from 128 on are.
    pub table: FixedTable,
}

/// Whether a byte is a character of ASCII that goes out.
pub(crate) fn is_shown(byte: u8) -> bool
    ensures { result ≡ is_shown byte }
{
    byte == b'\n' || (byte >= b' ' && byte < 127)
}

/// What ends a look.
fn closing(look: Look) -> &'static [u8]
    ensures { result.now ≡ closing look }
{
    match look {
        Look::Plain => b"",
        Look::Under => b"\x1B[24m",
        Look::Bold => b"\x1B[22m",
    }
}

/// What begins a look.
fn opening(look: Look) -> &'static [u8]
    ensures { result.now ≡ opening look }
{
    match look {
        Look::Plain => b"",
        Look::Under => b"\x1B[4m",
        Look::Bold => b"\x1B[1m",
    }
}

/// Whether two looks are the same.
fn is_same(first: Look, second: Look) -> bool
    ensures { result ≡ is_same first second }
{
    match first {
        Look::Plain => matches!(second, Look::Plain),
        Look::Under => matches!(second, Look::Under),
        Look::Bold => matches!(second, Look::Bold),
    }
}

/// How a byte looks that is struck over another, after a cell that looks so.
pub(crate) fn struck_look(before: Look, over: u8, byte: u8) -> Look
    ensures { result ≡ look_of before (Over over byte) }
{
    if over != byte || (byte == b'_' && matches!(before, Look::Under)) {
        Look::Under
    } else {
        Look::Bold
    }
}

/// These bytes are put into a room, and tells up to where it is filled then.
fn put_text(text: &[u8], room: &mut [u8], end: usize) -> usize
    requires { end + length text.now ≤ length room.old }
    ensures put { Puts room.old end room.new result text.now }
    ensures end { result ≡ end + length text.now }
{
    room[end..end + text.len()].copy_from_slice(text);
    end + text.len()
}

impl Reader {
    /// Nothing was read.
    pub(crate) fn new(table: FixedTable, escapes: bool) -> Reader
        ensures { result ≡ first_reader table escapes }
    {
        Reader {
            half: Half::Nothing,
            way: if escapes {
                Way::Escapes(Look::Plain)
            } else {
                Way::Backspaces
            },
            table,
        }
    }

    /// What is open becomes this look. Tells up to where the room is filled: at most 9 bytes go out.
    #[inline]
    pub(crate) fn turn(&mut self, look: Look, room: &mut [u8], end: usize) -> usize
        requires { end + 9 ≤ length room.old }
        ensures reader { self.new ≡ turned look self.old }
        ensures put { Puts room.old end room.new result (turning self.old.way look) }
        ensures end { result ≡ end + length (turning self.old.way look) }
        ensures few { result ≤ end + 9 }
    {
        match self.way {
            Way::Escapes(before) if !is_same(before, look) => {
                self.way = Way::Escapes(look);
                let to = put_text(closing(before), room, end);
                put_text(opening(look), room, to)
            }
            _ => end,
        }
    }

    /// Whether no look is open.
    pub(crate) fn is_shut(&self) -> bool
        ensures { result ≡ is_shut self.now.way }
    {
        match self.way {
            Way::Backspaces => true,
            Way::Escapes(look) => is_same(look, Look::Plain),
        }
    }

    /// Whether struck cells go out as they came.
    pub(crate) fn keeps_backspaces(&self) -> bool
        ensures { result ≡ keeps_backspaces self.now.way }
    {
        matches!(self.way, Way::Backspaces)
    }
}
