//! Registers in widths: those that the page sets to a number that shows, the line's length and its indent.
ghost use Rattle.std.specs.Prelude.{◌≡◌, ◌+◌, ◌≤◌, length};
ghost use Rattle.tbl_columns.specs.Held as held;
ghost use Rattle.tbl_columns.specs.Registers as specs;

use super::grid::Grid;
use itoa::Buffer;
use nr_units::{Ctx, Name, Read, Scale, read_expr};
use tbl_table::add_item;

/// The units of a cell.
const CELL: usize = 24;

/// The units of a line.
const LINE: i64 = 40;

/// The longest expression whose registers are known.
const ROOM: usize = 128;

/// The greatest number of a register that counts.
const MOST: u64 = 1_000_000;

/// The longest name of a register.
const NAME: usize = 32;

/// A register that the page sets.
#[derive(Clone, Copy)]
pub struct Register {
    /// Its name.
    pub name: Name,
    /// Its number.
    pub number: usize,
}

/// An expression with numbers in place of its registers.
#[derive(Clone, Copy)]
struct Expression {
    bytes: [u8; ROOM],
    len: usize,
    /// All of it is there.
    whole: bool,
}

impl Expression {
    /// Nothing yet.
    fn new() -> Expression
        ensures value { specs.written result ≡ specs.nothing_filled }
        ensures within { result.len ≤ 128 }
    {
        Expression {
            bytes: [0; ROOM],
            len: 0,
            whole: true,
        }
    }

    /// With a byte more.
    fn push(&mut self, byte: u8)
        requires { self.old.len ≤ 128 }
        ensures value { specs.written self.new ≡ specs.with_byte byte (specs.written self.old) }
        ensures within { self.new.len ≤ 128 }
    {
        if self.len < ROOM {
            self.bytes[self.len] = byte;
            self.len += 1;
        } else {
            self.whole = false;
        }
    }

    /// With these bytes.
    fn push_all(&mut self, bytes: &[u8])
        requires { self.old.len ≤ 128 }
        ensures value { specs.written self.new ≡ specs.with_bytes bytes.now (specs.written self.old) }
        ensures within { self.new.len ≤ 128 }
    {
        for byte in bytes {
            self.push(*byte);
        }
    }

    /// With a number, or one that is not known.
    fn push_number(&mut self, number: Option<usize>)
        requires { self.old.len ≤ 128 }
        ensures value { specs.written self.new ≡ specs.with_number number (specs.written self.old) }
        ensures within { self.new.len ≤ 128 }
    {
        match number {
            Some(number) => self.push_all(Buffer::new().format(number).as_bytes()),
            None => self.whole = false,
        }
    }

    /// What is written so far.
    fn text(&self) -> &[u8]
        requires { self.now.len ≤ 128 }
        ensures { result.now ≡ (specs.written self.now).text }
    {
        &self.bytes[..self.len]
    }
}

/// The name of a register that stands there, and how many bytes it takes with what it begins and ends with.
fn register_name(text: &[u8]) -> (&[u8], usize)
    ensures name { result.0.now ≡ specs.register_name text.now }
    ensures len { result.1 ≡ specs.register_len text.now }
    ensures within { result.1 ≤ length text.now + 1 }
{
    if text.len() > 2 && text[0] == b'(' {
        return (&text[1..3], 3);
    }
    match text {
        [b'[', rest @ ..] => {
            let len = name_len(rest);
            (&rest[..len], len + 2)
        }
        [_first, ..] => (&text[..1], 1),
        [] => (text, 0),
    }
}

/// How many bytes stand before a bracket that closes.
fn name_len(text: &[u8]) -> usize
    ensures value { result ≡ specs.name_len text.now }
    ensures within { result ≤ length text.now }
{
    let mut len = 0;
    for byte in text {
        if *byte == b']' {
            return len;
        }
        len += 1;
    }
    len
}

/// Whether a text has an escape.
fn has_escape(text: &[u8]) -> bool
    ensures { result ≡ specs.has_escape text.now }
{
    for byte in text {
        if *byte == b'\\' {
            return true;
        }
    }
    false
}

/// An expression whose numbers have this scale where they say none.
fn read(text: &[u8], default: Scale) -> Option<i64>
    ensures { result ≡ specs.value_of text.now default }
{
    let context = Ctx {
        v: LINE,
        here: 0,
        default,
    };
    let Read { value, used } = read_expr(text, &context);
    if used == text.len() { value } else { None }
}

/// A number that counts: none below zero does.
fn counted(number: i64) -> Option<usize>
    ensures { result ≡ specs.counted number }
{
    if number < 0 {
        return None;
    }
    Some(number.unsigned_abs().min(MOST) as usize)
}

impl Grid {
    /// The number of a register, if it is known.
    fn register(&self, name: &[u8]) -> Option<usize>
        ensures { result ≡ specs.number_of self.now name.now }
    {
        if name == b".l".as_slice() {
            return Some(self.room.line.saturating_mul(CELL));
        }
        if name == b".i".as_slice() {
            return Some(self.room.indent.saturating_mul(CELL));
        }
        for register in self.registers.as_slice() {
            if register.name.as_bytes() == name {
                return Some(register.number);
            }
        }
        None
    }

    /// An expression with numbers in place of its registers, if all of them are known.
    fn filled_in(&self, text: &[u8]) -> Expression
        ensures text { (specs.written result).text ≡ (specs.filled_in self.now text.now).text }
        ensures whole { result.whole ≡ (specs.filled_in self.now text.now).whole }
        ensures within { result.len ≤ 128 }
    {
        let mut filled = Expression::new();
        let mut more: usize = 0;
        for (at, byte) in text.iter().enumerate() {
            if more > 0 {
                more -= 1;
            } else if *byte == b'\\' {
                more = self.fill_register(&text[at + 1..], &mut filled);
            } else {
                filled.push(*byte);
            }
        }
        filled
    }

    /// The number of a register that stands after a backslash; tells how many bytes it has.
    fn fill_register(&self, text: &[u8], filled: &mut Expression) -> usize
        requires { filled.old.len ≤ 128 }
        ensures value { specs.with_register self.now text.now (specs.written filled.old)
            ≡ specs.waiting result (specs.written filled.new) }
        ensures within { filled.new.len ≤ 128 }
    {
        let [b'n', rest @ ..] = text else {
            filled.whole = false;
            return 0;
        };
        let (name, len) = register_name(rest);
        filled.push_number(self.register(name));
        len + 1
    }

    /// The number that an expression writes, where it shows.
    pub(crate) fn number_in(&self, text: &[u8], default: Scale) -> Option<i64>
        ensures { result ≡ specs.number_in self.now text.now default }
    {
        if !has_escape(text) {
            return read(text, default);
        }
        let filled = self.filled_in(text);
        if filled.whole {
            read(filled.text(), default)
        } else {
            None
        }
    }

    /// A register has this number from here on.
    fn put_register(&mut self, register: Register)
        ensures value { self.new ≡ specs.put_register register self.old }
        ensures room { held.emptied self.new ≡ held.emptied self.old }
    {
        for place in 0..self.registers.len() {
            if self.registers.get(place).name == register.name {
                return self.registers.set(place, register);
            }
        }
        add_item(&mut self.registers, register);
    }

    /// The page sets a register to what an expression writes.
    pub fn set_register(&mut self, name: &[u8], text: &[u8])
        ensures value { self.new ≡ specs.register_set name.now text.now self.old }
        ensures room { held.emptied self.new ≡ held.emptied self.old }
    {
        if name.is_empty() || name.len() > NAME {
            return;
        }
        let Some(value) = self.number_in(text, Scale::Unit) else {
            return;
        };
        if let Some(number) = counted(value) {
            self.put_register(Register {
                name: Name::of(name),
                number,
            });
        }
    }
}
