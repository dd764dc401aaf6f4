//! What goes out.
ghost use Rattle.std.specs.Prelude.{◌≡◌, ◌+◌, ◌≤◌, ◌++◌, length};
ghost use Rattle.preconv_characters.specs.declared.said.Said.TheVariants.{Character};
ghost use Rattle.preconv_characters.specs.Saying.{all_sent, arguments, bytes_of, may_go_out, native, sent, text_of};

use super::composed::Marked;
use super::likeness::{
    CUT, byte_in_force, is_long, put_itself, put_likeness, put_long, put_marked, put_struck,
};
use super::target::Target;
use nr_units::Name;
use nr_vectors::slice_vec::SliceVec;

/// What one move says.
#[derive(Clone, Copy)]
pub enum Said {
    /// Nothing.
    Nothing,
    /// This byte.
    Byte(u8),
    /// What was kept.
    Kept(Name),
    /// `.ti` and this number, as a line, and the beginning of a text line.
    Hang(Name),
    /// What was kept, by which the language knows a character, or what that becomes.
    Native(Name, u32),
    /// `\` and this byte.
    Escape(u8),
    /// `\f` and this letter.
    Font(u8),
    /// A quote between quotes.
    Quotes,
    /// The beginning of a comment, as a line of its own or not.
    Comment(bool),
    /// The likeness of a character.
    Character(u32),
    /// The same, with a stroke through it.
    Struck(u32),
    /// A letter with marks.
    Marked(Marked),
    /// The nine arguments of a macro, with two backslashes each or one.
    Arguments(bool),
    /// The same between quotes.
    QuotedArguments(bool),
}

/// The nine arguments.
fn arguments(doubled: bool, quoted: bool) -> &'static [u8]
    ensures value { result.now ≡ arguments doubled quoted }
    ensures few { length result.now ≤ 64 }
{
    match (doubled, quoted) {
        (false, false) => b"\\$1 \\$2 \\$3 \\$4 \\$5 \\$6 \\$7 \\$8 \\$9",
        (true, false) => b"\\\\$1 \\\\$2 \\\\$3 \\\\$4 \\\\$5 \\\\$6 \\\\$7 \\\\$8 \\\\$9",
        (false, true) =>
            b"\"\\$1\" \"\\$2\" \"\\$3\" \"\\$4\" \"\\$5\" \"\\$6\" \"\\$7\" \"\\$8\" \"\\$9\"",
        (true, true) => {
            b"\"\\\\$1\" \"\\\\$2\" \"\\\\$3\" \"\\\\$4\" \"\\\\$5\" \"\\\\$6\" \"\\\\$7\" \"\\\\$8\" \"\\\\$9\""
        }
    }
}

/// Whether a byte may go out: one of ASCII, one that the table in force has, and a part of a character in UTF-8.
pub fn may_go_out(target: Target, byte: u8) -> bool
    ensures { result ≡ may_go_out target byte }
{
    if byte < 127 {
        return true;
    }
    match target {
        Target::Bytes(table) => table.character(byte).is_some(),
        Target::Ascii => false,
        Target::Utf8 => byte >= 128,
    }
}

/// The byte that goes out for one.
pub fn sent(target: Target, byte: u8) -> u8
    ensures { result ≡ sent target byte }
{
    if may_go_out(target, byte) { byte } else { b'?' }
}

/// Puts these bytes, as they may go out, after what goes out.
pub fn put_sent(text: &[u8], target: Target, out: &mut SliceVec<'_, u8>)
    requires { length out.old.items + length text.now ≤ out.old.capacity }
    ensures items { out.new.items ≡ out.old.items ++ all_sent target text.now }
    ensures few { length out.new.items ≤ length out.old.items + length text.now }
    ensures room { out.new.capacity ≡ out.old.capacity }
{
    for byte in text {
        out.push(sent(target, *byte));
    }
}

/// Puts a character that the language knows by this name: its byte, itself, or the name.
fn put_native(name: Name, code: u32, target: Target, out: &mut SliceVec<'_, u8>)
    requires { length out.old.items + 64 ≤ out.old.capacity }
    ensures items { out.new.items ≡ out.old.items ++ native target name code }
    ensures few { length out.new.items ≤ length out.old.items + 64 }
    ensures room { out.new.capacity ≡ out.old.capacity }
{
    if code >= 128 && target.is_utf8() {
        put_itself(code, out);
    } else if let Some(byte) = byte_in_force(target, code) {
        out.push(byte);
    } else {
        out.extend(name.as_bytes());
    }
}

/// Puts what is said: at most 64 bytes.
fn put_said(said: Said, target: Target, out: &mut SliceVec<'_, u8>)
    requires { length out.old.items + 64 ≤ out.old.capacity }
    ensures items { out.new.items ≡ out.old.items ++ text_of target said }
    ensures few { length out.new.items ≤ length out.old.items + 64 }
    ensures room { out.new.capacity ≡ out.old.capacity }
{
    match said {
        Said::Nothing => {}
        Said::Byte(byte) => out.push(byte),
        Said::Kept(name) => out.extend(name.as_bytes()),
        Said::Native(name, code) => put_native(name, code, target, out),
        Said::Hang(number) => {
            out.extend(b".ti ");
            out.extend(number.as_bytes());
            out.extend(b"\n\\&");
        }
        Said::Escape(byte) => out.extend(&[b'\\', byte]),
        Said::Font(letter) => out.extend(&[b'\\', b'f', letter]),
        Said::Quotes => out.extend(b"\"\""),
        Said::Comment(true) => out.extend(b".\\\""),
        Said::Comment(false) => out.extend(b"\\\""),
        Said::Character(code) => put_likeness(code, target, out),
        Said::Struck(code) => put_struck(code, target, out),
        Said::Marked(marked) => put_marked(marked, target, out),
        Said::Arguments(doubled) => out.extend(arguments(doubled, false)),
        Said::QuotedArguments(doubled) => out.extend(arguments(doubled, true)),
    }
}

/// Puts what is said, as it may go out, by way of a buffer: at most 64 bytes.
fn say_through(said: Said, target: Target, out: &mut SliceVec<'_, u8>)
    requires { length out.old.items + 64 ≤ out.old.capacity }
    ensures items { out.new.items ≡ out.old.items ++ bytes_of target said }
    ensures few { length out.new.items ≤ length out.old.items + 64 }
    ensures room { out.new.capacity ≡ out.old.capacity }
{
    let mut bytes = [0; 64];
    let mut text = SliceVec::over(&mut bytes);
    put_said(said, target, &mut text);
    put_sent(text.as_slice(), target, out);
}

/// Puts a character, as it may go out, which is no such letter as below. Itself and the byte of a table go out as they are.
#[inline(never)]
fn say_other(code: u32, target: Target, out: &mut SliceVec<'_, u8>)
    requires { length out.old.items + 64 ≤ out.old.capacity }
    ensures items { out.new.items ≡ out.old.items ++ bytes_of target (Character code) }
    ensures few { length out.new.items ≤ length out.old.items + 64 }
    ensures room { out.new.capacity ≡ out.old.capacity }
{
    if code < 128 || code == CUT {
        say_through(Said::Character(code), target, out);
        return;
    }
    if target.is_utf8() {
        put_itself(code, out);
        return;
    }
    match byte_in_force(target, code) {
        Some(byte) => out.push(byte),
        None => say_through(Said::Character(code), target, out),
    }
}

/// Puts a character, as it may go out: at most 64 bytes. Most letters beyond ASCII are three bytes, and go out as they are.
#[inline]
pub fn say_character(code: u32, target: Target, out: &mut SliceVec<'_, u8>)
    requires { length out.old.items + 64 ≤ out.old.capacity }
    ensures items { out.new.items ≡ out.old.items ++ bytes_of target (Character code) }
    ensures few { length out.new.items ≤ length out.old.items + 64 }
    ensures room { out.new.capacity ≡ out.old.capacity }
{
    if target.is_utf8() && is_long(code) {
        put_long(code, out);
        return;
    }
    say_other(code, target, out);
}

/// Puts what is said, as it may go out, after what goes out: at most 64 bytes.
pub fn say(said: Said, target: Target, out: &mut SliceVec<'_, u8>)
    requires { length out.old.items + 64 ≤ out.old.capacity }
    ensures items { out.new.items ≡ out.old.items ++ bytes_of target said }
    ensures few { length out.new.items ≤ length out.old.items + 64 }
    ensures room { out.new.capacity ≡ out.old.capacity }
{
    match said {
        Said::Nothing => {}
        Said::Byte(byte) => out.push(sent(target, byte)),
        Said::Kept(name) => put_sent(name.as_bytes(), target, out),
        Said::Escape(byte) => put_sent(&[b'\\', byte], target, out),
        Said::Font(letter) => put_sent(&[b'\\', b'f', letter], target, out),
        Said::Character(code) => say_character(code, target, out),
        _ => say_through(said, target, out),
    }
}
