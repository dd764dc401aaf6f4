//! What a field is.
ghost use Rattle.std.specs.Prelude.{◌≡◌, ◌≤◌, length};
ghost use Rattle.tbl_reader.specs.Fields as specs;

use super::numbers::Marks;

/// What stands in place of a field's text.
#[derive(Clone, Copy)]
pub enum Mark {
    /// Nothing.
    Nothing,
    /// A rule through the column.
    Rule,
    /// A rule as wide as what stands in the column.
    Inner,
    /// This byte, repeated over the width of the column.
    Repeat(u8),
    /// The field above goes on.
    Above,
}

/// What a field is.
#[derive(Clone, Copy)]
pub(crate) enum Shape {
    /// Nothing.
    Empty,
    /// Something else than its text.
    Mark(Mark),
    /// `T{`: a text block begins, if the line ends here.
    Block,
    /// Text.
    Text,
}

/// What a field is of two bytes, or three or four that begin with `\\R`.
fn shape_of_more(text: &[u8]) -> Shape
    requires some { 2 ≤ length text.now }
    requires few { length text.now ≤ 4 }
    ensures { result ≡ specs.shape_of text.now }
{
    match (text[0], text[1], text.len()) {
        (b'\\', b'_' | b'=', 2) => Shape::Mark(Mark::Inner),
        (b'\\', b'^', 2) => Shape::Mark(Mark::Above),
        (b'T', b'{', 2) => Shape::Block,
        (b'\\', b'R', 3) => Shape::Mark(Mark::Repeat(text[2])),
        (b'\\', b'R', 4) if is_sign(text[2], text[3]) => Shape::Mark(Mark::Repeat(text[3])),
        _ => Shape::Text,
    }
}

/// Whether two bytes are an escape of a sign: `\\-` or `\\.`.
fn is_sign(first: u8, second: u8) -> bool
    ensures { result ≡ specs.is_sign first second }
{
    first == b'\\' && matches!(second, b'-' | b'.')
}

/// What a field is.
pub(crate) fn shape_of(text: &[u8]) -> Shape
    ensures { result ≡ specs.shape_of text.now }
{
    match text.len() {
        0 => Shape::Empty,
        1 if is_rule(text[0]) => Shape::Mark(Mark::Rule),
        2..=4 => shape_of_more(text),
        _ => Shape::Text,
    }
}

/// Whether a byte alone is a rule.
fn is_rule(byte: u8) -> bool
    ensures { result ≡ specs.is_rule byte }
{
    matches!(byte, b'_' | b'=')
}

/// A text without the blanks before it.
pub(crate) fn without_blanks_before(text: &[u8]) -> &[u8]
    ensures value { result.now ≡ specs.without_blanks_before text.now }
    ensures few { length result.now ≤ length text.now }
{
    for (at, byte) in text.iter().enumerate() {
        if *byte != b' ' {
            return &text[at..];
        }
    }
    b""
}

/// The places in a field that count for where it is aligned, where this byte stands before a fraction.
pub(crate) fn marks_of(text: &[u8], point: u8) -> Marks
    ensures value { result ≡ specs.marks_of point text.now }
    ensures solid { result.solid ≤ length text.now }
{
    let mut marks = Marks::new();
    for (place, byte) in text.iter().enumerate() {
        marks = marks.with(*byte, place, point);
    }
    marks
}
