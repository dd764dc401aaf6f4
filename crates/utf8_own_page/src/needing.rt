//! Whether a page needs a table of its own.
ghost use Rattle.std.specs.Prelude.{◌≡◌, ◌≤◌, drop, false, length, take, true};
ghost use Rattle.utf8_own_page.specs.Needing as specs;
ghost use Rattle.utf8_own_page.specs.Needing.{AllPlain};

use preconv_characters::lacks_letter;
use utf8_characters::FixedTable as Fixed;
use utf8_own_characters::{Cluster, Count};

/// The first bytes of a page, which say whether it may need a table of its own, and of which it is made.
pub const MORE_LOOKED_AT: usize = 524_288;

/// How many bytes are looked at together.
const PIECE: usize = 32;

/// The most bytes of a name that preconv reads.
const LONGEST_NAME: usize = 32;

/// The first of these bytes, as many as this at most.
fn first_of(bytes: &[u8], most: usize) -> &[u8]
    ensures { result.now ≡ take most bytes.now }
{
    &bytes[..bytes.len().min(most)]
}

/// What stands before the first `]`.
fn before_bracket(text: &[u8]) -> &[u8]
    ensures { result.now ≡ specs.before_bracket text.now }
{
    for (i, byte) in text.iter().enumerate() {
        if *byte == b']' {
            return &text[..i];
        }
    }
    text
}

/// Whether a name between brackets begins as one by a number does, as `u0159`.
fn begins_number(name: &[u8]) -> bool
    ensures { result ≡ specs.begins_number name.now }
{
    match name {
        [letter, ..] => *letter == b'u',
        [] => false,
    }
}

/// Whether these bytes, after a backslash, name a character by its number, or a letter that the table of a page of ASCII lacks.
#[inline(never)]
fn names_beyond(bytes: &[u8]) -> bool
    ensures { result ≡ specs.names_beyond bytes.now }
{
    match bytes {
        [b'(', name @ ..] => lacks_letter(Fixed::English, first_of(name, 2)),
        [b'[', name @ ..] => {
            begins_number(name)
                || lacks_letter(Fixed::English, before_bracket(first_of(name, LONGEST_NAME)))
        }
        _ => false,
    }
}

/// Whether a byte is of ASCII, and begins with the next no name in parentheses or brackets.
fn is_plain(byte: u8, following: u8) -> bool
    ensures { result ≡ specs.is_plain byte following }
{
    (byte < 128) & ((byte != b'\\') | ((following != b'(') & (following != b'[')))
}

/// Whether so it is of each of these but the last.
#[inline]
fn are_plain(bytes: &[u8; 33]) -> bool
    ensures { result ≡ true → AllPlain 32 bytes.now }
{
    let mut all = true;
    for place in 0..PIECE {
        all &= is_plain(bytes[place], bytes[place + 1]);
    }
    all
}

/// Whether so it is of the first 32 of these, if one stands after them.
fn is_piece_plain(bytes: &[u8]) -> bool
    ensures { result ≡ true → AllPlain 32 bytes.now }
{
    match bytes.first_chunk::<33>() {
        Some(piece) => are_plain(piece),
        None => false,
    }
}

/// Whether one of the first of these, so many, is beyond ASCII or begins the name of a character that is.
fn is_beyond_among(bytes: &[u8], count: usize) -> bool
    requires { count ≤ length bytes.now }
    ensures beyond { result ≡ true → specs.is_beyond_ascii bytes.now ≡ true }
    ensures none { result ≡ false → specs.is_beyond_ascii (drop count bytes.now) ≡ specs.is_beyond_ascii bytes.now }
{
    for place in 0..count {
        let byte = bytes[place];
        if byte >= 128 || (byte == b'\\' && names_beyond(&bytes[place + 1..])) {
            return true;
        }
    }
    false
}

/// Whether none of these is, of which there are 32 at most: nearly always that is seen of all at once.
fn passes(bytes: &[u8], count: usize) -> bool
    requires within { count ≤ length bytes.now }
    requires few { count ≤ 32 }
    ensures none { result ≡ true → specs.is_beyond_ascii (drop count bytes.now) ≡ specs.is_beyond_ascii bytes.now }
    ensures beyond { result ≡ false → specs.is_beyond_ascii bytes.now ≡ true }
{
    if is_piece_plain(bytes) {
        return true;
    }
    !is_beyond_among(bytes, count)
}

/// Whether bytes beyond ASCII are among these, a character is named by its number, or a letter that the table of a page of ASCII lacks.
fn is_beyond_ascii(page: &[u8]) -> bool
    ensures { result ≡ specs.is_beyond_ascii page.now }
{
    let mut place = 0;
    while place < page.len() {
        let rest = &page[place..];
        let count = rest.len().min(PIECE);
        if !passes(rest, count) {
            return true;
        }
        place += count;
    }
    false
}

/// Whether no fixed table may have all that a page prints, by its first 512 KiB: there are characters beyond ASCII, one is named by its
/// number, or a letter that the table of English lacks by its name.
pub fn may_need_own(page: &[u8]) -> bool
    ensures { result ≡ specs.may_need_own page.now }
{
    is_beyond_ascii(prefix_of(page))
}

/// What is looked at of a page: its first 512 KiB.
pub fn prefix_of(page: &[u8]) -> &[u8]
    ensures { result.now ≡ specs.prefix_of page.now }
{
    first_of(page, MORE_LOOKED_AT)
}

/// Whether a fixed table has a cluster.
fn has(table: Fixed, cluster: &Cluster) -> bool
    ensures { result ≡ specs.has table cluster.now }
{
    cluster.is_same(&Cluster::single(cluster.letter))
        && table.byte(u32::from(cluster.letter)).is_some()
}

/// Whether a fixed table has all of these.
pub fn has_all(table: Fixed, counts: &[Count]) -> bool
    ensures { result ≡ specs.has_all table counts.now }
{
    for count in counts {
        if !has(table, &count.cluster) {
            return false;
        }
    }
    true
}

/// Whether the fixed table that a page takes, if it takes one, lacks one of these.
pub fn lacks(table: Option<Fixed>, counts: &[Count]) -> bool
    ensures { result ≡ specs.lacks table counts.now }
{
    match table {
        Some(table) => !has_all(table, counts),
        None => false,
    }
}
