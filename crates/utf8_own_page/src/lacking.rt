//! The characters that a page's own table has no room for, and those of which a fixed one has no likeness, are named.
ghost use Rattle.std.specs.Prelude.{◌≡◌, ◌++◌, IfOk, OnOk, codes, flat_map};
ghost use Rattle.utf8_own_characters.specs.Choosing.{choice, is_in};
ghost use Rattle.utf8_own_characters.specs.Table as characters;
ghost use Rattle.utf8_own_page.specs.Lacking as specs;

use itoa::Buffer;
use nr_vectors::slice_vec::SliceVec;
use preconv_characters::{Target, put_likeness};
use std::alloc::{AllocError, Global};
use utf8_own_characters::{Cluster, Count};

/// The room for what a character looks like.
const MOST_LIKE: usize = 24;

/// The most that are named.
const MOST_NAMED: usize = 8;

/// The digits of base 16.
const DIGITS: &[u8] = b"0123456789ABCDEF";

/// Whether a cluster is among these.
fn is_among(cells: &[Cluster], cluster: &Cluster) -> bool
    ensures { result ≡ characters.is_among cluster.now cells.now }
{
    for cell in cells {
        if cell.is_same(cluster) {
            return true;
        }
    }
    false
}

/// Whether a table of these has a cluster.
fn has(narrow: &[Cluster], wide: &[Cluster], cluster: &Cluster) -> bool
    ensures { result ≡ is_in (choice narrow.now wide.now) cluster.now }
{
    is_among(narrow, cluster) || is_among(wide, cluster)
}

/// Those that a table of these lacks, in their order.
pub(crate) fn lacking(
    alloc: Global,
    counts: &[Count],
    narrow: &[Cluster],
    wide: &[Cluster],
) -> Result<Vec<Cluster>, AllocError>
    ensures { IfOk result (λ made. made.items ≡ specs.lacking (choice narrow.now wide.now) counts.now) }
{
    let mut made = Vec::new(alloc);
    for count in counts {
        if !has(narrow, wide, &count.cluster) {
            made.push(count.cluster)?;
        }
    }
    Ok(made)
}

/// A digit of a number in base 16.
fn digit(number: u32) -> u8
    ensures { result ≡ specs.digit number }
{
    DIGITS[(number % 16) as usize]
}

/// Adds the number of a character, with four digits or as many as it has.
fn push_number(character: char, text: &mut Vec<u8>) -> Result<(), AllocError>
    ensures { OnOk result (text.new.items ≡ text.old.items ++ specs.number_of character) }
{
    let code = u32::from(character);
    text.extend_from_slice(b"U+")?;
    if code >= 0x0010_0000 {
        text.push(digit(code / 0x0010_0000))?;
    }
    if code >= 0x0001_0000 {
        text.push(digit(code / 0x0001_0000))?;
    }
    text.extend_from_slice(&[
        digit(code / 4096),
        digit(code / 256),
        digit(code / 16),
        digit(code),
    ])
}

/// Adds a mark after its letter, if there is one.
fn push_mark(mark: char, text: &mut Vec<u8>) -> Result<(), AllocError>
    ensures { OnOk result (text.new.items ≡ text.old.items ++ specs.mark_of mark) }
{
    if mark == '\0' {
        return Ok(());
    }
    text.push(b'+')?;
    push_number(mark, text)
}

/// Adds the name of a cluster after a blank.
fn push_name(cluster: &Cluster, text: &mut Vec<u8>) -> Result<(), AllocError>
    ensures { OnOk result (text.new.items ≡ text.old.items ++ (codes " " ++ specs.name_of cluster.now)) }
{
    text.push(b' ')?;
    push_number(cluster.letter, text)?;
    push_mark(cluster.first_mark, text)?;
    push_mark(cluster.second_mark, text)?;
    push_mark(cluster.third_mark, text)
}

/// Adds the names of these.
fn push_names(cells: &[Cluster], text: &mut Vec<u8>) -> Result<(), AllocError>
    ensures { OnOk result (text.new.items ≡ text.old.items ++ flat_map (λ c. codes " " ++ specs.name_of c) cells.now) }
{
    for cell in cells {
        push_name(cell, text)?;
    }
    Ok(())
}

/// Adds how many more there are.
fn push_more(count: usize, text: &mut Vec<u8>) -> Result<(), AllocError>
    ensures { OnOk result (text.new.items ≡ text.old.items ++ specs.more_of count) }
{
    if count == 0 {
        return Ok(());
    }
    let mut digits = Buffer::new();
    text.extend_from_slice(b" and ")?;
    text.extend_from_slice(digits.format(count).as_bytes())?;
    text.extend_from_slice(b" more")
}

/// Whether what a character looks like is its number between `<` and `>`.
fn is_numbered(target: Target, character: char, text: &mut Vec<u8>) -> Result<bool, AllocError>
    ensures { IfOk result (λ is. is ≡ specs.is_numbered target character) }
{
    let mut room = [0; MOST_LIKE];
    let mut like = SliceVec::over(&mut room);
    put_likeness(u32::from(character), target, &mut like);
    text.clear();
    text.push(b'<')?;
    push_number(character, text)?;
    text.push(b'>')?;
    Ok(like.as_slice() == text.as_slice())
}

/// Whether so it is of a letter or of one of its marks.
fn has_number(target: Target, cluster: &Cluster, text: &mut Vec<u8>) -> Result<bool, AllocError>
    ensures { IfOk result (λ has. has ≡ specs.has_number target cluster.now) }
{
    let letter = is_numbered(target, cluster.letter, text)?;
    let first = is_numbered(target, cluster.first_mark, text)?;
    let second = is_numbered(target, cluster.second_mark, text)?;
    let third = is_numbered(target, cluster.third_mark, text)?;
    Ok(letter || first || second || third)
}

/// Those of which so it is, in their order.
pub(crate) fn numbered(
    alloc: Global,
    target: Target,
    counts: &[Count],
) -> Result<Vec<Cluster>, AllocError>
    ensures { IfOk result (λ made. made.items ≡ specs.numbered target counts.now) }
{
    let mut text = Vec::new(alloc);
    let mut made = Vec::new(alloc);
    for count in counts {
        if has_number(target, &count.cluster, &mut text)? {
            made.push(count.cluster)?;
        }
    }
    Ok(made)
}

/// The names of the first eight of these, and how many more there are.
pub(crate) fn names_of(alloc: Global, cells: &[Cluster]) -> Result<Vec<u8>, AllocError>
    ensures { IfOk result (λ text. text.items ≡ specs.names_of cells.now) }
{
    let mut text = Vec::new(alloc);
    let named = cells.len().min(MOST_NAMED);
    push_names(&cells[..named], &mut text)?;
    push_more(cells.len() - named, &mut text)?;
    Ok(text)
}
