//! A first look at what a page prints: how often each of its clusters comes.
ghost use Rattle.std.specs.Prelude.{◌≡◌, ◌<◌, ◌≤◌, get_or, length, take, true, IfSome};
ghost use Rattle.utf8_own_characters.specs.Counting.{is_once};
ghost use Rattle.utf8_own_characters.specs.Listening.{after, begins_two, done_in};
ghost use Rattle.utf8_own_characters.specs.Looking as specs;

use super::cluster::Cluster;
use super::counting::{Count, count_cluster};
use super::decoding::{Part, character_of};
use super::listening::{Listener, begins_pair, is_three, plain_after, takes_marks};
use nr_vectors::slice_vec::SliceVec;
use unicode_width::UnicodeWidthChar;

/// Whether a character is a blank, or a hyphen that shows only where a line ends.
#[inline]
fn is_gap(character: char) -> bool
    ensures { result ≡ specs.is_gap character }
{
    let code = u32::from(character);
    code < 0x2060
        && matches!(
            code,
            0xA0 | 0xAD | 0x2000..=0x200A | 0x2028 | 0x2029 | 0x202F | 0x205F
        )
}

/// Whether a character takes columns.
#[inline]
fn takes_columns(character: char) -> bool
    ensures { result ≡ specs.takes_columns character }
{
    match character.width() {
        Some(columns) => columns > 0,
        None => false,
    }
}

/// Whether a cluster takes a place in a page's table: it is beyond ASCII, and shows something.
#[inline]
pub fn takes_place(cluster: &Cluster) -> bool
    ensures { result ≡ specs.takes_place cluster.now }
{
    !cluster.is_ascii() && takes_columns(cluster.letter) && !is_gap(cluster.letter)
}

/// A cluster ends. Tells whether it has room among the counts, or needs none.
#[inline]
fn note(counts: &mut SliceVec<'_, Count>, slots: &mut [u16], cluster: Option<Cluster>) -> bool
    requires { is_once counts.old.items ≡ true }
    ensures items { counts.new.items ≡ specs.noted counts.old.capacity counts.old.items cluster }
    ensures once { is_once counts.new.items ≡ true }
    ensures room { counts.new.capacity ≡ counts.old.capacity }
{
    match cluster {
        Some(cluster) if takes_place(&cluster) => count_cluster(counts, slots, &cluster),
        _ => true,
    }
}

/// How many bytes were looked at, and whether what ended in them has room.
#[derive(Clone, Copy)]
struct Looked {
    count: usize,
    fits: bool,
}

/// Looks at the first of these bytes. Tells whether what ended has room, as below.
#[inline(always)]
fn look_at_one(
    bytes: &[u8],
    listener: &mut Listener,
    counts: &mut SliceVec<'_, Count>,
    slots: &mut [u16],
) -> bool
    requires some { 0 < length bytes.now }
    requires once { is_once counts.old.items ≡ true }
    ensures items { counts.new.items ≡ specs.seen counts.old.capacity counts.old.items (done_in listener.old (take 1 bytes.now)) }
    ensures listener { listener.new ≡ after listener.old (take 1 bytes.now) }
    ensures once { is_once counts.new.items ≡ true }
    ensures room { counts.new.capacity ≡ counts.old.capacity }
{
    let listened = listener.read(bytes[0]);
    *listener = listened.listener;
    note(counts, slots, listened.done)
}

/// The same of a byte that is neither of ASCII nor the first of a character of two, nor of such a letter as is looked for below.
#[inline(never)]
fn look_at_other(
    bytes: &[u8],
    listener: &mut Listener,
    counts: &mut SliceVec<'_, Count>,
    slots: &mut [u16],
) -> bool
    requires some { 0 < length bytes.now }
    requires once { is_once counts.old.items ≡ true }
    ensures items { counts.new.items ≡ specs.seen counts.old.capacity counts.old.items (done_in listener.old (take 1 bytes.now)) }
    ensures listener { listener.new ≡ after listener.old (take 1 bytes.now) }
    ensures once { is_once counts.new.items ≡ true }
    ensures room { counts.new.capacity ≡ counts.old.capacity }
{
    look_at_one(bytes, listener, counts, slots)
}

/// Looks at the character of two bytes that these begin with: with the first nothing ends.
#[inline(always)]
fn look_at_pair(
    bytes: &[u8],
    listener: &mut Listener,
    counts: &mut SliceVec<'_, Count>,
    slots: &mut [u16],
) -> bool
    requires long { 2 ≤ length bytes.now }
    requires two { begins_two bytes.now ≡ true }
    requires once { is_once counts.old.items ≡ true }
    ensures items { counts.new.items ≡ specs.seen counts.old.capacity counts.old.items (done_in listener.old (take 2 bytes.now)) }
    ensures listener { listener.new ≡ after listener.old (take 2 bytes.now) }
    ensures once { is_once counts.new.items ≡ true }
    ensures room { counts.new.capacity ≡ counts.old.capacity }
{
    let listened = listener.read_two(bytes[0], bytes[1]);
    *listener = listened.listener;
    note(counts, slots, listened.done)
}

/// The number of a character of three bytes.
#[inline(always)]
fn code_of(a: u8, b: u8, c: u8) -> u32
    ensures { result ≡ specs.code_of a b c }
{
    let bits = u32::from(a % 16) % 65_536 * 64 + u32::from(b % 64);
    bits % 65_536 * 64 + u32::from(c % 64)
}

/// Whether a letter stands beyond the signs that show nothing, is no mark of byte order, and takes columns.
#[inline(always)]
fn is_placed(letter: char) -> bool
    ensures { result ≡ specs.is_placed letter }
{
    let code = u32::from(letter);
    code >= 0x2070 && code != 0xFEFF && takes_columns(letter)
}

/// The letter that these bytes are, if they are such a one.
#[inline(always)]
fn letter_of(a: u8, b: u8, c: u8) -> Option<char>
    ensures { IfSome result (λ letter. specs.IsPlaced a b c letter) }
{
    match character_of(code_of(a, b, c)) {
        Some(letter) if is_placed(letter) => Some(letter),
        _ => None,
    }
}

/// The letter of three bytes that these begin with, if they begin with such a one.
#[inline(always)]
fn placed_letter(bytes: &[u8]) -> Option<char>
    ensures { IfSome result (λ letter. specs.BeginsPlaced bytes.now letter) }
{
    if bytes.len() < 3 || !is_three(bytes[0], bytes[1], bytes[2]) {
        return None;
    }
    letter_of(bytes[0], bytes[1], bytes[2])
}

/// Looks at the letters that these bytes begin with, of which this is the first: each but the last ends where the next begins, and is
/// counted.
#[inline(always)]
fn look_at_letters(
    bytes: &[u8],
    letter: char,
    listener: &mut Listener,
    counts: &mut SliceVec<'_, Count>,
    slots: &mut [u16],
) -> Looked
    requires begins { specs.BeginsPlaced bytes.now letter }
    requires once { is_once counts.old.items ≡ true }
    ensures items { counts.new.items ≡ specs.seen counts.old.capacity counts.old.items (done_in listener.old (take result.count bytes.now)) }
    ensures listener { listener.new ≡ after listener.old (take result.count bytes.now) }
    ensures once { is_once counts.new.items ≡ true }
    ensures room { counts.new.capacity ≡ counts.old.capacity }
    ensures some { 0 < result.count }
    ensures within { result.count ≤ length bytes.now }
{
    let mut fits = note(counts, slots, listener.held);
    let mut last = letter;
    let mut count = 3;
    while let Some(next) = placed_letter(&bytes[count..]) {
        fits &= count_cluster(counts, slots, &Cluster::single(last));
        last = next;
        count += 3;
    }
    *listener = Listener {
        part: Part::none(),
        held: Some(Cluster::single(last)),
        is_plain: true,
    };
    Looked { count, fits }
}

/// What a listener heard of a byte of ASCII, if letters before it were or were not plain.
#[inline(always)]
fn heard_byte(byte: u8, is_plain: bool) -> Listener
    ensures { result ≡ specs.after_byte byte is_plain }
{
    let character = char::from(byte);
    Listener {
        part: Part::none(),
        held: if takes_marks(character, is_plain) {
            Some(Cluster::single(character))
        } else {
            None
        },
        is_plain: plain_after(character, is_plain),
    }
}

/// Looks at the bytes of ASCII that these begin with: only what was held before them may be counted.
#[inline(always)]
fn look_at_ascii(
    bytes: &[u8],
    listener: &mut Listener,
    counts: &mut SliceVec<'_, Count>,
    slots: &mut [u16],
) -> Looked
    requires some { 0 < length bytes.now }
    requires ascii { get_or bytes.now 0 0 < 128 }
    requires once { is_once counts.old.items ≡ true }
    ensures items { counts.new.items ≡ specs.seen counts.old.capacity counts.old.items (done_in listener.old (take result.count bytes.now)) }
    ensures listener { listener.new ≡ after listener.old (take result.count bytes.now) }
    ensures once { is_once counts.new.items ≡ true }
    ensures room { counts.new.capacity ≡ counts.old.capacity }
    ensures some { 0 < result.count }
    ensures within { result.count ≤ length bytes.now }
{
    let fits = note(counts, slots, listener.held);
    let mut last = bytes[0];
    let mut is_plain = listener.is_plain;
    let mut count = 1;
    while count < bytes.len() && bytes[count] < 128 {
        is_plain = plain_after(char::from(last), is_plain);
        last = bytes[count];
        count += 1;
    }
    *listener = heard_byte(last, is_plain);
    Looked { count, fits }
}

/// Looks at the first of these bytes, or at the character that they begin with.
#[inline(always)]
fn look_at_first(
    bytes: &[u8],
    listener: &mut Listener,
    counts: &mut SliceVec<'_, Count>,
    slots: &mut [u16],
) -> Looked
    requires some { 0 < length bytes.now }
    requires once { is_once counts.old.items ≡ true }
    ensures items { counts.new.items ≡ specs.seen counts.old.capacity counts.old.items (done_in listener.old (take result.count bytes.now)) }
    ensures listener { listener.new ≡ after listener.old (take result.count bytes.now) }
    ensures once { is_once counts.new.items ≡ true }
    ensures room { counts.new.capacity ≡ counts.old.capacity }
    ensures some { 0 < result.count }
    ensures within { result.count ≤ length bytes.now }
{
    if bytes[0] < 128 {
        return look_at_ascii(bytes, listener, counts, slots);
    }
    if let Some(letter) = placed_letter(bytes) {
        return look_at_letters(bytes, letter, listener, counts, slots);
    }
    if begins_pair(bytes) {
        let fits = look_at_pair(bytes, listener, counts, slots);
        return Looked { count: 2, fits };
    }
    let fits = look_at_other(bytes, listener, counts, slots);
    Looked { count: 1, fits }
}

/// Looks at more of a text: each cluster beyond ASCII that ends in it and shows something is counted, as far as there is room. Tells
/// whether there was. The slots are those of `count_cluster`.
pub fn look_at(
    bytes: &[u8],
    listener: &mut Listener,
    counts: &mut SliceVec<'_, Count>,
    slots: &mut [u16],
) -> bool
    requires { is_once counts.old.items ≡ true }
    ensures items { counts.new.items ≡ specs.seen counts.old.capacity counts.old.items (done_in listener.old bytes.now) }
    ensures listener { listener.new ≡ after listener.old bytes.now }
    ensures once { is_once counts.new.items ≡ true }
    ensures room { counts.new.capacity ≡ counts.old.capacity }
{
    let mut all = true;
    let mut count = 0;
    while count < bytes.len() {
        let looked = look_at_first(&bytes[count..], listener, counts, slots);
        count += looked.count;
        all &= looked.fits;
    }
    all
}

/// The text ends: the cluster that is half read is counted.
pub fn end_look(listener: &Listener, counts: &mut SliceVec<'_, Count>, slots: &mut [u16]) -> bool
    requires { is_once counts.old.items ≡ true }
    ensures items { counts.new.items ≡ specs.noted counts.old.capacity counts.old.items listener.now.held }
    ensures once { is_once counts.new.items ≡ true }
    ensures room { counts.new.capacity ≡ counts.old.capacity }
{
    note(counts, slots, listener.held)
}
