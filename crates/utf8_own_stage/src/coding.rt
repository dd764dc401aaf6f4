//! What stands for a cluster in a page's own table, and the points between clusters.
ghost use Rattle.std.specs.Prelude.{◌≡◌, ◌+◌, ◌*◌, ◌<◌, ◌≤◌, ◌++◌, length, nat_le, take, true};
ghost use Rattle.utf8_own_characters.specs.Listening.{after};
ghost use Rattle.utf8_own_characters.specs.Table.{Good};
ghost use Rattle.utf8_own_stage.specs.Coding as specs;
ghost use Rattle.utf8_own_stage.specs.Points.{left, passed, point, read_as, text_of, waiting_text};

use super::plain::{is_plain, is_ready, put_plain};
use super::points::{Place, Point, Waiting};
use super::runs::{letter_of, put_letters};
use nr_vectors::slice_vec::SliceVec;
use preconv_characters::{Target, put_likeness};
use utf8_own_characters::{Cluster, Code, Listened, Listener, OwnTable};

/// The most bytes of what comes of one that is read.
pub(crate) const MOST: usize = 32;

/// Puts the bytes of a cluster, or what its letter looks like where the table lacks it: at most 21 bytes.
#[inline(always)]
pub(crate) fn put_cluster(cluster: &Cluster, table: &OwnTable<'_>, out: &mut SliceVec<'_, u8>)
    requires good { Good table.now }
    requires room { length out.old.items + 24 ≤ out.old.capacity }
    ensures items { out.new.items ≡ out.old.items ++ specs.coded table.now cluster.now }
    ensures few { length out.new.items ≤ length out.old.items + 21 }
    ensures room { out.new.capacity ≡ out.old.capacity }
{
    match table.code(cluster) {
        Some(Code::One(byte)) => out.push(byte),
        Some(Code::Two(lead, trail)) => out.extend(&[lead, trail]),
        None => put_likeness(u32::from(cluster.letter), Target::Ascii, out),
    }
}

/// What the language reads of a cluster: its letter, but none of its own characters of a letter of ASCII with marks.
#[inline(always)]
fn read_as(cluster: &Cluster) -> char
    ensures { result ≡ read_as cluster.now }
{
    if u32::from(cluster.letter) < 128 && !cluster.is_ascii() {
        '_'
    } else {
        cluster.letter
    }
}

/// Puts what waits: at most 4 bytes.
#[inline]
fn put_waiting(waiting: Waiting, out: &mut SliceVec<'_, u8>)
    requires room { length out.old.items + length (waiting_text waiting) ≤ out.old.capacity }
    ensures items { out.new.items ≡ out.old.items ++ waiting_text waiting }
    ensures few { length out.new.items ≤ length out.old.items + length (waiting_text waiting) }
    ensures room { out.new.capacity ≡ out.old.capacity }
{
    match waiting {
        Waiting::Nothing => {}
        Waiting::Newline => out.push(b'\n'),
        Waiting::Escape => out.extend(b"\n\\"),
        Waiting::Name => out.extend(b"\n\\f"),
        Waiting::Font(name) => {
            out.extend(b"\n\\f");
            out.push((u32::from(name) % 128) as u8);
        }
    }
}

/// Puts what goes out before a character: at most 4 bytes beside what waits.
#[inline(always)]
fn put_point(place: &Place, character: char, out: &mut SliceVec<'_, u8>)
    requires room { length out.old.items + length (waiting_text place.now.waits) + 4 ≤ out.old.capacity }
    ensures items { out.new.items ≡ out.old.items ++ text_of place.now.waits (point place.now character) }
    ensures few { length out.new.items ≤ length out.old.items + length (waiting_text place.now.waits) + 4 }
    ensures room { out.new.capacity ≡ out.old.capacity }
{
    match place.point(character) {
        Point::Nothing => {}
        Point::Cut => out.extend(b"\\(zb"),
        Point::Waited => put_waiting(place.waits, out),
        Point::Joint => {
            out.extend(b"\\(zj");
            put_waiting(place.waits, out);
        }
    }
}

/// Puts the bytes of a cluster, unless it waits.
#[inline(always)]
fn put_kept(cluster: &Cluster, waits: bool, table: &OwnTable<'_>, out: &mut SliceVec<'_, u8>)
    requires good { Good table.now }
    requires room { length out.old.items + 24 ≤ out.old.capacity }
    ensures items { out.new.items ≡ out.old.items ++ specs.kept waits (specs.coded table.now cluster.now) }
    ensures few { length out.new.items ≤ length out.old.items + 21 }
    ensures fewer { nat_le 0x2E80 cluster.now.letter ≡ true → length out.new.items ≤ length out.old.items + 10 }
    ensures room { out.new.capacity ≡ out.old.capacity }
{
    if !waits {
        put_cluster(cluster, table, out);
    }
}

/// Puts a cluster, if there is one, after what goes out before it: with what waits then at most 26 bytes.
#[inline(always)]
pub(crate) fn put_done(
    cluster: Option<Cluster>,
    place: &mut Place,
    table: &OwnTable<'_>,
    out: &mut SliceVec<'_, u8>,
)
    requires good { Good table.now }
    requires room { length out.old.items + 32 ≤ out.old.capacity }
    ensures items { out.new.items ≡ out.old.items ++ specs.said_cluster table.now place.old cluster }
    ensures place { place.new ≡ specs.after_cluster place.old cluster }
    ensures few { length out.new.items + length (waiting_text place.new.waits) ≤ length out.old.items + 26 }
    ensures room { out.new.capacity ≡ out.old.capacity }
{
    if let Some(cluster) = cluster {
        let letter = read_as(&cluster);
        put_point(place, letter, out);
        place.passes(letter);
        put_kept(&cluster, place.waits.is_some(), table, out);
    }
}

/// Puts a byte, if there is one, after what goes out before it: with what waited at most 6 bytes more.
#[inline(always)]
fn put_byte(byte: Option<u8>, place: &mut Place, out: &mut SliceVec<'_, u8>)
    requires room { length out.old.items + length (waiting_text place.old.waits) + 6 ≤ out.old.capacity }
    ensures items { out.new.items ≡ out.old.items ++ specs.said_byte place.old byte }
    ensures place { place.new ≡ specs.after_byte place.old byte }
    ensures few { length out.new.items ≤ length out.old.items + length (waiting_text place.old.waits) + 6 }
    ensures room { out.new.capacity ≡ out.old.capacity }
{
    if let Some(byte) = byte {
        let character = char::from(byte);
        put_point(place, character, out);
        place.passes(character);
        if !place.waits.is_some() {
            out.push(byte);
        }
    }
}

/// Puts what comes of a byte: at most 32 bytes.
#[inline(always)]
fn put_listened(
    listened: Listened,
    place: &mut Place,
    table: &OwnTable<'_>,
    out: &mut SliceVec<'_, u8>,
)
    requires good { Good table.now }
    requires room { length out.old.items + 32 ≤ out.old.capacity }
    ensures items { out.new.items ≡ out.old.items ++ specs.said table.now place.old listened }
    ensures place { place.new ≡ specs.place_after place.old listened }
    ensures few { length out.new.items ≤ length out.old.items + 32 }
    ensures room { out.new.capacity ≡ out.old.capacity }
{
    put_done(listened.done, place, table, out);
    put_byte(listened.byte, place, out);
}

/// Puts what comes of the first of these bytes.
#[inline(always)]
fn put_one(
    bytes: &[u8],
    listener: &mut Listener,
    place: &mut Place,
    table: &OwnTable<'_>,
    out: &mut SliceVec<'_, u8>,
)
    requires good { Good table.now }
    requires some { 0 < length bytes.now }
    requires room { length out.old.items + 32 ≤ out.old.capacity }
    ensures items { out.new.items ≡ out.old.items ++ specs.said_of table.now listener.old place.old (take 1 bytes.now) }
    ensures few { length out.new.items ≤ length out.old.items + 32 }
    ensures listener { listener.new ≡ after listener.old (take 1 bytes.now) }
    ensures place { place.new ≡ specs.place_after_all listener.old place.old (take 1 bytes.now) }
    ensures room { out.new.capacity ≡ out.old.capacity }
{
    let listened = listener.read(bytes[0]);
    put_listened(listened, place, table, out);
    *listener = listened.listener;
}

/// The same, of a byte that is neither of ASCII nor the first of a letter.
#[inline(never)]
fn put_other(
    bytes: &[u8],
    listener: &mut Listener,
    place: &mut Place,
    table: &OwnTable<'_>,
    out: &mut SliceVec<'_, u8>,
)
    requires good { Good table.now }
    requires some { 0 < length bytes.now }
    requires room { length out.old.items + 32 ≤ out.old.capacity }
    ensures items { out.new.items ≡ out.old.items ++ specs.said_of table.now listener.old place.old (take 1 bytes.now) }
    ensures few { length out.new.items ≤ length out.old.items + 32 }
    ensures listener { listener.new ≡ after listener.old (take 1 bytes.now) }
    ensures place { place.new ≡ specs.place_after_all listener.old place.old (take 1 bytes.now) }
    ensures room { out.new.capacity ≡ out.old.capacity }
{
    put_one(bytes, listener, place, table, out);
}

/// Puts what comes of the first of these bytes, or of the letters that they begin with. Tells how many bytes that is.
#[inline(always)]
fn put_first(
    bytes: &[u8],
    listener: &mut Listener,
    place: &mut Place,
    table: &OwnTable<'_>,
    out: &mut SliceVec<'_, u8>,
) -> usize
    requires good { Good table.now }
    requires some { 0 < length bytes.now }
    requires room { length out.old.items + 32 * length bytes.now ≤ out.old.capacity }
    ensures items { out.new.items ≡ out.old.items ++ specs.said_of table.now listener.old place.old (take result bytes.now) }
    ensures few { length out.new.items ≤ length out.old.items + 32 * result }
    ensures listener { listener.new ≡ after listener.old (take result bytes.now) }
    ensures place { place.new ≡ specs.place_after_all listener.old place.old (take result bytes.now) }
    ensures room { out.new.capacity ≡ out.old.capacity }
    ensures some { 0 < result }
    ensures within { result ≤ length bytes.now }
{
    if is_plain(bytes[0]) && is_ready(listener, place) {
        return put_plain(bytes, listener, place, out);
    }
    if bytes[0] < 128 {
        put_one(bytes, listener, place, table, out);
        return 1;
    }
    if let Some(first) = letter_of(bytes) {
        return put_letters(first, bytes, listener, place, table, out);
    }
    put_other(bytes, listener, place, table, out);
    1
}

/// Puts what comes of these bytes, one after another.
pub(crate) fn put_all(
    bytes: &[u8],
    listener: &mut Listener,
    place: &mut Place,
    table: &OwnTable<'_>,
    out: &mut SliceVec<'_, u8>,
)
    requires good { Good table.now }
    requires room { length out.old.items + 32 * length bytes.now ≤ out.old.capacity }
    ensures items { out.new.items ≡ out.old.items ++ specs.said_of table.now listener.old place.old bytes.now }
    ensures few { length out.new.items ≤ length out.old.items + 32 * length bytes.now }
    ensures listener { listener.new ≡ after listener.old bytes.now }
    ensures place { place.new ≡ specs.place_after_all listener.old place.old bytes.now }
    ensures room { out.new.capacity ≡ out.old.capacity }
{
    let mut count = 0;
    while count < bytes.len() {
        let more = put_first(&bytes[count..], listener, place, table, out);
        count += more;
    }
}

/// Puts what comes of the end, where this cluster is half read: at most 27 bytes.
pub(crate) fn put_last(
    cluster: Option<Cluster>,
    place: &mut Place,
    table: &OwnTable<'_>,
    out: &mut SliceVec<'_, u8>,
)
    requires good { Good table.now }
    requires room { length out.old.items + 32 ≤ out.old.capacity }
    ensures items { out.new.items ≡ out.old.items ++ specs.said_last table.now place.old cluster }
    ensures few { length out.new.items ≤ length out.old.items + 32 }
    ensures room { out.new.capacity ≡ out.old.capacity }
{
    put_done(cluster, place, table, out);
    put_waiting(place.waits, out);
    place.waits = Waiting::Nothing;
}
