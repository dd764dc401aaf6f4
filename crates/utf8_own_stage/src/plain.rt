//! Characters of ASCII that are printed as they come, one after another.
ghost use Rattle.std.specs.Prelude.{◌≡◌, [], ◌∷◌, ◌+◌, ◌*◌, ◌<◌, ◌≤◌, ◌++◌, length, get_or, take, true, None};
ghost use Rattle.utf8_own_characters.specs.Cluster as cluster;
ghost use Rattle.utf8_own_characters.specs.Listening as listening;
ghost use Rattle.utf8_own_characters.specs.Table.{Characters};
ghost use Rattle.utf8_own_stage.specs.Coding as coding;
ghost use Rattle.utf8_own_stage.specs.Plain as specs;
ghost use Rattle.utf8_own_stage.specs.Points.{passed};

use super::points::Place;
use nr_vectors::slice_vec::SliceVec;
use utf8_own_characters::{Cluster, Listener, Part};

/// Whether a byte is printed as it comes: one of ASCII, but for a newline and a backslash.
#[inline(always)]
pub(crate) fn is_plain(byte: u8) -> bool
    ensures { result ≡ specs.is_plain byte }
{
    byte < 128 && byte != b'\n' && byte != b'\\'
}

/// Whether a cluster is such a character.
#[inline(always)]
fn is_plain_cluster(cluster: Cluster) -> bool
    ensures { result ≡ specs.is_plain_cluster cluster }
{
    cluster.is_ascii() && cluster.letter != '\n' && cluster.letter != '\\'
}

/// Whether what is held is none, or such a character.
#[inline(always)]
fn holds_plain(held: Option<Cluster>) -> bool
    ensures { result ≡ specs.holds_plain held }
{
    match held {
        Some(cluster) => is_plain_cluster(cluster),
        None => true,
    }
}

/// Whether such characters are printed as they come, since none beyond ASCII stands before them.
#[inline(always)]
pub(crate) fn is_ready(listener: &Listener, place: &Place) -> bool
    ensures { result ≡ specs.is_ready listener.now place.now }
{
    place.is_quiet() && u32::from(place.before) < 128 && holds_plain(listener.held)
}

/// Whether marks may come on a byte of ASCII.
#[inline(always)]
fn takes_marks(byte: u8, is_plain: bool) -> bool
    requires { byte < 128 }
    ensures { result ≡ listening.takes_marks byte is_plain }
{
    is_plain && matches!(byte, b'A'..=b'Z' | b'a'..=b'z' | b'0'..=b'9')
}

/// Whether letters after it are no names of escapes.
#[inline(always)]
fn plain_after(byte: u8, is_plain: bool) -> bool
    requires { specs.is_plain byte ≡ true }
    ensures { result ≡ listening.plain_after byte is_plain }
{
    byte <= b' ' || is_plain
}

/// Puts a character.
#[inline(always)]
fn put_character(character: char, place: &mut Place, out: &mut SliceVec<'_, u8>)
    requires ready { specs.is_ready_for None place.old ≡ true }
    requires plain { specs.is_plain character ≡ true }
    requires room { length out.old.items + 1 ≤ out.old.capacity }
    ensures items { out.new.items ≡ out.old.items ++ coding.put_at place.old character (character ∷ []) }
    ensures place { place.new ≡ passed place.old character }
    ensures ready { specs.is_ready_for None place.new ≡ true }
    ensures few { length out.new.items ≤ length out.old.items + 1 }
    ensures room { out.new.capacity ≡ out.old.capacity }
{
    out.push((u32::from(character) % 128) as u8);
    place.before = character;
}

/// Puts what is held.
#[inline(always)]
fn put_held(held: Option<Cluster>, place: &mut Place, out: &mut SliceVec<'_, u8>)
    requires ready { specs.is_ready_for held place.old ≡ true }
    requires room { length out.old.items + 1 ≤ out.old.capacity }
    ensures items { (t : Characters) → out.new.items ≡ out.old.items ++ coding.said_cluster t place.old held }
    ensures place { place.new ≡ coding.after_cluster place.old held }
    ensures ready { specs.is_ready_for None place.new ≡ true }
    ensures few { length out.new.items ≤ length out.old.items + 1 }
    ensures room { out.new.capacity ≡ out.old.capacity }
{
    if let Some(cluster) = held {
        put_character(cluster.letter, place, out);
    }
}

/// Puts a byte, unless it is held.
#[inline(always)]
fn put_unheld(byte: u8, holds: bool, place: &mut Place, out: &mut SliceVec<'_, u8>)
    requires ready { specs.is_ready_for None place.old ≡ true }
    requires plain { specs.is_plain byte ≡ true }
    requires room { length out.old.items + 1 ≤ out.old.capacity }
    ensures items { out.new.items ≡ out.old.items ++ coding.said_byte place.old (specs.unheld byte holds) }
    ensures place { place.new ≡ coding.after_byte place.old (specs.unheld byte holds) }
    ensures ready { specs.is_ready_for None place.new ≡ true }
    ensures few { length out.new.items ≤ length out.old.items + 1 }
    ensures room { out.new.capacity ≡ out.old.capacity }
{
    if !holds {
        put_character(char::from(byte), place, out);
    }
}

/// What is held of a byte.
#[inline(always)]
fn held_of(byte: u8, holds: bool) -> Option<Cluster>
    ensures { result ≡ specs.held_of byte holds }
{
    if holds {
        Some(Cluster::single(char::from(byte)))
    } else {
        None
    }
}

/// Puts what comes of one.
#[inline(always)]
fn put_one(byte: u8, listener: &mut Listener, place: &mut Place, out: &mut SliceVec<'_, u8>)
    requires ready { specs.is_ready listener.old place.old ≡ true }
    requires plain { specs.is_plain byte ≡ true }
    requires room { length out.old.items + 2 ≤ out.old.capacity }
    ensures items { (t : Characters) → out.new.items ≡ out.old.items ++ coding.said_of t listener.old place.old (byte ∷ []) }
    ensures listener { listener.new ≡ listening.after listener.old (byte ∷ []) }
    ensures place { place.new ≡ coding.place_after_all listener.old place.old (byte ∷ []) }
    ensures ready { specs.is_ready listener.new place.new ≡ true }
    ensures few { length out.new.items ≤ length out.old.items + 2 }
    ensures room { out.new.capacity ≡ out.old.capacity }
{
    put_held(listener.held, place, out);
    let holds = takes_marks(byte, listener.is_plain);
    put_unheld(byte, holds, place, out);
    *listener = Listener {
        part: Part::none(),
        held: held_of(byte, holds),
        is_plain: plain_after(byte, listener.is_plain),
    };
}

/// Puts what comes of such characters with which bytes begin. Tells how many those are.
#[inline(always)]
pub(crate) fn put_plain(
    bytes: &[u8],
    listener: &mut Listener,
    place: &mut Place,
    out: &mut SliceVec<'_, u8>,
) -> usize
    requires ready { specs.is_ready listener.old place.old ≡ true }
    requires some { 0 < length bytes.now }
    requires plain { specs.is_plain (get_or bytes.now 0 0) ≡ true }
    requires room { length out.old.items + 2 * length bytes.now ≤ out.old.capacity }
    ensures items { (t : Characters) → out.new.items ≡ out.old.items ++ coding.said_of t listener.old place.old (take result bytes.now) }
    ensures listener { listener.new ≡ listening.after listener.old (take result bytes.now) }
    ensures place { place.new ≡ coding.place_after_all listener.old place.old (take result bytes.now) }
    ensures few { length out.new.items ≤ length out.old.items + 2 * result }
    ensures room { out.new.capacity ≡ out.old.capacity }
    ensures some { 0 < result }
    ensures within { result ≤ length bytes.now }
{
    let mut heard = *listener;
    let mut here = *place;
    put_one(bytes[0], &mut heard, &mut here, out);
    let mut count = 1;
    while count < bytes.len() && is_plain(bytes[count]) {
        put_one(bytes[count], &mut heard, &mut here, out);
        count += 1;
    }
    *listener = heard;
    *place = here;
    count
}
