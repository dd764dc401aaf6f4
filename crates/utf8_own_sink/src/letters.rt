//! Letters with their marks go out in UTF-8, and as they look.
ghost use Rattle.std.specs.Char.{encode_utf8};
ghost use Rattle.std.specs.Prelude.{◌≡◌, ◌+◌, ◌≤◌, [], ◌++◌, length};
ghost use Rattle.utf8_converter.specs.Cells.{closing, is_same, opening};
ghost use Rattle.utf8_own_sink.specs.Letters as specs;

use nr_vectors::cell::Look;
use nr_vectors::slice_vec::SliceVec;
use utf8_own_characters::Cluster;

/// How looks go out.
#[derive(Clone, Copy)]
pub(crate) enum Way {
    /// Struck over.
    Backspaces,
    /// Between escape sequences, and this look is open.
    Escapes(Look),
}

/// What ends a look.
fn closing(look: Look) -> &'static [u8]
    ensures value { result.now ≡ closing look }
    ensures few { length result.now ≤ 5 }
{
    match look {
        Look::Plain => b"",
        Look::Under => b"\x1B[24m",
        Look::Bold => b"\x1B[22m",
    }
}

/// What begins a look.
fn opening(look: Look) -> &'static [u8]
    ensures value { result.now ≡ opening look }
    ensures few { length result.now ≤ 4 }
{
    match look {
        Look::Plain => b"",
        Look::Under => b"\x1B[4m",
        Look::Bold => b"\x1B[1m",
    }
}

/// Whether two looks are the same.
#[inline]
fn is_same(first: Look, second: Look) -> bool
    ensures { result ≡ is_same first second }
{
    match first {
        Look::Plain => matches!(second, Look::Plain),
        Look::Under => matches!(second, Look::Under),
        Look::Bold => matches!(second, Look::Bold),
    }
}

/// Puts a character: at most 4 bytes.
#[inline(always)]
pub(crate) fn put_character(character: char, out: &mut SliceVec<'_, u8>)
    requires { length out.old.items + 4 ≤ out.old.capacity }
    ensures items { out.new.items ≡ out.old.items ++ encode_utf8 character }
    ensures few { length out.new.items ≤ length out.old.items + 4 }
    ensures room { out.new.capacity ≡ out.old.capacity }
{
    let mut buffer = [0; 4];
    let text = character.encode_utf8(&mut buffer).as_bytes();
    match text {
        [first, second, third] => {
            out.push(*first);
            out.push(*second);
            out.push(*third);
        }
        _ => out.extend(text),
    }
}

/// Puts a mark, if it is one: at most 4 bytes.
#[inline(always)]
fn put_mark(mark: char, out: &mut SliceVec<'_, u8>)
    requires { length out.old.items + 4 ≤ out.old.capacity }
    ensures items { out.new.items ≡ out.old.items ++ specs.mark_text mark }
    ensures few { length out.new.items ≤ length out.old.items + 4 }
    ensures room { out.new.capacity ≡ out.old.capacity }
{
    if mark != '\0' {
        put_character(mark, out);
    }
}

/// Puts a letter and its marks: at most 16 bytes.
#[inline(always)]
fn put_text(cluster: &Cluster, out: &mut SliceVec<'_, u8>)
    requires { length out.old.items + 16 ≤ out.old.capacity }
    ensures items { out.new.items ≡ out.old.items ++ specs.text_of cluster.now }
    ensures few { length out.new.items ≤ length out.old.items + 16 }
    ensures room { out.new.capacity ≡ out.old.capacity }
{
    put_character(cluster.letter, out);
    put_mark(cluster.first_mark, out);
    put_mark(cluster.second_mark, out);
    put_mark(cluster.third_mark, out);
}

/// Whether a cluster is no control character but a newline.
#[inline(always)]
fn is_shown(cluster: &Cluster) -> bool
    ensures { result ≡ specs.is_shown cluster.now }
{
    let code = u32::from(cluster.letter);
    code == 10 || (code >= 32 && code != 127)
}

/// How a cluster looks: a blank and a newline are plain.
#[inline(always)]
fn look_of(cluster: &Cluster, look: Look) -> Look
    ensures { result ≡ specs.look_of cluster.now look }
{
    if u32::from(cluster.letter) <= 32 {
        Look::Plain
    } else {
        look
    }
}

/// Puts what a cluster is struck over: at most 17 bytes.
#[inline]
fn put_struck(cluster: &Cluster, look: Look, out: &mut SliceVec<'_, u8>)
    requires { length out.old.items + 17 ≤ out.old.capacity }
    ensures items { out.new.items ≡ out.old.items ++ specs.struck_text cluster.now look }
    ensures few { length out.new.items ≤ length out.old.items + 17 }
    ensures room { out.new.capacity ≡ out.old.capacity }
{
    match look {
        Look::Plain => {}
        Look::Under => out.extend(b"_\x08"),
        Look::Bold => {
            put_text(cluster, out);
            out.push(b'\x08');
        }
    }
}

/// What is open becomes this look: at most 9 bytes.
#[inline]
fn put_turn(was: Look, look: Look, out: &mut SliceVec<'_, u8>)
    requires { length out.old.items + 9 ≤ out.old.capacity }
    ensures items { out.new.items ≡ out.old.items ++ specs.turned was look }
    ensures few { length out.new.items ≤ length out.old.items + 9 }
    ensures room { out.new.capacity ≡ out.old.capacity }
{
    if !is_same(was, look) {
        out.extend(closing(was));
        out.extend(opening(look));
    }
}

impl Way {
    /// The first way: no look is open.
    pub(crate) fn first(escapes: bool) -> Way
        ensures { result ≡ specs.first_way escapes }
    {
        if escapes {
            Way::Escapes(Look::Plain)
        } else {
            Way::Backspaces
        }
    }

    /// Whether what is plain goes out as it is.
    #[inline(always)]
    pub(crate) fn is_plain(self) -> bool
        ensures { result ≡ specs.is_plain self }
    {
        match self {
            Way::Backspaces => true,
            Way::Escapes(look) => matches!(look, Look::Plain),
        }
    }

    /// Puts what stands before a cluster that looks so, and tells the way after it: at most 17 bytes.
    #[inline(always)]
    fn put_before(self, cluster: &Cluster, look: Look, out: &mut SliceVec<'_, u8>) -> Way
        requires { length out.old.items + 17 ≤ out.old.capacity }
        ensures items { out.new.items ≡ out.old.items ++ specs.before self cluster.now look }
        ensures few { length out.new.items ≤ length out.old.items + 17 }
        ensures room { out.new.capacity ≡ out.old.capacity }
        ensures way { result ≡ specs.way_to self look }
    {
        match self {
            Way::Backspaces => {
                put_struck(cluster, look, out);
                Way::Backspaces
            }
            Way::Escapes(was) => {
                put_turn(was, look, out);
                Way::Escapes(look)
            }
        }
    }

    /// Puts a cluster, and tells the way after it: at most 33 bytes.
    #[inline(always)]
    pub(crate) fn put_letter(self, cluster: &Cluster, look: Look, out: &mut SliceVec<'_, u8>) -> Way
        requires { length out.old.items + 33 ≤ out.old.capacity }
        ensures items { out.new.items ≡ out.old.items ++ specs.drawn self (specs.letter cluster.now look) }
        ensures few { length out.new.items ≤ length out.old.items + 33 }
        ensures room { out.new.capacity ≡ out.old.capacity }
        ensures way { result ≡ specs.way_past self (specs.letter cluster.now look) }
    {
        if !is_shown(cluster) {
            return self;
        }
        let way = self.put_before(cluster, look_of(cluster, look), out);
        put_text(cluster, out);
        way
    }

    /// The end comes: at most 9 bytes.
    pub(crate) fn put_end(self, out: &mut SliceVec<'_, u8>)
        requires { length out.old.items + 9 ≤ out.old.capacity }
        ensures items { out.new.items ≡ out.old.items ++ specs.printed self [] }
        ensures few { length out.new.items ≤ length out.old.items + 9 }
        ensures room { out.new.capacity ≡ out.old.capacity }
    {
        if let Way::Escapes(was) = self {
            put_turn(was, Look::Plain, out);
        }
    }
}
