//! References: their parts are kept as strings, and stand in their order at the end.
ghost use Rattle.std.specs.Prelude.{◌≡◌, ◌+◌, ◌*◌, ◌≤◌, ◌++◌, length};
ghost use Rattle.mdoc_layout.specs.References as specs;

use super::page::Page;
use nr_vectors::slice_vec::SliceVec;

/// What stands for the authors.
fn authors_of(authors: u8) -> &'static [u8]
    ensures value { result.now ≡ specs.authors_of authors }
    ensures few { length result.now ≤ 16 }
{
    match authors {
        1 => b"\\*(%A",
        2 => b"\\*(%A and \\*(%a",
        _ => b"\\*(%A, and \\*(%a",
    }
}

/// The order of the parts after the title.
#[tactic(auto, unfolding(crate::specs::References::order))]
fn order() -> &'static [u8]
    ensures value { result.now ≡ specs.order }
    ensures few { length result.now ≤ 12 }
{
    b"BIJRNVUPQCDO"
}

impl Page {
    /// Whether a part of this letter came.
    fn has_part(&self, letter: u8) -> bool
        ensures { result ≡ specs.has_part letter self.now }
    {
        self.parts.as_bytes().contains(&letter)
    }

    /// The line of an author begins: the one before is put to those before it.
    fn put_author_head(&mut self, out: &mut SliceVec<'_, u8>)
        requires { length out.old.items + 48 ≤ out.old.capacity }
        ensures page { self.new ≡ (specs.put_author_head self.old).page }
        ensures items { out.new.items ≡ out.old.items ++ (specs.put_author_head self.old).bytes }
        ensures few { length out.new.items ≤ length out.old.items + 48 }
        ensures room { out.new.capacity ≡ out.old.capacity }
    {
        match self.place.authors {
            0 => self.put_head(b".ds %A \"", out),
            1 => self.put_head(b".ds %a \"", out),
            _ => self.put_head(b".as %A \", \\*(%a\n.ds %a \"", out),
        }
        if self.place.authors < 3 {
            self.place.authors += 1;
        }
    }

    /// The line of a part begins, which is the first of its letter or not.
    fn put_part_head(&mut self, letter: u8, out: &mut SliceVec<'_, u8>)
        requires { length out.old.items + 48 ≤ out.old.capacity }
        ensures page { self.new ≡ (specs.put_part_head letter self.old).page }
        ensures items { out.new.items ≡ out.old.items ++ (specs.put_part_head letter self.old).bytes }
        ensures few { length out.new.items ≤ length out.old.items + 48 }
        ensures room { out.new.capacity ≡ out.old.capacity }
    {
        if self.has_part(letter) {
            self.put_head(b".as %", out);
            out.push(letter);
            out.extend(b" \", ");
            return;
        }
        self.put_head(b".ds %", out);
        out.push(letter);
        out.extend(b" \"");
        if !self.parts.is_full() {
            self.parts.push(letter);
        }
    }

    /// The line of a part of a reference begins.
    pub(crate) fn put_part_begin(&mut self, letter: u8, out: &mut SliceVec<'_, u8>)
        requires { length out.old.items + 48 ≤ out.old.capacity }
        ensures page { self.new ≡ (specs.put_part_begin letter self.old).page }
        ensures items { out.new.items ≡ out.old.items ++ (specs.put_part_begin letter self.old).bytes }
        ensures few { length out.new.items ≤ length out.old.items + 48 }
        ensures room { out.new.capacity ≡ out.old.capacity }
    {
        if letter == b'A' {
            self.put_author_head(out);
        } else {
            self.put_part_head(letter, out);
        }
    }

    /// The title of an article, which a journal or a book names too.
    fn is_quoted(&self) -> bool
        ensures { result ≡ specs.is_quoted self.now }
    {
        self.has_part(b'J') || self.has_part(b'B')
    }

    /// What stands before the title, and after it.
    fn title_marks(&self) -> (&'static [u8], &'static [u8])
        ensures before { result.0.now ≡ (specs.title_marks self.now).0 }
        ensures following { result.1.now ≡ (specs.title_marks self.now).1 }
        ensures few { length result.0.now ≤ 4 }
        ensures few_after { length result.1.now ≤ 4 }
    {
        if self.is_quoted() {
            (b"\\(lq", b"\\(rq")
        } else {
            (b"\\fI", b"\\fR")
        }
    }

    /// A comma, where some of the reference was printed.
    fn put_comma(&mut self, out: &mut SliceVec<'_, u8>)
        requires { length out.old.items + 4 ≤ out.old.capacity }
        ensures page { self.new ≡ (specs.put_comma self.old).page }
        ensures items { out.new.items ≡ out.old.items ++ (specs.put_comma self.old).bytes }
        ensures few { length out.new.items ≤ length out.old.items + 4 }
        ensures room { out.new.capacity ≡ out.old.capacity }
    {
        if self.place.listed {
            self.put(true, b",", out);
        }
        self.place.listed = true;
    }

    /// The title.
    #[tactic(auto, unfolding(crate::specs::References::put_title_part))]
    fn put_title_part(&mut self, out: &mut SliceVec<'_, u8>)
        requires { length out.old.items + 24 ≤ out.old.capacity }
        ensures page { self.new ≡ (specs.put_title_part self.old).page }
        ensures items { out.new.items ≡ out.old.items ++ (specs.put_title_part self.old).bytes }
        ensures few { length out.new.items ≤ length out.old.items + 24 }
        ensures room { out.new.capacity ≡ out.old.capacity }
    {
        if !self.has_part(b'T') {
            return;
        }
        self.put_comma(out);
        let (before, following) = self.title_marks();
        out.extend(self.gap(self.is_joined(), b'\\'));
        out.extend(before);
        out.extend(b"\\*(%T");
        out.extend(following);
        self.was_put();
    }

    /// Another part.
    fn put_part(&mut self, letter: u8, out: &mut SliceVec<'_, u8>)
        requires { length out.old.items + 12 ≤ out.old.capacity }
        ensures page { self.new ≡ (specs.put_part letter self.old).page }
        ensures items { out.new.items ≡ out.old.items ++ (specs.put_part letter self.old).bytes }
        ensures few { length out.new.items ≤ length out.old.items + 12 }
        ensures room { out.new.capacity ≡ out.old.capacity }
    {
        if !self.has_part(letter) {
            return;
        }
        self.put_comma(out);
        out.extend(self.gap(self.is_joined(), b'\\'));
        out.extend(b"\\*(%");
        out.push(letter);
        self.was_put();
    }

    /// The parts of these letters, in their order.
    #[tactic(auto, unfolding(crate::specs::References::put_parts))]
    fn put_parts(&mut self, letters: &[u8], out: &mut SliceVec<'_, u8>)
        requires { length out.old.items + 12 * length letters.now ≤ out.old.capacity }
        ensures page { self.new ≡ (specs.put_parts letters.now self.old).page }
        ensures items { out.new.items ≡ out.old.items ++ (specs.put_parts letters.now self.old).bytes }
        ensures few { length out.new.items ≤ length out.old.items + 12 * length letters.now }
        ensures room { out.new.capacity ≡ out.old.capacity }
    {
        match letters {
            [first, rest @ ..] => {
                self.put_part(*first, out);
                self.put_parts(rest, out);
            }
            [] => {}
        }
    }

    /// The authors.
    #[tactic(auto, unfolding(crate::specs::References::put_authors))]
    fn put_authors(&mut self, out: &mut SliceVec<'_, u8>)
        requires { length out.old.items + 24 ≤ out.old.capacity }
        ensures page { self.new ≡ (specs.put_authors self.old).page }
        ensures items { out.new.items ≡ out.old.items ++ (specs.put_authors self.old).bytes }
        ensures few { length out.new.items ≤ length out.old.items + 24 }
        ensures room { out.new.capacity ≡ out.old.capacity }
    {
        self.place.listed = self.place.authors > 0;
        if self.place.authors > 0 {
            self.put(self.is_joined(), authors_of(self.place.authors), out);
        }
    }

    /// A full stop, where some of the reference was printed.
    #[tactic(auto, unfolding(crate::specs::References::put_stop))]
    fn put_stop(&mut self, out: &mut SliceVec<'_, u8>)
        requires { length out.old.items + 4 ≤ out.old.capacity }
        ensures page { self.new ≡ (specs.put_stop self.old).page }
        ensures items { out.new.items ≡ out.old.items ++ (specs.put_stop self.old).bytes }
        ensures few { length out.new.items ≤ length out.old.items + 4 }
        ensures room { out.new.capacity ≡ out.old.capacity }
    {
        if self.place.listed {
            self.put(true, b".", out);
        }
    }

    /// A reference: its authors, its title, its other parts, and a full stop.
    pub(crate) fn put_reference(&mut self, out: &mut SliceVec<'_, u8>)
        requires { length out.old.items + 196 ≤ out.old.capacity }
        ensures page { self.new ≡ (specs.put_reference self.old).page }
        ensures items { out.new.items ≡ out.old.items ++ (specs.put_reference self.old).bytes }
        ensures few { length out.new.items ≤ length out.old.items + 196 }
        ensures room { out.new.capacity ≡ out.old.capacity }
    {
        self.put_authors(out);
        self.put_title_part(out);
        self.put_parts(order(), out);
        self.put_stop(out);
    }
}
