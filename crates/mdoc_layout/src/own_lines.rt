//! Lines of their own: requests, the title and headings.
ghost use Rattle.std.specs.Prelude.{◌≡◌, ◌+◌, ◌≤◌, ◌++◌, length};
ghost use Rattle.mdoc_layout.specs.OwnLines as specs;

use super::acts::{Request, Sized};
use super::macros::Macro;
use super::page::{At, Page};
use super::texts::{request_of, sized_of};
use nr_vectors::slice_vec::SliceVec;

/// Whether the macro file has no manual of a section.
fn is_other(chapter: &[u8]) -> bool
    ensures { result ≡ specs.is_other chapter.now }
{
    match chapter {
        [] => false,
        [section] => *section < b'1' || *section > b'9',
        _ => true,
    }
}

/// The last digit of a number.
fn digit(n: u16) -> u8
    ensures { result ≡ specs.digit n }
{
    b'0' + (n % 10) as u8
}

/// A number below ten thousand.
pub(crate) fn put_number(n: u16, out: &mut SliceVec<'_, u8>)
    requires { length out.old.items + 4 ≤ out.old.capacity }
    ensures items { out.new.items ≡ out.old.items ++ specs.digits n }
    ensures few { length out.new.items ≤ length out.old.items + 4 }
    ensures room { out.new.capacity ≡ out.old.capacity }
{
    if n < 10 {
        out.extend(&[digit(n)]);
    } else if n < 100 {
        out.extend(&[digit(n / 10), digit(n)]);
    } else if n < 1000 {
        out.extend(&[digit(n / 100), digit(n / 10), digit(n)]);
    } else {
        out.extend(&[digit(n / 1000), digit(n / 100), digit(n / 10), digit(n)]);
    }
}

impl Page {
    /// What ends the line that was begun: an empty tag shows nothing.
    pub(crate) fn line_end(&self) -> &'static [u8]
        ensures value { result.now ≡ specs.line_end self.now }
        ensures few { length result.now ≤ 3 }
    {
        match self.lay.at {
            At::Start => if self.lay.tag { b"\\&\n" } else { b"" },
            At::Middle | At::Ended => b"\n",
        }
    }

    /// What was begun is put on a line, and a tag is whole.
    pub fn freshen(&mut self, out: &mut SliceVec<'_, u8>)
        requires { length out.old.items + 3 ≤ out.old.capacity }
        ensures page { self.new ≡ (specs.freshen self.old).page }
        ensures items { out.new.items ≡ out.old.items ++ (specs.freshen self.old).bytes }
        ensures few { length out.new.items ≤ length out.old.items + 3 }
        ensures room { out.new.capacity ≡ out.old.capacity }
    {
        out.extend(self.line_end());
        self.lay.at = At::Start;
        self.lay.joined = false;
        self.lay.quiet = self.lay.quiet && !self.lay.tag;
        self.lay.tag = false;
    }

    /// A tag is whole: text stands after it where it is one line, and narrower than this.
    pub(crate) fn end_tag(&mut self, width: u16, out: &mut SliceVec<'_, u8>)
        requires { length out.old.items + 128 ≤ out.old.capacity }
        ensures page { self.new ≡ (specs.end_tag width self.old).page }
        ensures items { out.new.items ≡ out.old.items ++ (specs.end_tag width self.old).bytes }
        ensures few { length out.new.items ≤ length out.old.items + 128 }
        ensures room { out.new.capacity ≡ out.old.capacity }
    {
        self.freshen(out);
        out.extend(b".%i ");
        put_number(width, out);
        out.extend(b"n\n");
    }

    /// A tag is whole, and text goes on after it: where it is wider than this by more than one, a blank after its last line.
    pub(crate) fn end_hang(&mut self, width: u16, out: &mut SliceVec<'_, u8>)
        requires { length out.old.items + 128 ≤ out.old.capacity }
        ensures page { self.new ≡ (specs.end_hang width self.old).page }
        ensures items { out.new.items ≡ out.old.items ++ (specs.end_hang width self.old).bytes }
        ensures few { length out.new.items ≤ length out.old.items + 128 }
        ensures room { out.new.capacity ≡ out.old.capacity }
    {
        self.freshen(out);
        out.extend(b".br\n.nr %h \\n(.nu-");
        put_number(width, out);
        out.extend(b"n-1n\n.if \\n(nl-\\n(%tu>1v .nr %h \\n(.nu+1n\n.sp -1\n");
        out.extend(b".if \\n(%h>0 .)T +\\n(%hu\n\\&\\c\n");
    }

    /// The same, and nothing was put since space was made.
    pub(crate) fn quiet_down(&mut self, out: &mut SliceVec<'_, u8>)
        requires { length out.old.items + 3 ≤ out.old.capacity }
        ensures page { self.new ≡ (specs.quiet_down self.old).page }
        ensures items { out.new.items ≡ out.old.items ++ (specs.quiet_down self.old).bytes }
        ensures few { length out.new.items ≤ length out.old.items + 3 }
        ensures room { out.new.capacity ≡ out.old.capacity }
    {
        self.freshen(out);
        self.lay.quiet = true;
    }

    /// Space as before a paragraph, once.
    pub(crate) fn put_space(&mut self, out: &mut SliceVec<'_, u8>)
        requires { length out.old.items + 16 ≤ out.old.capacity }
        ensures page { self.new ≡ (specs.put_space self.old).page }
        ensures items { out.new.items ≡ out.old.items ++ (specs.put_space self.old).bytes }
        ensures few { length out.new.items ≤ length out.old.items + 16 }
        ensures room { out.new.capacity ≡ out.old.capacity }
    {
        self.freshen(out);
        if !self.lay.quiet {
            out.extend(request_of(Request::Space));
        }
        self.lay.quiet = true;
    }

    /// A request on a line.
    pub(crate) fn put_request(&mut self, request: Request, out: &mut SliceVec<'_, u8>)
        requires { length out.old.items + 192 ≤ out.old.capacity }
        ensures page { self.new ≡ (specs.put_request request self.old).page }
        ensures items { out.new.items ≡ out.old.items ++ (specs.put_request request self.old).bytes }
        ensures few { length out.new.items ≤ length out.old.items + 192 }
        ensures room { out.new.capacity ≡ out.old.capacity }
    {
        self.freshen(out);
        out.extend(request_of(request));
    }

    /// What a request with a number leaves.
    fn was_sized(&mut self, sized: Sized)
        ensures { self.new ≡ specs.was_sized sized self.old }
    {
        match sized {
            Sized::Indent | Sized::Inner => {}
            Sized::Tag => self.lay.tag = true,
            Sized::Bullet | Sized::Dash => self.lay.quiet = false,
            Sized::Hanging => self.lay.quiet = true,
        }
    }

    /// A request with a number of ens.
    pub(crate) fn put_sized(&mut self, sized: Sized, n: u16, out: &mut SliceVec<'_, u8>)
        requires { length out.old.items + 48 ≤ out.old.capacity }
        ensures page { self.new ≡ (specs.put_sized sized n self.old).page }
        ensures items { out.new.items ≡ out.old.items ++ (specs.put_sized sized n self.old).bytes }
        ensures few { length out.new.items ≤ length out.old.items + 48 }
        ensures room { out.new.capacity ≡ out.old.capacity }
    {
        self.freshen(out);
        out.extend(sized_of(sized));
        put_number(n, out);
        out.extend(b"n\n");
        self.was_sized(sized);
    }

    /// A paragraph that hangs.
    pub(crate) fn put_hanging(&mut self, n: u16, out: &mut SliceVec<'_, u8>)
        requires { length out.old.items + 64 ≤ out.old.capacity }
        ensures page { self.new ≡ (specs.put_hanging n self.old).page }
        ensures items { out.new.items ≡ out.old.items ++ (specs.put_hanging n self.old).bytes }
        ensures few { length out.new.items ≤ length out.old.items + 64 }
        ensures room { out.new.capacity ≡ out.old.capacity }
    {
        self.put_sized(Sized::Hanging, n, out);
        out.extend(request_of(Request::Distance));
    }

    /// A tag begins, which hangs.
    pub(crate) fn put_tag(&mut self, n: u16, out: &mut SliceVec<'_, u8>)
        requires { length out.old.items + 64 ≤ out.old.capacity }
        ensures page { self.new ≡ (specs.put_tag n self.old).page }
        ensures items { out.new.items ≡ out.old.items ++ (specs.put_tag n self.old).bytes }
        ensures few { length out.new.items ≤ length out.old.items + 64 }
        ensures room { out.new.capacity ≡ out.old.capacity }
    {
        self.put_sized(Sized::Tag, n, out);
        out.extend(b".nr %t \\n(nl\n");
    }

    /// A numbered item.
    pub(crate) fn put_numbered(&mut self, n: u16, width: u16, out: &mut SliceVec<'_, u8>)
        requires { length out.old.items + 48 ≤ out.old.capacity }
        ensures page { self.new ≡ (specs.put_numbered n width self.old).page }
        ensures items { out.new.items ≡ out.old.items ++ (specs.put_numbered n width self.old).bytes }
        ensures few { length out.new.items ≤ length out.old.items + 48 }
        ensures room { out.new.capacity ≡ out.old.capacity }
    {
        self.freshen(out);
        out.extend(b".PD 0\n.IP ");
        put_number(n, out);
        out.extend(b". ");
        put_number(width, out);
        out.extend(b"n\n");
        self.lay.quiet = false;
    }

    /// The page's title, up to its source.
    pub(crate) fn put_title(&mut self, out: &mut SliceVec<'_, u8>)
        requires { length out.old.items + 192 ≤ out.old.capacity }
        ensures page { self.new ≡ (specs.put_title self.old).page }
        ensures items { out.new.items ≡ out.old.items ++ (specs.put_title self.old).bytes }
        ensures few { length out.new.items ≤ length out.old.items + 192 }
        ensures room { out.new.capacity ≡ out.old.capacity }
    {
        self.freshen(out);
        out.extend(b".TH ");
        out.extend(self.title.as_bytes());
        out.push(b' ');
        out.extend(self.chapter.as_bytes());
        out.extend(b" \"");
        self.put_date(out);
        out.extend(b"\" \"");
        self.lay.at = At::Middle;
        self.lay.joined = true;
        self.place.titled = true;
    }

    /// The string that keeps what was read of a title.
    pub(crate) fn put_title_prefix(&mut self, out: &mut SliceVec<'_, u8>)
        requires { length out.old.items + 48 ≤ out.old.capacity }
        ensures page { self.new ≡ (specs.put_title_prefix self.old).page }
        ensures items { out.new.items ≡ out.old.items ++ (specs.put_title_prefix self.old).bytes }
        ensures few { length out.new.items ≤ length out.old.items + 48 }
        ensures room { out.new.capacity ≡ out.old.capacity }
    {
        self.freshen(out);
        out.extend(b".ds %T \"");
        out.extend(self.title.as_bytes());
        out.push(b'\n');
    }

    /// What stands for a system without a name, and in the title's line for one that came before it.
    fn other_system(&self) -> &'static [u8]
        ensures value { result.now ≡ specs.other_system self.now }
        ensures few { length result.now ≤ 5 }
    {
        if !matches!(self.call.line, Macro::System) {
            b"\\*(%o"
        } else if self.call.some {
            b""
        } else {
            b"\\*()O"
        }
    }

    /// The manual, where that of its section has another name in pages of mdoc, or none.
    fn put_manual(&self, out: &mut SliceVec<'_, u8>)
        requires { length out.old.items + 40 ≤ out.old.capacity }
        ensures items { out.new.items ≡ out.old.items ++ specs.manual self.now }
        ensures few { length out.new.items ≤ length out.old.items + 40 }
        ensures room { out.new.capacity ≡ out.old.capacity }
    {
        let chapter = self.chapter.as_bytes();
        if chapter == b"4".as_slice() {
            out.extend(b" \"Device Drivers Manual\"");
        } else if is_other(chapter) {
            out.extend(b" \"");
            out.extend(chapter);
            out.push(b'"');
        }
    }

    /// The title's line ends, or that of the string that keeps the system. It stands on both sides of the footer.
    pub(crate) fn end_title(&mut self, out: &mut SliceVec<'_, u8>)
        requires { length out.old.items + 96 ≤ out.old.capacity }
        ensures page { self.new ≡ (specs.end_title self.old).page }
        ensures items { out.new.items ≡ out.old.items ++ (specs.end_title self.old).bytes }
        ensures few { length out.new.items ≤ length out.old.items + 96 }
        ensures room { out.new.capacity ≡ out.old.capacity }
    {
        out.extend(self.other_system());
        if !self.place.titled {
            self.freshen(out);
            return;
        }
        out.push(b'"');
        self.put_manual(out);
        out.extend(b"\n.ds )9 \\*()4\n.nr IN 5n\n.ad l\n");
        self.lay.at = At::Start;
        self.lay.joined = false;
        self.lay.quiet = true;
    }

    /// A line that goes on with words.
    pub(crate) fn put_head(&mut self, head: &[u8], out: &mut SliceVec<'_, u8>)
        requires { length out.old.items + length head.now + 3 ≤ out.old.capacity }
        ensures page { self.new ≡ (specs.put_head head.now self.old).page }
        ensures items { out.new.items ≡ out.old.items ++ (specs.put_head head.now self.old).bytes }
        ensures few { length out.new.items ≤ length out.old.items + length head.now + 3 }
        ensures room { out.new.capacity ≡ out.old.capacity }
    {
        self.freshen(out);
        out.extend(head);
        self.lay.at = At::Middle;
    }

    /// A request of the page itself.
    pub(crate) fn put_control(&mut self, out: &mut SliceVec<'_, u8>)
        requires { length out.old.items + 48 ≤ out.old.capacity }
        ensures page { self.new ≡ (specs.put_control self.old).page }
        ensures items { out.new.items ≡ out.old.items ++ (specs.put_control self.old).bytes }
        ensures few { length out.new.items ≤ length out.old.items + 48 }
        ensures room { out.new.capacity ≡ out.old.capacity }
    {
        self.freshen(out);
        out.push(b'.');
        out.extend(self.word.as_bytes());
    }

    /// The string that keeps the page's name.
    pub(crate) fn put_naming(&mut self, out: &mut SliceVec<'_, u8>)
        requires { length out.old.items + 48 ≤ out.old.capacity }
        ensures page { self.new ≡ (specs.put_naming self.old).page }
        ensures items { out.new.items ≡ out.old.items ++ (specs.put_naming self.old).bytes }
        ensures few { length out.new.items ≤ length out.old.items + 48 }
        ensures room { out.new.capacity ≡ out.old.capacity }
    {
        self.freshen(out);
        out.extend(b".ds %n \"");
        out.extend(self.word.as_bytes());
        out.push(b'\n');
    }
}
