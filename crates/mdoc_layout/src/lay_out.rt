//! What is said is laid out.
ghost use Rattle.std.specs.Prelude.{◌≡◌, ◌+◌, ◌≤◌, ◌++◌, length};
ghost use Rattle.mdoc_layout.specs.LayingOut as specs;

use super::acts::Act;
use super::page::Page;
use super::texts::{prefix_of, text_of};
use nr_vectors::slice_vec::SliceVec;

impl Page {
    /// Requests and their like.
    pub(crate) fn lay_request(&mut self, act: Act, out: &mut SliceVec<'_, u8>)
        requires { length out.old.items + 256 ≤ out.old.capacity }
        ensures page { self.new ≡ (specs.lay_request act self.old).page }
        ensures items { out.new.items ≡ out.old.items ++ (specs.lay_request act self.old).bytes }
        ensures few { length out.new.items ≤ length out.old.items + 256 }
        ensures room { out.new.capacity ≡ out.old.capacity }
    {
        match act {
            Act::Fresh => self.freshen(out),
            Act::Tag(width) => self.put_tag(width, out),
            Act::TagEnds(width) => self.end_tag(width, out),
            Act::HangEnds(width) => self.end_hang(width, out),
            Act::Quiet => self.quiet_down(out),
            Act::Space => self.put_space(out),
            Act::Request(request) => self.put_request(request, out),
            Act::Sized(sized, n) => self.put_sized(sized, n, out),
            Act::Hanging(n) => self.put_hanging(n, out),
            Act::Numbered(n, width) => self.put_numbered(n, width, out),
            Act::Title => self.put_title(out),
            Act::TitlePrefix => self.put_title_prefix(out),
            Act::System => self.put_head(b".ds %o \"", out),
            Act::TitleEnds => self.end_title(out),
            Act::Section => self.put_head(b".SH", out),
            Act::Subsection => self.put_head(b".SS", out),
            Act::Part(letter) => self.put_part_begin(letter, out),
            Act::Reference => self.put_reference(out),
            Act::Control => self.put_control(out),
            Act::Naming => self.put_naming(out),
            _ => self.lay_column(act, out),
        }
    }

    /// Columns, their rows and cells.
    fn lay_column(&mut self, act: Act, out: &mut SliceVec<'_, u8>)
        requires { length out.old.items + 256 ≤ out.old.capacity }
        ensures page { self.new ≡ (specs.lay_column act self.old).page }
        ensures items { out.new.items ≡ out.old.items ++ (specs.lay_column act self.old).bytes }
        ensures few { length out.new.items ≤ length out.old.items + 256 }
        ensures room { out.new.capacity ≡ out.old.capacity }
    {
        match act {
            Act::Columns => self.put_columns(out),
            Act::Column(width) => self.put_column(width, out),
            Act::Stops(gap) => self.put_stops(gap, out),
            Act::Cell => self.put_cell(out),
            Act::Row => self.put_row(out),
            _ => self.lay_word(act, out),
        }
    }

    /// What is said is laid out: most often nothing, or a byte.
    #[inline(always)]
    #[tactic(auto, unfolding(crate::specs::LayingOut::lay_out))]
    pub fn lay_out(&mut self, act: Act, out: &mut SliceVec<'_, u8>)
        requires { length out.old.items + 256 ≤ out.old.capacity }
        ensures page { self.new ≡ (specs.lay_out act self.old).page }
        ensures items { out.new.items ≡ out.old.items ++ (specs.lay_out act self.old).bytes }
        ensures few { length out.new.items ≤ length out.old.items + 256 }
        ensures room { out.new.capacity ≡ out.old.capacity }
    {
        match act {
            Act::Nothing => {}
            Act::Byte(byte) => out.push(byte),
            _ => self.lay_any(act, out),
        }
    }

    /// Whatever is said is laid out.
    #[tactic(auto, unfolding(crate::specs::LayingOut::lay_out))]
    fn lay_any(&mut self, act: Act, out: &mut SliceVec<'_, u8>)
        requires { length out.old.items + 256 ≤ out.old.capacity }
        ensures page { self.new ≡ (specs.lay_out act self.old).page }
        ensures items { out.new.items ≡ out.old.items ++ (specs.lay_out act self.old).bytes }
        ensures few { length out.new.items ≤ length out.old.items + 256 }
        ensures room { out.new.capacity ≡ out.old.capacity }
    {
        match act {
            Act::Nothing => {}
            Act::Byte(byte) => out.push(byte),
            Act::Hyphen => out.extend(b"\\-"),
            Act::Prefix(prefix) => out.extend(prefix_of(prefix)),
            Act::Begin(byte) => self.put(self.lay.joined, &[byte], out),
            Act::Text(text) => self.put(self.is_joined(), text_of(text), out),
            Act::Close(text) => self.put(true, text_of(text), out),
            Act::Join => self.lay.joined = true,
            Act::Apart => self.lay.joined = false,
            Act::Ends => self.end_line(),
            _ => self.lay_request(act, out),
        }
    }
}
