//! Characters of two or three bytes in UTF-8 that lie at hand are taken whole.
ghost use Rattle.std.specs.Prelude.{◌≡◌, ◌+◌, ◌*◌, ◌<◌, ◌≤◌, get_or, length, true, false};
ghost use Rattle.preconv_converter.specs.declared.reader.Pending.TheVariants.{Nothing};
ghost use Rattle.preconv_lines.specs.Offering.{is_raw};
ghost use Rattle.preconv_converter.specs.Reading as specs;

use super::reader::{Pending, Reader, Taken, is_second, is_tail, low_six};
use nr_vectors::slice_vec::SliceVec;

/// Whether these are a character of three bytes.
fn is_three(a: u8, b: u8, c: u8) -> bool
    ensures { result ≡ specs.is_three a b c }
{
    matches!(a, 0xE0..=0xEF) && is_second(a, b) && is_tail(c)
}

/// Whether these are one of two.
fn is_two(a: u8, b: u8) -> bool
    ensures { result ≡ specs.is_two a b }
{
    matches!(a, 0xC2..=0xDF) && is_tail(b)
}

/// The code of a character of three bytes.
fn three_code(a: u8, b: u8, c: u8) -> u32
    ensures { result ≡ specs.three_code a b c }
{
    u32::from(a % 16) * 4096 + low_six(b) * 64 + low_six(c)
}

/// The code of one of two.
fn two_code(a: u8, b: u8) -> u32
    ensures { result ≡ specs.two_code a b }
{
    u32::from(a % 32) * 64 + low_six(b)
}

impl Reader {
    /// Whether these bytes begin with a character of three, where nothing is half read of another and the line is read.
    #[inline(always)]
    fn begins_three(&self, bytes: &[u8]) -> bool
        ensures long { result ≡ true → 3 ≤ length bytes.now }
        ensures pending { result ≡ true → self.now.pending ≡ Nothing }
        ensures cooked { result ≡ true → is_raw self.now.half.line ≡ false }
        ensures three { result ≡ true → specs.is_three (get_or bytes.now 0 0) (get_or bytes.now 1 0) (get_or bytes.now 2 0) ≡ true }
    {
        bytes.len() >= 3
            && matches!(self.pending, Pending::Nothing)
            && !self.half.is_raw()
            && is_three(bytes[0], bytes[1], bytes[2])
    }

    /// The same of a character of two.
    #[inline(always)]
    fn begins_two(&self, bytes: &[u8]) -> bool
        ensures long { result ≡ true → 2 ≤ length bytes.now }
        ensures pending { result ≡ true → self.now.pending ≡ Nothing }
        ensures cooked { result ≡ true → is_raw self.now.half.line ≡ false }
        ensures two { result ≡ true → specs.is_two (get_or bytes.now 0 0) (get_or bytes.now 1 0) ≡ true }
    {
        bytes.len() >= 2
            && matches!(self.pending, Pending::Nothing)
            && !self.half.is_raw()
            && is_two(bytes[0], bytes[1])
    }

    /// Takes the character of three bytes that these begin with. Tells in how many steps.
    #[inline]
    fn take_three(&mut self, bytes: &[u8], out: &mut SliceVec<'_, u8>) -> u64
        requires long { 3 ≤ length bytes.now }
        requires pending { self.old.pending ≡ Nothing }
        requires cooked { is_raw self.old.half.line ≡ false }
        requires three { specs.is_three (get_or bytes.now 0 0) (get_or bytes.now 1 0) (get_or bytes.now 2 0) ≡ true }
        requires room { length out.old.items + 384 ≤ out.old.capacity }
        ensures taken { specs.Takes 3 bytes.now self.old self.new out.old.items out.new.items result }
        ensures few { length out.new.items ≤ length out.old.items + 384 }
        ensures quick { result ≤ 6 }
        ensures room { out.new.capacity ≡ out.old.capacity }
    {
        let code = three_code(bytes[0], bytes[1], bytes[2]);
        self.hear_wide(code, out)
    }

    /// The same of a character of two.
    #[inline]
    fn take_two(&mut self, bytes: &[u8], out: &mut SliceVec<'_, u8>) -> u64
        requires long { 2 ≤ length bytes.now }
        requires pending { self.old.pending ≡ Nothing }
        requires cooked { is_raw self.old.half.line ≡ false }
        requires two { specs.is_two (get_or bytes.now 0 0) (get_or bytes.now 1 0) ≡ true }
        requires room { length out.old.items + 384 ≤ out.old.capacity }
        ensures taken { specs.Takes 2 bytes.now self.old self.new out.old.items out.new.items result }
        ensures few { length out.new.items ≤ length out.old.items + 384 }
        ensures quick { result ≤ 6 }
        ensures room { out.new.capacity ≡ out.old.capacity }
    {
        let code = two_code(bytes[0], bytes[1]);
        self.hear_wide(code, out)
    }

    /// Takes a character of two or three bytes that these begin with, if they do and it can be taken whole. Tells how many bytes that took,
    /// and in how many steps.
    #[inline]
    fn take_whole(&mut self, bytes: &[u8], out: &mut SliceVec<'_, u8>) -> Taken
        requires { length out.old.items + 384 ≤ out.old.capacity }
        ensures taken { specs.Takes result.count bytes.now self.old self.new out.old.items out.new.items
            result.steps }
        ensures within { result.count ≤ length bytes.now }
        ensures left { result.count ≡ 0 → self.new ≡ self.old }
        ensures none { result.count ≡ 0 → out.new.items ≡ out.old.items }
        ensures few { length out.new.items ≤ length out.old.items + 384 * result.count }
        ensures quick { result.steps ≤ 6 * result.count }
        ensures room { out.new.capacity ≡ out.old.capacity }
    {
        if self.begins_three(bytes) {
            let steps = self.take_three(bytes, out);
            return Taken { count: 3, steps };
        }
        if self.begins_two(bytes) {
            let steps = self.take_two(bytes, out);
            return Taken { count: 2, steps };
        }
        Taken { count: 0, steps: 0 }
    }

    /// Takes the first of these bytes, or the character that they begin with. Tells how many bytes, and in how many steps.
    #[inline]
    pub(crate) fn take_beyond(&mut self, bytes: &[u8], out: &mut SliceVec<'_, u8>) -> Taken
        requires some { 0 < length bytes.now }
        requires room { length out.old.items + 1536 ≤ out.old.capacity }
        ensures taken { specs.Takes result.count bytes.now self.old self.new out.old.items out.new.items
            result.steps }
        ensures within { result.count ≤ length bytes.now }
        ensures some { 0 < result.count }
        ensures few { length out.new.items ≤ length out.old.items + 1536 * result.count }
        ensures quick { result.steps ≤ 24 * result.count }
        ensures room { out.new.capacity ≡ out.old.capacity }
    {
        let whole = self.take_whole(bytes, out);
        if whole.count > 0 {
            return whole;
        }
        self.take_one(bytes, out)
    }
}
