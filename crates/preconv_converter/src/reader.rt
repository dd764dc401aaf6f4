//! Bytes become characters: UTF-8, and Latin-1 where they are none.
ghost use Rattle.std.specs.Prelude.{◌≡◌, ◌+◌, ◌*◌, ◌<◌, ◌≤◌, ◌++◌, length, true, false};
ghost use Rattle.preconv_lines.specs.declared.half.Coming.TheVariants.{Wide};
ghost use Rattle.preconv_converter.specs.Reading as specs;

use nr_vectors::slice_vec::SliceVec;
use preconv_characters::{Target, put_sent, say, say_character, sent};
use preconv_lines::{Coming, Half, Line};

/// What was read of a character of several bytes.
#[derive(Clone, Copy)]
pub(crate) enum Pending {
    /// Nothing.
    Nothing,
    /// Its first byte.
    One(u8),
    /// Two bytes.
    Two(u8, u8),
    /// Three bytes.
    Three(u8, u8, u8),
}

/// What is half read of a page.
#[derive(Clone, Copy)]
pub(crate) struct Reader {
    /// Of a line.
    pub half: Half,
    /// Of a character.
    pub pending: Pending,
    /// What characters beyond ASCII become.
    pub table: Target,
}

/// So many bytes were taken, in so many steps.
#[derive(Clone, Copy)]
pub(crate) struct Taken {
    /// How many bytes.
    pub count: usize,
    /// How many steps.
    pub steps: u64,
}

/// How many bytes go out for one that comes, at most, and how many are taken at once.
pub(crate) const MOST: usize = 1536;

/// How often a character is offered at most.
const MEETINGS: u8 = 6;

/// Whether a byte begins a character of several bytes.
fn is_lead(byte: u8) -> bool
    ensures { result ≡ specs.is_lead byte }
{
    matches!(byte, 0xC2..=0xF4)
}

/// Whether a byte goes on a character.
pub(crate) fn is_tail(byte: u8) -> bool
    ensures { result ≡ specs.is_tail byte }
{
    matches!(byte, 0x80..=0xBF)
}

/// Whether a byte may be the second of a character.
pub(crate) fn is_second(first: u8, byte: u8) -> bool
    ensures { result ≡ specs.is_second first byte }
{
    match first {
        0xE0 => matches!(byte, 0xA0..=0xBF),
        0xED => matches!(byte, 0x80..=0x9F),
        0xF0 => matches!(byte, 0x90..=0xBF),
        0xF4 => matches!(byte, 0x80..=0x8F),
        _ => is_tail(byte),
    }
}

/// The low six bits of a byte.
pub(crate) fn low_six(byte: u8) -> u32
    ensures value { result ≡ specs.low_six byte }
    ensures small { result < 64 }
{
    u32::from(byte % 64)
}

impl Reader {
    /// A page begins.
    pub(crate) fn new(table: Target) -> Reader
        ensures { result ≡ specs.first_reader table }
    {
        Reader {
            half: Half::new(),
            pending: Pending::Nothing,
            table,
        }
    }

    /// A character comes, and is taken in one step where it goes out as it is.
    #[inline(always)]
    fn hears_as_is(&mut self, coming: Coming, most: u8, out: &mut SliceVec<'_, u8>) -> bool
        requires { 0 < most → length out.old.items < out.old.capacity }
        ensures reader { result ≡ true → self.new ≡ (specs.heard_in most coming self.old).reader }
        ensures items { result ≡ true
            → out.new.items ≡ out.old.items ++ (specs.heard_in most coming self.old).bytes }
        ensures steps { result ≡ true → (specs.heard_in most coming self.old).steps ≡ 1 }
        ensures left { result ≡ false → self.new ≡ self.old }
        ensures none { result ≡ false → out.new.items ≡ out.old.items }
        ensures few { length out.new.items ≤ length out.old.items + 1 }
        ensures room { out.new.capacity ≡ out.old.capacity }
    {
        match coming {
            Coming::Byte(byte) if most > 0 && self.half.takes_as_is(byte) => {
                self.half.takes(byte);
                out.push(byte);
                true
            }
            _ => false,
        }
    }

    /// A character comes, and is offered so many times at most. Tells how many steps that took.
    fn hear_in(&mut self, coming: Coming, most: u8, out: &mut SliceVec<'_, u8>) -> u64
        requires { length out.old.items + 64 * most ≤ out.old.capacity }
        ensures reader { self.new ≡ (specs.heard_in most coming self.old).reader }
        ensures items { out.new.items ≡ out.old.items ++ (specs.heard_in most coming self.old).bytes }
        ensures steps { result ≡ (specs.heard_in most coming self.old).steps }
        ensures few { length out.new.items ≤ length out.old.items + 64 * most }
        ensures quick { result ≤ most }
        ensures room { out.new.capacity ≡ out.old.capacity }
    {
        if most == 0 {
            return 0;
        }
        let seen = self.half.offer(coming);
        say(seen.said, self.table, out);
        if seen.takes {
            return 1;
        }
        if self.hears_as_is(coming, most - 1, out) {
            return 2;
        }
        1 + self.hear_in(coming, most - 1, out)
    }

    /// A character comes. Tells how many steps that took, as all below do.
    #[tactic(auto, unfolding(crate::specs::Reading::heard))]
    fn hear(&mut self, coming: Coming, out: &mut SliceVec<'_, u8>) -> u64
        requires { length out.old.items + 384 ≤ out.old.capacity }
        ensures reader { self.new ≡ (specs.heard coming self.old).reader }
        ensures items { out.new.items ≡ out.old.items ++ (specs.heard coming self.old).bytes }
        ensures steps { result ≡ (specs.heard coming self.old).steps }
        ensures few { length out.new.items ≤ length out.old.items + 384 }
        ensures quick { result ≤ 6 }
        ensures room { out.new.capacity ≡ out.old.capacity }
    {
        self.hear_in(coming, MEETINGS, out)
    }

    /// A byte that is no part of a character of several bytes comes as Latin-1.
    fn hear_stray(&mut self, byte: u8, out: &mut SliceVec<'_, u8>) -> u64
        requires { length out.old.items + 384 ≤ out.old.capacity }
        ensures reader { self.new ≡ (specs.stray byte self.old).reader }
        ensures items { out.new.items ≡ out.old.items ++ (specs.stray byte self.old).bytes }
        ensures steps { result ≡ (specs.stray byte self.old).steps }
        ensures few { length out.new.items ≤ length out.old.items + 384 }
        ensures quick { result ≤ 6 }
        ensures room { out.new.capacity ≡ out.old.capacity }
    {
        self.hear(Coming::Wide(u32::from(byte)), out)
    }

    /// What was read of a character was none: its bytes come one by one.
    fn hear_pending(&mut self, out: &mut SliceVec<'_, u8>) -> u64
        requires { length out.old.items + 1152 ≤ out.old.capacity }
        ensures reader { self.new ≡ (specs.pending_heard self.old).reader }
        ensures items { out.new.items ≡ out.old.items ++ (specs.pending_heard self.old).bytes }
        ensures steps { result ≡ (specs.pending_heard self.old).steps }
        ensures few { length out.new.items ≤ length out.old.items + 1152 }
        ensures quick { result ≤ 18 }
        ensures room { out.new.capacity ≡ out.old.capacity }
    {
        let pending = self.pending;
        self.pending = Pending::Nothing;
        match pending {
            Pending::Nothing => 0,
            Pending::One(a) => self.hear_stray(a, out),
            Pending::Two(a, b) => self.hear_stray(a, out) + self.hear_stray(b, out),
            Pending::Three(a, b, c) => {
                self.hear_stray(a, out) + self.hear_stray(b, out) + self.hear_stray(c, out)
            }
        }
    }

    /// A byte comes, and no part of a character is pending.
    #[inline]
    fn hear_fresh(&mut self, byte: u8, out: &mut SliceVec<'_, u8>) -> u64
        requires { length out.old.items + 384 ≤ out.old.capacity }
        ensures reader { self.new ≡ (specs.fresh byte self.old).reader }
        ensures items { out.new.items ≡ out.old.items ++ (specs.fresh byte self.old).bytes }
        ensures steps { result ≡ (specs.fresh byte self.old).steps }
        ensures few { length out.new.items ≤ length out.old.items + 384 }
        ensures quick { result ≤ 6 }
        ensures room { out.new.capacity ≡ out.old.capacity }
    {
        if byte < 127 {
            return self.hear(Coming::Byte(byte), out);
        }
        if is_lead(byte) {
            self.pending = Pending::One(byte);
            return 0;
        }
        self.hear_stray(byte, out)
    }

    /// What is pending and then this byte come one by one.
    fn hear_apart(&mut self, byte: u8, out: &mut SliceVec<'_, u8>) -> u64
        requires { length out.old.items + 1536 ≤ out.old.capacity }
        ensures reader { self.new ≡ (specs.apart byte self.old).reader }
        ensures items { out.new.items ≡ out.old.items ++ (specs.apart byte self.old).bytes }
        ensures steps { result ≡ (specs.apart byte self.old).steps }
        ensures few { length out.new.items ≤ length out.old.items + 1536 }
        ensures quick { result ≤ 24 }
        ensures room { out.new.capacity ≡ out.old.capacity }
    {
        self.hear_pending(out) + self.hear_fresh(byte, out)
    }

    /// A character beyond ASCII comes: in a text line in one step.
    pub(crate) fn hear_wide(&mut self, code: u32, out: &mut SliceVec<'_, u8>) -> u64
        requires { length out.old.items + 384 ≤ out.old.capacity }
        ensures reader { self.new ≡ (specs.heard (Wide code) self.old).reader }
        ensures items { out.new.items ≡ out.old.items ++ (specs.heard (Wide code) self.old).bytes }
        ensures steps { result ≡ (specs.heard (Wide code) self.old).steps }
        ensures few { length out.new.items ≤ length out.old.items + 384 }
        ensures quick { result ≤ 6 }
        ensures room { out.new.capacity ≡ out.old.capacity }
    {
        if self.half.takes_wide(code) {
            say_character(code, self.table, out);
            return 1;
        }
        self.hear(Coming::Wide(code), out)
    }

    /// A character of several bytes is whole.
    fn hear_whole(&mut self, code: u32, out: &mut SliceVec<'_, u8>) -> u64
        requires { length out.old.items + 384 ≤ out.old.capacity }
        ensures reader { self.new ≡ (specs.whole code self.old).reader }
        ensures items { out.new.items ≡ out.old.items ++ (specs.whole code self.old).bytes }
        ensures steps { result ≡ (specs.whole code self.old).steps }
        ensures few { length out.new.items ≤ length out.old.items + 384 }
        ensures quick { result ≤ 6 }
        ensures room { out.new.capacity ≡ out.old.capacity }
    {
        self.pending = Pending::Nothing;
        self.hear_wide(code, out)
    }

    /// A byte comes that is read.
    #[inline]
    fn hear_byte(&mut self, byte: u8, out: &mut SliceVec<'_, u8>) -> u64
        requires { length out.old.items + 1536 ≤ out.old.capacity }
        ensures reader { self.new ≡ (specs.heard_byte byte self.old).reader }
        ensures items { out.new.items ≡ out.old.items ++ (specs.heard_byte byte self.old).bytes }
        ensures steps { result ≡ (specs.heard_byte byte self.old).steps }
        ensures few { length out.new.items ≤ length out.old.items + 1536 }
        ensures quick { result ≤ 24 }
        ensures room { out.new.capacity ≡ out.old.capacity }
    {
        match self.pending {
            Pending::Nothing => self.hear_fresh(byte, out),
            Pending::One(a) if is_second(a, byte) => {
                if a < 0xE0 {
                    let code = u32::from(a % 32) * 64 + low_six(byte);
                    self.hear_whole(code, out)
                } else {
                    self.pending = Pending::Two(a, byte);
                    0
                }
            }
            Pending::Two(a, b) if is_tail(byte) => {
                if a < 0xF0 {
                    let code = u32::from(a % 16) * 4096 + low_six(b) * 64 + low_six(byte);
                    self.hear_whole(code, out)
                } else {
                    self.pending = Pending::Three(a, b, byte);
                    0
                }
            }
            Pending::Three(a, b, c) if is_tail(byte) => {
                let code = u32::from(a % 8) * 262_144
                    + low_six(b) * 4096
                    + low_six(c) * 64
                    + low_six(byte);
                self.hear_whole(code, out)
            }
            _ => self.hear_apart(byte, out),
        }
    }

    /// A byte comes. At most 1536 bytes go out, in 24 steps at most.
    #[inline]
    pub(crate) fn read(&mut self, byte: u8, out: &mut SliceVec<'_, u8>) -> u64
        requires { length out.old.items + 1536 ≤ out.old.capacity }
        ensures reader { self.new ≡ (specs.read byte self.old).reader }
        ensures items { out.new.items ≡ out.old.items ++ (specs.read byte self.old).bytes }
        ensures steps { result ≡ (specs.read byte self.old).steps }
        ensures few { length out.new.items ≤ length out.old.items + 1536 }
        ensures quick { result ≤ 24 }
        ensures room { out.new.capacity ≡ out.old.capacity }
    {
        if self.half.is_raw() {
            self.half.passes(byte);
            out.push(sent(self.table, byte));
            return 1;
        }
        self.hear_byte(byte, out)
    }

    /// The end comes: what is half read goes out as it is. At most 1536 bytes go out, in 18 steps at most.
    pub(crate) fn finish(&mut self, out: &mut SliceVec<'_, u8>) -> u64
        requires { length out.old.items + 1536 ≤ out.old.capacity }
        ensures items { out.new.items ≡ out.old.items ++ specs.finished self.old }
        ensures steps { result ≡ (specs.pending_heard self.old).steps }
        ensures few { length out.new.items ≤ length out.old.items + 1536 }
        ensures quick { result ≤ 18 }
        ensures room { out.new.capacity ≡ out.old.capacity }
    {
        let steps = self.hear_pending(out);
        put_sent(self.half.kept.as_bytes(), self.table, out);
        if matches!(
            self.half.line,
            Line::Control | Line::Name | Line::Face | Line::Asked(_)
        ) {
            put_sent(self.half.name.as_bytes(), self.table, out);
        }
        steps
    }

    /// Takes the first of these bytes. Tells in how many steps.
    #[inline]
    pub(crate) fn take_one(&mut self, bytes: &[u8], out: &mut SliceVec<'_, u8>) -> Taken
        requires some { 0 < length bytes.now }
        requires room { length out.old.items + 1536 ≤ out.old.capacity }
        ensures taken { specs.Takes result.count bytes.now self.old self.new out.old.items out.new.items
            result.steps }
        ensures within { result.count ≤ length bytes.now }
        ensures some { 0 < result.count }
        ensures few { length out.new.items ≤ length out.old.items + 1536 * result.count }
        ensures quick { result.steps ≤ 24 * result.count }
        ensures room { out.new.capacity ≡ out.old.capacity }
    {
        let steps = self.read(bytes[0], out);
        Taken { count: 1, steps }
    }

    /// Takes the first of these bytes, or the beginning of a comment or of a control line. Tells how many, and in how many
    /// steps.
    #[inline(always)]
    fn take_first(&mut self, bytes: &[u8], out: &mut SliceVec<'_, u8>) -> Taken
        requires some { 0 < length bytes.now }
        requires few { length bytes.now ≤ 1536 }
        requires room { length out.old.items + 1536 ≤ out.old.capacity }
        ensures taken { specs.Takes result.count bytes.now self.old self.new out.old.items out.new.items
            result.steps }
        ensures within { result.count ≤ length bytes.now }
        ensures some { 0 < result.count }
        ensures few { length out.new.items ≤ length out.old.items + 1536 * result.count }
        ensures quick { result.steps ≤ 24 * result.count }
        ensures room { out.new.capacity ≡ out.old.capacity }
    {
        if self.pass_word(bytes[0]) {
            out.push(bytes[0]);
            return Taken { count: 1, steps: 3 };
        }
        if self.pass_comment(bytes) {
            out.extend_prefix(bytes, 3);
            return Taken { count: 3, steps: 4 };
        }
        let len = self.pass_name(bytes);
        if len > 0 {
            out.push(b'.');
            return Taken {
                count: len + 1,
                steps: len as u64 + 1,
            };
        }
        self.take_one(bytes, out)
    }

    /// Takes those of these bytes that come first: a run, the beginning of a control line, or what `take_first` takes. Tells
    /// how many, and in how many steps.
    fn take_prefix(&mut self, bytes: &[u8], out: &mut SliceVec<'_, u8>) -> Taken
        requires some { 0 < length bytes.now }
        requires few { length bytes.now ≤ 1536 }
        requires room { length out.old.items + 1536 ≤ out.old.capacity }
        ensures taken { specs.Takes result.count bytes.now self.old self.new out.old.items out.new.items
            result.steps }
        ensures within { result.count ≤ length bytes.now }
        ensures some { 0 < result.count }
        ensures few { length out.new.items ≤ length out.old.items + 1536 * result.count }
        ensures quick { result.steps ≤ 24 * result.count }
        ensures room { out.new.capacity ≡ out.old.capacity }
    {
        if bytes[0] >= 128 {
            let letters = self.pass_letters(bytes);
            if letters.count > 0 {
                out.extend_prefix(bytes, letters.count);
                return letters;
            }
            return self.take_beyond(bytes, out);
        }
        let run = self.pass(bytes);
        if run > 0 {
            out.extend_prefix(bytes, run);
            return Taken {
                count: run,
                steps: run as u64,
            };
        }
        let control = self.pass_control(bytes);
        if control > 0 {
            out.extend_prefix(bytes, control);
            return Taken {
                count: control,
                steps: control as u64 + 1,
            };
        }
        self.take_first(bytes, out)
    }

    /// Takes these bytes, at most 1536, one after another while there is room for what one of them may say.
    /// Tells how many, and in how many steps.
    pub(crate) fn take(&mut self, bytes: &[u8], out: &mut SliceVec<'_, u8>) -> Taken
        requires { length bytes.now ≤ 1536 }
        ensures taken { specs.Takes result.count bytes.now self.old self.new out.old.items out.new.items
            result.steps }
        ensures within { result.count ≤ length bytes.now }
        ensures few { length out.new.items ≤ length out.old.items + 1536 * result.count }
        ensures quick { result.steps ≤ 24 * result.count }
        ensures room { out.new.capacity ≡ out.old.capacity }
    {
        let mut count = 0;
        let mut steps = 0;
        while count < bytes.len() && out.capacity() - out.len() >= MOST {
            let more = self.take_prefix(&bytes[count..], out);
            count += more.count;
            steps += more.steps;
        }
        Taken { count, steps }
    }
}
