//! Interpolations and font escapes that stand whole in a stretch, taken in at once.
ghost use Rattle.std.specs.Prelude.{◌≡◌, ◌+◌, ◌<◌, ◌≤◌, ℕ, length, slice_get, Some, None, IfSome, true};
ghost use Rattle.nr_units.specs.Character.{code};
ghost use Rattle.nr_reading.specs.declared.ask.Kind.TheVariants as kinds;
ghost use Rattle.nr_reading.specs.declared.ask.Sign.TheVariants as signs;
ghost use Rattle.nr_reading.specs.declared.event.Event.TheVariants as events;
ghost use Rattle.nr_reading.specs.declared.next_item.NextItem.TheVariants as variants;
ghost use Rattle.nr_reading.specs.declared.half.Half.{Half as HalfRead};
ghost use Rattle.nr_reading.specs.declared.mode.PendingAct.TheVariants as pending_acts;
ghost use Rattle.nr_reading.specs.declared.mode.Mode.TheVariants as modes;
ghost use Rattle.nr_reading.specs.Ended.{pending_of, event_of};
ghost use Rattle.nr_reading.specs.Many.InText.{is_in_text};
ghost use Rattle.nr_reading.specs.Many.Interpolations.{AsksOnly, IsFont, IsName, interpolates, is_lone_name, is_named, begun, named};
ghost use Rattle.nr_reading.specs.Many.LineBeginnings.{is_at_text};
ghost use Rattle.nr_reading.specs.Many.Passing.{is_plain, quiet};
ghost use Rattle.nr_reading.specs.Many.Runs.{HasTakenIn, spot};

use crate::ask::{Kind, Sign, is_given};
use crate::event::Event;
use crate::half::Half;
use crate::many::passing::is_plain;
use crate::many::runs::{Items, Run};
use crate::mode::{Mode, PendingAct};
use nr_units::Name;

// The byte is a name of its own, where it comes first.
#[inline(always)]
fn is_lone_name(byte: u8) -> bool
    ensures { result ≡ is_lone_name byte }
{
    !(byte == b'\\'
        || byte == b'\n'
        || byte == b'('
        || byte == b'['
        || byte == b'+'
        || byte == b'-')
}

// The byte so many items after a place of a stretch, if there is one.
#[inline(always)]
fn byte_at<I: Items>(items: &I, place: usize, afterwards: usize) -> Option<u8>
    requires { place < length (I.next_items items.now) }
    ensures value { IfSome result (λ byte. slice_get (I.next_items items.now) (place + afterwards)
        ≡ Some (variants.Byte byte)) }
    ensures within { IfSome result (λ byte. place + afterwards < length (I.next_items items.now)) }
    ensures other { result ≡ None → (byte : ℕ) → slice_get (I.next_items items.now) (place + afterwards)
        ≡ Some (variants.Byte byte) → ⊥ }
{
    if afterwards < items.count() - place {
        return items.byte(place + afterwards);
    }
    None
}

impl Half {
    // Whether a `\` that comes next would begin an escape that may interpolate.
    #[inline(always)]
    fn interpolates(&self) -> bool
        ensures { result ≡ interpolates self.now }
    {
        let begins = match self.reading.mode {
            Mode::Text => true,
            Mode::Start => !self.signs.begins_control(b'\\'),
            mode => !mode.is_direct(),
        };
        self.reads_plainly() && begins
    }

    // What is pending after the name of a register. Answers what is emitted.
    #[inline(always)]
    fn end_register(&mut self, sign: Sign, name: Name) -> Event
        ensures half { self.new ≡ record self.old
            { reading = record self.old.reading { pending_act = pending_of (kinds.Register sign) name } } }
        ensures event { result ≡ event_of (kinds.Register sign) name }
    {
        if is_given(name.as_bytes()) {
            self.reading.pending_act = PendingAct::Look;
            return Event::Given;
        }
        self.reading.pending_act = PendingAct::Register(sign);
        Event::Nothing
    }

    // What is pending after the name of a string, a register or a font. Answers what is emitted.
    #[inline(always)]
    fn end_name(&mut self, kind: Kind, name: Name) -> Event
        requires kind { is_named kind ≡ true }
        ensures half { self.new ≡ named kind name self.old }
        ensures event { result ≡ event_of kind name }
    {
        self.notes.asked = name;
        match kind {
            Kind::Font => {
                self.reading.pending_act = PendingAct::Look;
                Event::Font
            }
            Kind::Register(sign) => self.end_register(sign, name),
            _ => {
                self.reading.pending_act = PendingAct::Splice;
                Event::Nothing
            }
        }
    }

    // The name was read, in so many items of the interpolation.
    #[inline(always)]
    fn end_named(&mut self, kind: Kind, name: Name, count: usize) -> Run
        requires kind { is_named kind ≡ true }
        ensures half { self.new ≡ named kind name self.old }
        ensures run { result ≡ record { taken = count; moves = count; event = event_of kind name } }
    {
        let event = self.end_name(kind, name);
        Run {
            taken: count,
            moves: count,
            event,
        }
    }

    // The name of a string, a register or a font is taken in, after so many items of its escape, which begins at a place. None where the
    // stretch has not all of it.
    #[inline(always)]
    fn take_in_named<I: Items>(
        &mut self,
        items: &I,
        place: usize,
        before: usize,
        kind: Kind,
    ) -> Option<Run>
        requires plain { interpolates self.old ≡ true }
        requires pending_act { self.old.reading.pending_act ≡ pending_acts.Look }
        requires kind { is_named kind ≡ true }
        requires few { before ≤ 3 }
        requires within { place < length (I.next_items items.now) }
        ensures taken_in { IfSome result (λ run. (h : HalfRead) (n : ℕ)
            → HasTakenIn (n + before) (I.next_items items.now) h (quiet (place + before) (begun kind self.old)) →
            HasTakenIn (n + run.moves) (I.next_items items.now) h
            (record { taken = place + run.taken; half = self.new; event = run.event })) }
        ensures least { IfSome result (λ run. before < run.taken) }
        ensures few { IfSome result (λ run. run.moves ≤ 6) }
        ensures taken { IfSome result (λ run. run.taken ≡ run.moves) }
        ensures within { IfSome result (λ run. place + run.taken ≤ length (I.next_items items.now)) }
        ensures pending_act { IfSome result (λ run. run.event ≡ events.Nothing → self.new.reading.pending_act ≡ pending_acts.Look
            → ⊥) }
        ensures font { IfSome result (λ run. kind ≡ kinds.Font → run.event ≡ events.Font) }
        ensures text { self.old.reading.mode ≡ modes.Text → AsksOnly self.old self.new }
        ensures afterwards { IfSome result (λ run. kind ≡ kinds.Font → self.old.reading.mode ≡ modes.Text
            → is_in_text self.new ≡ true) }
        ensures left { result ≡ None → self.new ≡ self.old }
        ensures lone { result ≡ None → (name : ℕ) → slice_get (I.next_items items.now) (place + before)
            ≡ Some (variants.Byte name) → is_lone_name name ≡ true → ⊥ }
        ensures pair { result ≡ None → (one two : ℕ) → slice_get (I.next_items items.now) (place + before)
            ≡ Some (variants.Byte (code "(")) → slice_get (I.next_items items.now) (place + (before + 1))
            ≡ Some (variants.Byte one) →
            slice_get (I.next_items items.now) (place + (before + 2)) ≡ Some (variants.Byte two)
            → is_plain one ≡ true → is_plain two ≡ true → ⊥ }
    {
        let Some(first) = byte_at(items, place, before) else {
            return None;
        };
        if is_lone_name(first) {
            return Some(self.end_named(kind, Name::of(&[first]), before + 1));
        }
        if first != b'(' {
            return None;
        }
        let Some(one) = byte_at(items, place, before + 1) else {
            return None;
        };
        let Some(two) = byte_at(items, place, before + 2) else {
            return None;
        };
        if !is_plain(one) || !is_plain(two) {
            return None;
        }
        Some(self.end_named(kind, Name::of(&[one, two]), before + 3))
    }

    // The number of an argument is taken in.
    #[inline(always)]
    fn take_in_number<I: Items>(&mut self, items: &I, place: usize) -> Option<Run>
        requires plain { interpolates self.old ≡ true }
        requires pending_act { self.old.reading.pending_act ≡ pending_acts.Look }
        requires within { place < length (I.next_items items.now) }
        ensures taken_in { IfSome result (λ run. (h : HalfRead) (n : ℕ)
            → HasTakenIn (n + 2) (I.next_items items.now) h (quiet (place + 2) (begun kinds.Argument self.old)) →
            HasTakenIn (n + run.moves) (I.next_items items.now) h
            (record { taken = place + run.taken; half = self.new; event = run.event })) }
        ensures few { IfSome result (λ run. run.moves ≤ 6) }
        ensures taken { IfSome result (λ run. run.taken ≡ run.moves) }
        ensures within { IfSome result (λ run. place + run.taken ≤ length (I.next_items items.now)) }
        ensures pending_act { IfSome result (λ run. run.event ≡ events.Nothing → self.new.reading.pending_act ≡ pending_acts.Look
            → ⊥) }
        ensures text { self.old.reading.mode ≡ modes.Text → AsksOnly self.old self.new }
        ensures left { result ≡ None → self.new ≡ self.old }
    {
        let Some(byte) = byte_at(items, place, 2) else {
            return None;
        };
        if byte < b'1' || byte > b'9' {
            return None;
        }
        self.reading.pending_act = PendingAct::Argument(byte - b'1');
        Some(Run {
            taken: 3,
            moves: 3,
            event: Event::Nothing,
        })
    }

    // A register's sign, if it has one, and its name are taken in.
    #[inline(always)]
    fn take_in_register<I: Items>(&mut self, items: &I, place: usize) -> Option<Run>
        requires plain { interpolates self.old ≡ true }
        requires pending_act { self.old.reading.pending_act ≡ pending_acts.Look }
        requires within { place < length (I.next_items items.now) }
        ensures taken_in { IfSome result (λ run. (h : HalfRead) (n : ℕ)
            → HasTakenIn (n + 2) (I.next_items items.now) h
            (quiet (place + 2) (begun (kinds.Register signs.None) self.old)) →
            HasTakenIn (n + run.moves) (I.next_items items.now) h
            (record { taken = place + run.taken; half = self.new; event = run.event })) }
        ensures few { IfSome result (λ run. run.moves ≤ 6) }
        ensures taken { IfSome result (λ run. run.taken ≡ run.moves) }
        ensures within { IfSome result (λ run. place + run.taken ≤ length (I.next_items items.now)) }
        ensures pending_act { IfSome result (λ run. run.event ≡ events.Nothing → self.new.reading.pending_act ≡ pending_acts.Look
            → ⊥) }
        ensures text { self.old.reading.mode ≡ modes.Text → AsksOnly self.old self.new }
        ensures left { result ≡ None → self.new ≡ self.old }
    {
        match byte_at(items, place, 2) {
            Some(b'+') => self.take_in_named(items, place, 3, Kind::Register(Sign::Plus)),
            Some(b'-') => self.take_in_named(items, place, 3, Kind::Register(Sign::Minus)),
            _ => self.take_in_named(items, place, 2, Kind::Register(Sign::None)),
        }
    }

    // A font escape is taken in at the beginning of a line, whose text begins with it. None where its name is not one byte.
    #[inline(always)]
    fn begin_font<I: Items>(&mut self, items: &I, place: usize) -> Option<Run>
        requires plain { interpolates self.old ≡ true }
        requires pending_act { self.old.reading.pending_act ≡ pending_acts.Look }
        requires start { self.old.reading.mode ≡ modes.Start }
        requires within { place + 1 < length (I.next_items items.now) }
        requires backslash { slice_get (I.next_items items.now) place ≡ Some (variants.Byte (code "\\")) }
        requires font { slice_get (I.next_items items.now) (place + 1) ≡ Some (variants.Byte (code "f")) }
        ensures taken_in { IfSome result (λ run. (h : HalfRead) (n : ℕ)
            → HasTakenIn n (I.next_items items.now) h (quiet place self.old) →
            HasTakenIn (n + run.moves) (I.next_items items.now) h
            (record { taken = place + run.taken; half = self.new; event = run.event })) }
        ensures least { IfSome result (λ run. 3 ≤ run.taken) }
        ensures few { IfSome result (λ run. run.moves ≤ 6) }
        ensures taken { IfSome result (λ run. run.moves ≡ run.taken + 1) }
        ensures within { IfSome result (λ run. place + run.taken ≤ length (I.next_items items.now)) }
        ensures pending_act { IfSome result (λ run. run.event ≡ events.Nothing → self.new.reading.pending_act ≡ pending_acts.Look
            → ⊥) }
        ensures font { IfSome result (λ run. run.event ≡ events.Font) }
        ensures text { self.old.reading.mode ≡ modes.Text → AsksOnly self.old self.new }
        ensures afterwards { IfSome result (λ run. is_in_text self.new ≡ true) }
        ensures left { result ≡ None → self.new ≡ self.old }
        ensures lone { result ≡ None → (name : ℕ) → slice_get (I.next_items items.now) (place + 2)
            ≡ Some (variants.Byte name) → is_lone_name name ≡ true → ⊥ }
    {
        let Some(name) = byte_at(items, place, 2) else {
            return None;
        };
        if !is_lone_name(name) {
            return None;
        }
        self.begin_text();
        let event = self.end_name(Kind::Font, Name::of(&[name]));
        Some(Run {
            taken: 3,
            moves: 4,
            event,
        })
    }

    // A font escape is taken in, in the midst of a text line or at the beginning of a line, and none elsewhere.
    #[inline(always)]
    fn take_in_font<I: Items>(&mut self, items: &I, place: usize) -> Option<Run>
        requires plain { interpolates self.old ≡ true }
        requires pending_act { self.old.reading.pending_act ≡ pending_acts.Look }
        requires within { place + 1 < length (I.next_items items.now) }
        requires backslash { slice_get (I.next_items items.now) place ≡ Some (variants.Byte (code "\\")) }
        requires font { slice_get (I.next_items items.now) (place + 1) ≡ Some (variants.Byte (code "f")) }
        ensures taken_in { IfSome result (λ run. (h : HalfRead) (n : ℕ)
            → HasTakenIn n (I.next_items items.now) h (quiet place self.old) →
            HasTakenIn (n + run.moves) (I.next_items items.now) h
            (record { taken = place + run.taken; half = self.new; event = run.event })) }
        ensures least { IfSome result (λ run. 3 ≤ run.taken) }
        ensures few { IfSome result (λ run. run.moves ≤ 6) }
        ensures taken { IfSome result (λ run. run.taken ≤ run.moves) }
        ensures within { IfSome result (λ run. place + run.taken ≤ length (I.next_items items.now)) }
        ensures pending_act { IfSome result (λ run. run.event ≡ events.Nothing → self.new.reading.pending_act ≡ pending_acts.Look
            → ⊥) }
        ensures font { IfSome result (λ run. run.event ≡ events.Font) }
        ensures in_line { self.old.reading.mode ≡ modes.Text → IfSome result (λ run. run.moves ≡ run.taken) }
        ensures at_start { self.old.reading.mode ≡ modes.Start
            → IfSome result (λ run. run.moves ≡ run.taken + 1) }
        ensures text { self.old.reading.mode ≡ modes.Text → AsksOnly self.old self.new }
        ensures afterwards { IfSome result (λ run. is_in_text self.new ≡ true) }
        ensures left { result ≡ None → self.new ≡ self.old }
        ensures longest { result ≡ None → is_at_text self.old ≡ true
            → IsName (is_in_text self.old) (I.next_items items.now) (place + 2) → ⊥ }
    {
        match self.reading.mode {
            Mode::Text => self.take_in_named(items, place, 2, Kind::Font),
            Mode::Start => self.begin_font(items, place),
            _ => None,
        }
    }

    /// An interpolation `\$N`, `\nX`, `\n(XX` or `\*X`, `\*(XX`, with a sign or not, or in a text line a font escape `\fX`, `\f(XX`, is taken in
    /// at once that begins at this place of a stretch, with a `\`. None where the stretch has not all of it, or it isn't one of these.
    ///
    /// Proved: An interpolation `\$N`, or of a string or a register whose name has one byte or two, is taken in by one
    /// call as byte by byte, where the stretch has all of it, and so is a font escape in text, or with a name of one byte
    /// at a line's beginning.
    #[inline(always)]
    pub(crate) fn take_in_interpolation<I: Items>(&mut self, items: &I, place: usize) -> Option<Run>
        requires pending_act { self.old.reading.pending_act ≡ pending_acts.Look }
        requires within { place < length (I.next_items items.now) }
        requires backslash { slice_get (I.next_items items.now) place ≡ Some (variants.Byte (code "\\")) }
        ensures taken_in { IfSome result (λ run. (h : HalfRead) (n : ℕ)
            → HasTakenIn n (I.next_items items.now) h (quiet place self.old) →
            HasTakenIn (n + run.moves) (I.next_items items.now) h
            (record { taken = place + run.taken; half = self.new; event = run.event })) }
        ensures few { IfSome result (λ run. run.moves ≤ 6) }
        ensures taken { IfSome result (λ run. run.taken ≤ run.moves) }
        ensures within { IfSome result (λ run. place + run.taken ≤ length (I.next_items items.now)) }
        ensures pending_act { IfSome result (λ run. run.event ≡ events.Nothing → self.new.reading.pending_act ≡ pending_acts.Look
            → ⊥) }
        ensures text { self.old.reading.mode ≡ modes.Text → AsksOnly self.old self.new }
        ensures left { result ≡ None → self.new ≡ self.old }
    {
        if !self.interpolates() {
            return None;
        }
        match byte_at(items, place, 1) {
            Some(b'$') => self.take_in_number(items, place),
            Some(b'n') => self.take_in_register(items, place),
            Some(b'*') => self.take_in_named(items, place, 2, Kind::String),
            Some(b'f') => self.take_in_font(items, place),
            _ => None,
        }
    }

    /// The font escape that a stretch begins with is taken in where an item is looked at next: `\fX` or `\f(XX` in the midst of a text line, `\fX` at the
    /// beginning of a line. None where the stretch has not all of it, or it begins otherwise.
    #[inline(always)]
    pub fn take_in_next_font<I: Items>(&mut self, items: &I) -> Option<Run>
        ensures taken_in { IfSome result
            (λ run. HasTakenIn run.moves (I.next_items items.now) self.old (spot run self.new)) }
        ensures font { IfSome result (λ run. run.event ≡ events.Font) }
        ensures least { IfSome result (λ run. 3 ≤ run.taken) }
        ensures few { IfSome result (λ run. run.moves ≤ 6) }
        ensures in_line { self.old.reading.mode ≡ modes.Text → IfSome result (λ run. run.moves ≡ run.taken) }
        ensures at_start { self.old.reading.mode ≡ modes.Start
            → IfSome result (λ run. run.moves ≡ run.taken + 1) }
        ensures afterwards { IfSome result (λ run. is_in_text self.new ≡ true) }
        ensures left { result ≡ None → self.new ≡ self.old }
        ensures longest { result ≡ None → is_at_text self.old ≡ true → interpolates self.old ≡ true
            → IsFont (is_in_text self.old) (I.next_items items.now) → ⊥ }
    {
        if !matches!(self.reading.pending_act, PendingAct::Look)
            || items.count() < 2
            || !self.interpolates()
        {
            return None;
        }
        match (items.byte(0), items.byte(1)) {
            (Some(b'\\'), Some(b'f')) => self.take_in_font(items, 0),
            _ => None,
        }
    }

    /// The interpolation or font escape that a stretch begins with is taken in, as `take_in_interpolation` says, where an item is looked at next.
    #[inline(always)]
    pub fn take_in_next<I: Items>(&mut self, items: &I) -> Option<Run>
        ensures taken_in { IfSome result
            (λ run. HasTakenIn run.moves (I.next_items items.now) self.old (spot run self.new)) }
        ensures few { IfSome result (λ run. run.moves ≤ 6) }
        ensures text { self.old.reading.mode ≡ modes.Text → AsksOnly self.old self.new }
        ensures left { result ≡ None → self.new ≡ self.old }
    {
        if !matches!(self.reading.pending_act, PendingAct::Look) || items.count() == 0 {
            return None;
        }
        match items.byte(0) {
            Some(b'\\') => self.take_in_interpolation(items, 0),
            _ => None,
        }
    }
}
