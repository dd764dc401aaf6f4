//! The levels that are open, and the bytes and arguments that they keep.
ghost use Rattle.std.specs.Prelude.{◌≡◌, ◌+◌, ◌*◌, ◌/◌, ◌^◌, ◌<◌, ◌≤◌, [], length, min, sum, nat_le, Some, None, IfOk};
ghost use Rattle.nr_levels.specs.Levels.{Text, Own, total, next_item_of, advanced, HasNext, HasEnd, HasMark, deeper, closed, charge_of_newest, resumed, argument, cut};
ghost use Rattle.nr_levels.specs.Frame.{mode_of, modes_after, modes_in};
ghost use Rattle.nr_levels.specs.Further.{further_on, NewestReaches};
ghost use Rattle.nr_levels.specs.Windows.{source_in, rest_of};
ghost use Rattle.nr_levels.specs.Moving.{Comes};
ghost use Rattle.nr_levels.specs.declared.frame.NextItem.TheVariants as next_items;

use crate::frame::{Frame, Next, Reads, Rest, Span};
use crate::spans::{push_spans, span_of};
use crate::stack::Stack;
use nr_pool::Id;
use nr_vectors::{CountedAlloc, FixedVec};
use std::alloc::AllocError;
use std::marker::Model;

/// The levels that are open, the newest first, with a capacity that stays. Bytes that a level brings
/// lie on a stack, and so do the places of arguments: a level's end takes away what came with it, and nothing is ever
/// moved. The modes to resume lie on a stack of their own. Each call takes constant time, and that of a copy of the
/// bytes that it is given; `new` is the only one that allocates.
///
/// A level whose end was taken stays while the mode after it is still to be resumed.
#[derive(Drop)]
pub struct Levels<K: Copy> {
    frames: Stack<Frame>,
    // The modes of the frames that have one.
    modes: Stack<K>,
    bytes: FixedVec<u8>,
    places: FixedVec<Span>,
    // The arguments in force, in `places`.
    in_force: Span,
}

impl<K: Copy> Model for Levels<K> {
    ghost use Rattle.nr_levels.specs.Levels.{Levels};
    ghost use Rattle.nr_levels.specs.Frame.{levels_of, AreLevels, AreModes};

    ghost Value = { Levels K };

    ghost view = { λ s. levels_of s.frames.items s.modes.items s.bytes.items s.places.items s.in_force
        s.bytes.capacity s.frames.capacity };

    ghost invariant = { λ s. (AreLevels s.frames.items s.bytes.items s.places.items s.in_force
        s.bytes.capacity s.frames.capacity s.places.capacity)
        × (AreModes s.frames.items s.modes.items s.modes.capacity s.frames.capacity) };
}

// Keeps a mode, if there is one. Tells whether there is.
#[inline(always)]
fn keep<K: Copy>(modes: &mut Stack<K>, mode: Option<K>) -> bool
    requires { length modes.old.items < modes.old.capacity }
    ensures mode { mode_of result modes.new.items ≡ mode }
    ensures rest { modes_after result modes.new.items ≡ modes.old.items }
    ensures count { length modes.new.items ≡ modes_in result + length modes.old.items }
    ensures room { modes.new.capacity ≡ modes.old.capacity }
{
    match mode {
        Some(mode) => {
            modes.push(mode);
            true
        }
        None => false,
    }
}

impl<K: Copy> Levels<K> {
    /// No levels, with room for `most` of them, and for the bytes of levels that are charged `capacity` together:
    /// `AllocError` where there is no memory for them.
    pub fn new(
        alloc: &mut CountedAlloc,
        capacity: usize,
        most: usize,
    ) -> Result<Levels<K>, AllocError>
        requires { capacity < 2 ^ 32 }
        ensures made { IfOk result (λ made. made ≡ record {
          levels = [];
          arguments = [];
          capacity = capacity;
          most = most;
        }) }
        ensures taken { IfOk result (λ made.
            alloc.new ≡ alloc.old + 2 * most + capacity + 9 * min most (capacity / 16)) }
    {
        let bytes = FixedVec::new(alloc, capacity)?;
        let places = FixedVec::new(alloc, 9 * most.min(capacity / 16))?;
        let modes = Stack::new(alloc, most)?;
        let frames = Stack::new(alloc, most)?;
        Ok(Levels {
            frames,
            modes,
            bytes,
            places,
            in_force: Span { first: 0, last: 0 },
        })
    }

    /// Takes all levels and arguments away.
    pub fn clear(&mut self)
        ensures { self.new ≡ record self.old { levels = []; arguments = [] } }
    {
        self.frames.clear();
        self.modes.clear();
        self.bytes.clear();
        self.places.clear();
        self.in_force = Span { first: 0, last: 0 };
    }

    /// Takes the levels and arguments of another with as much room in place of its own.
    pub fn copy_from(&mut self, other: &Levels<K>)
        requires capacity { other.now.capacity ≡ self.old.capacity }
        requires most { other.now.most ≡ self.old.most }
        ensures { self.new ≡ other.now }
    {
        self.frames.copy_from(&other.frames);
        self.modes.copy_from(&other.modes);
        self.bytes.copy_from(&other.bytes);
        self.places.copy_from(&other.places);
        self.in_force = other.in_force;
    }

    /// How many levels there is memory for, as their vector tells.
    pub fn frame_memory(&self) -> usize
        ensures { result ≡ self.now.most }
    {
        self.frames.memory()
    }

    /// How many modes there is memory for, as their vector tells.
    pub fn mode_memory(&self) -> usize
        ensures { result ≡ self.now.most }
    {
        self.modes.memory()
    }

    /// How many bytes there is memory for, as their vector tells.
    pub fn byte_memory(&self) -> usize
        ensures { result ≡ self.now.capacity }
    {
        self.bytes.memory()
    }

    /// How many places of arguments there is memory for, as their vector tells.
    pub fn place_memory(&self) -> usize
        ensures { result ≡ 9 * min self.now.most (self.now.capacity / 16) }
    {
        self.places.memory()
    }

    /// How many levels there are.
    #[inline]
    pub fn depth(&self) -> usize
        ensures value { result ≡ length self.now.levels }
        ensures within { result ≤ self.now.most }
    {
        self.frames.len()
    }

    /// Whether there may be no level more.
    #[inline]
    pub fn is_full(&self) -> bool
        ensures { result ≡ nat_le self.now.most (length self.now.levels) }
    {
        self.frames.len() >= self.frames.capacity()
    }

    /// What the newest level gives next.
    ///
    /// Proved: What comes next of the newest level, and all that is left of it, are those of the definition.
    /// (`Levels::{next_item, rest}`)
    #[inline(always)]
    pub fn next_item(&self) -> Next
        ensures { Comes result (next_item_of self.now.levels) }
    {
        if self.frames.is_empty() {
            return Next::Nothing;
        }
        match self.frames.at(0).reads {
            Reads::Text(id, place) => Next::Text(id, place),
            Reads::Own(span) => {
                if span.first >= span.last {
                    return Next::End;
                }
                Next::Byte(self.bytes.get(span.first as usize))
            }
            Reads::Mark => Next::Resume,
        }
    }

    /// What is left of the newest level: no bytes where there is none, and where its end was taken.
    #[inline(always)]
    pub fn rest(&self) -> Rest<'_>
        ensures { source_in result ≡ rest_of self.now.levels }
    {
        if self.frames.is_empty() {
            return Rest::Bytes(&[]);
        }
        match self.frames.at(0).reads {
            Reads::Text(id, place) => Rest::Text(id, place),
            Reads::Own(span) => {
                if span.last <= span.first {
                    return Rest::Bytes(&[]);
                }
                Rest::Bytes(&self.bytes.as_slice()[span.first as usize..span.last as usize])
            }
            Reads::Mark => Rest::Bytes(&[]),
        }
    }

    /// Takes the mode that comes next away, and puts it into `mode`.
    ///
    /// Proved: After the end of a sprung text the mode is resumed that it interrupted.
    pub fn resume(&mut self, mode: &mut K)
        requires { HasMark (next_item_of self.old.levels) }
        ensures mode { next_item_of self.old.levels ≡ Some (next_items.Resume mode.new) }
        ensures rest { self.new ≡ resumed self.old.levels self.old }
    {
        *mode = self.modes.get(0);
        self.drop_mode();
    }

    /// Takes the mode that comes next away.
    pub fn drop_mode(&mut self)
        requires { HasMark (next_item_of self.old.levels) }
        ensures { self.new ≡ resumed self.old.levels self.old }
    {
        self.frames.pop();
        self.modes.pop();
    }

    /// The newest level goes on after the element that it gave.
    ///
    /// Proved: The newest level goes on by one element or by many, as asked. (`Levels::{advance, skip}`)
    #[inline]
    pub fn advance(&mut self)
        requires { HasNext (next_item_of self.old.levels) }
        ensures { self.new ≡ record self.old { levels = advanced self.old.levels } }
    {
        self.frames.go_on(1);
    }

    /// The newest level goes on after so many elements.
    #[inline(always)]
    pub fn skip(&mut self, n: u32)
        requires { NewestReaches n self.old.levels }
        ensures { self.new ≡ record self.old { levels = further_on n self.old.levels } }
    {
        if self.frames.is_empty() {
            return;
        }
        self.frames.go_on(n);
    }

    /// Opens a level that reads a text, with no arguments in force, and with a mode to resume after its end.
    ///
    /// Proved: A level is opened over a text, a macro with its arguments, bytes, or an argument that is in force.
    /// (`Levels::{open_text, open_call, open_bytes, open_argument}`)
    #[inline(always)]
    pub fn open_text(&mut self, id: Id, charge: u32, resume: Option<K>)
        requires room { length self.old.levels < self.old.most }
        requires paid { 16 ≤ charge }
        requires bytes { total self.old.levels + charge ≤ self.old.capacity }
        ensures { self.new ≡ deeper (Text id 0) [] charge resume self.old }
    {
        let has_mode = keep(&mut self.modes, resume);
        let height = self.bytes.len() as u32;
        self.frames.push(Frame {
            reads: Reads::Text(id, 0),
            old: self.in_force,
            charge,
            height,
            has_mode,
        });
        let top = self.places.len() as u32;
        self.in_force = Span {
            first: top,
            last: top,
        };
    }

    /// Opens a level that reads a text with new arguments: `bytes`, cut up by these lengths.
    pub fn open_call(&mut self, id: Id, bytes: &[u8], lens: &[u32], charge: u32)
        requires room { length self.old.levels < self.old.most }
        requires paid { 16 + length bytes.now ≤ charge }
        requires bytes { total self.old.levels + charge ≤ self.old.capacity }
        requires lens { sum lens.now ≡ length bytes.now }
        requires nine { length lens.now ≤ 9 }
        ensures { self.new ≡ deeper (Text id 0) (cut lens.now bytes.now) charge None self.old }
    {
        let height = self.bytes.len() as u32;
        let first = self.places.len() as u32;
        self.frames.push(Frame {
            reads: Reads::Text(id, 0),
            old: self.in_force,
            charge,
            height,
            has_mode: false,
        });
        self.bytes.extend(bytes);
        push_spans(&mut self.places, height, lens);
        let last = self.places.len() as u32;
        self.in_force = Span { first, last };
    }

    /// Opens a level that reads these bytes. The arguments stay in force.
    pub fn open_bytes(&mut self, bytes: &[u8], charge: u32)
        requires room { length self.old.levels < self.old.most }
        requires paid { 16 + length bytes.now ≤ charge }
        requires bytes { total self.old.levels + charge ≤ self.old.capacity }
        ensures { self.new ≡ deeper (Own bytes.now) self.old.arguments charge None self.old }
    {
        let first = self.bytes.len() as u32;
        self.bytes.extend(bytes);
        let last = self.bytes.len() as u32;
        self.frames.push(Frame {
            reads: Reads::Own(Span { first, last }),
            old: self.in_force,
            charge,
            height: first,
            has_mode: false,
        });
    }

    /// How many arguments are in force.
    #[inline]
    pub fn argument_count(&self) -> usize
        ensures { result ≡ length self.now.arguments }
    {
        self.in_force.last.saturating_sub(self.in_force.first) as usize
    }

    /// How many bytes an argument has. They are counted from 0; an absent one has none.
    #[inline]
    pub fn argument_len(&self, n: usize) -> usize
        ensures value { result ≡ length (argument self.now.arguments n) }
        ensures small { result < 2 ^ 32 }
    {
        let span = span_of(&self.places, self.in_force, n);
        span.last.saturating_sub(span.first) as usize
    }

    /// The bytes of an argument. They are counted from 0; an absent one has none.
    #[inline]
    pub fn argument_bytes(&self, n: usize) -> &[u8]
        ensures { result.now ≡ argument self.now.arguments n }
    {
        let span = span_of(&self.places, self.in_force, n);
        if span.last <= span.first {
            return &[];
        }
        &self.bytes.as_slice()[span.first as usize..span.last as usize]
    }

    /// Opens a level that reads an argument where it lies. The arguments stay in force.
    pub fn open_argument(&mut self, n: usize, charge: u32)
        requires room { length self.old.levels < self.old.most }
        requires paid { 16 ≤ charge }
        requires bytes { total self.old.levels + charge ≤ self.old.capacity }
        ensures { self.new
            ≡ deeper (Own (argument self.old.arguments n)) self.old.arguments charge None self.old }
    {
        let span = span_of(&self.places, self.in_force, n);
        let height = self.bytes.len() as u32;
        self.frames.push(Frame {
            reads: Reads::Own(span),
            old: self.in_force,
            charge,
            height,
            has_mode: false,
        });
    }

    /// Takes the newest level's end, and gives its charge back: the arguments before it are in force again. The mode
    /// that is to be resumed, if there is one, then comes next.
    ///
    /// Proved: The end of a level restores the arguments that were in force before it, byte for byte, and reports
    /// what the level was charged.
    #[inline]
    pub fn close(&mut self) -> u32
        requires { HasEnd (next_item_of self.old.levels) }
        ensures charge { result ≡ charge_of_newest self.old.levels }
        ensures rest { self.new ≡ closed self.old.levels self.old }
    {
        if self.frames.is_empty() {
            return 0;
        }
        let frame = self.frames.at(0);
        let old = frame.old;
        let charge = frame.charge;
        let height = frame.height;
        self.bytes.truncate(height as usize);
        self.places.truncate(old.last as usize);
        self.in_force = old;
        if frame.has_mode {
            self.frames.set_top(Frame {
                reads: Reads::Mark,
                old,
                charge: 0,
                height,
                has_mode: true,
            });
            return charge;
        }
        self.frames.pop();
        charge
    }

    /// With no levels there are no arguments in force.
    pub fn forget_arguments(&mut self)
        requires { self.old.levels ≡ [] }
        ensures { self.new ≡ record self.old { arguments = [] } }
    {
        self.in_force = Span { first: 0, last: 0 };
    }
}
