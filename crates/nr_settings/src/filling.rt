//! Filling, adjusting and centring (CSTR 54, filling, adjusting, and centering).
use crate::arguments::Arguments;
use crate::lengths::Height;
use crate::numbers::counted_lines;

/// Which side of filled lines is adjusted.
#[derive(Clone, Copy)]
pub enum Way {
    Left,
    Right,
    /// The middle.
    Centre,
    /// Both sides, by wider gaps.
    Both,
}

/// How one line is set.
#[derive(Clone, Copy)]
pub enum Align {
    Left,
    /// From side to side.
    Spread,
    Right,
    Centre,
}

/// The settings of filling: whether lines are filled, whether and which way they are adjusted, and the number of text
/// lines that are still to be centred.
#[derive(Clone, Copy)]
pub struct Filling {
    pub fill: bool,
    pub adjust: bool,
    pub way: Way,
    pub centred: u32,
}

impl Filling {
    ghost use Rattle.std.specs.Prelude.{◌≡◌};
    ghost use Rattle.nr_settings.specs.Filling.{fi, nf, ad, na, ce, after_centred_line, is_filling, align_of, first_filling};

    /// Those at first: lines are filled, and adjusted at both sides.
    pub fn new() -> Self
        ensures { result ≡ first_filling }
    {
        Filling {
            fill: true,
            adjust: true,
            way: Way::Both,
            centred: 0,
        }
    }

    /// `.fi`
    ///
    /// Proved: `.fi .nf .ad .na .ce` each change filling, adjusting and centring by one equation. (`Filling::{fi, nf,
    /// ad, na, ce}`)
    pub fn fi(&mut self)
        ensures { self.new ≡ fi self.old }
    {
        self.fill = true;
    }

    /// `.nf`
    pub fn nf(&mut self)
        ensures { self.new ≡ nf self.old }
    {
        self.fill = false;
    }

    /// `.ad`
    pub fn ad(&mut self, line: &[u8])
        ensures { self.new ≡ ad line.now self.old }
    {
        self.adjust = true;
        match Arguments::of(line).byte() {
            Some(b'l') => self.way = Way::Left,
            Some(b'r') => self.way = Way::Right,
            Some(b'c') => self.way = Way::Centre,
            Some(b'b' | b'n') => self.way = Way::Both,
            _ => {}
        }
    }

    /// `.na`
    pub fn na(&mut self)
        ensures { self.new ≡ na self.old }
    {
        self.adjust = false;
    }

    /// `.ce`
    pub fn ce(&mut self, line: &[u8], v: Height)
        ensures { self.new ≡ ce line.now v self.old }
    {
        self.centred = counted_lines(line, v);
    }

    /// Counts one text line.
    #[inline]
    pub fn count_line(&mut self)
        ensures { self.new ≡ after_centred_line self.old }
    {
        self.centred = self.centred.saturating_sub(1);
    }

    /// Whether text is filled: in fill mode, while no line is to be centred.
    #[inline]
    pub fn is_filling(&self) -> bool
        ensures { result ≡ is_filling self.now }
    {
        self.fill && self.centred == 0
    }

    /// How a line is set; `full` where it goes out because it is full, or by `\p`.
    ///
    /// Proved: How a line is set and which margins it has is one function of the settings. (`Filling::align`;
    /// `Indents::{margins, take_margins}` in indents.rt)
    pub fn align(&self, full: bool) -> Align
        ensures { result ≡ align_of full self.now }
    {
        if self.centred > 0 {
            return Align::Centre;
        }
        if !self.fill || !self.adjust {
            return Align::Left;
        }
        match self.way {
            Way::Left => Align::Left,
            Way::Right => Align::Right,
            Way::Centre => Align::Centre,
            Way::Both if full => Align::Spread,
            Way::Both => Align::Left,
        }
    }
}
