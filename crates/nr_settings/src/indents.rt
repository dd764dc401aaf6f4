//! Indents, and the lengths of lines (CSTR 54, line length and indenting; page control; three-part titles).
use crate::lengths::{Height, Width};
use crate::numbers::first_change;
use nr_units::Scale;

/// A width, and the one before the last change.
#[derive(Clone, Copy)]
pub struct Kept {
    pub value: Width,
    pub previous: Width,
}

/// The margins of a line, in characters: its indent, and the length that is left after it.
#[derive(Clone, Copy)]
pub struct Margins {
    pub indent: u32,
    pub length: u32,
}

/// The indent, that of the next line alone, the page offset, and the lengths of lines and titles.
#[derive(Clone, Copy)]
pub struct Indents {
    pub indent: Kept,
    pub next_indent: Option<Width>,
    pub page_offset: Kept,
    pub line_length: Kept,
    pub title_length: Kept,
}

impl Kept {
    ghost use Rattle.std.specs.Prelude.{◌≡◌};
    ghost use Rattle.nr_settings.specs.Indents.{changed, steady};

    /// A width that was never changed.
    fn steady(width: Width) -> Self
        ensures { result ≡ steady width }
    {
        Kept {
            value: width,
            previous: width,
        }
    }

    /// Changes it, without a new width to the previous one.
    fn change(&mut self, width: Option<Width>)
        ensures { self.new ≡ changed width self.old }
    {
        let old = self.value;
        self.value = match width {
            None => self.previous,
            Some(width) => width,
        };
        self.previous = old;
    }
}

impl Indents {
    ghost use Rattle.std.specs.Prelude.{◌≡◌};
    ghost use Rattle.nr_settings.specs.Indents.{new_width, in_, ti, po, ll, lt, line_indent, margins_of, after_line_begun, first_indents};

    /// Those at first: no indent and no offset, lines and titles of 6.5 inches.
    pub fn new() -> Self
        ensures { result ≡ first_indents }
    {
        Indents {
            indent: Kept::steady(Width::zero()),
            next_indent: None,
            page_offset: Kept::steady(Width::zero()),
            line_length: Kept::steady(Width::of(1560)),
            title_length: Kept::steady(Width::of(1560)),
        }
    }

    /// The new width that a line gives; None where its number is absent.
    fn new_width(line: &[u8], v: Height, old: Width, least: Width) -> Option<Width>
        ensures { result ≡ new_width least line.now v old }
    {
        match first_change(line, Scale::Em, v, 0) {
            None => None,
            Some(change) => {
                let units = change.applied(i64::from(old.units()));
                Some(Width::nearest(units, least))
            }
        }
    }

    /// `.in`
    ///
    /// Proved: `.in .ti .po .ll .lt` each change the indents and lengths by one equation. (`Indents::{in_, ti, po,
    /// ll, lt}`)
    pub fn in_(&mut self, line: &[u8], v: Height)
        ensures { self.new ≡ in_ line.now v self.old }
    {
        let width = Indents::new_width(line, v, self.indent.value, Width::zero());
        self.indent.change(width);
    }

    /// `.ti`
    pub fn ti(&mut self, line: &[u8], v: Height)
        ensures { self.new ≡ ti line.now v self.old }
    {
        let width = Indents::new_width(line, v, self.indent.value, Width::zero());
        if let Some(width) = width {
            self.next_indent = Some(width);
        }
    }

    /// `.po`
    pub fn po(&mut self, line: &[u8], v: Height)
        ensures { self.new ≡ po line.now v self.old }
    {
        let width = Indents::new_width(line, v, self.page_offset.value, Width::zero());
        self.page_offset.change(width);
    }

    /// `.ll`
    pub fn ll(&mut self, line: &[u8], v: Height)
        ensures { self.new ≡ ll line.now v self.old }
    {
        let width = Indents::new_width(line, v, self.line_length.value, Width::of(24));
        self.line_length.change(width);
    }

    /// `.lt`
    pub fn lt(&mut self, line: &[u8], v: Height)
        ensures { self.new ≡ lt line.now v self.old }
    {
        let width = Indents::new_width(line, v, self.title_length.value, Width::zero());
        self.title_length.change(width);
    }

    /// The indent of the line that begins now.
    fn line_indent(&self) -> Width
        ensures { result ≡ line_indent self.now }
    {
        match self.next_indent {
            None => self.indent.value,
            Some(width) => width,
        }
    }

    /// The margins of the line that begins now.
    #[inline]
    pub fn margins(&self) -> Margins
        ensures { result ≡ margins_of self.now }
    {
        let indent = self.line_indent().units();
        Margins {
            indent: indent / 24,
            length: self.line_length.value.units().saturating_sub(indent) / 24,
        }
    }

    /// The margins of the line that begins now; the indent of the next line alone is used up.
    pub fn take_margins(&mut self) -> Margins
        ensures margins { result ≡ margins_of self.old }
        ensures used { self.new ≡ after_line_begun self.old }
    {
        let margins = self.margins();
        self.next_indent = None;
        margins
    }
}
