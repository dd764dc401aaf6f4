//! Bytes in the midst of a text line that go to its word and do not end it. (CSTR 54, sections 4 and 9.)
ghost use Rattle.std.specs.Prelude.{◌≡◌, ◌==◌, ◌≤◌, true, false, length, take, OnOk, OnErr};
ghost use Rattle.nr_units.specs.Character.{code};
ghost use Rattle.nr_fill.specs.Line.{afforded};
ghost use Rattle.nr_formatter.specs.Many.CellBytes.{goes_to_word, byte_put, PutsCellBytes};
ghost use Rattle.nr_formatter.specs.Many.Runs.{is_in_line};

use crate::formatter::Formatter;
use nr_fill::line::LineCells;
use nr_fill::piece::CutAfter;

impl Formatter {
    /// A hyphen, a blank where lines are not filled, or a tab where no text for a stop is read.
    #[inline]
    fn goes_to_word(&self, byte: u8) -> bool
        ensures { result ≡ goes_to_word byte self.now }
    {
        match byte {
            b' ' => !self.settings.filling.is_filling(),
            b'\t' => !self.line.has_field(),
            _ => byte == b'-',
        }
    }

    /// A tab goes to the next stop.
    fn add_tab(&mut self) -> Result<(), LineCells>
        ensures result { result ≡ afforded (byte_put (code "\t") self.old).line }
        ensures ok { OnOk result (self.new ≡ byte_put (code "\t") self.old) }
        ensures err { OnErr result (self.new ≡ self.old) }
    {
        let margins = self.settings.indents.margins();
        let filler = self.settings.tabs.tab.unwrap_or(b' ');
        let cell = self.settings.fonts.cell(filler);
        let aligned = !self.settings.filling.fill;
        self.line.tab(margins, self.settings.tabs.stops.as_slice(), aligned, cell)
    }

    /// Such a byte goes to the word, if it is no blank.
    #[inline(always)]
    fn add_byte(&mut self, byte: u8) -> Result<(), LineCells>
        requires { (byte == code " ") ≡ false }
        ensures result { result ≡ afforded (byte_put byte self.old).line }
        ensures ok { OnOk result (self.new ≡ byte_put byte self.old) }
        ensures err { OnErr result (self.new ≡ self.old) }
    {
        if byte == b'\t' {
            return self.add_tab();
        }
        let margins = self.settings.indents.margins();
        let cell = self.settings.fonts.cell(byte);
        self.line.put(margins, cell, CutAfter::Hyphen)
    }

    /// The blanks that these bytes begin with go to the word, as many as pass no limit. Tells how many did.
    #[inline(never)]
    fn add_blanks(&mut self, bytes: &[u8]) -> usize
        requires line { is_in_line self.old ≡ true }
        requires goes { goes_to_word (code " ") self.old ≡ true }
        ensures prefix { result ≤ length bytes.now }
        ensures puts { PutsCellBytes (take result bytes.now) self.old self.new }
    {
        let margins = self.settings.indents.margins();
        self.line.put_blanks(margins, bytes)
    }

    /// Such bytes go to the word, but blanks, as many as these begin with and as pass no limit. Tells how many did.
    #[inline(never)]
    fn add_bytes(&mut self, bytes: &[u8]) -> usize
        requires { is_in_line self.old ≡ true }
        ensures prefix { result ≤ length bytes.now }
        ensures puts { PutsCellBytes (take result bytes.now) self.old self.new }
    {
        let mut count = 0;
        for byte in bytes {
            if *byte == b' ' || !self.goes_to_word(*byte) || self.add_byte(*byte).is_err() {
                return count;
            }
            count += 1;
        }
        count
    }

    /// Reads a prefix of these bytes in the midst of a text line, each a byte that goes to the word and does not end it, and passes no
    /// limit: a hyphen, a blank where lines are not filled, a tab where no text for a stop is read. Tells how many it read.
    ///
    /// Proved: Hyphens, blanks where lines are not filled and tabs are put at once, as one after the other; how many
    /// is not claimed.
    #[inline]
    pub fn put_cell_bytes(&mut self, bytes: &[u8]) -> usize
        requires { is_in_line self.old ≡ true }
        ensures prefix { result ≤ length bytes.now }
        ensures puts { PutsCellBytes (take result bytes.now) self.old self.new }
    {
        if bytes.is_empty() || !self.goes_to_word(bytes[0]) {
            return 0;
        }
        if bytes[0] == b' ' {
            return self.add_blanks(bytes);
        }
        self.add_bytes(bytes)
    }
}
