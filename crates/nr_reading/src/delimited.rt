//! Arguments between delimiters.
ghost use Rattle.std.specs.Prelude.{◌≡◌, ◌≤◌, length};
ghost use Rattle.nr_reading.specs.Delimited.{no_texts, begun_text, with_text_byte, ended_text};

use super::kept::Kept;
use std::marker::Model;

/// How many may be half read at once.
const MOST: usize = 10;

/// Arguments between delimiters: those that are half read, the newest first, and the one that ended last, if
/// none began after it.
#[derive(Drop)]
pub struct Delimited {
    texts: [Kept; MOST],
    count: usize,
}

impl Model for Delimited {
    ghost use Rattle.std.specs.Prelude.{◌≡◌, ◌≤◌, [], length, take, reverse, slice_index_or};
    ghost use Rattle.nr_reading.specs.Delimited.{Texts};

    ghost Value = { Texts };

    ghost view = { λ d. record {
      begun = reverse (take d.count d.texts);
      last = slice_index_or d.texts d.count [];
    } };

    ghost invariant = { λ d. (d.count ≤ 10) × (length d.texts ≡ 10) };
}

impl Delimited {
    /// None was read.
    pub(crate) fn new() -> Delimited
        ensures { result ≡ no_texts }
    {
        Delimited {
            texts: [
                Kept::new(),
                Kept::new(),
                Kept::new(),
                Kept::new(),
                Kept::new(),
                Kept::new(),
                Kept::new(),
                Kept::new(),
                Kept::new(),
                Kept::new(),
            ],
            count: 0,
        }
    }

    /// Takes those of another.
    pub(crate) fn copy_from(&mut self, other: &Delimited)
        ensures { self.new ≡ other.now }
    {
        for place in 0..MOST {
            let text = &mut self.texts[place];
            text.copy_from(&other.texts[place]);
        }
        self.count = other.count;
    }

    /// Forgets all.
    pub(crate) fn clear(&mut self)
        ensures { self.new ≡ no_texts }
    {
        self.count = 0;
        let text = &mut self.texts[0];
        text.clear();
    }

    /// Another begins.
    pub(crate) fn begin(&mut self)
        ensures { self.new ≡ begun_text self.old }
    {
        let count = self.count;
        if count >= MOST {
            return;
        }
        let text = &mut self.texts[count];
        text.clear();
        self.count = count + 1;
        if count + 1 >= MOST {
            return;
        }
        let next = &mut self.texts[count + 1];
        next.clear();
    }

    /// A byte of the newest.
    pub(crate) fn keep(&mut self, byte: u8)
        ensures { self.new ≡ with_text_byte byte self.old }
    {
        if self.count > 0 {
            let text = &mut self.texts[self.count - 1];
            text.keep(byte);
        }
    }

    /// The newest ends.
    pub(crate) fn end(&mut self)
        ensures { self.new ≡ ended_text self.old }
    {
        if self.count > 0 {
            self.count -= 1;
        }
    }

    /// The one that ended last.
    pub fn last(&self) -> &[u8]
        ensures value { result.now ≡ self.now.last }
        ensures within { length result.now ≤ 256 }
    {
        if self.count >= MOST {
            return &[];
        }
        let text = &self.texts[self.count];
        text.as_slice()
    }
}
