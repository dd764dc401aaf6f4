//! What is reported of texts that are left out.

use super::folder::Why;

/// A text that is left out.
#[derive(Clone, Copy)]
pub struct LeftOut {
    /// The line of the page that led to it, from 1 on.
    pub line: u64,
    /// Why it is.
    pub why: Why,
}

/// Keeps the first text that is left out, and knows the line of the page.
#[derive(Drop)]
pub struct Omissions<'a> {
    /// The first that was left out.
    first: &'a mut Option<LeftOut>,
    /// How many lines of the page were begun.
    line: u64,
    /// The last of them goes on.
    open: bool,
}

impl<'a> Omissions<'a> {
    /// No line of the page was begun yet.
    pub fn over(first: &'a mut Option<LeftOut>) -> Self {
        Omissions {
            first,
            line: 0,
            open: false,
        }
    }

    /// A byte of the page came.
    pub(crate) fn count(&mut self, byte: u8) {
        if !self.open {
            self.line = self.line.saturating_add(1);
        }
        self.open = byte != b'\n';
    }

    /// A text is left out that the line leads to.
    pub(crate) fn leave_out(&mut self, why: Why) {
        if self.first.is_none() {
            *self.first = Some(LeftOut {
                line: self.line,
                why,
            });
        }
    }
}
