//! A line is drawn from the left to the right: where it stands.
ghost use Rattle.std.specs.Prelude.{◌≡◌};
ghost use Rattle.tbl_drawing.specs.Pens as specs;

/// Where a line is drawn.
#[derive(Clone, Copy)]
pub(crate) struct Pen {
    /// The place, where it is known.
    pub at: Option<usize>,
    /// The blanks before it that did not go out.
    pub blanks: usize,
    /// Something went out.
    pub begun: bool,
}

/// The place where a line stands, or this one if it is further.
fn furthest(at: Option<usize>, place: usize) -> Option<usize>
    ensures { result ≡ specs.furthest at place }
{
    match at {
        Some(at) => Some(at.max(place)),
        None => Some(place),
    }
}

impl Pen {
    /// A line begins.
    pub(crate) fn new() -> Pen
        ensures { result ≡ specs.first }
    {
        Pen {
            at: Some(0),
            blanks: 0,
            begun: false,
        }
    }

    /// Its blanks went out.
    pub(crate) fn released(self) -> Pen
        ensures { result ≡ specs.released self }
    {
        Pen {
            at: self.at,
            blanks: 0,
            begun: self.begun || self.blanks > 0,
        }
    }

    /// How many cells a place is further, if that is known.
    pub(crate) fn steps_to(self, place: usize) -> Option<usize>
        ensures { result ≡ specs.steps_to place self }
    {
        match self.at {
            Some(at) => Some(place.saturating_sub(at)),
            None => None,
        }
    }

    /// It goes on so many cells further, at a place.
    pub(crate) fn moved(self, cells: usize, place: usize) -> Pen
        ensures { result ≡ specs.moved cells place self }
    {
        Pen {
            at: furthest(self.at, place),
            blanks: self.blanks.saturating_add(cells),
            begun: self.begun,
        }
    }

    /// A motion or a rule went out up to here, or to where nobody knows.
    pub(crate) fn gone(self, at: Option<usize>) -> Pen
        ensures { result ≡ specs.gone at self }
    {
        Pen {
            at,
            blanks: self.blanks,
            begun: true,
        }
    }

    /// A rule of so many cells went out, up to a place.
    pub(crate) fn dashed(self, cells: usize, place: usize) -> Pen
        ensures { result ≡ specs.dashed cells place self }
    {
        Pen {
            at: furthest(self.at, place),
            blanks: self.blanks,
            begun: self.begun || cells > 0,
        }
    }

    /// So many cells were drawn, or nobody knows.
    pub(crate) fn passed(self, cells: Option<usize>) -> Pen
        ensures { result ≡ specs.passed cells self }
    {
        let at = match (self.at, cells) {
            (Some(at), Some(cells)) => Some(at.saturating_add(cells)),
            _ => None,
        };
        Pen {
            at,
            blanks: self.blanks,
            begun: self.begun,
        }
    }
}
