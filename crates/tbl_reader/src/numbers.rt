//! Where a number is aligned: at `\&`, else at its last point before a digit, else after its last digit.
ghost use Rattle.std.specs.Prelude.{◌≡◌, ◌+◌, ◌^◌, ◌<◌};
ghost use Rattle.tbl_reader.specs.Numbers as specs;

/// The places in a field that count for that, and its last byte.
#[derive(Clone, Copy)]
pub(crate) struct Marks {
    /// Where its first `\&` stands.
    pub mark: Option<usize>,
    /// Where the last point stands that has a digit after it.
    pub point: Option<usize>,
    /// The place after its last digit.
    pub digit: Option<usize>,
    /// Its last byte, or 0.
    pub last: u8,
    /// How long it is without the blanks at its end.
    pub solid: usize,
}

/// Whether a byte is a digit.
pub(crate) fn is_digit(byte: u8) -> bool
    ensures { result ≡ specs.is_digit byte }
{
    matches!(byte, b'0'..=b'9')
}

/// The place before another.
fn before(place: usize) -> Option<usize>
    ensures { result ≡ specs.before place }
{
    if place == 0 { None } else { Some(place - 1) }
}

/// One more, of so many at most.
pub(crate) fn one_more(count: usize, most: usize) -> usize
    ensures { result ≡ specs.one_more count most }
{
    if count < most { count + 1 } else { most }
}

/// The first `\\&`, of which this may be one.
fn first_mark(mark: Option<usize>, is_mark: bool, place: usize) -> Option<usize>
    ensures { result ≡ specs.mark_with mark is_mark place }
{
    match mark {
        Some(first) => Some(first),
        None if is_mark => before(place),
        None => None,
    }
}

impl Marks {
    /// Nothing was read.
    pub(crate) fn new() -> Marks
        ensures { result ≡ specs.first_marks }
    {
        Marks {
            mark: None,
            point: None,
            digit: None,
            last: 0,
            solid: 0,
        }
    }

    /// With one byte more, which stands at this place.
    pub(crate) fn with(self, byte: u8, place: usize, point: u8) -> Marks
        requires { place + 1 < 2 ^ 64 }
        ensures { result ≡ specs.marks_with byte place point self }
    {
        let digit = is_digit(byte);
        Marks {
            mark: first_mark(self.mark, self.last == b'\\' && byte == b'&', place),
            point: if digit && self.last == point {
                before(place)
            } else {
                self.point
            },
            digit: if digit { Some(place + 1) } else { self.digit },
            last: byte,
            solid: if byte == b' ' { self.solid } else { place + 1 },
        }
    }

    /// How many bytes stand before the place.
    pub(crate) fn prefix(self) -> Option<usize>
        ensures { result ≡ specs.prefix self }
    {
        match (self.mark, self.point, self.digit) {
            (Some(place), _, _) => Some(place),
            (None, Some(place), _) => Some(place),
            (None, None, place) => place,
        }
    }
}
