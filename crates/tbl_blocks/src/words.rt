//! The lines of a block are read: words become parts, and requests what stands between them.
ghost use Rattle.std.specs.Prelude.{◌≡◌, ◌+◌, ◌<◌, ◌≤◌, ◌^◌, length};
ghost use Rattle.tbl_blocks.specs.Arguments.{IsWithin};
ghost use Rattle.tbl_blocks.specs.Words as specs;

use super::arguments::{
    Argument, blanks_len, find_argument, first_argument, number_or, request_len, spaces_len,
};
use super::blocks::Blocks;
use super::lists::add_item;
use super::parts::{Font, Part};
use super::reading::{Face, Manner, Word};
use super::requests::{Request, request_of};
use super::units::unit_of;

/// Whether a line of text is joined with the next one.
fn goes_on(line: &[u8]) -> bool
    ensures { result ≡ specs.goes_on line.now }
{
    let len = line.len();
    len >= 2 && line[len - 2] == b'\\' && line[len - 1] == b'c'
}

/// Whether a line is a request's.
pub fn is_request(line: &[u8]) -> bool
    ensures { result ≡ specs.is_request line.now }
{
    match line.split_first() {
        None => false,
        Some((first, _rest)) => *first == b'.' || *first == b'\'',
    }
}

/// What stands after blanks and tabs.
pub fn after_blanks(text: &[u8]) -> &[u8]
    ensures { result.now ≡ specs.after_blanks text.now }
{
    &text[blanks_len(text)..]
}

/// The request of a line, after its control character: its name, and its arguments.
pub fn request_in(line: &[u8]) -> &[u8]
    ensures { result.now ≡ specs.request_in line.now }
{
    match line.split_first() {
        None => line,
        Some((_first, rest)) => after_blanks(rest),
    }
}

/// Its name.
pub fn name_of(request: &[u8]) -> &[u8]
    ensures { result.now ≡ specs.name_of request.now }
{
    &request[..request_len(request)]
}

/// Its arguments.
pub fn arguments_of(request: &[u8]) -> &[u8]
    ensures { result.now ≡ specs.arguments_of request.now }
{
    &request[request_len(request)..]
}

/// The name of the request of a line.
pub fn request_name(line: &[u8]) -> &[u8]
    ensures { result.now ≡ specs.request_name line.now }
{
    name_of(request_in(line))
}

/// Whether a line is that of a request that isn't set here.
pub fn is_unset(line: &[u8]) -> bool
    ensures { result ≡ specs.is_unset line.now }
{
    is_request(line) && !request_of(request_name(line)).is_set()
}

/// How many cells parts take on one line.
fn cells_of(parts: &[Part]) -> usize
    ensures { result ≡ specs.cells_of parts.now }
{
    let mut cells: usize = 0;
    for part in parts {
        cells = cells.saturating_add(part.join.blanks().saturating_add(part.cells));
    }
    cells
}

impl Blocks {
    /// The part of the word under way ends before a place.
    fn end_part(&mut self, to: usize)
        ensures { self.new ≡ specs.part_ended to self.old }
    {
        if self.reading.word.from < to {
            add_item(&mut self.parts, self.reading.part(to));
            self.reading.end_part(to);
        }
    }

    /// The unit at a place is read, which begins with a byte.
    fn take_unit(&mut self, byte: u8, rest: &[u8], at: usize)
        ensures { self.new ≡ specs.unit_taken byte rest.now at self.old }
    {
        let unit = unit_of(byte, rest, self.strings.as_slice());
        if self.reading.parts_before(unit) {
            self.end_part(at);
        }
        self.reading.take(unit, at);
    }

    /// The same: a plain byte before which no part ends is read at once.
    fn take_whole(&mut self, byte: u8, rest: &[u8], at: usize)
        ensures { self.new ≡ specs.unit_taken byte rest.now at self.old }
    {
        if self.reading.is_quiet(byte) {
            self.reading.print_plain(byte);
        } else {
            self.take_unit(byte, rest, at);
        }
    }

    /// The byte at a place is read: it belongs to the unit before it, or begins one.
    fn take_byte(&mut self, byte: u8, rest: &[u8], at: usize)
        ensures { self.new ≡ specs.byte_taken byte rest.now at self.old }
    {
        if self.reading.word.more > 0 {
            self.reading.skip();
        } else {
            self.take_whole(byte, rest, at);
        }
    }

    /// The words of a text that begins at a place.
    pub(crate) fn read_words(&mut self, text: &[u8], place: usize)
        requires { place + length text.now < 2 ^ 64 }
        ensures { self.new ≡ specs.words_read text.now place self.old }
    {
        self.reading.word = Word::at(place);
        for (at, byte) in text.iter().enumerate() {
            self.take_byte(*byte, &text[at + 1..], place + at);
        }
        self.end_part(place + text.len());
    }

    /// A line of text.
    fn read_text(&mut self, line: &[u8], place: usize)
        requires { place + length line.now < 2 ^ 64 }
        ensures { self.new ≡ specs.text_read line.now place self.old }
    {
        let blanks = spaces_len(line);
        if blanks == line.len() {
            self.reading = self.reading.breaks(1);
            return;
        }
        let rest = &line[blanks..];
        self.reading = self.reading.indented(blanks).once_set();
        if goes_on(rest) {
            self.read_words(&rest[..rest.len() - 2], place + blanks);
            self.reading = self.reading.once_left();
        } else {
            self.read_words(rest, place + blanks);
            self.reading = self.reading.once_left().line_ends();
        }
    }

    /// A word of a request, after so many others.
    fn read_argument(
        &mut self,
        argument: Argument,
        text: &[u8],
        place: usize,
        count: usize,
        manner: Manner,
    )
        requires within { IsWithin argument (length text.now) }
        requires room { place + length text.now < 2 ^ 64 }
        ensures { self.new ≡ specs.argument_read argument text.now place count manner self.old }
    {
        let Argument {
            start,
            end,
            next: _,
        } = argument;
        self.reading = self.reading.word_begun(count, manner);
        self.read_words(&text[start..end], place + start);
    }

    /// The words of a request.
    fn read_arguments(&mut self, text: &[u8], place: usize, manner: Manner)
        requires { place + length text.now < 2 ^ 64 }
        ensures { self.new ≡ specs.arguments_read text.now place manner self.old }
    {
        let mut at = 0;
        for count in 0..text.len() {
            let rest = &text[at..];
            let Some(argument) = find_argument(rest) else {
                return;
            };
            self.read_argument(argument, rest, place + at, count, manner);
            at += argument.next;
        }
    }

    /// A request whose words are in fonts.
    fn read_faces(&mut self, text: &[u8], place: usize, manner: Manner)
        requires { place + length text.now < 2 ^ 64 }
        ensures { self.new ≡ specs.faces_read text.now place manner self.old }
    {
        self.read_arguments(text, place, manner);
        self.reading = self.reading.faced(Face::of(Font::Roman)).line_ends();
    }

    /// A request whose words are in one font; without words the next line is.
    fn read_face(&mut self, text: &[u8], place: usize, font: Font)
        requires { place + length text.now < 2 ^ 64 }
        ensures { self.new ≡ specs.face_read text.now place font self.old }
    {
        if find_argument(text).is_none() {
            self.reading = self.reading.waits_for(font);
            return;
        }
        let manner = Manner {
            first: font,
            second: font,
            joined: false,
        };
        self.read_faces(text, place, manner);
    }

    /// A request that is not known: its words are printed.
    fn read_unknown(&mut self, text: &[u8], place: usize)
        requires { place + length text.now < 2 ^ 64 }
        ensures { self.new ≡ specs.unknown_read text.now place self.old }
    {
        let face = self.reading.face;
        let manner = Manner {
            first: face.font,
            second: face.font,
            joined: false,
        };
        self.read_arguments(text, place, manner);
        self.reading = self.reading.faced(face).line_ends();
    }

    /// How many cells the parts take from one on.
    fn cells_from(&self, first: usize) -> usize
        ensures { result ≡ specs.cells_from first self.now }
    {
        let parts = self.parts.as_slice();
        cells_of(&parts[first.min(parts.len())..])
    }

    /// A tag ends whose parts begin with one, and text after it is indented so far.
    fn end_tag(&mut self, first: usize, by: usize)
        ensures { self.new ≡ specs.tag_ended first by self.old }
    {
        let cells = self.cells_from(first);
        self.reading = self.reading.tagged(cells, by);
    }

    /// A paragraph whose first word is a tag, and whose second says what it is indented.
    fn read_item(&mut self, text: &[u8], place: usize)
        requires { place + length text.now < 2 ^ 64 }
        ensures { self.new ≡ specs.item_read text.now place self.old }
    {
        let first = self.parts.len();
        let other = self.reading.margins.by;
        self.reading = self.reading.paragraph();
        let Some(argument) = find_argument(text) else {
            return self.end_tag(first, other);
        };
        let by = number_or(first_argument(&text[argument.next..]), other);
        self.read_words(&text[argument.start..argument.end], place + argument.start);
        self.end_tag(first, by);
    }

    /// A line was read that is a tag, if one was waited for: it is one if it has parts, which begin with this one.
    fn take_tag(&mut self, tag: Option<usize>, first: usize)
        ensures { self.new ≡ specs.tag_taken tag first self.old }
    {
        let Some(by) = tag else {
            return;
        };
        if self.cells_from(first) > 0 {
            self.end_tag(first, by);
        }
    }

    /// A request, with what stands after its name.
    fn obey(&mut self, request: Request, text: &[u8], place: usize)
        requires { place + length text.now < 2 ^ 64 }
        ensures { self.new ≡ specs.obeyed request text.now place self.old }
    {
        match request {
            Request::Face(font) => self.read_face(text, place, font),
            Request::Faces(first, second) => {
                let manner = Manner {
                    first,
                    second,
                    joined: true,
                };
                self.read_faces(text, place, manner);
            }
            Request::Item => self.read_item(text, place),
            Request::Address => self.read_address(text, place),
            Request::AddressEnd => {
                self.put_address();
                self.read_unknown(text, place);
            }
            Request::Unknown => self.read_unknown(text, place),
            _ => self.reading = self.reading.obeyed(request, first_argument(text)),
        }
    }

    /// A line of a request, after its first byte.
    fn read_request(&mut self, line: &[u8], place: usize)
        requires { place + length line.now < 2 ^ 64 }
        ensures { self.new ≡ specs.request_read line.now place self.old }
    {
        let start = blanks_len(line);
        let rest = &line[start..];
        let len = request_len(rest);
        let request = request_of(&rest[..len]);
        self.obey(request, &rest[len..], place + start + len);
    }

    /// The words or the request of a line.
    fn read_as(&mut self, line: &[u8], place: usize)
        requires { place + length line.now < 2 ^ 64 }
        ensures { self.new ≡ specs.line_as (specs.is_request line.now) line.now place self.old }
    {
        if is_request(line) {
            self.read_request(&line[1..], place + 1);
        } else {
            self.read_text(line, place);
        }
    }

    /// A line of a block.
    fn read_line(&mut self, line: &[u8], place: usize)
        requires { place + length line.now < 2 ^ 64 }
        ensures { self.new ≡ specs.line_read line.now place self.old }
    {
        let first = self.parts.len();
        let tag = self.reading.tag;
        self.read_as(line, place);
        self.take_tag(tag, first);
    }

    /// The lines of a block.
    pub(crate) fn read_lines(&mut self, text: &[u8], place: usize)
        requires { place + length text.now < 2 ^ 64 }
        ensures { self.new ≡ specs.lines_read text.now place self.old }
    {
        let mut from = 0;
        for (at, byte) in text.iter().enumerate() {
            if *byte == b'\n' {
                self.read_line(&text[from..at], place + from);
                from = at + 1;
            }
        }
        if from < text.len() {
            self.read_line(&text[from..text.len()], place + from);
        }
    }

    /// Empty lines at the end of a block are a line without text.
    fn end_space(&mut self, place: usize)
        ensures { self.new ≡ specs.space_ended place self.old }
    {
        let reading = self.reading;
        if reading.ends_in_space() {
            add_item(&mut self.parts, reading.space_part(place));
        }
    }

    /// A block ends.
    pub(crate) fn end_block(&mut self, place: usize)
        ensures { self.new ≡ specs.block_ended place self.old }
    {
        self.put_address();
        self.end_space(place);
    }
}
