//! The arguments of a request's line.
ghost use Rattle.std.specs.Prelude.{◌≡◌, ◌≤◌, length};
ghost use Rattle.std.specs.List.{prefix_len};
ghost use Rattle.nr_settings.specs.Arguments.{is_blank, is_name_byte, after_blanks, word_len, number_len, name_len, word_in, after_word, number_in, after_number, name_in, after_name, byte_in};

use nr_units::Name;

/// Whether a byte is a blank: a space or a tab.
fn is_blank(byte: u8) -> bool
    ensures { result ≡ is_blank byte }
{
    byte == b' ' || byte == b'\t'
}

/// Whether a name may have this byte: no blank and no control byte.
fn is_name_byte(byte: u8) -> bool
    ensures { result ≡ is_name_byte byte }
{
    byte > b' ' && byte != 127
}

/// The number of blanks in front.
fn blanks_len(text: &[u8]) -> usize
    ensures len { result ≡ prefix_len is_blank text.now }
    ensures within { result ≤ length text.now }
{
    text.iter().take_while(|byte| is_blank(**byte)).count()
}

/// What stands after the first blanks.
fn after_blanks(text: &[u8]) -> &[u8]
    ensures { result.now ≡ after_blanks text.now }
{
    &text[blanks_len(text)..]
}

/// The length of the word that a text begins with.
fn word_len(text: &[u8]) -> usize
    ensures len { result ≡ word_len text.now }
    ensures within { result ≤ length text.now }
{
    text.iter().take_while(|byte| !is_blank(**byte)).count()
}

/// The length of the number argument that a text begins with: to a blank outside parentheses.
fn number_len(text: &[u8]) -> usize
    ensures len { result ≡ number_len 0 text.now }
    ensures within { result ≤ length text.now }
{
    let mut depth = 0usize;
    for (at, byte) in text.iter().enumerate() {
        if depth == 0 && is_blank(*byte) {
            return at;
        }
        match *byte {
            b'(' => depth += 1,
            b')' => depth = depth.saturating_sub(1),
            _ => {}
        }
    }
    text.len()
}

/// The number of bytes in front that a name may have.
fn name_bytes_len(text: &[u8]) -> usize
    ensures len { result ≡ prefix_len is_name_byte text.now }
    ensures within { result ≤ length text.now }
{
    text.iter().take_while(|byte| is_name_byte(**byte)).count()
}

/// The length of the name that a text begins with.
fn name_len(text: &[u8], long: bool) -> usize
    ensures len { result ≡ name_len long text.now }
    ensures within { result ≤ length text.now }
{
    let len = name_bytes_len(text);
    if long { len } else { len.min(2) }
}

/// What is still to be read of a request's line.
#[derive(Clone, Copy)]
pub struct Arguments<'a> {
    pub rest: &'a [u8],
}

impl<'a> Arguments<'a> {
    /// A whole line, after the request's name.
    pub fn of(line: &'a [u8]) -> Self
        ensures { result.rest.now ≡ line.now }
    {
        Arguments { rest: line }
    }

    /// The next argument as a name of at most two bytes, or of as many as there are where long names are on. None
    /// where there is none, or one of more than 32 bytes.
    ///
    /// Proved: The next name, number or word of a request's line, and what stands after it, are those of the
    /// definition. (`Arguments::{name, number, word, byte}`)
    pub fn name(&mut self, long: bool) -> Option<Name>
        ensures name { result ≡ name_in long self.old.rest.now }
        ensures rest { self.new.rest.now ≡ after_name long self.old.rest.now }
    {
        let text = after_blanks(self.rest);
        let len = name_len(text, long);
        self.rest = &text[len..];
        if len == 0 || len > 32 {
            return None;
        }
        Some(Name::of(&text[..len]))
    }

    /// The next argument as a number's bytes, which go to a blank outside parentheses. Empty where there is none.
    pub fn number(&mut self) -> &'a [u8]
        ensures number { result.now ≡ number_in self.old.rest.now }
        ensures rest { self.new.rest.now ≡ after_number self.old.rest.now }
    {
        let text = after_blanks(self.rest);
        let len = number_len(text);
        self.rest = &text[len..];
        &text[..len]
    }

    /// The next argument, which goes to a blank. Empty where there is none.
    pub fn word(&mut self) -> &'a [u8]
        ensures word { result.now ≡ word_in self.old.rest.now }
        ensures rest { self.new.rest.now ≡ after_word self.old.rest.now }
    {
        let text = after_blanks(self.rest);
        let len = word_len(text);
        self.rest = &text[len..];
        &text[..len]
    }

    /// The first byte of the next argument.
    pub fn byte(&self) -> Option<u8>
        ensures { result ≡ byte_in self.now.rest.now }
    {
        after_blanks(self.rest).first().copied()
    }
}
