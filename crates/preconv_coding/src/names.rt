//! The names of codings (groff's preconv(1), Coding Tags; for KOI8-U and the code pages of Windows those of iconv(1)).
ghost use Rattle.std.specs.Prelude.{◌≡◌};
ghost use Rattle.preconv_coding.specs.Names as specs;
ghost use Rattle.preconv_coding.specs.UnderCoding.{coding_of};

use super::sets::Set;
use super::tag::lowered;
use nr_units::Name;

/// The most bytes of a name.
const LONGEST: usize = 32;

/// How the bytes of a text are read.
#[derive(Clone, Copy)]
pub enum Coding {
    /// As they stand.
    Plain,
    /// Each as a character of a set.
    Eight(Set),
}

/// The names, in lowercase, each before a NUL if it is shorter.
static NAMES: [([u8; 17], Coding); 51] = [
    (*b"utf-8\0\0\0\0\0\0\0\0\0\0\0\0", Coding::Plain),
    (*b"utf8\0\0\0\0\0\0\0\0\0\0\0\0\0", Coding::Plain),
    (*b"mule-utf-8\0\0\0\0\0\0\0", Coding::Plain),
    (*b"iso-10646/utf-8\0\0", Coding::Plain),
    (*b"iso-10646/utf8\0\0\0", Coding::Plain),
    (*b"us-ascii\0\0\0\0\0\0\0\0\0", Coding::Plain),
    (*b"ascii\0\0\0\0\0\0\0\0\0\0\0\0", Coding::Plain),
    (*b"csascii\0\0\0\0\0\0\0\0\0\0", Coding::Plain),
    (*b"iso-8859-1\0\0\0\0\0\0\0", Coding::Eight(Set::Latin1)),
    (*b"latin-1\0\0\0\0\0\0\0\0\0\0", Coding::Eight(Set::Latin1)),
    (*b"latin1\0\0\0\0\0\0\0\0\0\0\0", Coding::Eight(Set::Latin1)),
    (*b"iso-latin-1\0\0\0\0\0\0", Coding::Eight(Set::Latin1)),
    (*b"csisolatin1\0\0\0\0\0\0", Coding::Eight(Set::Latin1)),
    (*b"iso-8859-2\0\0\0\0\0\0\0", Coding::Eight(Set::Latin2)),
    (*b"latin-2\0\0\0\0\0\0\0\0\0\0", Coding::Eight(Set::Latin2)),
    (*b"latin2\0\0\0\0\0\0\0\0\0\0\0", Coding::Eight(Set::Latin2)),
    (*b"iso-latin-2\0\0\0\0\0\0", Coding::Eight(Set::Latin2)),
    (*b"iso-8859-5\0\0\0\0\0\0\0", Coding::Eight(Set::Cyrillic)),
    (*b"cyrillic-iso-8bit", Coding::Eight(Set::Cyrillic)),
    (*b"iso-8859-7\0\0\0\0\0\0\0", Coding::Eight(Set::Greek)),
    (*b"greek-iso-8bit\0\0\0", Coding::Eight(Set::Greek)),
    (*b"iso-8859-9\0\0\0\0\0\0\0", Coding::Eight(Set::Latin5)),
    (*b"latin-5\0\0\0\0\0\0\0\0\0\0", Coding::Eight(Set::Latin5)),
    (*b"latin5\0\0\0\0\0\0\0\0\0\0\0", Coding::Eight(Set::Latin5)),
    (*b"iso-latin-5\0\0\0\0\0\0", Coding::Eight(Set::Latin5)),
    (*b"iso-8859-13\0\0\0\0\0\0", Coding::Eight(Set::Latin7)),
    (*b"latin-7\0\0\0\0\0\0\0\0\0\0", Coding::Eight(Set::Latin7)),
    (*b"latin7\0\0\0\0\0\0\0\0\0\0\0", Coding::Eight(Set::Latin7)),
    (*b"iso-latin-7\0\0\0\0\0\0", Coding::Eight(Set::Latin7)),
    (*b"iso-8859-15\0\0\0\0\0\0", Coding::Eight(Set::Latin9)),
    (*b"latin-9\0\0\0\0\0\0\0\0\0\0", Coding::Eight(Set::Latin9)),
    (*b"latin9\0\0\0\0\0\0\0\0\0\0\0", Coding::Eight(Set::Latin9)),
    (*b"iso-latin-9\0\0\0\0\0\0", Coding::Eight(Set::Latin9)),
    (*b"latin-0\0\0\0\0\0\0\0\0\0\0", Coding::Eight(Set::Latin9)),
    (*b"koi8-r\0\0\0\0\0\0\0\0\0\0\0", Coding::Eight(Set::Koi8R)),
    (
        *b"koi8\0\0\0\0\0\0\0\0\0\0\0\0\0",
        Coding::Eight(Set::Koi8R),
    ),
    (*b"cyrillic-koi8\0\0\0\0", Coding::Eight(Set::Koi8R)),
    (*b"cp878\0\0\0\0\0\0\0\0\0\0\0\0", Coding::Eight(Set::Koi8R)),
    (*b"koi8-u\0\0\0\0\0\0\0\0\0\0\0", Coding::Eight(Set::Koi8U)),
    (*b"windows-1250\0\0\0\0\0", Coding::Eight(Set::Windows1250)),
    (
        *b"cp1250\0\0\0\0\0\0\0\0\0\0\0",
        Coding::Eight(Set::Windows1250),
    ),
    (*b"windows-1251\0\0\0\0\0", Coding::Eight(Set::Windows1251)),
    (
        *b"cp1251\0\0\0\0\0\0\0\0\0\0\0",
        Coding::Eight(Set::Windows1251),
    ),
    (*b"windows-1252\0\0\0\0\0", Coding::Eight(Set::Windows1252)),
    (
        *b"cp1252\0\0\0\0\0\0\0\0\0\0\0",
        Coding::Eight(Set::Windows1252),
    ),
    (*b"windows-1253\0\0\0\0\0", Coding::Eight(Set::Windows1253)),
    (
        *b"cp1253\0\0\0\0\0\0\0\0\0\0\0",
        Coding::Eight(Set::Windows1253),
    ),
    (*b"windows-1254\0\0\0\0\0", Coding::Eight(Set::Windows1254)),
    (
        *b"cp1254\0\0\0\0\0\0\0\0\0\0\0",
        Coding::Eight(Set::Windows1254),
    ),
    (*b"windows-1257\0\0\0\0\0", Coding::Eight(Set::Windows1257)),
    (
        *b"cp1257\0\0\0\0\0\0\0\0\0\0\0",
        Coding::Eight(Set::Windows1257),
    ),
];

/// What stands before an ending, and all of a name that has it not.
fn without<'a>(ending: &[u8], name: &'a [u8]) -> &'a [u8]
    ensures { result.now ≡ specs.without ending.now name.now }
{
    if name.len() < ending.len() {
        return name;
    }
    let (prefix, back) = name.split_at(name.len() - ending.len());
    if back == ending { prefix } else { name }
}

/// A name without what tells how lines end, and without a `-` of `-*-` that stands right after it.
fn base_of(name: &[u8]) -> &[u8]
    ensures { result.now ≡ specs.base_of name.now }
{
    let name = without(b"-", name);
    without(b"-unix", without(b"-mac", without(b"-dos", name)))
}

/// What stands before the first NUL.
fn before_nul(text: &[u8]) -> &[u8]
    ensures { result.now ≡ specs.before_nul text.now }
{
    for (i, byte) in text.iter().enumerate() {
        if *byte == 0 {
            return &text[..i];
        }
    }
    text
}

/// What these have for a name.
fn named_in(names: &[([u8; 17], Coding)], name: &[u8]) -> Option<Coding>
    ensures { result ≡ specs.named_in names.now name.now }
{
    for entry in names {
        if before_nul(&entry.0) == name {
            return Some(entry.1);
        }
    }
    None
}

/// The coding of a name, if it is known.
pub(crate) fn coding_named(name: &[u8]) -> Option<Coding>
    ensures { result ≡ specs.coding_named name.now }
{
    named_in(&NAMES, base_of(name))
}

impl Coding {
    /// The coding of a name, whose letters are of either case, as `-K` gives it; none where the name is not known.
    pub fn named(name: &[u8]) -> Option<Coding>
        ensures { result ≡ coding_of name.now }
    {
        if name.len() > LONGEST {
            return None;
        }
        let mut small = Name::new();
        for byte in name {
            small.push(lowered(*byte));
        }
        coding_named(small.as_bytes())
    }
}
