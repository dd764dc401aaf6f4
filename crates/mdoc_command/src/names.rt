// Which names begin definitions, open blocks, and end them.
ghost use Rattle.std.specs.Prelude.{◌≡◌};
ghost use Rattle.mdoc_command.specs.Names as specs;

use nr_units::Name;

/// The macros whose words call none.
static UNPARSED: [[u8; 2]; 29] = [
    *b"Bd", *b"Bf", *b"Bk", *b"Bl", *b"Bt", *b"Db", *b"Dd", *b"Dt", *b"Ed", *b"Ef", *b"Ek", *b"El",
    *b"Ex", *b"Fd", *b"Hf", *b"Lb", *b"Lp", *b"Nd", *b"Os", *b"Pp", *b"Re", *b"Rs", *b"Rv", *b"Sm",
    *b"T&", *b"TE", *b"TS", *b"Tg", *b"Ud",
];

/// Whether a name is that of a request, not of a macro.
pub fn is_request(name: &[u8]) -> bool
    ensures { result ≡ specs.is_request name.now }
{
    match name {
        [first, ..] => !matches!(*first, b'A'..=b'Z') && *first != b'%',
        [] => true,
    }
}

/// Whether a request begins a definition, whose lines are not looked at.
pub fn defines(name: &[u8]) -> bool
    ensures { result ≡ specs.defines name.now }
{
    name == b"de".as_slice() || name == b"am".as_slice() || name == b"ig".as_slice()
}

/// Whether a request has lines or words that are not looked at, which may name the page.
pub fn hides(name: &[u8]) -> bool
    ensures { result ≡ specs.hides name.now }
{
    defines(name)
        || name == b"if".as_slice()
        || name == b"ie".as_slice()
        || name == b"el".as_slice()
        || name == b"so".as_slice()
}

/// Whether a table has a name of two bytes.
fn is_in(table: &[[u8; 2]], first: u8, second: u8) -> bool
    ensures { result ≡ specs.is_in table.now first second }
{
    for name in table {
        if name[0] == first && name[1] == second {
            return true;
        }
    }
    false
}

/// Whether words of this macro's line may call others.
pub fn is_parsed(name: &[u8]) -> bool
    ensures { result ≡ specs.is_parsed name.now }
{
    match name {
        [first, second] => *first != b'%' && !is_in(&UNPARSED, *first, *second),
        _ => true,
    }
}

/// Whether `o` after this letter opens an enclosure, and `c` ends it.
fn encloses(letter: u8) -> bool
    ensures { result ≡ specs.encloses letter }
{
    matches!(
        letter,
        b'A' | b'B' | b'D' | b'E' | b'F' | b'O' | b'P' | b'Q' | b'S' | b'X'
    )
}

/// Whether this letter after `B` opens a block, and after `E` ends it.
fn is_block(letter: u8) -> bool
    ensures { result ≡ specs.is_block letter }
{
    matches!(letter, b'd' | b'f' | b'k' | b'l')
}

/// Whether a macro opens what another one ends.
pub fn opens(name: &[u8]) -> bool
    ensures { result ≡ specs.opens name.now }
{
    match name {
        [first, second] => {
            (*second == b'o' && encloses(*first))
                || (*first == b'B' && is_block(*second))
                || (*first == b'R' && *second == b's')
                || (*first == b'T' && *second == b'S')
        }
        [b'B', b'r', b'o'] => true,
        _ => false,
    }
}

/// The macro that opens what this one ends, where it ends something.
pub fn opener_of(name: &[u8]) -> Option<Name>
    ensures { result ≡ specs.opener_of name.now }
{
    match name {
        [first, second] => {
            if *second == b'c' && encloses(*first) {
                Some(Name::of(&[*first, b'o']))
            } else if *first == b'E' && is_block(*second) {
                Some(Name::of(&[b'B', *second]))
            } else if *first == b'R' && *second == b'e' {
                Some(Name::of(b"Rs"))
            } else if *first == b'T' && *second == b'E' {
                Some(Name::of(b"TS"))
            } else {
                None
            }
        }
        [b'B', b'r', b'c'] => Some(Name::of(b"Bro")),
        _ => None,
    }
}

/// The macros that print nothing without words, but for parts of references.
static NEED_WORDS: [[u8; 2]; 30] = [
    *b"Ad", *b"An", *b"Cd", *b"Cm", *b"Dv", *b"Em", *b"Er", *b"Ev", *b"Fa", *b"Fd", *b"Fn", *b"Fr",
    *b"Ft", *b"Ic", *b"In", *b"Lb", *b"Li", *b"Lk", *b"Ms", *b"No", *b"Ot", *b"Sh", *b"Ss", *b"St",
    *b"Sx", *b"Sy", *b"Tn", *b"Va", *b"Vt", *b"Xr",
];

/// The macros that take no words.
static TAKE_NONE: [[u8; 2]; 10] = [
    *b"Pp", *b"Lp", *b"El", *b"Ed", *b"Ek", *b"Ef", *b"Rs", *b"Re", *b"Bt", *b"Ud",
];

/// Whether a macro prints nothing without words.
pub fn needs_words(name: &[u8]) -> bool
    ensures { result ≡ specs.needs_words name.now }
{
    match name {
        [first, second] => *first == b'%' || is_in(&NEED_WORDS, *first, *second),
        _ => false,
    }
}

/// Whether a macro takes no words.
pub fn takes_none(name: &[u8]) -> bool
    ensures { result ≡ specs.takes_none name.now }
{
    match name {
        [first, second] => is_in(&TAKE_NONE, *first, *second),
        _ => false,
    }
}

/// Whether a word is a mark, which is none where it stands alone.
pub fn is_mark(word: &[u8]) -> bool
    ensures { result ≡ specs.is_mark word.now }
{
    match word {
        [mark] => matches!(
            *mark,
            b'.' | b',' | b':' | b';' | b')' | b']' | b'?' | b'!' | b'(' | b'[' | b'|'
        ),
        _ => false,
    }
}

/// Whether a word is the kind of a list.
pub fn is_list_kind(word: &[u8]) -> bool
    ensures { result ≡ specs.is_list_kind word.now }
{
    word == b"-bullet".as_slice()
        || word == b"-dash".as_slice()
        || word == b"-hyphen".as_slice()
        || word == b"-enum".as_slice()
        || word == b"-tag".as_slice()
        || word == b"-hang".as_slice()
        || word == b"-inset".as_slice()
        || word == b"-ohang".as_slice()
        || word == b"-diag".as_slice()
        || word == b"-item".as_slice()
        || word == b"-column".as_slice()
}

/// Whether a word is an option of a list or a display, the macro, that has a word of its own.
pub fn has_value(name: &[u8], word: &[u8]) -> bool
    ensures { result ≡ specs.has_value name.now word.now }
{
    word == b"-offset".as_slice()
        || (name == b"Bl".as_slice() && word == b"-width".as_slice())
        || (name == b"Bd".as_slice() && word == b"-file".as_slice())
}

/// Whether it is one without.
pub fn is_flag(name: &[u8], word: &[u8]) -> bool
    ensures { result ≡ specs.is_flag name.now word.now }
{
    word == b"-compact".as_slice() || (name == b"Bl".as_slice() && word == b"-nested".as_slice())
}

/// Whether a word is the kind of a display.
pub fn is_display_kind(word: &[u8]) -> bool
    ensures { result ≡ specs.is_display_kind word.now }
{
    word == b"-literal".as_slice()
        || word == b"-unfilled".as_slice()
        || word == b"-centered".as_slice()
        || word == b"-filled".as_slice()
        || word == b"-ragged".as_slice()
}
