//! The texts of numbers.
ghost use Rattle.std.specs.Prelude.{◌≡◌, ◌+◌, ◌-◌, ◌<◌, ◌≤◌, ◌++◌, ◌^◌, ◌/◌, ◌%◌, ◌∷◌, [], length, replicate};
ghost use Rattle.std.specs.Fmt.{decimal};
ghost use Rattle.arrayvec.specs.ArrayVec.{array_vec_len};
ghost use Rattle.nr_units.specs.Character.{code};
ghost use Rattle.nr_units.specs.NumberText.{IsArabic, IsRoman, IsAlphabetic, Appends, roman_digit, IsNumberText, arabic_text, roman_text, alphabetic_text, number_text};

use arrayvec::ArrayVec;
use itoa::Buffer;

/// The text of a number, or what stands of it.
type Text = ArrayVec<u8, 32>;

/// How a number is written (CSTR 54, register formats).
#[derive(Clone, Copy)]
pub enum Format {
    /// Decimal digits, with zeros in front for at least so many places. More than nine places count as nine.
    Arabic { places: u8 },
    /// `i`, `ii`, `iii`, `iv`, ..
    LowerRoman,
    /// `I`, `II`, `III`, `IV`, ..
    UpperRoman,
    /// `0`, `a` to `z`, `aa`, ..
    LowerAlphabetic,
    /// `0`, `A` to `Z`, `AA`, ..
    UpperAlphabetic,
}

impl Default for Format {
    ghost use Rattle.nr_units.specs.declared.number_text.Format.TheVariants.{Arabic};
    ghost use Rattle.std.specs.Prelude.{◌≡◌};

    ghost is_default = { λ f. f ≡ Arabic 1 };

    /// That of a register at first.
    fn default() -> Self {
        Format::Arabic { places: 1 }
    }
}

/// Adds these bytes.
fn push_all(text: &mut Text, bytes: &[u8])
    requires { array_vec_len text.old + length bytes.now ≤ 32 }
    ensures { text.new.items ≡ text.old.items ++ bytes.now }
{
    let _ = text.try_extend_from_slice(bytes);
}

/// Adds a byte so many times.
fn push_times(text: &mut Text, byte: u8, times: usize)
    requires { array_vec_len text.old + times ≤ 32 }
    ensures { text.new.items ≡ text.old.items ++ replicate times byte }
{
    for _i in 0..times {
        text.push(byte);
    }
}

/// Adds the two digits of a number below 100.
#[inline(always)]
fn push_pair(text: &mut Text, n: u64)
    requires room { array_vec_len text.old + 2 ≤ 32 }
    requires range { n < 100 }
    ensures { text.new.items ≡ text.old.items ++ (code "0" + n / 10) ∷ (code "0" + n % 10) ∷ [] }
{
    text.push(b'0' + (n / 10) as u8);
    text.push(b'0' + (n % 10) as u8);
}

/// Adds the decimal digits of a number below 100.
#[inline(always)]
fn push_short(text: &mut Text, n: u64)
    requires room { array_vec_len text.old + 2 ≤ 32 }
    requires range { n < 100 }
    ensures value { text.new.items ≡ text.old.items ++ decimal n }
    ensures short { array_vec_len text.new ≤ array_vec_len text.old + 2 }
{
    if n >= 10 {
        return push_pair(text, n);
    }
    text.push(b'0' + n as u8);
}

/// Adds the decimal digits of a number below 10000.
#[inline(always)]
fn push_few(text: &mut Text, n: u64)
    requires room { array_vec_len text.old + 4 ≤ 32 }
    requires range { n < 10000 }
    ensures value { text.new.items ≡ text.old.items ++ decimal n }
    ensures short { array_vec_len text.new ≤ array_vec_len text.old + 4 }
{
    if n < 100 {
        return push_short(text, n);
    }
    push_short(text, n / 100);
    push_pair(text, n % 100);
}

/// Adds the decimal digits of `n`, with zeros in front for so many places.
fn push_padded(text: &mut Text, n: u64, places: u8)
    requires room { array_vec_len text.old ≤ 1 }
    requires range { n ≤ 2 ^ 63 }
    ensures appends { Appends text.old.items text.new.items (IsArabic places n) }
    ensures short { array_vec_len text.new ≤ array_vec_len text.old + 19 }
    ensures computed { text.new.items ≡ text.old.items ++ arabic_text places n }
{
    let mut buffer = Buffer::new();
    let digits = buffer.format(n).as_bytes();
    let places = usize::from(places).min(9);
    push_times(text, b'0', places.saturating_sub(digits.len()));
    push_all(text, digits);
}

/// The same, at once where no zeros stand in front of few digits.
#[inline]
fn push_arabic(text: &mut Text, n: u64, places: u8)
    requires room { array_vec_len text.old ≤ 1 }
    requires range { n ≤ 2 ^ 63 }
    ensures appends { Appends text.old.items text.new.items (IsArabic places n) }
    ensures short { array_vec_len text.new ≤ array_vec_len text.old + 19 }
    ensures computed { text.new.items ≡ text.old.items ++ arabic_text places n }
{
    if n < 10000 && places <= 1 {
        return push_few(text, n);
    }
    push_padded(text, n, places);
}

/// Adds a roman digit, by its letters for one, five and ten.
fn push_roman_digit(text: &mut Text, digit: u8, one: u8, five: u8, ten: u8)
    requires below_ten { digit < 10 }
    requires room { array_vec_len text.old + 4 ≤ 32 }
    ensures value { text.new.items ≡ text.old.items ++ roman_digit one five ten digit }
    ensures short { array_vec_len text.new ≤ array_vec_len text.old + 4 }
{
    match digit {
        0 => {}
        1 => push_all(text, &[one]),
        2 => push_all(text, &[one, one]),
        3 => push_all(text, &[one, one, one]),
        4 => push_all(text, &[one, five]),
        5 => push_all(text, &[five]),
        6 => push_all(text, &[five, one]),
        7 => push_all(text, &[five, one, one]),
        8 => push_all(text, &[five, one, one, one]),
        _ => push_all(text, &[one, ten]),
    }
}

/// Adds `n` in roman, in letters that stand `raised` before the small ones; from 4000 on, and 0, in Arabic.
fn push_roman(text: &mut Text, n: u64, raised: u8)
    requires room { array_vec_len text.old ≤ 1 }
    requires range { n ≤ 2 ^ 63 }
    requires case { raised ≤ code "a" - code "A" }
    ensures appends { Appends text.old.items text.new.items (IsRoman raised n) }
    ensures short { array_vec_len text.new ≤ array_vec_len text.old + 19 }
    ensures computed { text.new.items ≡ text.old.items ++ roman_text raised n }
{
    if n == 0 || n >= 4000 {
        return push_arabic(text, n, 1);
    }
    let thousands = (n / 1000) as usize;
    let hundreds = (n / 100 % 10) as u8;
    let tens = (n / 10 % 10) as u8;
    let units = (n % 10) as u8;
    push_times(text, b'm' - raised, thousands);
    push_roman_digit(text, hundreds, b'c' - raised, b'd' - raised, b'm' - raised);
    push_roman_digit(text, tens, b'x' - raised, b'l' - raised, b'c' - raised);
    push_roman_digit(text, units, b'i' - raised, b'v' - raised, b'x' - raised);
}

/// Adds `n` in letters, `before` being the byte before the first of the 26.
fn push_alphabetic(text: &mut Text, n: u64, before: u8)
    requires room { array_vec_len text.old ≤ 1 }
    requires range { n ≤ 2 ^ 63 }
    requires case { before < code "a" }
    ensures appends { Appends text.old.items text.new.items (IsAlphabetic before n) }
    ensures short { array_vec_len text.new ≤ array_vec_len text.old + 19 }
    ensures computed { text.new.items ≡ text.old.items ++ alphabetic_text before n }
{
    if n == 0 {
        return push_all(text, b"0");
    }
    let mut letters = [0u8; 14];
    let mut rest = n;
    let mut start = 14;
    while rest > 0 {
        start -= 1;
        letters[start] = before + 1 + ((rest - 1) % 26) as u8;
        rest = (rest - 1) / 26;
    }
    push_all(text, &letters[start..]);
}

/// The text of a number in a format. The longest is that of the least `i64`.
///
/// Proved: The text of a number is that of its format: decimal digits with leading zeros, roman from 1 to 3999, or
/// letters; it is one function of the number, at most 20 bytes long.
pub fn format_number(n: i64, format: Format) -> ArrayVec<u8, 32>
    ensures text { IsNumberText format n result.items }
    ensures short { array_vec_len result ≤ 20 }
    ensures computed { result.items ≡ number_text format n }
{
    let mut text = ArrayVec::new();
    if n < 0 {
        text.push(b'-');
    }
    let magnitude = n.unsigned_abs();
    match format {
        Format::Arabic { places } => push_arabic(&mut text, magnitude, places),
        Format::LowerRoman => push_roman(&mut text, magnitude, 0),
        Format::UpperRoman => push_roman(&mut text, magnitude, b'a' - b'A'),
        Format::LowerAlphabetic => push_alphabetic(&mut text, magnitude, b'a' - 1),
        Format::UpperAlphabetic => push_alphabetic(&mut text, magnitude, b'A' - 1),
    }
    text
}
