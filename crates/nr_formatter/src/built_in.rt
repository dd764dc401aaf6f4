//! Which registers are built in. (CSTR 54, section 8; groff manual, built-in registers.)

/// A built-in register: no request makes or removes it.
#[derive(Clone, Copy)]
pub enum BuiltInRegister {
    /// `%`
    Page,
    /// `nl`
    Place,
    /// `dn`
    Height,
    /// `dl`
    Width,
    /// `.$`
    Arguments,
    /// `.d`
    DiversionPlace,
    /// `.i`
    Indent,
    /// `.l`
    LineLength,
    /// `.o`
    Offset,
    /// `.p`
    PageLength,
    /// `.v`
    Spacing,
    /// `.n`
    TextWidth,
    /// `.t`
    Distance,
    /// `.u`
    Fill,
    /// `.z`
    Diversion,
    /// `.H`
    HorizontalUnit,
    /// `.V`
    VerticalUnit,
    /// Another whose name begins with `.`: it is undefined.
    Other,
}

impl BuiltInRegister {
    ghost use Rattle.std.specs.Prelude.{◌≡◌, is_some};
    ghost use Rattle.nr_reading.specs.Ask.{is_given};
    ghost use Rattle.nr_formatter.specs.BuiltIn.{dotted, given_by_byte, given_by_bytes, given_named};

    /// The register of a name of one byte.
    fn by_byte(byte: u8) -> Option<BuiltInRegister>
        ensures { result ≡ given_by_byte byte }
    {
        match byte {
            b'%' => Some(BuiltInRegister::Page),
            b'.' => Some(BuiltInRegister::Other),
            _ => None,
        }
    }

    /// The register whose name is a `.` and this byte.
    fn dotted(byte: u8) -> BuiltInRegister
        ensures { result ≡ dotted byte }
    {
        match byte {
            b'$' => BuiltInRegister::Arguments,
            b'd' => BuiltInRegister::DiversionPlace,
            b'i' => BuiltInRegister::Indent,
            b'l' => BuiltInRegister::LineLength,
            b'o' => BuiltInRegister::Offset,
            b'p' => BuiltInRegister::PageLength,
            b'v' => BuiltInRegister::Spacing,
            b'n' => BuiltInRegister::TextWidth,
            b't' => BuiltInRegister::Distance,
            b'u' => BuiltInRegister::Fill,
            b'z' => BuiltInRegister::Diversion,
            b'H' => BuiltInRegister::HorizontalUnit,
            b'V' => BuiltInRegister::VerticalUnit,
            _ => BuiltInRegister::Other,
        }
    }

    /// The register of a name of two bytes.
    fn by_bytes(first: u8, second: u8) -> Option<BuiltInRegister>
        ensures { result ≡ given_by_bytes first second }
    {
        match (first, second) {
            (b'.', byte) => Some(BuiltInRegister::dotted(byte)),
            (b'n', b'l') => Some(BuiltInRegister::Place),
            (b'd', b'n') => Some(BuiltInRegister::Height),
            (b'd', b'l') => Some(BuiltInRegister::Width),
            _ => None,
        }
    }

    /// The built-in register of this name, if there is one.
    ///
    /// Proved: Built-in registers have the names and the values of the definition. (`BuiltInRegister::of`;
    /// `Formatter::give_register` in registers.rt)
    pub fn of(name: &[u8]) -> Option<BuiltInRegister>
        ensures register { result ≡ given_named name.now }
        // These are the names that the reader takes for built-in registers.
        ensures known { is_some result ≡ is_given name.now }
    {
        let Some((first, rest)) = name.split_first() else {
            return None;
        };
        let Some((second, more)) = rest.split_first() else {
            return BuiltInRegister::by_byte(*first);
        };
        if more.is_empty() {
            return BuiltInRegister::by_bytes(*first, *second);
        }
        if *first == b'.' {
            return Some(BuiltInRegister::Other);
        }
        None
    }
}
