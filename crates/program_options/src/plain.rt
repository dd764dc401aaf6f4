//! What words set that is a number or one of a few things.
ghost use Rattle.std.specs.Prelude.{◌≡◌};
ghost use Rattle.program_options.specs.Plain.{changed, nothing_set};

/// What pages are printed in.
#[derive(Clone, Copy, PartialEq, Eq, Debug)]
pub enum Device {
    /// UTF-8.
    Utf8,
    /// Latin-1 (ISO 8859-1).
    Latin1,
    /// ASCII.
    Ascii,
}

/// How bold and underlined text goes out.
#[derive(Clone, Copy, PartialEq, Eq, Debug)]
pub enum Faces {
    /// Between escape sequences where the output is a terminal, and else struck over.
    Auto,
    /// Between escape sequences.
    On,
    /// Struck over, by backspaces.
    Off,
    /// Not at all.
    None,
}

/// What is printed in place of pages.
#[derive(Clone, Copy, PartialEq, Eq, Debug)]
pub enum Says {
    /// The version.
    Version,
    /// How the program is called.
    Help,
}

/// What is set before the macro files are read.
#[derive(Clone, Copy, PartialEq, Eq, Debug)]
pub enum Kind {
    /// A register, by an expression.
    Register,
    /// A string, by its text.
    Text,
}

/// What words set that is a number or one of a few things.
#[derive(Clone, Copy)]
pub struct Plain {
    /// What pages are printed in; none: as the locale says.
    pub device: Option<Device>,
    /// The cells of a line, 1 to 9999; none: as the macro files have it.
    pub width: Option<u64>,
    /// How bold and underlined text goes out.
    pub faces: Faces,
    /// Bold shows, and underlining on all that isn't blank.
    pub shows_bold: bool,
    /// What is printed in place of pages, if anything.
    pub says: Option<Says>,
    /// The first page's number, at most 2147483647.
    pub first: u64,
    /// The most bytes of a table's options and formats, 1 to 1048576.
    pub formats: u64,
    /// The most bytes of a row of a table, 64 to 1048576.
    pub row: u64,
    /// Manual pages are cut into pages.
    pub is_paged: bool,
    /// What is wrong in a text is reported.
    pub warns: bool,
    /// Nothing is printed: texts are only checked.
    pub checks: bool,
    /// Standard input is read after the files.
    pub reads_input: bool,
    /// A text that asks for other programs is not formatted.
    pub is_alone: bool,
}

/// What one word sets of that.
#[derive(Clone, Copy)]
pub(crate) enum Change {
    Device(Device),
    Width(u64),
    Faces(Faces),
    Bold,
    Says(Says),
    First(u64),
    Formats(u64),
    Row(u64),
    Paged,
    Warns,
    Checks,
    Input,
    Alone,
}

impl Plain {
    /// Where no word sets anything.
    pub(crate) fn unset() -> Plain
        ensures { result ≡ nothing_set }
    {
        Plain {
            device: None,
            width: None,
            faces: Faces::Auto,
            shows_bold: false,
            says: None,
            first: 1,
            formats: 262_144,
            row: 65_536,
            is_paged: false,
            warns: false,
            checks: false,
            reads_input: false,
            is_alone: false,
        }
    }

    /// With one thing set.
    pub(crate) fn changed(self, change: Change) -> Plain
        ensures { result ≡ changed change self }
    {
        let mut plain = self;
        match change {
            Change::Device(device) => plain.device = Some(device),
            Change::Width(cells) => plain.width = Some(cells),
            Change::Faces(faces) => plain.faces = faces,
            Change::Bold => plain.shows_bold = true,
            Change::Says(says) => plain.says = Some(says),
            Change::First(number) => plain.first = number,
            Change::Formats(bytes) => plain.formats = bytes,
            Change::Row(bytes) => plain.row = bytes,
            Change::Paged => plain.is_paged = true,
            Change::Warns => plain.warns = true,
            Change::Checks => plain.checks = true,
            Change::Input => plain.reads_input = true,
            Change::Alone => plain.is_alone = true,
        }
        plain
    }
}
