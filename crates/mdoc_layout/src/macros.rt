//! What macros are, and fonts.

/// A font.
#[derive(Clone, Copy, PartialEq, Eq)]
pub enum Font {
    /// The font of the text.
    Roman,
    /// Bold.
    Bold,
    /// Italic.
    Italic,
}

/// What words are enclosed in.
#[derive(Clone, Copy)]
pub enum Pair {
    /// `[` and `]`.
    Brackets,
    /// Angle brackets.
    Angles,
    /// `<` and `>`.
    Signs,
    /// `{` and `}`.
    Braces,
    /// `(` and `)`.
    Parentheses,
    /// Double quotes of typesetting.
    DoubleQuotes,
    /// Single quotes of typesetting.
    SingleQuotes,
    /// Double quotes of typewriters.
    PlainQuotes,
    /// Nothing: the words stand on one line with those before.
    Nothing,
}

/// A system whose name a macro stands for.
#[derive(Clone, Copy)]
pub enum System {
    /// `.Bsx`.
    BsdOs,
    /// `.Fx`.
    FreeBsd,
    /// `.Nx`.
    NetBsd,
    /// `.Ox`.
    OpenBsd,
    /// `.Dx`.
    DragonFly,
    /// `.Ux`.
    Unix,
    /// `.Bt`.
    Beta,
    /// `.Ud`.
    Developed,
}

/// What a macro is.
#[derive(Clone, Copy)]
pub enum Macro {
    /// Its words are in a font, up to the next macro.
    Words(Font),
    /// `.Sx`: the heading of a section.
    SectionName,
    /// `.Fl`: each word is an option.
    Flag,
    /// `.Ar`.
    Argument,
    /// `.Pa`.
    Path,
    /// `.Mt`.
    Mail,
    /// `.Nm`: the page's name where it has no words.
    Name,
    /// `.Fa`.
    Parameter,
    /// `.Xr`: a page and its section.
    Reference,
    /// `.An`.
    Author,
    /// `.Lk`: a link and its name.
    Link,
    /// Words to the end of the line, enclosed.
    Encloses(Pair),
    /// Opens an enclosure.
    Opens(Pair),
    /// Closes it.
    Closes(Pair),
    /// `.Eo`: opens an enclosure with the word that follows.
    OwnOpens,
    /// `.Ec`: closes it with the word that follows.
    OwnCloses,
    /// Stands for the name of a system.
    Stands(System),
    /// `.At`.
    Att,
    /// `.Bx`.
    Bsd,
    /// The second word of `.Bx`.
    BsdRelease,
    /// `.St`.
    Standard,
    /// `.Lb`.
    Library,
    /// `.Ns`.
    Joins,
    /// `.Ap`.
    Apostrophe,
    /// `.Pf`.
    Prefix,
    /// `.Fn`.
    Function,
    /// `.Fo`.
    FunctionOpens,
    /// `.Fc`.
    FunctionCloses,
    /// `.In`.
    Include,
    /// `.Ta`.
    Cell,
    /// `.Ft`.
    ResultType,
    /// `.Vt`.
    Variable,
    /// `.Fd`.
    Declaration,
    /// `.Cd`.
    Configuration,
    /// `.Nd`.
    Describes,
    /// `.Dd`.
    Date,
    /// Its words are printed, and call no macro.
    Plain,
    /// `.Dt`.
    Title,
    /// `.Os`.
    System,
    /// `.Sh`.
    Section,
    /// `.Ss`.
    Subsection,
    /// `.Pp` and `.Lp`.
    Paragraph,
    /// `.Bl`.
    List,
    /// `.It`.
    Item,
    /// `.El`.
    ListEnds,
    /// `.Bd`.
    Display,
    /// `.Ed`.
    DisplayEnds,
    /// `.D1`.
    Line,
    /// `.Dl`.
    LiteralLine,
    /// `.Rs`.
    Book,
    /// `.Re`.
    BookEnds,
    /// A part of a reference, by its letter.
    Part(u8),
    /// `.Bf`.
    FontBegins,
    /// `.Ef`.
    FontEnds,
    /// `.Sm`.
    Spacing,
    /// `.Ex`.
    Exits,
    /// `.Rv`.
    Returns,
    /// `.Bk`.
    Keeps,
    /// `.Ek`.
    KeepEnds,
    /// Such as print nothing.
    Silent,
    /// `.TS` and `.T&`: lines for tbl come.
    Table,
    /// `.TE`: they have ended.
    TableEnds,
    /// `.sp`.
    Spaces,
    /// `.de`, `.am` and `.ig`: the lines up to `..` pass.
    Defines,
}
