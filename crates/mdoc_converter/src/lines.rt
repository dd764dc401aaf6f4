//! Lines: what the macro that begins one says, and what its end says.
ghost use Rattle.std.specs.Prelude.{◌≡◌};
ghost use Rattle.mdoc_layout.specs.Seeing.{offered};
ghost use Rattle.mdoc_converter.specs.Lines as specs;

use super::definitions::is_own;
use mdoc_layout::{
    Act, Call, Following, Font, Kind, Last, Macro, Page, Request, RowPart, Scan, Section, Seen,
    Split, Stack, Text, Wanted,
};
use mdoc_words::{called, is_pending, is_synopsis, leaves, macro_of};
use nr_units::Name;

/// Whether a name is that of a request, not of a macro.
pub(crate) fn is_request(name: &[u8]) -> bool
    ensures { result ≡ specs.is_request name.now }
{
    match name {
        [first, ..] => !matches!(*first, b'A'..=b'Z') && *first != b'%',
        [] => false,
    }
}

/// Whether it is that of a condition.
fn is_condition(name: &[u8]) -> bool
    ensures { result ≡ specs.is_condition name.now }
{
    matches!(name, b"if" | b"ie" | b"el")
}

/// Whether the words of a line's macro call none.
fn calls_none(line: Macro) -> bool
    ensures { result ≡ specs.calls_none line }
{
    matches!(
        line,
        Macro::Describes | Macro::Declaration | Macro::Library | Macro::Plain | Macro::Part(_)
    )
}

/// The call of a line's macro.
pub(crate) fn call_of(line: Macro) -> Call
    ensures { result ≡ specs.call_of line }
{
    Call {
        line,
        taker: line,
        first: true,
        plain: calls_none(line),
        some: false,
        listed: false,
        many: false,
        following: Following::Nothing,
        going: false,
        comment: false,
        wanted: Wanted::Option,
        width: 0,
    }
}

/// Whether a line of this kind stands right after one of that kind in a synopsis.
fn stands_after(last: Last, kind: Last) -> bool
    ensures { result ≡ specs.stands_after last kind }
{
    match last {
        Last::Heading | Last::Configuration => true,
        Last::ResultType => matches!(kind, Last::Function),
        Last::Variable => matches!(kind, Last::Variable),
        Last::Declaration => matches!(kind, Last::Declaration),
        Last::Include => matches!(kind, Last::Include),
        _ => false,
    }
}

/// The name of a control line is whole.
pub(crate) fn named_line(page: &mut Page) -> Seen
    ensures { offered page.new result ≡ specs.named_line page.old }
{
    page.scan = Scan::Between;
    page.closers = Name::new();
    match macro_of(page.word.as_bytes()) {
        Some(line) => {
            page.call = call_of(line);
            begins(page, line)
        }
        None => other_line(page),
    }
}

/// A request, a macro of the page's own, or a line whose macro is none.
fn other_line(page: &mut Page) -> Seen
    ensures { offered page.new result ≡ specs.other_line page.old }
{
    if is_request(page.word.as_bytes()) || is_own(page) {
        if matches!(page.place.section, Section::Name) && is_condition(page.word.as_bytes()) {
            page.place.section = Section::Condition;
        }
        page.scan = Scan::Rest;
        return Seen::left(Act::Control);
    }
    page.call = call_of(Macro::Words(Font::Roman));
    Seen::left(Act::Nothing)
}

/// A macro begins a line.
#[tactic(auto, unfolding(crate::specs::Lines::begins))]
fn begins(page: &mut Page, line: Macro) -> Seen
    ensures { offered page.new result ≡ specs.begins line page.old }
{
    match line {
        Macro::Title => titles(page),
        Macro::System => system(page),
        Macro::Section => section(page),
        Macro::Subsection => subsection(page),
        Macro::Paragraph => paragraph(page),
        Macro::Describes => Seen::left(Act::Text(Text::Description)),
        Macro::Silent => silent(page),
        Macro::Spaces => asks_space(page),
        Macro::Defines => defines(page),
        Macro::Book => book(page),
        Macro::BookEnds => book_ends(page),
        Macro::Part(letter) => part_begins(page, letter),
        Macro::Keeps => keeps(page, true),
        Macro::KeepEnds => keeps(page, false),
        Macro::Table => table(page),
        Macro::TableEnds => table_ends(page),
        Macro::FontEnds => Seen::left(Act::Request(Request::Font(Font::Roman))),
        Macro::Exits => Seen::two(Act::Request(Request::Break), Act::Text(Text::The)),
        Macro::Returns => Seen::left(Act::Request(Request::Break)),
        _ => begins_block(page, line),
    }
}

/// A macro begins a line that belongs to lists, displays or the synopsis.
fn begins_block(page: &mut Page, line: Macro) -> Seen
    ensures { offered page.new result ≡ specs.begins_block line page.old }
{
    match line {
        Macro::List => page.block_opens(Kind::Item),
        Macro::Display => page.block_opens(Kind::Filled),
        Macro::Item => page.item(),
        Macro::ListEnds => page.list_ends(),
        Macro::DisplayEnds => page.display_ends(),
        Macro::Line | Macro::LiteralLine => page.line_opens(),
        Macro::ResultType => synopsis_line(page, Last::ResultType),
        Macro::Function | Macro::FunctionOpens => function_line(page),
        Macro::Variable => synopsis_line(page, Last::Variable),
        Macro::Declaration => synopsis_line(page, Last::Declaration),
        Macro::Configuration => synopsis_line(page, Last::Configuration),
        Macro::Include => include_line(page),
        _ => called(page, line),
    }
}

/// A title comes.
fn titles(page: &mut Page) -> Seen
    ensures { offered page.new result ≡ specs.titles page.old }
{
    page.title = Name::new();
    page.chapter = Name::new();
    Seen::left(Act::Nothing)
}

/// The system comes: the title's line goes out. Where no title came yet a string keeps the system for it.
fn system(page: &mut Page) -> Seen
    ensures { offered page.new result ≡ specs.system page.old }
{
    if page.place.titled {
        page.call.line = Macro::Silent;
        return silent(page);
    }
    if page.title.is_empty() {
        return Seen::two(Act::System, Act::Join);
    }
    Seen::left(Act::Title)
}

/// A heading comes: lists and displays that are open end.
fn heads(page: &mut Page)
    ensures { page.new ≡ specs.heads page.old }
{
    page.place.last = Last::Heading;
    page.place.depth = 0;
    page.lay.kept = false;
    page.lay.literal = false;
}

/// It begins: where lists or displays are open, with the space of headings.
fn heading(page: &Page, head: Act) -> Seen
    ensures { result ≡ specs.heading head page.now }
{
    if matches!(page.block.kind, Kind::Page) {
        return Seen::left(head).with(Stack::Empties);
    }
    Seen::two(Act::Request(Request::Distance), head).with(Stack::Empties)
}

/// A section begins.
fn section(page: &mut Page) -> Seen
    ensures { offered page.new result ≡ specs.section page.old }
{
    heads(page);
    page.place.section = Section::Other;
    page.place.split = Split::Never;
    if page.place.titled {
        return heading(page, Act::Section);
    }
    Seen::three(Act::Title, Act::TitleEnds, Act::Section).with(Stack::Empties)
}

/// A subsection begins.
fn subsection(page: &mut Page) -> Seen
    ensures { offered page.new result ≡ specs.subsection page.old }
{
    heads(page);
    heading(page, Act::Subsection)
}

/// A paragraph begins.
fn paragraph(page: &mut Page) -> Seen
    ensures { offered page.new result ≡ specs.paragraph page.old }
{
    page.place.last = Last::Heading;
    Seen::left(Act::Space)
}

/// A line that prints nothing.
fn silent(page: &mut Page) -> Seen
    ensures { offered page.new result ≡ specs.silent page.old }
{
    page.scan = Scan::Dropped;
    Seen::left(Act::Nothing)
}

/// Space that the page itself asks for passes, but after space that was made.
fn asks_space(page: &mut Page) -> Seen
    ensures { offered page.new result ≡ specs.asks_space page.old }
{
    if page.lay.quiet {
        return silent(page);
    }
    page.scan = Scan::Rest;
    Seen::left(Act::Control)
}

/// Lines that pass come.
fn defines(page: &mut Page) -> Seen
    ensures { offered page.new result ≡ specs.defines page.old }
{
    page.scan = Scan::Defines;
    Seen::left(Act::Control)
}

/// The words of a line stay together, or no more.
fn keeps(page: &mut Page, kept: bool) -> Seen
    ensures { offered page.new result ≡ specs.keeps kept page.old }
{
    page.lay.kept = kept;
    silent(page)
}

/// Lines for tbl come. What divides a table stands outside of one for nothing.
fn table(page: &mut Page) -> Seen
    ensures { offered page.new result ≡ specs.table page.old }
{
    if page.word.as_bytes() != b"TS".as_slice() {
        return silent(page);
    }
    page.scan = Scan::Table(RowPart::Rest);
    Seen::two(Act::Request(Request::NoDistance), Act::Control)
}

/// What ends a table passes.
fn table_ends(page: &mut Page) -> Seen
    ensures { offered page.new result ≡ specs.table_ends page.old }
{
    page.scan = Scan::Rest;
    Seen::left(Act::Control)
}

/// A reference begins.
fn book(page: &mut Page) -> Seen
    ensures { offered page.new result ≡ specs.book page.old }
{
    page.place.reference = true;
    page.place.authors = 0;
    page.parts = Name::new();
    if matches!(page.place.section, Section::SeeAlso) {
        return Seen::left(Act::Space);
    }
    Seen::left(Act::Nothing)
}

/// It ends.
fn book_ends(page: &mut Page) -> Seen
    ensures { offered page.new result ≡ specs.book_ends page.old }
{
    if !page.place.reference {
        return Seen::left(Act::Nothing);
    }
    page.place.reference = false;
    Seen::left(Act::Reference)
}

/// A part of it comes.
fn part_begins(page: &mut Page, letter: u8) -> Seen
    ensures { offered page.new result ≡ specs.part_begins letter page.old }
{
    if !page.place.reference {
        return Seen::left(Act::Nothing);
    }
    Seen::two(Act::Part(letter), Act::Join)
}

/// Its line ends: outside of a reference it ends no sentence.
fn part_ends(page: &Page) -> Seen
    ensures { result ≡ specs.part_ends page.now }
{
    if page.place.reference {
        return Seen::left(Act::Fresh);
    }
    Seen::left(Act::Close(Text::Empty))
}

/// What stands before a line of the synopsis: a paragraph where another kind came before.
fn line_before(page: &Page, kind: Last) -> Act
    ensures { result ≡ specs.line_before kind page.now }
{
    if stands_after(page.place.last, kind) {
        Act::Request(Request::Break)
    } else {
        Act::Space
    }
}

/// In a synopsis some macros begin a line.
fn synopsis_line(page: &mut Page, kind: Last) -> Seen
    ensures { offered page.new result ≡ specs.synopsis_line kind page.old }
{
    if !is_synopsis(page) {
        return Seen::left(Act::Nothing);
    }
    let act = line_before(page, kind);
    page.place.last = kind;
    Seen::left(act)
}

/// A function hangs in the synopsis.
fn function_line(page: &mut Page) -> Seen
    ensures { offered page.new result ≡ specs.function_line page.old }
{
    if !is_synopsis(page) {
        return Seen::left(Act::Nothing);
    }
    let act = line_before(page, Last::Function);
    page.place.last = Last::Function;
    Seen::two(act, Act::Request(Request::Hangs))
}

/// A file that a line includes.
fn include_line(page: &mut Page) -> Seen
    ensures { offered page.new result ≡ specs.include_line page.old }
{
    if !is_synopsis(page) {
        return Seen::left(Act::Nothing);
    }
    let act = line_before(page, Last::Include);
    page.place.last = Last::Include;
    Seen::two(act, Act::Text(Text::Include))
}

/// The line ends: what is pending comes first, then what closes enclosures, the last first, then marks.
///
/// Proved: What a line opened for its own words is closed where it ends, the last first, before the closing marks
/// that end it. (`ends`, `closes_last`)
pub(crate) fn ends(page: &mut Page) -> Seen
    ensures { offered page.new result ≡ specs.ends page.old }
{
    if is_pending(page) {
        return leaves(page);
    }
    if !page.closers.is_empty() {
        return closes_last(page);
    }
    if !page.marks.is_empty() {
        return Seen::left(Act::Marks);
    }
    line_ends(page)
}

/// The enclosure that the line opened last is closed.
#[tactic(auto, unfolding(crate::specs::Lines::closes_last))]
fn closes_last(page: &mut Page) -> Seen
    requires { specs.is_some_closer page.old }
    ensures { offered page.new result ≡ specs.closes_last page.old }
{
    let closers = page.closers;
    let bytes = closers.as_bytes();
    let rest = bytes.len() - 1;
    page.closers = Name::of(&bytes[..rest]);
    if ends_joined(page) {
        return Seen::two(Act::Close(Text::Closing(bytes[rest])), Act::Join);
    }
    Seen::left(Act::Close(Text::Closing(bytes[rest])))
}

/// `.Ns` ends the line: what comes next joins what the line closes.
fn ends_joined(page: &Page) -> bool
    ensures { result ≡ specs.ends_joined page.now }
{
    matches!(page.call.taker, Macro::Joins) && !page.call.some
}

/// All of the line was said.
#[tactic(auto, unfolding(crate::specs::Lines::line_ends))]
fn line_ends(page: &mut Page) -> Seen
    ensures { offered page.new result ≡ specs.line_ends page.old }
{
    let mut seen = end_of(page, page.call.line).and_taken();
    page.scan = Scan::Start;
    if matches!(seen.third, Act::Nothing) {
        let whole = page.lay.tag && page.place.depth == 0;
        seen.third = if whole { page.tag_ends() } else { Act::Ends };
    }
    seen
}

/// What the macro that began a line says at its end.
#[tactic(auto, unfolding(crate::specs::Lines::end_of))]
fn end_of(page: &mut Page, line: Macro) -> Seen
    ensures { offered page.new result ≡ specs.end_of line page.old }
{
    match line {
        Macro::Section | Macro::Subsection => Seen::left(Act::Quiet),
        Macro::System => Seen::left(Act::TitleEnds),
        Macro::List => page.list_begins(),
        Macro::Display => page.display_begins(),
        Macro::ListEnds => page.outer_goes_on(Act::Request(Request::Distance)),
        Macro::DisplayEnds => page.outer_goes_on(Act::Nothing),
        Macro::Line | Macro::LiteralLine => page.outer_goes_on(Act::Request(Request::IndentEnds)),
        Macro::Item => page.item_ends(),
        Macro::Declaration => Seen::left(Act::Request(Request::Break)),
        Macro::Part(_) => part_ends(page),
        Macro::Exits => exits(page),
        Macro::Returns => returns(page),
        Macro::Spacing => spacing(page),
        _ => Seen::left(Act::Nothing),
    }
}

/// What a utility's status is: the page's, where none is named.
fn exits(page: &Page) -> Seen
    ensures { result ≡ specs.exits page.now }
{
    if !page.call.listed {
        return Seen::two(Act::Own, Act::Text(Text::Exits));
    }
    if page.held.is_empty() {
        return Seen::left(Act::Text(Text::Exits));
    }
    Seen::two(Act::LastHeld(page.call.many), Act::Text(Text::AllExit))
}

/// What functions return.
fn returns(page: &Page) -> Seen
    ensures { result ≡ specs.returns page.now }
{
    if !page.call.listed {
        return Seen::left(Act::Text(Text::Succeeds));
    }
    if page.held.is_empty() {
        return Seen::left(Act::Text(Text::Returns));
    }
    Seen::three(
        Act::LastHeld(page.call.many),
        Act::Close(Text::Parentheses),
        Act::Text(Text::AllReturn),
    )
}

/// Without a word the spacing turns. What stands open at the end of the line before goes on where words join.
fn spacing(page: &mut Page) -> Seen
    ensures { offered page.new result ≡ specs.spacing page.old }
{
    if !page.call.some {
        page.lay.spaced = !page.lay.spaced;
    }
    page.lay.joined = page.lay.joined && !page.lay.spaced;
    Seen::left(Act::Nothing)
}
