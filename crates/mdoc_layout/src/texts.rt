//! The bytes of texts and requests.
ghost use Rattle.std.specs.Prelude.{◌≡◌, ◌≤◌, length};
ghost use Rattle.mdoc_layout.specs.Texts as specs;

use super::acts::{Request, Sized, Text};
use super::macros::{Font, Pair, System};
use super::page::Prefix;

/// What begins a font.
pub(crate) fn font_begin(font: Font) -> &'static [u8]
    ensures value { result.now ≡ specs.font_begin font }
    ensures few { length result.now ≤ 3 }
{
    match font {
        Font::Roman => b"",
        Font::Bold => b"\\fB",
        Font::Italic => b"\\fI",
    }
}

/// What ends it.
pub(crate) fn font_end(font: Font) -> &'static [u8]
    ensures value { result.now ≡ specs.font_end font }
    ensures few { length result.now ≤ 3 }
{
    match font {
        Font::Roman => b"",
        Font::Bold | Font::Italic => b"\\fR",
    }
}

/// What opens an enclosure.
fn opening(pair: Pair) -> &'static [u8]
    ensures value { result.now ≡ specs.opening pair }
    ensures few { length result.now ≤ 4 }
{
    match pair {
        Pair::Brackets => b"[",
        Pair::Angles => b"\\(la",
        Pair::Signs => b"<",
        Pair::Braces => b"{",
        Pair::Parentheses => b"(",
        Pair::DoubleQuotes => b"\\(lq",
        Pair::SingleQuotes => b"\\(oq",
        Pair::PlainQuotes => b"\"",
        Pair::Nothing => b"",
    }
}

/// What closes an enclosure: the mark itself, or the letter of its escape.
pub fn closer(pair: Pair) -> u8
    ensures { result ≡ specs.closer pair }
{
    match pair {
        Pair::Brackets => b']',
        Pair::Angles => b'a',
        Pair::Signs => b'>',
        Pair::Braces => b'}',
        Pair::Parentheses => b')',
        Pair::DoubleQuotes => b'r',
        Pair::SingleQuotes => b'c',
        Pair::PlainQuotes | Pair::Nothing => b'"',
    }
}

/// Its bytes.
pub(crate) fn closing(closer: u8) -> &'static [u8]
    ensures value { result.now ≡ specs.closing closer }
    ensures few { length result.now ≤ 4 }
{
    match closer {
        b']' => b"]",
        b'>' => b">",
        b'}' => b"}",
        b')' => b")",
        b'a' => b"\\(ra",
        b'r' => b"\\(rq",
        b'c' => b"\\(cq",
        _ => b"\"",
    }
}

/// The name of a system.
fn system(system: System) -> &'static [u8]
    ensures value { result.now ≡ specs.system system }
    ensures few { length result.now ≤ 32 }
{
    match system {
        System::BsdOs => b"BSD/OS",
        System::FreeBsd => b"FreeBSD",
        System::NetBsd => b"NetBSD",
        System::OpenBsd => b"OpenBSD",
        System::DragonFly => b"DragonFly",
        System::Unix => b"UNIX",
        System::Beta => b"is currently in beta test.",
        System::Developed => b"currently under development.",
    }
}

/// The bytes of a text.
pub(crate) fn text_of(text: Text) -> &'static [u8]
    ensures value { result.now ≡ specs.text_of text }
    ensures few { length result.now ≤ 192 }
{
    match text {
        Text::Opening(pair) => opening(pair),
        Text::Closing(by) => closing(by),
        Text::System(of) => system(of),
        Text::Att => b"AT&T UNIX",
        Text::Bsd => b"BSD",
        Text::Dash => b"\\fB\\-\\fR",
        Text::File => b"\\fIfile\\fR",
        Text::Dots => b"\\fI...\\fR",
        Text::Home => b"\\fI~\\fR",
        Text::Apostrophe => b"\\(aq",
        Text::Description => b"\\(en",
        Text::Comma => b",",
        Text::Colon => b":",
        Text::Link => b"\\*(%L",
        Text::Period => b".",
        Text::FunctionEnds => b");",
        Text::Empty => b"\\&",
        Text::FixedSpace => b"\\~",
        Text::Include => b"#include",
        Text::The => b"The",
        Text::Exits => b"utility exits\\~0 on success, and\\~>0 if an error occurs.",
        Text::AllExit => b"utilities exit\\~0 on success, and\\~>0 if an error occurs.",
        Text::Parentheses => b"()",
        Text::Succeeds =>
            b"Upon successful completion, the value\\~0 is returned; otherwise the value\\~\\-1 is returned and the global variable \\fIerrno\\fR is set to indicate the error.",
        Text::Returns =>
            b"function returns the value\\~0 if successful; otherwise the value\\~\\-1 is returned and the global variable \\fIerrno\\fR is set to indicate the error.",
        Text::AllReturn =>
            b"functions return the value\\~0 if successful; otherwise the value\\~\\-1 is returned and the global variable \\fIerrno\\fR is set to indicate the error.",
    }
}

/// What was read of `.Dd`.
pub fn prefix_of(prefix: Prefix) -> &'static [u8]
    ensures value { result.now ≡ specs.prefix_of prefix }
    ensures few { length result.now ≤ 3 }
{
    match prefix {
        Prefix::Dot => b".",
        Prefix::Half => b".D",
        Prefix::Whole => b".Dd",
        _ => b"",
    }
}

/// A request, as a line.
pub(crate) fn request_of(request: Request) -> &'static [u8]
    ensures value { result.now ≡ specs.request_of request }
    ensures few { length result.now ≤ 160 }
{
    match request {
        Request::Break => b".br\n",
        Request::Space => b".sp\n",
        Request::NoDistance => b".PD 0\n",
        Request::Distance => b".PD\n",
        Request::Tabs => b".DT\n",
        Request::IndentEnds => b".RE\n",
        Request::Literal =>
            b".nf\n.ta 8n 16n 24n 32n 40n 48n 56n 64n 72n 80n 88n 96n 104n 112n 120n 128n 136n 144n 152n 160n 168n 176n 184n 192n 200n 208n 216n 224n 232n 240n 248n 256n\n",
        Request::Unfilled => b".nf\n.DT\n",
        Request::Centered => b".nf\n.ce 9999\n",
        Request::LiteralEnds => b".fi\n.DT\n",
        Request::CenteredEnds => b".ce 0\n.fi\n",
        Request::Hangs => b".in +4n\n.)T -4n\n",
        Request::HangEnds => b".br\n.in -4n\n",
        Request::Link => b".ds %L \"",
        Request::TagMacro =>
            b".de %i\n.br\n.if \\\\n(nl-\\\\n(%t=1v*\\\\$1>\\\\n(.n \\\\{.sp -1\n\\\\&\\\\c\n.\\\\}\n..\n",
        Request::Font(Font::Roman) => b".ft R\n",
        Request::Font(Font::Bold) => b".ft B\n",
        Request::Font(Font::Italic) => b".ft I\n",
    }
}

/// What stands before the number of a request.
pub(crate) fn sized_of(sized: Sized) -> &'static [u8]
    ensures value { result.now ≡ specs.sized_of sized }
    ensures few { length result.now ≤ 21 }
{
    match sized {
        Sized::Indent => b".RS ",
        Sized::Bullet => b".PD 0\n.IP \\fB\\(bu\\fP ",
        Sized::Dash => b".PD 0\n.IP \\fB\\-\\fP ",
        Sized::Inner => b".in +",
        Sized::Tag | Sized::Hanging => b".PD 0\n.HP ",
    }
}
