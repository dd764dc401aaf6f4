//! What frames are drawn with, in a page's own table.
ghost use Rattle.std.specs.Prelude.{◌≡◌};
ghost use Rattle.utf8_own_page.specs.Signs as specs;
ghost use Rattle.utf8_own_characters.specs.Table.{Good};

use tbl_table::{Joints, Signs};
use utf8_own_characters::{Cluster, Code, OwnTable};

/// The byte of a character of one column, or that of ASCII.
fn byte_of(table: &OwnTable<'_>, character: char, ascii: u8) -> u8
    requires { Good table.now }
    ensures { result ≡ specs.byte_for table.now character ascii }
{
    match table.code(&Cluster::single(character)) {
        Some(Code::One(byte)) => byte,
        _ => ascii,
    }
}

/// The bytes where bars meet a rule.
fn joints_of(table: &OwnTable<'_>, begins: char, crosses: char, ends: char) -> Joints
    requires { Good table.now }
    ensures { result ≡ specs.joints_for table.now begins crosses ends }
{
    Joints {
        begins: byte_of(table, begins, b'+'),
        crosses: byte_of(table, crosses, b'+'),
        ends: byte_of(table, ends, b'+'),
    }
}

/// What frames are drawn with: the table's bytes of lines, and ASCII for those that it lacks.
pub fn signs_of(table: &OwnTable<'_>) -> Signs
    requires { Good table.now }
    ensures { result ≡ specs.signs_for table.now }
{
    Signs {
        rule: byte_of(table, '─', b'-'),
        bar: byte_of(table, '│', b'|'),
        top: joints_of(table, '┌', '┬', '┐'),
        middle: joints_of(table, '├', '┼', '┤'),
        bottom: joints_of(table, '└', '┴', '┘'),
    }
}
