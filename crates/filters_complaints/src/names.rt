// Names of a text as they are reported: a terminal gets no byte of them that it might take for a command.
ghost use Rattle.std.specs.Prelude.{◌≡◌, ◌≤◌, true};
ghost use Rattle.std.specs.List.{list_all};
ghost use Rattle.filters_complaints.specs.Names as specs;

use nr_units::Name;

/// A byte as it is reported: one that doesn't print stands as `?`.
fn printable_byte(byte: u8) -> u8
    ensures { result ≡ specs.printable_byte byte }
{
    match byte {
        b' '..=b'~' => byte,
        _ => b'?',
    }
}

/// A name as it is reported: each of its bytes prints.
///
/// Proved: A name of a page is reported with printing characters of ASCII alone: each other byte stands as `?`.
pub fn printable(name: Name) -> Name
    ensures bytes { result ≡ specs.printable name }
    ensures prints { list_all specs.is_printing result ≡ true }
{
    let mut all = Name::new();
    for byte in name.as_bytes() {
        all.push(printable_byte(*byte));
    }
    all
}
