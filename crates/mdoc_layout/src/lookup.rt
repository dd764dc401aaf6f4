//! What tables have for names.
ghost use Rattle.std.specs.Prelude.{◌≡◌, ◌≤◌, length};
ghost use Rattle.mdoc_layout.specs.Lookup as specs;

/// What stands before the first NUL.
pub(crate) fn before_nul(text: &[u8]) -> &[u8]
    ensures value { result.now ≡ specs.before_nul text.now }
    ensures few { length result.now ≤ length text.now }
{
    for (i, byte) in text.iter().enumerate() {
        if *byte == 0 {
            return &text[..i];
        }
    }
    text
}

/// What a table has for a name, which stands in it before a NUL.
pub fn named_in<T: Copy>(table: &[([u8; 15], T)], name: &[u8]) -> Option<T>
    ensures { result ≡ specs.named_in table.now name.now }
{
    for entry in table {
        if before_nul(&entry.0) == name {
            return Some(entry.1);
        }
    }
    None
}
