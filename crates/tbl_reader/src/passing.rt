//! Lines that pass whole.
ghost use Rattle.std.specs.Prelude.{◌≡◌, ◌≤◌, length};
ghost use Rattle.tbl_reader.specs.Passing as specs;
ghost use Rattle.tbl_reader.specs.Reading.{AreFree};

/// How many bytes stand before the first newline.
pub(crate) fn line_len(bytes: &[u8]) -> usize
    ensures value { result ≡ specs.line_len bytes.now }
    ensures within { result ≤ length bytes.now }
{
    let mut len = 0;
    for byte in bytes {
        if *byte == b'\n' {
            return len;
        }
        len += 1;
    }
    len
}

/// Whether a line that begins with these bytes may begin with `.T`, or is a point alone.
pub(crate) fn may_command(bytes: &[u8]) -> bool
    ensures { result ≡ specs.may_command bytes.now }
{
    bytes.len() > 0 && bytes[0] == b'.' && (bytes.len() == 1 || matches!(bytes[1], b'T' | b'\n'))
}

/// Whole lines.
#[derive(Clone, Copy)]
pub(crate) struct Lines {
    /// How many.
    pub count: usize,
    /// Their bytes.
    pub len: usize,
}

/// The whole lines that come first and don't begin with `.T`.
pub(crate) fn free_lines(bytes: &[u8]) -> Lines
    ensures within { result.len ≤ length bytes.now }
    ensures few { result.count ≤ result.len }
    ensures free { AreFree result bytes.now }
{
    let mut lines = Lines { count: 0, len: 0 };
    while lines.len < bytes.len() {
        let rest = &bytes[lines.len..];
        let len = line_len(rest);
        if len == rest.len() || may_command(rest) {
            return lines;
        }
        lines.count += 1;
        lines.len += len + 1;
    }
    lines
}
