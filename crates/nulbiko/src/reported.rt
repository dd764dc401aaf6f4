// What a call reports beside its bytes, in numbers.
ghost use Rattle.std.specs.Prelude.{◌≡◌, ◌≢◌};
ghost use Rattle.nulbiko.specs.Reported.{code_within, count_reported, nothing_reported, only_written};

/// All went into the output.
pub(crate) const DONE: u32 = 0;

/// A limit would be passed.
pub(crate) const LIMIT: u32 = 1;

/// A limit is outside its range, or no table has the number: nothing was done.
pub(crate) const OUT_OF_RANGE: u32 = 2;

/// The output is too small: it has what fits.
pub(crate) const FULL: u32 = 4;

/// There was not enough memory: nothing was done.
pub(crate) const OUT_OF_MEMORY: u32 = 5;

/// The text has 2^40 bytes or more.
pub(crate) const TOO_LONG: u32 = 6;

/// The text can't be read: never reported, as a slice doesn't fail.
pub(crate) const UNREADABLE: u32 = 9;

/// What a call reports beside its bytes.
#[repr(C)]
#[derive(Clone, Copy)]
pub struct Report {
    /// How many bytes were put at the beginning of the output.
    pub written: usize,
    /// After how many bytes of the text a limit would be passed, or on which line something is wrong, or 0.
    pub at: u64,
    /// How many moves or steps were made; 2^64 - 1 where there were more.
    pub moves: u64,
    /// Which limit would be passed or what is wrong, or 0.
    pub limit: u32,
    /// How many bytes of the text became nothing: those that are no character of a table.
    pub dropped: u64,
    /// The line of a whole page that was read last, from 1 on, or 0.
    pub line: u64,
}

impl Report {
    /// Nothing was done.
    pub(crate) fn nothing() -> Report
        ensures { result ≡ nothing_reported }
    {
        Report {
            written: 0,
            at: 0,
            moves: 0,
            limit: 0,
            dropped: 0,
            line: 0,
        }
    }

    /// So many bytes were put.
    pub(crate) fn of_bytes(written: usize) -> Report
        ensures { result ≡ only_written written }
    {
        Report {
            written,
            ..Report::nothing()
        }
    }
}

/// The number where so many bytes came out and so many fit.
pub(crate) fn code_within(code: u32, came: usize, fit: usize) -> u32
    requires not_range { code ≢ 2 }
    requires not_memory { code ≢ 5 }
    ensures value { result ≡ code_within code came fit }
    ensures not_range { result ≢ 2 }
    ensures not_memory { result ≢ 5 }
{
    if fit < came { FULL } else { code }
}

/// A count in 64 bits.
pub(crate) fn count_reported(count: u128) -> u64
    ensures { result ≡ count_reported count }
{
    if count < 18_446_744_073_709_551_616 {
        count as u64
    } else {
        u64::MAX
    }
}
