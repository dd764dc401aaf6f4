//! Files as one source.
ghost use Rattle.std.specs.Prelude.{◌≡◌, map};
ghost use Rattle.nr_command_options.specs.Chained.{failures_in};
ghost use Rattle.nr_command_options.specs.Files.{files_supply};

use crate::chained::Chain;
use nr_units::source::Source;

/// The files from where they stand, one after the other, with a newline added after each that is not
/// empty and doesn't end with one.
///
/// Proved: Files come one after the other, each with a newline after it where it is not empty and lacks one, and fail
/// where one of them fails; where one may fail at any call, so may all.
/// Proved: The failed calls of files that are read so are those of the files.
pub fn chain<'a, F: Source>(files: &'a mut [F]) -> Chain<'a, F>
    ensures supply { ⟦<Chain<'a, F> as Source>⟧.supply result ≡ files_supply (map F.supply files.entry.now) }
    ensures failures { ⟦<Chain<'a, F> as Source>⟧.failures result ≡ failures_in F.failures files.entry.now }
{
    Chain::over(files)
}
