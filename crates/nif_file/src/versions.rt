//! What the version of a file decides.
ghost use Rattle.std.specs.Prelude.{◌≡◌};
ghost use Rattle.nif_file.specs.Files.{has_zero_word};

use nif_base::Version;

/// The first version in which a zero word stands before the value of each block.
const FIRST_ZERO: u32 = 0x0500_0001;

/// The last version in which one does.
const LAST_ZERO: u32 = 0x0A01_006A;

/// Whether a zero word stands before the value of each block.
pub fn has_zero_word(version: Version) -> bool
    ensures { result ≡ has_zero_word version.number }
{
    FIRST_ZERO <= version.number && version.number <= LAST_ZERO
}
