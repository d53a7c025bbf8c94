//! Why a part of a text was not read.
ghost use Rattle.std.specs.Prelude.{◌≡◌};
ghost use Rattle.nif_text.specs.declared.stop.Stop.TheVariants.{NoMemory};

use nif_base::NoMemory as OutOfMemory;

/// Why a part of a text was not read.
#[derive(Debug, Drop)]
pub enum Stop {
    /// No spelling of the part begins here.
    NotWritten,
    /// Memory ran out.
    NoMemory,
}

impl From<OutOfMemory> for Stop {
    ghost from_gives = { λ _ e. e ≡ NoMemory };

    fn from(_: OutOfMemory) -> Stop {
        Stop::NoMemory
    }
}
