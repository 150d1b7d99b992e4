// Why a command has no answer of its own.
ghost use Rattle.std.specs.Prelude.{◌≡◌};
ghost use Rattle.console.specs.Rows.{Failing};
ghost use Rattle.console.specs.declared.stop.Stop.TheVariants.{Refused as IsRefused};

use std::alloc::{AllocError, AllocFailed};
use std::io;
use values::faults::Fault;

#[derive(Drop)]
pub(crate) enum Stop {
    Refused(Fault),
    // The state does not allow the command.
    NotNow,
    // Nothing more can be stored or printed.
    Failed(io::Error),
}

impl From<Fault> for Stop {
    ghost from_gives = { λ fault r. r ≡ IsRefused fault };

    fn from(fault: Fault) -> Stop {
        Stop::Refused(fault)
    }
}

impl From<io::Error> for Stop {
    ghost from_gives = { λ _ r. Failing r };

    fn from(error: io::Error) -> Stop {
        Stop::Failed(error)
    }
}

impl From<AllocError> for Stop {
    ghost from_gives = { λ _ r. Failing r };

    fn from(error: AllocError) -> Stop {
        Stop::Failed(error.into())
    }
}

impl<T: Drop> From<AllocFailed<T>> for Stop {
    ghost from_gives = { λ _ r. Failing r };

    fn from(error: AllocFailed<T>) -> Stop {
        Stop::Failed(error.into())
    }
}
