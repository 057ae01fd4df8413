//! How a reading ends without a configuration.

ghost use Rattle.std.specs.Prelude.{◌≡◌};
ghost use Rattle.run_config.specs.declared.ends.ReadEnd.TheVariants.{NoMemory, Refused};

use crate::faults::ConfigFault;
use no_memory::NoMemory;
use std::alloc::{AllocError, AllocFailed};
use thiserror::Error;

/// Why no configuration was read.
#[derive(Clone, Copy, Debug, PartialEq, Eq, Error)]
pub enum ReadEnd {
    #[error("out of memory")]
    NoMemory,
    #[error("the configuration is refused")]
    Refused(ConfigFault),
}

impl From<AllocError> for ReadEnd {
    ghost from_gives = { λ _ end. end ≡ NoMemory };

    fn from(_: AllocError) -> ReadEnd {
        ReadEnd::NoMemory
    }
}

impl From<NoMemory> for ReadEnd {
    ghost from_gives = { λ _ end. end ≡ NoMemory };

    fn from(_: NoMemory) -> ReadEnd {
        ReadEnd::NoMemory
    }
}

impl<T: Drop> From<AllocFailed<T>> for ReadEnd {
    ghost from_gives = { λ _ end. end ≡ NoMemory };

    fn from(_: AllocFailed<T>) -> ReadEnd {
        ReadEnd::NoMemory
    }
}

impl From<ConfigFault> for ReadEnd {
    ghost from_gives = { λ found end. end ≡ Refused found };

    fn from(found: ConfigFault) -> ReadEnd {
        ReadEnd::Refused(found)
    }
}
