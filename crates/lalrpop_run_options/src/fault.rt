//! Why the words ask for nothing.
ghost use Rattle.std.specs.Prelude.{◌≡◌};
ghost use Rattle.lalrpop_run_options.specs.Refusal.{IsRefusalOf};
ghost use Rattle.lalrpop_run_options.specs.declared.fault.OptionsError.TheVariants.{Memory};

use clap::error::ErrorKind;
use std::alloc::{AllocError, AllocFailed};

/// Why `options` gives no options.
#[derive(Debug, Drop)]
pub enum OptionsError {
    /// The words are wrong or call for help: `clap`'s error, whose `Display` is the text for the
    /// user.
    Words(clap::Error),
    /// Memory ran out.
    Memory,
}

impl From<clap::Error> for OptionsError {
    ghost from_gives = { λ error refusal. IsRefusalOf error refusal };

    fn from(error: clap::Error) -> OptionsError {
        match error.kind() {
            ErrorKind::OutOfMemory => OptionsError::Memory,
            _ => OptionsError::Words(error),
        }
    }
}

impl From<AllocError> for OptionsError {
    ghost from_gives = { λ _ refusal. refusal ≡ Memory };

    fn from(_error: AllocError) -> OptionsError {
        OptionsError::Memory
    }
}

impl<T: Drop> From<AllocFailed<T>> for OptionsError {
    ghost from_gives = { λ _ refusal. refusal ≡ Memory };

    fn from(_error: AllocFailed<T>) -> OptionsError {
        OptionsError::Memory
    }
}
