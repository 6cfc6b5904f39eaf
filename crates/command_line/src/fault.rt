ghost use Rattle.std.specs.Prelude.{◌≡◌};
ghost use Rattle.command_line.specs.declared.fault.LineFault.TheVariants.{Memory as no_memory};

use std::alloc::AllocError;
use thiserror::Error;

/// Why words are no command line.
#[derive(Clone, Copy, Debug, PartialEq, Eq, Error)]
pub enum LineFault {
    /// They are no line of a command.
    #[error("the words are no line of a command")]
    NoLine,
    #[error("no memory")]
    Memory,
}

impl From<AllocError> for LineFault {
    ghost from_gives = { λ _ e. e ≡ no_memory };

    fn from(_: AllocError) -> Self {
        LineFault::Memory
    }
}
