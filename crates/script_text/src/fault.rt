ghost use Rattle.std.specs.Prelude.{◌≡◌};
ghost use Rattle.script_text.specs.declared.fault.LineFault.TheVariants.{Memory as no_line_memory};
ghost use Rattle.script_text.specs.declared.fault.ScriptFault.TheVariants.{Memory as no_memory};

use std::alloc::AllocError;
use thiserror::Error;

/// Why bytes are no script.
#[derive(Clone, Copy, Debug, PartialEq, Eq, Error)]
pub enum ScriptFault {
    /// There are more than 16,777,216 bytes.
    #[error("the script has too many bytes")]
    TooLarge,
    /// The line of this number, from 1 on, breaks this rule: 1 it has no LF, 2 it isn't UTF-8, 3 an
    /// empty word, 4 the client is no number or 0, 5 unknown command, 6 number of words, 7 path,
    /// 8 number, 9 count or bytes.
    #[error("line {number} breaks rule {rule}")]
    Line { number: u64, rule: u8 },
    /// A line's client is above the bound.
    #[error("client {client} is above the bound")]
    TooManyClients { client: u64 },
    /// There are more than 16,384 commands.
    #[error("the script has too many commands")]
    TooManyCommands,
    #[error("no memory")]
    Memory,
}

impl From<AllocError> for ScriptFault {
    ghost from_gives = { λ _ e. e ≡ no_memory };

    fn from(_: AllocError) -> Self {
        ScriptFault::Memory
    }
}

/// Why words are no command.
#[derive(Clone, Copy, Debug, PartialEq, Eq, Error)]
pub enum LineFault {
    /// They break this rule.
    #[error("rule {rule} is broken")]
    Rule { rule: u8 },
    #[error("no memory")]
    Memory,
}

impl From<AllocError> for LineFault {
    ghost from_gives = { λ _ e. e ≡ no_line_memory };

    fn from(_: AllocError) -> Self {
        LineFault::Memory
    }
}
