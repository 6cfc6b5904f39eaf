//! The statuses of a command.
ghost use Rattle.std.specs.Prelude.{◌≡◌};
ghost use Rattle.ntfs_host.specs.Statuses.{written_status};

use crate::write_error::WriteError;

pub const DONE: u8 = 0;

pub const USAGE: u8 = 2;

pub const REFUSED: u8 = 3;

pub const NO_SCRIPT: u8 = 4;

pub const SOURCE_FAULT: u8 = 5;

pub const MEMORY: u8 = 6;

pub const SINK_FAULT: u8 = 7;

pub const DEVICE_FAULT: u8 = 8;

/// The status where a text is whole, or why it is not.
pub fn status_of(written: Result<(), WriteError>, whole: u8) -> u8
    ensures { result ≡ written_status written whole }
{
    match written {
        Ok(()) => whole,
        Err(WriteError::Memory) => MEMORY,
        Err(WriteError::Sink) => SINK_FAULT,
    }
}
