use block_view::ViewFault;
use boot_sector::BootFault;
use host_base::Failed;
use log_recovery::{LogRefusal, RecoveryFault};
use state_model::MapRefusal;
use std::alloc::{AllocError, AllocFailed};
use thiserror::Error;
use volume_map::MapFault;

/// Why an image isn't taken.
#[derive(Clone, Copy, Debug, PartialEq, Eq, Error)]
pub enum Refusal {
    /// The boot sector hasn't the name `NTFS` (rule 1) or its last two bytes 55 AA (rule 2).
    #[error("not an NTFS volume: rule {rule}")]
    NotNtfs { rule: u32 },
    /// The boot sector's field at this offset is out of the profile; its value is the raw unsigned
    /// number.
    #[error("the boot field at {field} is {value}")]
    Geometry { field: u32, value: u64 },
    /// The volume has more than 16,777,216 clusters.
    #[error("{clusters} clusters are too many")]
    VolumeLarge { clusters: u64 },
    /// The device has fewer sectors than the volume, or none.
    #[error("the volume has {sectors} sectors and the device {device}")]
    Short { sectors: u64, device: u64 },
    /// This file record is torn, or the array of its update sequence is out of shape.
    #[error("file record {number} is torn")]
    BadFixup { number: u64 },
    /// This file record in use breaks the rule, and no lower one.
    #[error("file record {number} breaks rule {rule}")]
    BadRecord { number: u64, rule: u32 },
    /// Record 0 has an attribute list.
    #[error("the file table has an attribute list")]
    MftList,
    /// The file table has more than 1,048,576 records.
    #[error("{records} file records are too many")]
    MftLarge { records: u64 },
    /// The volume information isn't 3.1.
    #[error("version {major}.{minor} isn't 3.1")]
    Version { major: u8, minor: u8 },
    /// The log's restart page is of another major version than 1.
    #[error("log of version {major}.{minor}")]
    LogVersion { major: u16, minor: u16 },
    /// No restart page of the log is whole, and neither of its first two pages is all FF.
    #[error("no restart page")]
    NoRestart,
    /// The log isn't clean and isn't this host's, or its entry with this LSN, the block that it
    /// updates, or its lap is refused.
    #[error("foreign log at {lsn}")]
    ForeignLog { lsn: u64 },
    /// The log has fewer pages than a session that writes needs.
    #[error("the log has {pages} pages and needs {needed}")]
    LogSmall { pages: u64, needed: u64 },
    /// There is no change journal whose records can be read: `$Extend` has no `$UsnJrnl` (1), its
    /// file has an attribute list (2), or a stream of it is missing or out of shape (3).
    #[error("there is no journal: {why}")]
    NoJournal { why: u32 },
    /// The records stand for no tree: this rule is broken, first at this record.
    #[error("the volume breaks rule {rule} at {number}")]
    BadVolume { rule: u32, number: u64 },
    /// There is a change journal where one is to be made: `$Extend` has a `$UsnJrnl`.
    #[error("there is a journal")]
    HasJournal,
    /// The image is of a kind that isn't handled yet, with the number of what it has. Each kind is
    /// handled today, so nothing answers it; its number and its line stay.
    #[error("not handled yet: rule {rule}")]
    Unbuilt { rule: u32 },
}

/// Why a scan or a check has no answer.
#[derive(Clone, Copy, Debug, PartialEq, Eq, Error)]
pub enum MountFault {
    #[error("no memory")]
    Memory,
    #[error("the device failed")]
    Device,
    #[error("refused: {0}")]
    Refused(Refusal),
}

impl From<AllocError> for MountFault {
    ghost use Rattle.std.specs.Prelude.{◌≡◌};
    ghost use Rattle.image_open.specs.declared.refusal.MountFault.TheVariants as scans;

    ghost from_gives = { λ _ e. e ≡ scans.Memory };

    fn from(_: AllocError) -> Self {
        MountFault::Memory
    }
}

impl<T: Drop> From<AllocFailed<T>> for MountFault {
    ghost use Rattle.std.specs.Prelude.{◌≡◌};
    ghost use Rattle.image_open.specs.declared.refusal.MountFault.TheVariants as scans;

    ghost from_gives = { λ _ e. e ≡ scans.Memory };

    fn from(_: AllocFailed<T>) -> Self {
        MountFault::Memory
    }
}

impl From<host_base::Memory> for MountFault {
    ghost use Rattle.std.specs.Prelude.{◌≡◌};
    ghost use Rattle.image_open.specs.declared.refusal.MountFault.TheVariants as scans;

    ghost from_gives = { λ _ e. e ≡ scans.Memory };

    fn from(_: host_base::Memory) -> Self {
        MountFault::Memory
    }
}

impl From<Failed> for MountFault {
    ghost use Rattle.std.specs.Prelude.{◌≡◌};
    ghost use Rattle.image_open.specs.declared.refusal.MountFault.TheVariants as scans;

    ghost from_gives = { λ _ e. e ≡ scans.Device };

    fn from(_: Failed) -> Self {
        MountFault::Device
    }
}

impl From<ViewFault> for MountFault {
    ghost use Rattle.std.specs.Prelude.{◌≡◌};
    ghost use Rattle.image_open.specs.Errors.{error_of_view};

    ghost from_gives = { λ fault e. e ≡ error_of_view fault };

    fn from(fault: ViewFault) -> Self {
        match fault {
            ViewFault::Fault => MountFault::Device,
            ViewFault::Memory => MountFault::Memory,
        }
    }
}

impl From<BootFault> for MountFault {
    ghost use Rattle.std.specs.Prelude.{◌≡◌};
    ghost use Rattle.image_open.specs.Errors.{boot_refusal};
    ghost use Rattle.image_open.specs.declared.refusal.MountFault.TheVariants as scans;

    ghost from_gives = { λ fault e. e ≡ scans.Refused (boot_refusal fault) };

    fn from(fault: BootFault) -> Self {
        MountFault::Refused(match fault {
            BootFault::NotNtfs { rule } => Refusal::NotNtfs { rule },
            BootFault::Geometry { field, value } => Refusal::Geometry { field, value },
            BootFault::VolumeLarge { clusters } => Refusal::VolumeLarge { clusters },
        })
    }
}

impl From<MapRefusal> for Refusal {
    ghost use Rattle.std.specs.Prelude.{◌≡◌};
    ghost use Rattle.image_open.specs.Errors.{map_refusal};

    ghost from_gives = { λ refusal r. r ≡ map_refusal refusal };

    fn from(refusal: MapRefusal) -> Self {
        match refusal {
            MapRefusal::BadFixup { number } => Refusal::BadFixup { number },
            MapRefusal::BadRecord { number, rule } => Refusal::BadRecord { number, rule },
            MapRefusal::MftList => Refusal::MftList,
            MapRefusal::MftLarge { records } => Refusal::MftLarge { records },
        }
    }
}

impl From<MapFault> for MountFault {
    ghost use Rattle.std.specs.Prelude.{◌≡◌};
    ghost use Rattle.image_open.specs.Errors.{error_of_map};

    ghost from_gives = { λ fault e. e ≡ error_of_map fault };

    fn from(fault: MapFault) -> Self {
        match fault {
            MapFault::Refused(refusal) => MountFault::Refused(Refusal::from(refusal)),
            MapFault::View => MountFault::Device,
            MapFault::Memory => MountFault::Memory,
        }
    }
}

impl From<LogRefusal> for Refusal {
    ghost use Rattle.std.specs.Prelude.{◌≡◌};
    ghost use Rattle.image_open.specs.Errors.{log_refusal};

    ghost from_gives = { λ refusal r. r ≡ log_refusal refusal };

    fn from(refusal: LogRefusal) -> Self {
        match refusal {
            LogRefusal::LogVersion { major, minor } => Refusal::LogVersion { major, minor },
            LogRefusal::NoRestart => Refusal::NoRestart,
            LogRefusal::ForeignLog { lsn } => Refusal::ForeignLog { lsn },
        }
    }
}

impl From<RecoveryFault> for MountFault {
    ghost use Rattle.std.specs.Prelude.{◌≡◌};
    ghost use Rattle.image_open.specs.Errors.{error_of_log};

    ghost from_gives = { λ fault e. e ≡ error_of_log fault };

    fn from(fault: RecoveryFault) -> Self {
        match fault {
            RecoveryFault::Refused(refusal) => MountFault::Refused(Refusal::from(refusal)),
            RecoveryFault::Fault => MountFault::Device,
            RecoveryFault::Memory => MountFault::Memory,
        }
    }
}
