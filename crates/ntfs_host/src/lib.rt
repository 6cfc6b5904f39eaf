//! Commands over the image of an NTFS volume: the words of a command line, the refusals of an image
//! and the text that is printed.
//!
//! The contract of the top call: at status 0 the sink took the text of a scan, a dump, a check or a
//! journal, or of a run of the script, on what a read of the device gives, or the line of a format,
//! after which a read gives the new volume; at 3 the line of the first refusal that applies; and
//! each other status has its cause. Whatever the status of a run is, each image that a crash leaves
//! of the device from the call's beginning on mounts as the volume's tree after a prefix of the
//! commands, in which no sync that was answered is undone, where the volume's log was sound and
//! nothing was unsynced. The words are those of `command_line`. The text of a scan is a function of
//! the long names of the volume, those of a dump and a check are functions of the tree that it
//! stands for, and that of a journal is one of its records (`image_read`); they take each volume
//! whose boot sector is in the profile, wherever its file table lies. A format writes the image
//! that `volume_format` defines. A run takes a volume with eight sectors a cluster: its commands
//! only look at it (`volume_run`), or may change it (`writing_run`); a command in which the device
//! fails is replied `fault`.
//! The layouts are those of the Linux-NTFS documentation, "$Boot", "$MFT" and "FILE Record".
#![tactic(auto)]

mod answers;
mod changing;
mod command;
mod host;
mod looking;
mod output;
mod printing;
mod reading;
mod script_run;
mod scripts;
mod status;
mod text;
mod words;
mod write_error;

pub use command::Quiet;
pub use host::{Outcome, ntfs_host, quiet_command};
pub use words::words_or_status;
