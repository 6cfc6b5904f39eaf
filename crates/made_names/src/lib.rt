//! The names of a volume's files once a file more has a name, kept without another pass over them.
//!
//! The contract: the name, the count of names in its directory and the way up are put, and the law
//! says that the names are then those of the files. The layouts are those of the Linux-NTFS
//! documentation, "$FILE_NAME".
#![tactic(auto)]

mod laws;
mod naming;

pub use laws::made_names;
pub use naming::NewName;
