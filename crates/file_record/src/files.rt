//! The records of a volume that are held in memory, by number, and its files among them.
ghost use Rattle.std.specs.Prelude.{◌≡◌};
ghost use Rattle.std.specs.Option.{option_copied};
ghost use Rattle.state_model.specs.Files.{is_base_record, only_base, file_at, reference};
ghost use Rattle.state_model.specs.Loads.{table_in};

use crate::record::FileRec;
use state_model::FileRef;

/// Whether the record is a base record: its reference to a base record is zero (Linux-NTFS
/// documentation, "FILE Record"). It takes constant time.
pub fn is_base_record(file: &FileRec) -> bool
    ensures { result ≡ is_base_record file.now }
{
    let base = file.head().base;
    base.number == 0 && base.seq == 0
}

// The record where it is a base record.
fn only_base(file: &Option<FileRec>) -> Option<&FileRec>
    ensures { option_copied result ≡ only_base file.now }
{
    match file {
        Some(file) if is_base_record(file) => Some(file),
        _ => None,
    }
}

/// The record with this number, if it is in use. `records` has the record in use of each number, if
/// there is one. It takes constant time.
pub fn record_at(records: &[Option<FileRec>], number: u64) -> Option<&FileRec>
    ensures value { option_copied result ≡ table_in records.now number }
{
    match records.get(number as usize) {
        Some(Some(file)) => Some(file),
        _ => None,
    }
}

/// The file with this number, if there is one: a base record in use (Linux-NTFS documentation,
/// "FILE Record"). `records` has the record in use of each number, if there is one. It takes
/// constant time.
#[tactic(auto, unfolding(state_model::specs::Files::file_at))]
pub fn file_at(records: &[Option<FileRec>], number: u64) -> Option<&FileRec>
    ensures value { option_copied result ≡ file_at (table_in records.now) number }
{
    match records.get(number as usize) {
        Some(record) => only_base(record),
        None => None,
    }
}

/// The reference to a record: its number, and the sequence in its header (Linux-NTFS documentation,
/// "FILE Record"). It takes constant time.
pub fn reference(number: u64, file: &FileRec) -> FileRef
    ensures { result ≡ reference number file.now }
{
    FileRef {
        number,
        seq: file.head().seq,
    }
}
