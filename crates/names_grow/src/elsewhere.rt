//! Whether the files of a volume keep their names beside one.
ghost use Rattle.std.specs.Prelude.{◌≡◌, ◌≤◌, ◌++◌, ◌∷◌, [], true, IfOk, length};
ghost use Rattle.names_grow.specs.Trying.{StaysAt, StayElsewhere, LeaveOthers};

use host_base::Memory;
use map_change::RecordChange;
use record_rules::{FileRec, file_at};
use same_names::{are_named_alike, is_any_of, only_base};
use std::alloc::Global;

// ---- changes

// Whether all files but one keep their names by one change more, behind others by which they do.
fn keeps_other(
    alloc: Global,
    number: u64,
    count: u64,
    records: &[Option<FileRec>],
    earlier: &[RecordChange],
    change: &RecordChange,
) -> Result<bool, Memory>
    requires { LeaveOthers number count records.now earlier.now }
    ensures same { IfOk result (λ keeps. keeps ≡ true → LeaveOthers number count records.now (earlier.now ++ change.now ∷ [])) }
    ensures only { IfOk result (λ keeps. LeaveOthers number count records.now (earlier.now ++ change.now ∷ []) → keeps ≡ true) }
{
    let other = change.number;
    if other == number || count <= other || is_any_of(earlier, other) {
        return Ok(true);
    }
    let file = file_at(records, other);
    are_named_alike(alloc, other, file, only_base(&change.file))
}

/// Whether all files but the one with this number keep their names by changes of records, of which
/// the first one of a record holds, and those past so many records none. The error is want of
/// memory. It takes time and memory linear in the records that change and in their names, and time
/// in the square of how many these are.
pub fn keep_others(
    alloc: Global,
    number: u64,
    count: u64,
    records: &[Option<FileRec>],
    changes: &[RecordChange],
) -> Result<bool, Memory>
    ensures same { IfOk result (λ keeps. keeps ≡ true → LeaveOthers number count records.now changes.now) }
    ensures only { IfOk result (λ keeps. LeaveOthers number count records.now changes.now → keeps ≡ true) }
{
    for at in 0..changes.len() {
        if !keeps_other(alloc, number, count, records, &changes[..at], &changes[at])? {
            return Ok(false);
        }
    }
    Ok(true)
}

// ---- all files

// Whether the files at this number have the same names, or it is that one.
fn stays_at(
    alloc: Global,
    number: u64,
    records: &[Option<FileRec>],
    others: &[Option<FileRec>],
    at: u64,
) -> Result<bool, Memory>
    ensures same { IfOk result (λ stays. stays ≡ true → StaysAt number records.now others.now at) }
    ensures only { IfOk result (λ stays. StaysAt number records.now others.now at → stays ≡ true) }
{
    if at == number {
        return Ok(true);
    }
    are_named_alike(alloc, at, file_at(records, at), file_at(others, at))
}

/// Whether all files but the one with this number have the same names in two lists of records, of
/// which the second isn't shorter. The error is want of memory. It takes time and memory linear in
/// the records and in their names.
pub fn stay_elsewhere(
    alloc: Global,
    number: u64,
    records: &[Option<FileRec>],
    others: &[Option<FileRec>],
) -> Result<bool, Memory>
    requires longer { length records.now ≤ length others.now }
    ensures same { IfOk result (λ stay. stay ≡ true → StayElsewhere number records.now others.now) }
    ensures only { IfOk result (λ stay. StayElsewhere number records.now others.now → stay ≡ true) }
{
    for at in 0..others.len() as u64 {
        if !stays_at(alloc, number, records, others, at)? {
            return Ok(false);
        }
    }
    Ok(true)
}
