//! Whether a change of a map leaves the files of its volume their names.
ghost use Rattle.std.specs.Prelude.{◌≡◌, ◌<◌, ◌++◌, ◌∷◌, [], true, Some, IfOk, length};
ghost use Rattle.std.specs.List.{list_any};
ghost use Rattle.std.specs.Option.{option_copied};
ghost use Rattle.record_rules.specs.state_model.Files.{only_base};
ghost use Rattle.map_change.specs.Parts.{live_parts};
ghost use Rattle.map_change.specs.Applying.{applied, records_applied};
ghost use Rattle.same_names.specs.Names.{IsNamedAlike, SameNames};
ghost use Rattle.same_names.specs.Keeping.{is_of, LeaveNamed};

use host_base::Memory;
use map_change::{Link, LiveMap, MapChange, PartsChange, RecordChange};
use record_rules::{FileRec, file_at, is_base_record, is_same_link, record_links};
use std::alloc::Global;

// ---- one file

// Whether these are the same names, in their order.
fn are_same_links(links: &[Link], others: &[Link]) -> bool
    ensures same { result ≡ true → others.now ≡ links.now }
    ensures only { others.now ≡ links.now → result ≡ true }
{
    if others.len() != links.len() {
        return false;
    }
    for at in 0..links.len() {
        if !is_same_link(&links[at], &others[at]) {
            return false;
        }
    }
    true
}

// Whether two files with this number have the same sequence number and the same names.
fn are_files_alike(
    alloc: Global,
    number: u64,
    file: &FileRec,
    other: &FileRec,
) -> Result<bool, Memory>
    ensures same { IfOk result (λ alike. alike ≡ true → IsNamedAlike number (Some file.now) (Some other.now)) }
    ensures only { IfOk result (λ alike. IsNamedAlike number (Some file.now) (Some other.now) → alike ≡ true) }
{
    if file.head().seq != other.head().seq {
        return Ok(false);
    }
    let links = record_links(alloc, number, file)?;
    let others = record_links(alloc, number, other)?;
    Ok(are_same_links(links.as_slice(), others.as_slice()))
}

/// Whether at this number there is no file in both of two maps, or in both one with the same sequence
/// number and the same names, in their order. The error is want of memory. It takes time and memory
/// linear in their names.
pub fn are_named_alike(
    alloc: Global,
    number: u64,
    file: Option<&FileRec>,
    other: Option<&FileRec>,
) -> Result<bool, Memory>
    ensures same { IfOk result (λ alike. alike ≡ true → IsNamedAlike number (option_copied file.entry) (option_copied other.entry)) }
    ensures only { IfOk result (λ alike. IsNamedAlike number (option_copied file.entry) (option_copied other.entry) → alike ≡ true) }
{
    match (file, other) {
        (None, None) => Ok(true),
        (Some(file), Some(other)) => are_files_alike(alloc, number, file, other),
        _ => Ok(false),
    }
}

// ---- all files

// Whether the files of two lists of records have the same names.
fn have_same_names(
    alloc: Global,
    records: &[Option<FileRec>],
    others: &[Option<FileRec>],
) -> Result<bool, Memory>
    ensures same { IfOk result (λ same. same ≡ true → SameNames records.now others.now) }
    ensures only { IfOk result (λ same. SameNames records.now others.now → same ≡ true) }
{
    if others.len() != records.len() {
        return Ok(false);
    }
    for number in 0..records.len() as u64 {
        let file = file_at(records, number);
        let other = file_at(others, number);
        if !are_named_alike(alloc, number, file, other)? {
            return Ok(false);
        }
    }
    Ok(true)
}

// ---- some files

/// The record where it is a base record. It takes constant time.
pub fn only_base(file: &Option<FileRec>) -> Option<&FileRec>
    ensures { option_copied result ≡ only_base file.now }
{
    match file {
        Some(file) if is_base_record(file) => Some(file),
        _ => None,
    }
}

/// Whether one of the changes is of the record with this number. It takes time linear in the changes.
pub fn is_any_of(changes: &[RecordChange], number: u64) -> bool
    ensures { result ≡ list_any (is_of number) changes.now }
{
    changes.iter().any(|change| change.number == number)
}

// Whether files keep their names by one change more, behind others by which they do.
fn keeps_one(
    alloc: Global,
    records: &[Option<FileRec>],
    earlier: &[RecordChange],
    change: &RecordChange,
) -> Result<bool, Memory>
    requires { LeaveNamed records.now earlier.now }
    ensures same { IfOk result (λ keeps. keeps ≡ true → LeaveNamed records.now (earlier.now ++ change.now ∷ [])) }
    ensures only { IfOk result (λ keeps. LeaveNamed records.now (earlier.now ++ change.now ∷ []) → keeps ≡ true) }
{
    let number = change.number;
    if records.len() as u64 <= number || is_any_of(earlier, number) {
        return Ok(true);
    }
    let file = file_at(records, number);
    are_named_alike(alloc, number, file, only_base(&change.file))
}

// Whether files keep their names by changes, of which the first one of a record holds.
fn keeps_all(
    alloc: Global,
    records: &[Option<FileRec>],
    changes: &[RecordChange],
) -> Result<bool, Memory>
    ensures same { IfOk result (λ keeps. keeps ≡ true → LeaveNamed records.now changes.now) }
    ensures only { IfOk result (λ keeps. LeaveNamed records.now changes.now → keeps ≡ true) }
{
    for at in 0..changes.len() {
        if !keeps_one(alloc, records, &changes[..at], &changes[at])? {
            return Ok(false);
        }
    }
    Ok(true)
}

// Whether the files of a map keep their names where these parts of it are changed.
fn parts_keep(alloc: Global, live: &LiveMap, parts: &PartsChange) -> Result<bool, Memory>
    ensures same { IfOk result (λ keeps. keeps ≡ true → SameNames (live_parts live.now).volume.files (records_applied parts.now (live_parts live.now)).volume.files) }
    ensures only { IfOk result (λ keeps. SameNames (live_parts live.now).volume.files (records_applied parts.now (live_parts live.now)).volume.files → keeps ≡ true) }
{
    if parts.table.real / 1024 != live.map.files.len() as u64 {
        return Ok(false);
    }
    keeps_all(alloc, &live.map.files, &parts.records)
}

/// Whether a change of a map leaves the files of its volume their names: whether there are then as
/// many records, and at each number no file in both maps, or in both one with the same sequence
/// number and the same names in their order (Linux-NTFS documentation, "$FILE_NAME"). `live` is the
/// map before the change. The error is want of memory. It takes time and memory linear in the
/// records that change and in their names, and time in the square of how many these are, since of
/// two changes with one number the first one holds; where the map is loaded anew, linear in all
/// records.
pub fn keeps_names(alloc: Global, live: &LiveMap, change: &MapChange) -> Result<bool, Memory>
    ensures kept { IfOk result (λ keeps. keeps ≡ true → SameNames (live_parts live.now).volume.files (applied change.now (live_parts live.now)).volume.files) }
    ensures only { IfOk result (λ keeps. SameNames (live_parts live.now).volume.files (applied change.now (live_parts live.now)).volume.files → keeps ≡ true) }
{
    match change {
        MapChange::Anew(other) => have_same_names(alloc, &live.map.files, &other.map.files),
        MapChange::Parts(parts) => parts_keep(alloc, live, parts),
    }
}
