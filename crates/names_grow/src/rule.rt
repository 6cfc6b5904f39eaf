//! The rule of names by which one file more has a name.
ghost use Rattle.std.specs.Prelude.{◌≡◌, ◌<◌, ◌≤◌, true, None, IfOk, find};
ghost use Rattle.std.specs.Option.{option_copied};
ghost use Rattle.tree_laws.specs.state_model.Files.{file_at};
ghost use Rattle.tree_laws.specs.state_model.Loads.{table_in};
ghost use Rattle.record_rules.specs.Counts.{has_reference};
ghost use Rattle.volume_tree.specs.Named.{AreNamesOf};
ghost use Rattle.same_names.specs.map_change.Parts.{live_parts};
ghost use Rattle.same_names.specs.map_change.Applying.{applied, records_applied};
ghost use Rattle.same_names.specs.Keeping.{is_of};
ghost use Rattle.names_grow.specs.Grown.{HasFileMore, KnowsNames};
ghost use Rattle.names_grow.specs.Trying.{BeginsFile, HasOneName, GoesOnWith};

use crate::elsewhere::{keep_others, stay_elsewhere};
use host_base::Memory;
use map_change::{LiveMap, MapChange, PartsChange, RecordChange};
use record_rules::{Climber, FileRec, file_at, is_same_link, record_links};
use same_names::{NamesRule, only_base};
use state_model::{FIRST_USER_RECORD, FileRef, Link};
use std::alloc::Global;
use tree_laws::ways_are_short;
use volume_tree::Names;

/// The rule that one file more has a name, and all others keep theirs: the file with this number,
/// which has this one name.
#[derive(Clone, Copy)]
pub struct OneMoreRule<'a> {
    /// The file's number.
    pub number: u64,
    /// Its name.
    pub link: &'a Link,
    /// The names of the files of before.
    pub names: &'a Names,
}

// ---- the records of before

// Whether the file that the reference names is there.
#[tactic(auto, unfolding(record_rules::specs::Counts::has_reference))]
fn has_reference(records: &[Option<FileRec>], file: FileRef) -> bool
    ensures { result ≡ has_reference (table_in records.now) file }
{
    match file_at(records, file.number) {
        Some(record) => file.seq == record.head().seq,
        None => false,
    }
}

// Whether a file may come to be at this number, with this name.
fn begins_file(records: &[Option<FileRec>], names: &Names, number: u64, link: &Link) -> bool
    requires named { AreNamesOf names.now records.now }
    ensures same { result ≡ true → BeginsFile number link.now records.now }
    ensures only { BeginsFile number link.now records.now → result ≡ true }
{
    if number < FIRST_USER_RECORD {
        return false;
    }
    if file_at(records, number).is_some() {
        return false;
    }
    if !has_reference(records, link.parent) {
        return false;
    }
    Climber::new(records, &names.ways).leads(link.parent.number)
}

// ---- the file that is more

// Whether there is a file, and has this one name.
fn has_one_name(
    alloc: Global,
    number: u64,
    link: &Link,
    file: Option<&FileRec>,
) -> Result<bool, Memory>
    ensures same { IfOk result (λ has. has ≡ true → HasOneName number link.now (option_copied file.entry)) }
    ensures only { IfOk result (λ has. HasOneName number link.now (option_copied file.entry) → has ≡ true) }
{
    let Some(file) = file else {
        return Ok(false);
    };
    let links = record_links(alloc, number, file)?;
    match links.as_slice() {
        [one] => Ok(is_same_link(one, link)),
        _ => Ok(false),
    }
}

// The change of the record with this number, if there is one: the first of them.
fn change_of(changes: &[RecordChange], number: u64) -> Option<&RecordChange>
    ensures { option_copied result ≡ find (is_of number) changes.now }
{
    changes.iter().find(|change| change.number == number)
}

// ---- the records behind

// Whether the files of a list of records go on in another one, with this file.
fn list_goes_on(
    alloc: Global,
    number: u64,
    link: &Link,
    records: &[Option<FileRec>],
    others: &[Option<FileRec>],
) -> Result<bool, Memory>
    ensures same { IfOk result (λ goes. goes ≡ true → GoesOnWith number link.now records.now others.now) }
    ensures only { IfOk result (λ goes. GoesOnWith number link.now records.now others.now → goes ≡ true) }
{
    if others.len() < records.len() || others.len() as u64 <= number {
        return Ok(false);
    }
    if !has_one_name(alloc, number, link, file_at(others, number))? {
        return Ok(false);
    }
    stay_elsewhere(alloc, number, records, others)
}

// Whether the files of a map go on where these parts of it are changed, with this file.
fn parts_go_on(
    alloc: Global,
    number: u64,
    link: &Link,
    live: &LiveMap,
    parts: &PartsChange,
) -> Result<bool, Memory>
    requires none { file_at (table_in (live_parts live.now).volume.files) number ≡ None }
    ensures same { IfOk result (λ goes. goes ≡ true → GoesOnWith number link.now (live_parts live.now).volume.files (records_applied parts.now (live_parts live.now)).volume.files) }
    ensures only { IfOk result (λ goes. GoesOnWith number link.now (live_parts live.now).volume.files (records_applied parts.now (live_parts live.now)).volume.files → goes ≡ true) }
{
    let count = parts.table.real / 1024;
    if count < live.map.files.len() as u64 || count <= number {
        return Ok(false);
    }
    let Some(change) = change_of(&parts.records, number) else {
        return Ok(false);
    };
    if !has_one_name(alloc, number, link, only_base(&change.file))? {
        return Ok(false);
    }
    keep_others(alloc, number, count, &live.map.files, &parts.records)
}

// Whether the files of a map go on behind a change of it, with this file.
fn goes_on(
    alloc: Global,
    number: u64,
    link: &Link,
    live: &LiveMap,
    change: &MapChange,
) -> Result<bool, Memory>
    requires none { file_at (table_in (live_parts live.now).volume.files) number ≡ None }
    ensures same { IfOk result (λ goes. goes ≡ true → GoesOnWith number link.now (live_parts live.now).volume.files (applied change.now (live_parts live.now)).volume.files) }
    ensures only { IfOk result (λ goes. GoesOnWith number link.now (live_parts live.now).volume.files (applied change.now (live_parts live.now)).volume.files → goes ≡ true) }
{
    match change {
        MapChange::Anew(other) => {
            list_goes_on(alloc, number, link, &live.map.files, &other.map.files)
        }
        MapChange::Parts(parts) => parts_go_on(alloc, number, link, live, parts),
    }
}

// Whether a change of a map leads to one file more with this name.
fn has_file_more(
    alloc: Global,
    rule: &OneMoreRule<'_>,
    live: &LiveMap,
    change: &MapChange,
) -> Result<bool, Memory>
    requires known { KnowsNames rule.now.number rule.now.names.now (live_parts live.now).volume.files }
    ensures same { IfOk result (λ has. has ≡ true → HasFileMore rule.now.number rule.now.link.now (live_parts live.now).volume.files (applied change.now (live_parts live.now)).volume.files) }
    ensures only { IfOk result (λ has. HasFileMore rule.now.number rule.now.link.now (live_parts live.now).volume.files (applied change.now (live_parts live.now)).volume.files → has ≡ true) }
{
    ways_are_short();
    if !begins_file(&live.map.files, rule.names, rule.number, rule.link) {
        return Ok(false);
    }
    goes_on(alloc, rule.number, rule.link, live, change)
}

impl<'a> NamesRule for OneMoreRule<'a> {
    ghost knows = { λ rule. KnowsNames rule.number rule.names.now };

    ghost may = { λ rule. HasFileMore rule.number rule.link.now };

    fn allows(&self, alloc: Global, live: &LiveMap, change: &MapChange) -> Result<bool, Memory> {
        has_file_more(alloc, self, live, change)
    }
}
