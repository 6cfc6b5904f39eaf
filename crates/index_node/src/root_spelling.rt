ghost use Rattle.std.specs.Prelude.{◌≡◌, ◌↔◌, ◌+◌, ◌<◌, ◌≤◌, All, true, false, ◌^◌};
ghost use Rattle.record_model.specs.declared.entry.Entry.{Entry as EntryOf};
ghost use Rattle.record_model.specs.Values.{is_file_name};
ghost use Rattle.record_model.specs.Nodes.{down_flag, children_of, entry_length, node_room, node_used, no_file, FitsDown, FitEntries, FitsEntry, FitsLast};
ghost use Rattle.index_node.specs.Roots.{HaveSpelling};

use disk_model::FileRef;
use record_model::{Entry, EntryList};
use std_values::is_file_name;

// The bytes of a block for entries.
const ROOM: usize = 4032;

// A file has a number below this one.
const NUMBERS: u64 = 0x1_0000_0000_0000;

// Whether a file's number has a spelling.
fn fits_file(file: FileRef) -> bool
    ensures number { (result ≡ true) ↔ (file.number < 2 ^ 48) }
    ensures seq { file.seq < 2 ^ 16 }
{
    file.number < NUMBERS
}

// Whether an entry names no file.
fn is_no_file(file: FileRef) -> bool
    ensures { (result ≡ true) ↔ (no_file ≡ file) }
{
    if file.number != 0 {
        return false;
    }
    file.seq == 0
}

// 1 for a child.
fn down_flag(down: Option<u64>) -> u8
    ensures value { result ≡ down_flag down }
    ensures small { result ≤ 1 }
    ensures fits { FitsDown down }
{
    match down {
        Some(_) => 1,
        None => 0,
    }
}

// Whether an entry before the last has a spelling.
fn fits_entry(entry: &Entry) -> bool
    ensures { (result ≡ true) ↔ FitsEntry entry.now }
{
    let _ = down_flag(entry.down);
    if !fits_file(entry.child) {
        return false;
    }
    is_file_name(entry.key.as_slice())
}

// Whether a last entry has one.
fn fits_last(entry: &Entry) -> bool
    ensures { (result ≡ true) ↔ FitsLast entry.now }
{
    let _ = down_flag(entry.down);
    if !entry.key.is_empty() {
        return false;
    }
    is_no_file(entry.child)
}

// Whether each entry at its place has one.
#[tactic(auto, using(crate::proofs::RootPlaces::fit_entries))]
fn each_fits(entries: &[Entry]) -> bool
    ensures { (result ≡ true) ↔ FitEntries entries.now }
{
    for (i, entry) in entries.iter().enumerate() {
        if i + 1 == entries.len() {
            return fits_last(entry);
        }
        if !fits_entry(entry) {
            return false;
        }
    }
    false
}

/// 1 where the entries have children.
pub fn children_of(entries: &[Entry]) -> u8
    ensures value { result ≡ children_of entries.now }
    ensures small { result ≤ 1 }
{
    match entries.first() {
        Some(entry) => down_flag(entry.down),
        None => 0,
    }
}

// Whether all entries have children, or none has.
fn are_alike(entries: &[Entry]) -> bool
    ensures { (result ≡ true) ↔ All (λ (e : EntryOf). down_flag e.down ≡ children_of entries.now) entries.now }
{
    let flag = children_of(entries);
    for entry in entries {
        if down_flag(entry.down) != flag {
            return false;
        }
    }
    true
}

// The bytes of an entry as it is written.
#[tactic(auto, unfolding(record_model::specs::Nodes::entry_length))]
fn entry_length(entry: &Entry) -> usize
    ensures { result ≡ entry_length entry.now }
{
    let key = entry.key.as_slice();
    let bytes = 8 * ((0x10 + key.len() + 7) / 8);
    match entry.down {
        Some(_) => bytes + 8,
        None => bytes,
    }
}

// Whether they have room in a block.
#[tactic(auto, using(crate::proofs::Sizes::sums), unfolding(record_model::specs::Nodes::node_used))]
fn have_room(entries: &[Entry]) -> bool
    ensures { (result ≡ true) ↔ (node_used entries.now ≤ node_room) }
{
    let mut left = ROOM;
    for entry in entries {
        let bytes = entry_length(entry);
        if left < bytes {
            return false;
        }
        left -= bytes;
    }
    true
}

/// Whether entries have a spelling, exactly: each before the last has a file-name value as key, the
/// last one names no file and has no key, all have children or none has, and they have room in a
/// block. Linear in the bytes.
pub fn have_spelling(entries: &EntryList) -> bool
    ensures { (result ≡ true) ↔ HaveSpelling entries.now }
{
    let entries = entries.as_slice();
    if !are_alike(entries) || !have_room(entries) {
        return false;
    }
    each_fits(entries)
}
