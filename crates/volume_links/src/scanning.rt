//! One walk over the file table that keeps no record, but the long names of its files.
ghost use Rattle.std.specs.Prelude.{◌≡◌, ◌+◌, ◌<◌, ◌≤◌, true, false, if◌then◌else◌, length, IfOk, IfSome, IsTrue};
ghost use Rattle.record_model.specs.Constants.{attribute_list};
ghost use Rattle.state_model.specs.Files.{is_base_record, has_type};
ghost use Rattle.state_model.specs.Loads.{Free, Used, most_records, record_count, slot_in, slot_of, whole_record, table_slot, rule_refusal, first_some};
ghost use Rattle.volume_map.specs.Errors.{map_cause, NeverRefused};
ghost use Rattle.volume_links.specs.Scans.{IsUnread, IsSeen, Judges, ScannedBelow, ScansOrFails, ScansAll};
ghost use Rattle.block_view.specs.Views.{AsksView};

use crate::names::push_record;
use crate::plain::take_plain;
use block_view::View;
use disk_model::{BlockKind, Body};
use file_record::{FileRec, RecFault};
use file_tree::Link;
use host_base::Memory;
use record_model::ATTRIBUTE_LIST;
use state_model::{ClusterSize, Extents, MapRefusal};
use std::alloc::Global;
use volume_map::{
    MapFault, block_at, cuts_index, has_type, is_base_record, is_used, or_rule, whole_record,
};

/// What a scan found of the first records of a table: the long names of the files among them, none
/// of which has an attribute list, and what refuses the first that breaks a rule.
#[derive(Debug, Drop)]
pub struct Scan {
    pub links: Vec<Link>,
    pub refusal: Option<MapRefusal>,
}

// What a scan makes of a record.
#[derive(Debug, Drop)]
enum Seen {
    // Its update sequence fails.
    Torn,
    // A file with an attribute list: other records may hold names of it.
    Listed,
    // Any other: its long names were appended, if it is a file, and this is the rule that it
    // breaks.
    Judged { rule: Option<u32> },
}

// Takes the record of a file with no attribute list.
fn take_unlisted(
    alloc: Global,
    per: ClusterSize,
    number: u64,
    file: &FileRec,
    links: &mut Vec<Link>,
) -> Result<Seen, Memory>
    requires base { is_base_record file.now ≡ true }
    requires unlisted { has_type attribute_list file.now ≡ false }
    ensures { IfOk result (IsSeen per number (Used file.now) links.old.items links.new.items) }
{
    push_record(alloc, number, file, links)?;
    let cut = cuts_index(alloc, per, file)?;
    Ok(Seen::Judged {
        rule: or_rule(None, cut, false),
    })
}

// Takes a record that was read.
fn take_file(
    alloc: Global,
    per: ClusterSize,
    number: u64,
    file: &FileRec,
    links: &mut Vec<Link>,
) -> Result<Seen, Memory>
    ensures { IfOk result (IsSeen per number (Used file.now) links.old.items links.new.items) }
{
    if !is_base_record(file) {
        return Ok(Seen::Judged { rule: None });
    }
    if has_type(file, ATTRIBUTE_LIST) {
        return Ok(Seen::Listed);
    }
    take_unlisted(alloc, per, number, file, links)
}

// What was seen of a record that can't be read.
fn unread(fault: RecFault) -> Result<Seen, Memory>
    ensures { IfOk result (IsUnread fault) }
{
    match fault {
        RecFault::Rule { rule } => Ok(Seen::Judged { rule: Some(rule) }),
        RecFault::Memory => Err(Memory),
    }
}

// Takes the body of a record in use that isn't plain.
fn take_whole(
    alloc: Global,
    per: ClusterSize,
    number: u64,
    body: &[u8],
    links: &mut Vec<Link>,
) -> Result<Seen, Memory>
    requires body { length body.now ≡ 1024 }
    ensures { IfOk result (IsSeen per number (slot_in (whole_record body.now)) links.old.items links.new.items) }
{
    match whole_record(alloc, body) {
        Ok(file) => take_file(alloc, per, number, &file, links),
        Err(fault) => unread(fault),
    }
}

// Takes the body of a record in use.
fn take_used(
    alloc: Global,
    per: ClusterSize,
    number: u64,
    body: &[u8],
    links: &mut Vec<Link>,
) -> Result<Seen, Memory>
    requires body { length body.now ≡ 1024 }
    ensures { IfOk result (IsSeen per number (slot_in (whole_record body.now)) links.old.items links.new.items) }
{
    let before = links.len();
    if take_plain(alloc, number, body, links)? {
        return Ok(Seen::Judged { rule: None });
    }
    links.truncate(before);
    take_whole(alloc, per, number, body, links)
}

// Takes the body of a file record.
#[tactic(auto, unfolding(state_model::specs::Loads::slot_of))]
fn take_body(
    alloc: Global,
    per: ClusterSize,
    number: u64,
    body: &Body,
    links: &mut Vec<Link>,
) -> Result<Seen, Memory>
    requires body { length body.now.bytes ≡ 1024 }
    ensures { IfOk result (IsSeen per number (slot_of body.now) links.old.items links.new.items) }
{
    if body.torn() {
        return Ok(Seen::Torn);
    }
    if !is_used(body.bytes()) {
        return Ok(Seen::Judged { rule: None });
    }
    take_used(alloc, per, number, body.bytes(), links)
}

// Reads the body of the record of that number; whether there is one.
#[tactic(auto, unfolding(state_model::specs::Loads::table_slot))]
fn read_body<V: View>(
    view: &mut V,
    per: ClusterSize,
    extents: &Extents,
    number: u64,
    body: &mut Body,
) -> Result<bool, MapFault>
    requires number { number < most_records }
    ensures slot { IfSome (V.content view.old) (λ c. IfOk result (λ there. table_slot c per extents.now number ≡ (if there then slot_of body.new else Free))) }
    ensures size { IfOk result (λ there. IsTrue there → length body.new.bytes ≡ 1024) }
    ensures kept { AsksView V.content V.kept V.faults map_cause view.old view.new result }
    ensures certain { NeverRefused result }
{
    if extents.initialised <= 1024 * number {
        return Ok(false);
    }
    match block_at(per, extents.runs.as_slice(), BlockKind::FileRec, number) {
        None => Ok(false),
        Some(block) => {
            view.body(block, body)?;
            Ok(true)
        }
    }
}

// Takes the record of that number.
fn take_record<V: View>(
    alloc: Global,
    view: &mut V,
    per: ClusterSize,
    extents: &Extents,
    number: u64,
    body: &mut Body,
    links: &mut Vec<Link>,
) -> Result<Seen, MapFault>
    requires number { number < most_records }
    ensures seen { IfSome (V.content view.old) (λ c. IfOk result (IsSeen per number (table_slot c per extents.now number) links.old.items links.new.items)) }
    ensures kept { AsksView V.content V.kept V.faults map_cause view.old view.new result }
    ensures certain { NeverRefused result }
{
    if !read_body(view, per, extents, number, body)? {
        return Ok(Seen::Judged { rule: None });
    }
    Ok(take_body(alloc, per, number, body, links)?)
}

// What refuses the table, where this record breaks the rule.
fn refusal_of(number: u64, rule: Option<u32>) -> Option<MapRefusal>
    ensures { result ≡ rule_refusal number rule }
{
    match rule {
        None => None,
        Some(rule) => Some(MapRefusal::BadRecord { number, rule }),
    }
}

// Notes what refuses the table, unless something was noted before.
fn note(refusal: &mut Option<MapRefusal>, later: Option<MapRefusal>)
    ensures { refusal.new ≡ first_some refusal.old later }
{
    if refusal.is_none() {
        *refusal = later;
    }
}

// Judges what was seen of the next record; whether it is no file with an attribute list.
fn judge(
    cut: bool,
    number: u64,
    seen: Seen,
    refusal: &mut Option<MapRefusal>,
) -> Result<bool, MapFault>
    ensures { Judges cut number seen result refusal.old refusal.new }
{
    match seen {
        Seen::Torn => Err(MapFault::Refused(MapRefusal::BadFixup { number })),
        Seen::Listed => Ok(false),
        Seen::Judged { rule } => {
            let rule = or_rule(rule, number == 0 && cut, false);
            note(refusal, refusal_of(number, rule));
            Ok(true)
        }
    }
}

// Takes the next record; whether it is no file with an attribute list.
fn step<V: View>(
    alloc: Global,
    view: &mut V,
    per: ClusterSize,
    extents: &Extents,
    cut: bool,
    number: u64,
    body: &mut Body,
    scan: &mut Scan,
) -> Result<bool, MapFault>
    requires number { number < most_records }
    ensures answer { IfSome (V.content view.old) (λ c. ScannedBelow per cut (table_slot c per extents.now) number scan.old → ScansOrFails per cut (table_slot c per extents.now) (number + 1) result scan.new) }
    ensures kept { AsksView V.content V.kept V.faults map_cause view.old view.new result }
{
    let seen = take_record(alloc, view, per, extents, number, body, &mut scan.links)?;
    judge(cut, number, seen, &mut scan.refusal)
}

/// What a scan finds of all records of the table, by rising number, up to one that is torn, which
/// is refused; none where a file has an attribute list. `cut` says whether a record of the table
/// lies in two runs. Each is read once. Linear in the records, and in the runs of the table for
/// each.
pub fn scan_table<V: View>(
    alloc: Global,
    view: &mut V,
    per: ClusterSize,
    extents: &Extents,
    cut: bool,
    body: &mut Body,
) -> Result<Option<Scan>, MapFault>
    requires records { record_count extents.now ≤ most_records }
    ensures answer { IfSome (V.content view.old) (λ c. ScansAll per cut (table_slot c per extents.now) (record_count extents.now) result) }
    ensures kept { AsksView V.content V.kept V.faults map_cause view.old view.new result }
{
    let mut scan = Scan {
        links: Vec::new(alloc),
        refusal: None,
    };
    for number in 0..extents.real / 1024 {
        if !step(alloc, view, per, extents, cut, number, body, &mut scan)? {
            return Ok(None);
        }
    }
    Ok(Some(scan))
}
