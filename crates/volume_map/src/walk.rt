//! One walk over the file table.
ghost use Rattle.std.specs.Prelude.{◌≡◌, ◌+◌, ◌*◌, ◌^◌, ◌<◌, ◌≤◌, ◌++◌, ◌∷◌, [], Ok, IfOk, IfSome, OnOk, length, ℕ};
ghost use Rattle.volume_model.specs.host_base.Answers.{Gives, GivesOrFails};
ghost use Rattle.state_model.specs.Loads.{Free, most_records, record_count, slot_of, table_slot, torn_refusal, unless, first_of};
ghost use Rattle.volume_map.specs.Errors.{map_cause};
ghost use Rattle.volume_map.specs.Heads.{head_of, no_head, table_head, table_heads};
ghost use Rattle.volume_map.specs.Slots.{seen};
ghost use Rattle.volume_map.specs.Stages.{WalkedBelow, WalksOrFails, WalksAll, Notes};
ghost use Rattle.stream_map.specs.block_view.Views.{AsksView};

use crate::fault::MapFault;
use crate::head::{Head, head_of, no_head};
use crate::slot::{Slot, slot_of};
use file_record::FileRec;
use state_model::{ClusterSize, Extents, MapRefusal};
use std::alloc::{AllocError, Global};
use stream_map::{Block, BlockKind, Body, View, block_at};

/// The first records of a table, by number: each one that is in use and breaks none of the rules 1
/// to 8, the least of these rules that one in use breaks, and the head of each.
#[derive(Debug, Drop)]
pub struct Walk {
    pub records: Vec<Option<FileRec>>,
    pub rules: Vec<Option<u32>>,
    pub heads: Vec<Head>,
}

/// What a record of the table is, and its head.
#[derive(Debug, Drop)]
pub struct Found {
    pub slot: Slot,
    pub head: Head,
}

// That of a record which isn't there.
fn nothing() -> Found
    ensures slot { seen result.slot ≡ Free }
    ensures head { result.head ≡ no_head }
{
    Found {
        slot: Slot::Free,
        head: no_head(),
    }
}

// What the file record of a block is, and its head, by one body.
fn read_found<V: View>(
    alloc: Global,
    view: &mut V,
    block: Block,
    body: &mut Body,
) -> Result<Found, MapFault>
    requires { block.kind ≡ BlockKind.FileRec }
    ensures answer { IfSome (V.content view.old) (λ c. GivesOrFails (λ found. seen found.slot) map_cause result (Ok (slot_of (c block)))) }
    ensures head { IfSome (V.content view.old) (λ c. IfOk result (λ found. found.head ≡ head_of (c block).bytes)) }
    ensures kept { AsksView V.content V.kept V.faults map_cause view.old view.new result }
{
    view.body(block, body)?;
    let head = head_of(body.bytes());
    Ok(Found {
        slot: slot_of(alloc, body)?,
        head,
    })
}

/// What the record of that number is in a table with these clusters, and its head; one wholly past
/// the initialised size isn't in use. `per` is the sectors of a cluster, and `body` room for a
/// body. It reads that record alone, and takes time linear in it and in the runs.
///
/// The errors are a failure of the view and want of memory.
#[tactic(auto, unfolding(state_model::specs::Loads::table_slot, crate::specs::Heads::table_head, crate::specs::Heads::head_of, volume_model::specs::Nodes::spare_sequence))]
pub fn table_found<V: View>(
    alloc: Global,
    view: &mut V,
    per: ClusterSize,
    extents: &Extents,
    number: u64,
    body: &mut Body,
) -> Result<Found, MapFault>
    requires number { number < most_records }
    ensures answer { IfSome (V.content view.old) (λ c. GivesOrFails (λ found. seen found.slot) map_cause result (Ok (table_slot c per extents.now number))) }
    ensures head { IfSome (V.content view.old) (λ c. IfOk result (λ found. found.head ≡ table_head c per extents.now number)) }
    ensures kept { AsksView V.content V.kept V.faults map_cause view.old view.new result }
{
    if extents.initialised <= 1024 * number {
        return Ok(nothing());
    }
    match block_at(per, extents.runs.as_slice(), BlockKind::FileRec, number) {
        None => Ok(nothing()),
        Some(block) => read_found(alloc, view, block, body),
    }
}

// Adds the next record, the rule that it breaks, and its head.
fn push(
    walk: &mut Walk,
    file: Option<FileRec>,
    rule: Option<u32>,
    head: Head,
) -> Result<(), AllocError>
    ensures records { OnOk result (walk.new.records.items ≡ walk.old.records.items ++ file ∷ []) }
    ensures rules { OnOk result (walk.new.rules.items ≡ walk.old.rules.items ++ rule ∷ []) }
    ensures heads { OnOk result (walk.new.heads.items ≡ walk.old.heads.items ++ head ∷ []) }
{
    walk.records.push(file)?;
    walk.rules.push(rule)?;
    walk.heads.push(head)?;
    Ok(())
}

// Notes the next record with its head, unless it is torn.
fn note(walk: &mut Walk, number: u64, found: Found) -> Result<(), MapFault>
    ensures answer { Gives (λ x. x) map_cause result (unless (torn_refusal number (seen found.slot))) }
    ensures noted { OnOk result (Notes (seen found.slot) walk.old walk.new) }
    ensures heads { OnOk result (walk.new.heads.items ≡ walk.old.heads.items ++ found.head ∷ []) }
{
    let Found { slot, head } = found;
    match slot {
        Slot::Torn => Err(MapFault::Refused(MapRefusal::BadFixup { number })),
        Slot::Free => Ok(push(walk, None, None, head)?),
        Slot::Broken { rule } => Ok(push(walk, None, Some(rule), head)?),
        Slot::Used(file) => Ok(push(walk, Some(file), None, head)?),
    }
}

// Reads the next record, and notes it.
fn step<V: View>(
    alloc: Global,
    view: &mut V,
    per: ClusterSize,
    extents: &Extents,
    number: u64,
    body: &mut Body,
    walk: &mut Walk,
) -> Result<(), MapFault>
    requires number { number < most_records }
    ensures answer { IfSome (V.content view.old) (λ c. WalkedBelow (table_slot c per extents.now) number walk.old → WalksOrFails (table_slot c per extents.now) (number + 1) result walk.new) }
    ensures heads { IfSome (V.content view.old) (λ c. OnOk result (walk.new.heads.items ≡ walk.old.heads.items ++ table_head c per extents.now number ∷ [])) }
    ensures lengths { OnOk result (length walk.old.rules.items ≡ length walk.old.records.items → length walk.new.rules.items ≡ length walk.new.records.items) }
    ensures kept { AsksView V.content V.kept V.faults map_cause view.old view.new result }
{
    let found = table_found(alloc, view, per, extents, number, body)?;
    note(walk, number, found)
}

/// The records of the table by rising number, each with its head, up to one that is torn, which is
/// refused; each is read once. Linear in the records, and in the runs of the table for each.
pub fn walk_table<V: View>(
    alloc: Global,
    view: &mut V,
    per: ClusterSize,
    extents: &Extents,
    body: &mut Body,
) -> Result<Walk, MapFault>
    requires records { record_count extents.now ≤ most_records }
    ensures answer { IfSome (V.content view.old) (λ c. WalksAll (table_slot c per extents.now) (record_count extents.now) result) }
    ensures heads { IfSome (V.content view.old) (λ c. IfOk result (λ walk. walk.heads.items ≡ table_heads c per extents.now (record_count extents.now))) }
    ensures lengths { IfOk result (λ walk. length walk.rules.items ≡ length walk.records.items) }
    ensures kept { AsksView V.content V.kept V.faults map_cause view.old view.new result }
{
    let mut walk = Walk {
        records: Vec::new(alloc),
        rules: Vec::new(alloc),
        heads: Vec::new(alloc),
    };
    for number in 0..extents.real / 1024 {
        step(alloc, view, per, extents, number, body, &mut walk)?;
    }
    Ok(walk)
}
