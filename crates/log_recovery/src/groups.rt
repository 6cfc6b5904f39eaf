//! The entries of a log in groups: for each cluster, those that may say something of a block that
//! begins in it.
ghost use Rattle.std.specs.Prelude.{◌≡◌, ℕ, ◌==◌, ◌++◌, ◌∷◌, [], false, if◌then◌else◌, IfOk, OnOk};
ghost use Rattle.std.specs.Ordering.{nat_cmp};
ghost use Rattle.std.specs.BTreeMap.{get};
ghost use Rattle.log_recovery.specs.Groups.{lent, first_cluster, last_cluster, reaches, held_group, HasGroups};

use crate::updates::update_block;
use log_model::Entry;
use log_reading::Block;
use std::alloc::{AllocError, Global};
use std::collections::BTreeMap;

/// For each cluster the updates, in order, of all blocks that may share a sector with one that
/// begins in it.
pub type Groups<'a> = BTreeMap<u64, Vec<&'a Entry>>;

/// The group of a cluster, in time logarithmic in the number of groups; `none`, without entries,
/// where it has none.
pub fn group_at<'a, 'b>(
    groups: &'b Groups<'a>,
    cluster: u64,
    none: &'b [&'a Entry],
) -> &'b [&'a Entry]
    requires { none.now ≡ [] }
    ensures { lent result.now ≡ held_group (get nat_cmp groups.now cluster) }
{
    match groups.get(&cluster) {
        Some(group) => group.as_slice(),
        None => none,
    }
}

// The group of a cluster, which is taken out.
fn take_group<'a>(alloc: Global, groups: &mut Groups<'a>, cluster: u64) -> Vec<&'a Entry>
    ensures group { lent result.items ≡ held_group (get nat_cmp groups.old cluster) }
    ensures others { (c : ℕ) → (cluster == c) ≡ false → get nat_cmp groups.new c ≡ get nat_cmp groups.old c }
{
    match groups.remove(&cluster) {
        Some(group) => group,
        None => Vec::new(alloc),
    }
}

// One entry more in the group of a cluster.
fn add_to<'a>(
    alloc: Global,
    groups: &mut Groups<'a>,
    cluster: u64,
    entry: &'a Entry,
) -> Result<(), AllocError>
    ensures { OnOk result ((c : ℕ) → held_group (get nat_cmp groups.new c) ≡ held_group (get nat_cmp groups.old c) ++ (if cluster == c then entry.now ∷ [] else [])) }
{
    let mut group = take_group(alloc, groups, cluster);
    group.push(entry)?;
    groups.insert(cluster, group)?;
    Ok(())
}

// The first cluster in which a block begins that may share a sector with this one.
fn first_cluster(block: Block) -> u64
    ensures { result ≡ first_cluster block }
{
    (block.first / 8).saturating_sub(1)
}

// The last such cluster.
fn last_cluster(block: Block) -> u64
    ensures { result ≡ last_cluster block }
{
    block.first / 8 + (block.first % 8 + block.kind.sectors() as u64 - 1) / 8
}

// One entry more, an update of this block, in each group that it belongs to.
fn add<'a>(
    alloc: Global,
    groups: &mut Groups<'a>,
    block: Block,
    entry: &'a Entry,
) -> Result<(), AllocError>
    ensures { OnOk result ((c : ℕ) → held_group (get nat_cmp groups.new c) ≡ held_group (get nat_cmp groups.old c) ++ (if reaches block c then entry.now ∷ [] else [])) }
{
    for cluster in first_cluster(block)..last_cluster(block) + 1 {
        add_to(alloc, groups, cluster, entry)?;
    }
    Ok(())
}

/// The groups of these entries. Each entry is in three of them at most, so it takes near-linear
/// time and linear memory; the error is want of memory.
pub fn groups_of<'a>(alloc: Global, entries: &'a [Entry]) -> Result<Groups<'a>, AllocError>
    ensures { IfOk result (λ groups. HasGroups groups entries.now) }
{
    let mut groups = BTreeMap::new(alloc);
    for entry in entries {
        if let Some(block) = update_block(&entry.act) {
            add(alloc, &mut groups, block, entry)?;
        }
    }
    Ok(groups)
}
