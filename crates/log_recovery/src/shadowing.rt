//! The shadowed blocks, cluster by cluster.
ghost use Rattle.std.specs.Prelude.{◌≡◌, ◌+◌, ◌*◌, ◌/◌, ◌<◌, ◌^◌, ◌==◌, ◌&&◌, nat_le, nat_lt, map, IfOk, OnOk};
ghost use Rattle.std.specs.List.{IsDistinct};
ghost use Rattle.std.specs.Ordering.{nat_cmp};
ghost use Rattle.std.specs.BTreeSet.{contains};
ghost use Rattle.log_reading.specs.disk_model.declared.block.Block.{Block as BlockOf};
ghost use Rattle.log_reading.specs.disk_model.Sectors.{same_block};
ghost use Rattle.log_model.specs.Logs.{is_in_grid};
ghost use Rattle.log_recovery.specs.Groups.{lent};
ghost use Rattle.log_recovery.specs.Recovering.{held_lsn, shadow_block};
ghost use Rattle.log_recovery.specs.Shadows.{shadow_by, shadow_in, AddsShadows};

use crate::ended::Ended;
use crate::found::Shadow;
use crate::groups::{Groups, group_at};
use crate::walks::{is_shadowed, rival_of};
use log_model::Entry;
use log_reading::{Block, BlockKind};
use std::alloc::{AllocError, Global};

// Whether an entry may update it: a file record begins in an even sector, an index block in the
// first of eight.
fn is_in_grid(block: Block) -> bool
    ensures { result ≡ is_in_grid block }
{
    match block.kind {
        BlockKind::Plain => true,
        BlockKind::FileRec => block.first % 2 == 0,
        BlockKind::Index => block.first % 8 == 0,
    }
}

// The LSN of the first update of a rival, where the block is in the grid and is shadowed.
fn shadow_of(ended: &Ended, group: &[&Entry], block: Block) -> Option<u64>
    ensures { result ≡ shadow_by (contains nat_cmp ended.now) (lent group.now) block }
{
    if is_in_grid(block) && is_shadowed(ended, group, block) {
        rival_of(group, block)
    } else {
        None
    }
}

// One block more.
fn note(
    ended: &Ended,
    group: &[&Entry],
    block: Block,
    shadows: &mut Vec<Shadow>,
) -> Result<(), AllocError>
    ensures { OnOk result (AddsShadows (shadow_by (contains nat_cmp ended.now) (lent group.now)) (λ b. same_block b block) shadows.old.items shadows.new.items) }
{
    if let Some(lsn) = shadow_of(ended, group, block) {
        shadows.push(Shadow { block, lsn })?;
    }
    Ok(())
}

// The blocks that begin in a sector.
fn note_sector(
    ended: &Ended,
    group: &[&Entry],
    first: u64,
    shadows: &mut Vec<Shadow>,
) -> Result<(), AllocError>
    ensures { OnOk result (AddsShadows (shadow_by (contains nat_cmp ended.now) (lent group.now)) (λ b. b.first == first) shadows.old.items shadows.new.items) }
{
    let plain = Block {
        first,
        kind: BlockKind::Plain,
    };
    let file_record = Block {
        first,
        kind: BlockKind::FileRec,
    };
    let index = Block {
        first,
        kind: BlockKind::Index,
    };
    note(ended, group, plain, shadows)?;
    note(ended, group, file_record, shadows)?;
    note(ended, group, index, shadows)
}

// The first sector of a cluster. The error is that a number of 64 bits has no room for its sectors.
fn first_sector(cluster: u64) -> Result<u64, AllocError>
    ensures value { IfOk result (λ first. first ≡ 8 * cluster) }
    ensures room { IfOk result (λ first. first + 7 < 2 ^ 64) }
{
    cluster.checked_mul(8).ok_or(AllocError)
}

// The blocks that begin in a cluster, whose group this is.
fn note_cluster(
    ended: &Ended,
    group: &[&Entry],
    cluster: u64,
    shadows: &mut Vec<Shadow>,
) -> Result<(), AllocError>
    ensures { OnOk result (AddsShadows (shadow_by (contains nat_cmp ended.now) (lent group.now)) (λ b. b.first / 8 == cluster) shadows.old.items shadows.new.items) }
{
    let first = first_sector(cluster)?;
    for sector in 0..8 {
        note_sector(ended, group, first + sector, shadows)?;
    }
    Ok(())
}

/// The blocks of the grid that are shadowed, each once, by the groups of a log: cluster by cluster.
/// Of each cluster with a group it judges 13 blocks by that group's entries, so it takes time
/// linear in the sizes of the groups. The error is want of memory, or a group of a cluster whose
/// sectors have no numbers of 64 bits.
pub fn shadows_of(alloc: Global, ended: &Ended, groups: &Groups) -> Result<Vec<Shadow>, AllocError>
    ensures held { IfOk result (λ shadows. (b : BlockOf) → held_lsn shadows.items b ≡ shadow_in (contains nat_cmp ended.now) groups.now b) }
    ensures once { IfOk result (λ shadows. IsDistinct same_block (map shadow_block shadows.items)) }
{
    let mut shadows = Vec::new(alloc);
    for cluster in groups.keys() {
        let group = group_at(&*groups, *cluster, &[]);
        note_cluster(ended, group, *cluster, &mut shadows)?;
    }
    Ok(shadows)
}
