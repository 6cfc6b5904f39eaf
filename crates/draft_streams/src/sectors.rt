//! Bytes that a draft puts into the sectors of a stream.
ghost use Rattle.std.specs.Prelude.{◌≡◌, ◌+◌, ◌-◌, ◌*◌, ◌/◌, ◌<◌, ◌≤◌, ◌^◌, nat_le, IfSome, OnOk, OnErr, length};
ghost use Rattle.stream_map.specs.disk_model.declared.block.BlockKind.TheVariants.{Plain};
ghost use Rattle.stream_map.specs.block_view.Views.{AsksView};
ghost use Rattle.stream_map.specs.state_model.Streams.{block_at};
ghost use Rattle.plan_draft.specs.Faults.{fault_cause};
ghost use Rattle.draft_streams.specs.Parts.{offset_in, bytes_in, touch_part, touch_sector, touch_bytes, first_sector, sector_count, IsFrontOf};

use plan_draft::Draft;
use std::alloc::Global;
use stream_map::{BlockKind, ClusterSize, Runs, View, ViewFault, block_at};

// Where bytes begin in a sector that begin at this place of the stream, or before the sector.
fn offset_in(at: u64, sector: u64) -> usize
    requires { sector < 2 ^ 54 }
    ensures { result ≡ offset_in at sector }
{
    at.saturating_sub(512 * sector) as usize
}

// Those of the bytes that fall into a sector.
fn bytes_in(at: u64, bytes: &[u8], sector: u64) -> &[u8]
    requires small { sector < 2 ^ 54 }
    requires behind { 512 * sector ≤ at + length bytes.now }
    requires before { at ≤ 512 * sector + 512 }
    ensures bytes { result.now ≡ bytes_in at sector bytes.now }
    ensures short { length result.now + offset_in at sector ≤ 512 }
{
    let skipped = (512 * sector).saturating_sub(at) as usize;
    let rest = bytes.split_at(skipped).1;
    let most = 512usize.saturating_sub(offset_in(at, sector));
    rest.split_at(most.min(rest.len())).0
}

// Puts bytes into a sector of a stream from a place of it on, if it lies in a run.
fn put_sector<V: View>(
    draft: &mut Draft<'_, V>,
    alloc: Global,
    per: ClusterSize,
    runs: &Runs,
    sector: u64,
    fresh: bool,
    offset: usize,
    bytes: &[u8],
) -> Result<(), ViewFault>
    requires number { sector < 2 ^ 54 }
    requires inside { length bytes.now + offset ≤ 512 }
    ensures touched { OnOk result (IfSome (V.content draft.old.view.now) (λ c. draft.new.touched.items ≡ touch_part c (block_at per runs.now Plain sector) fresh offset bytes.now draft.old.touched.items)) }
    ensures unchanged { OnErr result (draft.new.touched.items ≡ draft.old.touched.items) }
    ensures asks { AsksView V.content V.kept V.faults fault_cause draft.old.view.now draft.new.view.now result }
    ensures reference { draft.new.view.ghost_name ≡ draft.old.view.ghost_name }
{
    match block_at(per, runs.as_slice(), BlockKind::Plain, sector) {
        None => Ok(()),
        Some(block) => draft.put_part(alloc, block, fresh, offset, bytes),
    }
}

// The sector in which the bytes end, or the first one where there are none.
fn end_sector(at: u64, count: u64) -> u64
    requires { at + count < 2 ^ 62 }
    ensures value { result ≡ first_sector at + sector_count at count }
{
    if count == 0 {
        at / 512
    } else {
        (at + count + 511) / 512
    }
}

/// Puts bytes into the sectors of a stream in clusters, from the place `at` of it on: into each
/// sector those that fall there, over what it has. Sectors from the number `fresh` on are fresh:
/// they weren't the stream's when the plan began, or lay past its initialised size; they have zeros
/// where no byte was put, and are written out whole. What falls where no run lies goes nowhere. The
/// volume has `per` sectors a cluster. [`bytes_are_put`](crate::bytes_are_put) says what the stream
/// is then.
///
/// - [`ViewFault::Fault`]: the view failed, which is asked where a sector wasn't touched.
/// - [`ViewFault::Memory`]: want of memory.
///
/// After an error the first sectors are put, in order, and the others are as they were. It takes a
/// [`Draft::put_part`] and a pass over the runs for each sector.
pub fn put_bytes<V: View>(
    draft: &mut Draft<'_, V>,
    alloc: Global,
    per: ClusterSize,
    runs: &Runs,
    fresh: u64,
    at: u64,
    bytes: &[u8],
) -> Result<(), ViewFault>
    requires place { at + length bytes.now < 2 ^ 62 }
    ensures touched { OnOk result (IfSome (V.content draft.old.view.now) (λ c. draft.new.touched.items ≡ touch_bytes c per runs.now fresh at bytes.now draft.old.touched.items)) }
    ensures front { OnErr result (IfSome (V.content draft.old.view.now) (λ c. IsFrontOf c per runs.now fresh at bytes.now draft.old.touched.items draft.new.touched.items)) }
    ensures asks { AsksView V.content V.kept V.faults fault_cause draft.old.view.now draft.new.view.now result }
    ensures reference { draft.new.view.ghost_name ≡ draft.old.view.ghost_name }
{
    let end = end_sector(at, bytes.len() as u64);
    for sector in at / 512..end {
        let falling = bytes_in(at, bytes, sector);
        put_sector(
            draft,
            alloc,
            per,
            runs,
            sector,
            fresh <= sector,
            offset_in(at, sector),
            falling,
        )?;
    }
    Ok(())
}
