//! The conditions of a store's calls, tried at run time.
ghost use Rattle.std.specs.Prelude.{◌≡◌, ◌+◌, ◌*◌, ◌/◌, ◌<◌, ◌≤◌, true, None, is_some};
ghost use Rattle.std.specs.List.{list_any};
ghost use Rattle.disk_model.specs.declared.block.Block.{Block as BlockOf};
ghost use Rattle.disk_model.specs.Sectors.{sectors, are_rivals};
ghost use Rattle.log_model.specs.Logs.{is_in_grid};
ghost use Rattle.store_model.specs.Volumes.{is_known};
ghost use Rattle.txn_core.specs.txn_model.Values.{own_of};
ghost use Rattle.txn_core.specs.txn_model.Calls.{rivals_of};
ghost use Rattle.txn_core.specs.txn_state.States.{facts_of};
ghost use Rattle.store_images.specs.Running.{IsBeside};

use disk_model::{Block, BlockKind};
use log_page::{Extent, LogPlace};
use txn_core::{StoreState, rival, rival_count};

// Whether the block begins where its kind may.
pub(crate) fn is_in_grid(block: Block) -> bool
    ensures { result ≡ is_in_grid block }
{
    match block.kind {
        BlockKind::Plain => true,
        BlockKind::FileRec => block.first % 2 == 0,
        BlockKind::Index => block.first % 8 == 0,
    }
}

// Whether the block lies on the device.
pub(crate) fn is_inside(place: &LogPlace, block: Block) -> bool
    ensures { result ≡ true → block.first + sectors block.kind ≤ place.now.device }
{
    let count = block.kind.sectors() as u64;
    count <= place.device && block.first <= place.device - count
}

// Whether the block begins in the volume.
pub(crate) fn is_in_volume(place: &LogPlace, block: Block) -> bool
    ensures { result ≡ true → block.first / 8 < place.now.clusters }
{
    block.first / 8 < place.clusters
}

// Whether the block lies before or behind a log of one run, and not next to it.
fn is_beside(runs: &[Extent], block: Block) -> bool
    ensures { result ≡ true → IsBeside runs.now block }
{
    match runs {
        [run] => {
            let end = block.first.saturating_add(block.kind.sectors() as u64);
            let behind = run.first.saturating_add(run.sectors).saturating_add(8);
            8 <= block.first && (end < run.first || behind < block.first)
        }
        _ => false,
    }
}

// Whether the block is known to a store whose log is found without blocks.
pub(crate) fn is_known(state: &StoreState, block: Block) -> bool
    ensures { result ≡ true → is_known (own_of (facts_of state.now)) block ≡ true }
{
    state.found().is_empty() && is_in_grid(block) && is_beside(state.place().runs.as_slice(), block)
}

// Whether the open transaction changed a rival of the block.
fn has_rival(state: &StoreState, block: Block) -> bool
    requires { is_in_grid block ≡ true }
    ensures { result ≡ list_any (λ c. is_some ((facts_of state.now).before c)) (rivals_of block) }
{
    for k in 0..rival_count(block) {
        if state.is_changed(rival(block, k)) {
            return true;
        }
    }
    false
}

// Whether it changed none.
pub(crate) fn is_alone(state: &StoreState, block: Block) -> bool
    requires { is_in_grid block ≡ true }
    ensures { result ≡ true → (x : BlockOf) → are_rivals block x ≡ true → (facts_of state.now).before x ≡ None }
{
    state.known();
    !has_rival(state, block)
}
