//! All that a store holds is written out.
ghost use Rattle.std.specs.Prelude.{◌≡◌, OnOk, false};
ghost use Rattle.host_base.specs.Causes.{FailsByCause};
ghost use Rattle.flush_policy.specs.Choice.{next_step};
ghost use Rattle.found_stays.specs.log_area.Areas.{is_filling};
ghost use Rattle.found_stays.specs.txn_state.States.{facts_of};
ghost use Rattle.txn_close.specs.Rests.{drains, draining, IsDrained};
ghost use Rattle.txn_close.specs.Passing.{Goes};

use flush_policy::{Facts, StoreStep, next_step};
use found_stays::Store;
use host_base::Failed;
use sector_device::Device;

// Whether a step neither begins nor ends a checkpoint.
fn drains(step: StoreStep) -> bool
    ensures { result ≡ drains step }
{
    match step {
        StoreStep::SealPage => true,
        StoreStep::WritePage => true,
        StoreStep::SyncDevice => true,
        StoreStep::WriteOut(_) => true,
        StoreStep::BeginCheckpoint => false,
        StoreStep::WriteRestart => false,
    }
}

// The step that comes next, unless it begins or ends a checkpoint.
fn draining_step(facts: &Facts) -> Option<StoreStep>
    ensures { result ≡ draining (next_step facts.now) }
{
    match next_step(facts) {
        Some(step) if drains(step) => Some(step),
        _ => None,
    }
}

/// Writes out all that a store holds, where no transaction is open and no page of its log is
/// filled: the sealed pages, a sync, the dirty blocks, a sync. No checkpoint begins or ends.
///
/// The error is a failure of the device: then nothing more is done, and it may be called again. It
/// takes no memory. At most two calls of the device for each sealed page that wasn't written and
/// each dirty block, and two syncs.
pub fn drain<D: Device>(store: &mut Store<D>) -> Result<(), Failed>
    requires closed { store.old.state.is_open ≡ false }
    requires empty { is_filling store.old.state.log ≡ false }
    ensures drained { OnOk result (IsDrained (facts_of store.new.state)) }
    ensures cause { FailsByCause (D.fault_count store.old.device) (D.fault_count store.new.device) (D.moment_of store.new.device) result }
    ensures goes { Goes D.sector_count D.moment_of D.changes_of (facts_of store.old.state) store.old store.new }
{
    let mut facts = store.facts();
    while let Some(step) = draining_step(&facts) {
        match store.turn(step) {
            Ok(()) => {}
            Err(fault) => return Err(fault),
        }
        facts = store.facts();
    }
    Ok(())
}
