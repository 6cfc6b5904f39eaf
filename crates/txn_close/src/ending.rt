//! A log is marked clean.
ghost use Rattle.std.specs.Prelude.{◌≡◌, ◌↔◌, OnOk, IfErr, IsSome, true, None, unwrap_or};
ghost use Rattle.device_view.specs.Devices.{CountsOnDevice};
ghost use Rattle.found_stays.specs.txn_model.Calls.{named_facts, synced_facts};
ghost use Rattle.found_stays.specs.txn_state.States.{facts_of};
ghost use Rattle.found_stays.specs.txn_core.Turns.{HasNext, IsLast};
ghost use Rattle.txn_close.specs.declared.fault.CloseFault.TheVariants.{Fault, Unmarked};
ghost use Rattle.txn_close.specs.Rests.{IsDrained, IsUnmarked};
ghost use Rattle.txn_close.specs.Passing.{Goes, EndsFurther};
ghost use Rattle.txn_close.specs.Ends.{close_cause, EndsBy, MarksClean};

use crate::fault::CloseFault;
use found_stays::{Closing, Store};
use sector_device::Device;

/// Whether a restart page can be made: the log has a lap for a further entry, and its count of
/// opens isn't at its end. In constant time.
pub fn has_next<D: Device>(store: &Store<D>) -> bool
    ensures { (result ≡ true) ↔ HasNext store.now.state.log }
{
    let log = store.state().log();
    log.has_lap(0x58) && log.opens() < u32::MAX
}

// Ends the checkpoint that has begun: its restart page, which doesn't say that the log is closed,
// and a sync.
fn end_checkpoint<D: Device>(store: &mut Store<D>) -> Result<(), CloseFault>
    requires drained { IsDrained (facts_of store.old.state) }
    requires begun { IsSome store.old.state.noted }
    ensures facts { OnOk result (facts_of store.new.state ≡ synced_facts (named_facts (unwrap_or store.old.state.noted 0) (facts_of store.old.state))) }
    ensures unmarked { IfErr result (λ fault. fault ≡ Unmarked → IsUnmarked (facts_of store.new.state)) }
    ensures cause { CountsOnDevice close_cause (D.fault_count store.old.device) (D.fault_count store.new.device) (D.moment_of store.new.device) result }
    ensures goes { Goes D.sector_count D.moment_of D.changes_of (facts_of store.old.state) store.old store.new }
{
    if !has_next(store) {
        return Err(CloseFault::Unmarked);
    }
    store.write_restart()?;
    store.sync_device()?;
    Ok(())
}

// Ends the checkpoint that has begun, if one has.
pub(crate) fn end_begun<D: Device>(store: &mut Store<D>) -> Result<(), CloseFault>
    requires drained { IsDrained (facts_of store.old.state) }
    ensures drained { OnOk result (IsDrained (facts_of store.new.state)) }
    ensures ended { OnOk result (store.new.state.noted ≡ None) }
    ensures unmarked { IfErr result (λ fault. fault ≡ Unmarked → IsUnmarked (facts_of store.new.state)) }
    ensures cause { CountsOnDevice close_cause (D.fault_count store.old.device) (D.fault_count store.new.device) (D.moment_of store.new.device) result }
    ensures goes { Goes D.sector_count D.moment_of D.changes_of (facts_of store.old.state) store.old store.new }
{
    if store.state().noted().is_some() {
        end_checkpoint(store)
    } else {
        Ok(())
    }
}

// Ends the checkpoint that has begun by the restart page which says that the log is closed, and a
// sync.
fn end_last<D: Device>(closing: &mut Closing<D>) -> Result<(), CloseFault>
    requires drained { IsDrained (facts_of closing.old.state) }
    requires begun { IsSome closing.old.state.noted }
    requires next { HasNext closing.old.state.log }
    requires last { IsLast (facts_of closing.old.state) }
    ensures facts { OnOk result (facts_of closing.new.state ≡ synced_facts (named_facts (unwrap_or closing.old.state.noted 0) (facts_of closing.old.state))) }
    ensures ends { OnOk result (EndsBy D.gives D.changes_of D.moment_of (facts_of closing.old.state) closing.old.device closing.new.device) }
    ensures fault { IfErr result (λ fault. fault ≡ Fault) }
    ensures cause { CountsOnDevice close_cause (D.fault_count closing.old.device) (D.fault_count closing.new.device) (D.moment_of closing.new.device) result }
    ensures goes { EndsFurther D.sector_count D.moment_of D.changes_of (facts_of closing.old.state) closing.old closing.new }
{
    closing.write_restart()?;
    closing.sync_device()?;
    Ok(())
}

// Marks the log of a drained store clean by a last checkpoint, where none has begun, and gives its
// device back.
pub(crate) fn mark_clean<D: Device>(store: Store<D>) -> (Result<(), CloseFault>, D)
    requires drained { IsDrained (facts_of store.state) }
    requires ended { store.state.noted ≡ None }
    ensures marks { MarksClean D.gives D.sector_count D.moment_of D.changes_of store result.0 result.1 }
    ensures cause { CountsOnDevice close_cause (D.fault_count store.device) (D.fault_count result.1) (D.moment_of result.1) result.0 }
{
    store.known();
    let mut store = store;
    store.begin_checkpoint();
    if !has_next(&store) {
        return (Err(CloseFault::Unmarked), store.into_device());
    }
    let mut closing = store.closing();
    let result = end_last(&mut closing);
    (result, closing.into_device())
}
