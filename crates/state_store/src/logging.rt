//! Changes of blocks in one transaction.
ghost use Rattle.std.specs.Prelude.{◌≡◌, ◌^◌, ◌<◌, true, false, [], All, OnOk, IfErr, IfSome, None};
ghost use Rattle.turn_laws.specs.device_view.Devices.{GoesOnwards, CountsOnDevice};
ghost use Rattle.turn_laws.specs.txn_log.Laws.{HasRoom};
ghost use Rattle.turn_laws.specs.txn_state.States.{facts_of};
ghost use Rattle.turn_laws.specs.txn_core.declared.fault.ChangeFault.TheVariants.{Unspelled};
ghost use Rattle.turn_laws.specs.txn_core.Changes.{change_cause};
ghost use Rattle.state_store.specs.Changes.{MayLog, AreApart};
ghost use Rattle.state_store.specs.Rooms.{pages_of_changes};
ghost use Rattle.state_store.specs.Logging.{AreSpelled, MayLogAll, HasLogged, HasCommitted};
ghost use Rattle.state_store.specs.Windows.{LeadsTo, AfterLogging, AfterCommitted};

use disk_model::Change;
use sector_device::Device;
use std::alloc::Global;
use turn_laws::{ChangeFault, Store, pages_are_enough};

// Law: a change's block begins in a sector whose number has 64 bits.
fn is_near(change: &Change)
    ensures { change.now.block.first < 2 ^ 64 }
{
    let _first = change.block.first;
}

// Makes the changes in the open transaction, one after the other.
fn change_all<D: Device>(
    store: &mut Store<D>,
    alloc: Global,
    changes: &[Change],
) -> Result<(), ChangeFault>
    requires may { MayLogAll (D.gives store.old.device) (facts_of store.old.state) changes.now }
    ensures done { HasLogged result (D.gives store.old.device) changes.now (facts_of store.old.state) (facts_of store.new.state) }
    ensures room { OnOk result (HasRoom store.new.state.log store.new.state.tx store.new.state.last (pages_of_changes (facts_of store.new.state) [])) }
    ensures unspelled { IfErr result (λ fault. fault ≡ Unspelled → D.gives store.old.device ≡ None) }
    ensures gives { D.gives store.new.device ≡ D.gives store.old.device }
    ensures changes { D.changes_of store.new.device ≡ D.changes_of store.old.device }
    ensures sectors { D.sector_count store.new.device ≡ D.sector_count store.old.device }
    ensures onwards { GoesOnwards D.fault_count D.moment_of store.old.device store.new.device }
    ensures cause { CountsOnDevice change_cause (D.fault_count store.old.device) (D.fault_count store.new.device) (D.moment_of store.new.device) result }
    ensures windows { LeadsTo (D.changes_of store.old.device) (facts_of store.old.state) (facts_of store.new.state) (AfterLogging result changes.now) }
{
    pages_are_enough();
    for change in changes {
        is_near(change);
        store.state().known();
        let at = change.offset as usize;
        match store.change(alloc, change.block, at, change.new.as_slice()) {
            Ok(()) => {}
            Err(fault) => return Err(fault),
        }
        store.state().known();
    }
    Ok(())
}

/// Makes the changes in one transaction, and commits it, where none is open and the log has room
/// for them.
///
/// [`ChangeFault::Fault`]: the device failed; [`ChangeFault::Memory`]: want of memory;
/// [`ChangeFault::Unspelled`]: a body has no spelling, which comes only where what the device gives
/// isn't known. Then the transaction is given up. At most one call of the device for each change,
/// which reads; near-linear in the changes.
pub fn log_changes<D: Device>(
    store: &mut Store<D>,
    alloc: Global,
    changes: &[Change],
) -> Result<(), ChangeFault>
    requires closed { store.old.state.is_open ≡ false }
    requires number { store.old.state.tx < 2 ^ 32 }
    requires each { All (MayLog (facts_of store.old.state)) changes.now }
    requires apart { AreApart changes.now }
    requires spelled { IfSome (D.gives store.old.device) (AreSpelled (facts_of store.old.state) changes.now) }
    requires room { HasRoom store.old.state.log store.old.state.tx 0 (pages_of_changes (facts_of store.old.state) changes.now) }
    ensures done { HasCommitted result (D.gives store.old.device) changes.now (facts_of store.old.state) (facts_of store.new.state) }
    ensures unspelled { IfErr result (λ fault. fault ≡ Unspelled → D.gives store.old.device ≡ None) }
    ensures gives { D.gives store.new.device ≡ D.gives store.old.device }
    ensures changes { D.changes_of store.new.device ≡ D.changes_of store.old.device }
    ensures sectors { D.sector_count store.new.device ≡ D.sector_count store.old.device }
    ensures onwards { GoesOnwards D.fault_count D.moment_of store.old.device store.new.device }
    ensures cause { CountsOnDevice change_cause (D.fault_count store.old.device) (D.fault_count store.new.device) (D.moment_of store.new.device) result }
    ensures windows { LeadsTo (D.changes_of store.old.device) (facts_of store.old.state) (facts_of store.new.state) (AfterCommitted result changes.now) }
{
    store.known();
    store.begin();
    match change_all(store, alloc, changes) {
        Ok(()) => {}
        Err(fault) => return Err(fault),
    }
    pages_are_enough();
    store.commit();
    Ok(())
}
