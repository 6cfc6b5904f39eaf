//! A store is closed.
ghost use Rattle.std.specs.Prelude.{◌≡◌, OnOk, IfErr, None};
ghost use Rattle.device_view.specs.Devices.{CountsOnDevice};
ghost use Rattle.found_stays.specs.txn_model.Calls.{sealed_facts};
ghost use Rattle.found_stays.specs.txn_state.States.{facts_of};
ghost use Rattle.txn_close.specs.declared.fault.CloseFault.TheVariants.{Unmarked};
ghost use Rattle.txn_close.specs.Rests.{stopped_facts, IsDrained, IsUnmarked};
ghost use Rattle.txn_close.specs.Passing.{Goes};
ghost use Rattle.txn_close.specs.Ends.{close_cause, Closes};

use crate::draining::drain;
use crate::ending::{end_begun, mark_clean};
use crate::fault::CloseFault;
use found_stays::Store;
use sector_device::Device;

// Gives up the transaction that is open, if any.
fn give_up_open<D: Device>(store: &mut Store<D>)
    ensures facts { facts_of store.new.state ≡ stopped_facts (facts_of store.old.state) }
    ensures goes { Goes D.sector_count D.moment_of D.changes_of (stopped_facts (facts_of store.old.state)) store.old store.new }
    ensures device { store.new.device ≡ store.old.device }
{
    if !store.state().is_open() {
        return;
    }
    store.give_up();
}

// Gives up the transaction that is open, if any, and seals the page of the log that is filled.
fn stop<D: Device>(store: &mut Store<D>)
    ensures facts { facts_of store.new.state ≡ sealed_facts (stopped_facts (facts_of store.old.state)) }
    ensures goes { Goes D.sector_count D.moment_of D.changes_of (stopped_facts (facts_of store.old.state)) store.old store.new }
    ensures device { store.new.device ≡ store.old.device }
{
    give_up_open(store);
    store.seal();
}

// Ends what a store does, but for its last checkpoint: gives up the transaction that is open, and
// writes out all that it holds; a checkpoint that has begun ends.
fn end_session<D: Device>(store: &mut Store<D>) -> Result<(), CloseFault>
    ensures drained { OnOk result (IsDrained (facts_of store.new.state)) }
    ensures ended { OnOk result (store.new.state.noted ≡ None) }
    ensures unmarked { IfErr result (λ fault. fault ≡ Unmarked → IsUnmarked (facts_of store.new.state)) }
    ensures cause { CountsOnDevice close_cause (D.fault_count store.old.device) (D.fault_count store.new.device) (D.moment_of store.new.device) result }
    ensures goes { Goes D.sector_count D.moment_of D.changes_of (stopped_facts (facts_of store.old.state)) store.old store.new }
{
    stop(store);
    drain(store)?;
    end_begun(store)
}

/// Closes a store, and gives its device back: the transaction that is open is given up, all that
/// the store holds is written out, as [`drain`](crate::drain) does it, and its log is marked clean
/// by a last checkpoint; one that has begun ends first. No store goes on behind a log that is
/// marked clean.
///
/// - [`CloseFault::Fault`]: the device failed, and nothing more was done.
/// - [`CloseFault::Unmarked`]: no restart page can be made; all that the store held is written out
///   and durable.
///
/// It takes no memory. At most two calls of the device for each page of the log that wasn't written
/// and for each block that is dirty once nothing is open, and eight more.
pub fn close<D: Device>(store: Store<D>) -> (Result<(), CloseFault>, D)
    ensures closes { Closes D.gives D.sector_count D.moment_of D.changes_of store result.0 result.1 }
    ensures cause { CountsOnDevice close_cause (D.fault_count store.device) (D.fault_count result.1) (D.moment_of result.1) result.0 }
{
    let mut store = store;
    match end_session(&mut store) {
        Ok(()) => mark_clean(store),
        Err(fault) => (Err(fault), store.into_device()),
    }
}
