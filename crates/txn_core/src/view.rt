//! The present content of a store as a view.
ghost use Rattle.std.specs.Prelude.{◌≡◌, ◌*◌, ◌≤◌, length, OnOk, IfSome};
ghost use Rattle.device_blocks.specs.disk_model.Sectors.{sectors};
ghost use Rattle.host_base.specs.Causes.{FailsByCause};
ghost use Rattle.device_blocks.specs.device_view.Devices.{IsHeld, KeepsDevice, failures};
ghost use Rattle.txn_state.specs.States.{facts_of};
ghost use Rattle.txn_core.specs.Sizes.{sized_present};
ghost use Rattle.txn_core.specs.Views.{present_on, present_content, KeepsSizes, BorrowedStore, borrowed_store, KeepsStore};

use crate::store::Store;
use device_blocks::{Block, Body, ReadAhead};
use host_base::Failed;
use txn_laws::{Device, LAST_MOMENT, View, ViewFault};
use txn_state::StoreState;

// The present body of a block.
#[tactic(auto, using(crate::proofs::PresentSizes::sectors_few))]
fn show_body<D: Device>(
    device: &mut D,
    state: &StoreState,
    ahead: &mut ReadAhead,
    room: &mut [u8],
    block: Block,
    out: &mut Body,
) -> Result<(), Failed>
    requires sized { length room.old ≡ 65536 }
    requires held { IsHeld ahead.old.piece room.old (D.gives device.old) }
    ensures body { OnOk result (IfSome (D.gives device.old) (λ disk. out.new ≡ present_on disk (facts_of state.now) block)) }
    ensures size { OnOk result (length out.new.bytes ≡ 512 * sectors block.kind) }
    ensures held { IsHeld ahead.new.piece room.new (D.gives device.new) }
    ensures kept { KeepsDevice D.gives D.sector_count D.changes_of D.fault_count D.moment_of device.old device.new }
    ensures cause { FailsByCause (D.fault_count device.old) (D.fault_count device.new) (D.moment_of device.new) result }
{
    state.known();
    match state.body(block) {
        Some(kept) => {
            out.set(kept.bytes.as_slice(), kept.torn);
            Ok(())
        }
        None => ahead.body(room, device, block, out),
    }
}

impl<D: Device> Store<D> {
    // Law: each body that is kept has its block's size.
    fn sized(&self)
        ensures { KeepsSizes self.now.state }
    {
        self.state.known();
    }

    // The device's count of faults.
    fn faults(&self) -> u64
        ensures { result ≡ D.fault_count self.now.device }
    {
        self.device.faults()
    }

    // The device's moment.
    fn moment(&self) -> u64
        ensures { result ≡ D.moment_of self.now.device }
    {
        self.device.moment()
    }

    // The present body of a block, which is read ahead.
    fn show(
        &mut self,
        ahead: &mut ReadAhead,
        room: &mut [u8],
        block: Block,
        out: &mut Body,
    ) -> Result<(), Failed>
        requires sized { length room.old ≡ 65536 }
        requires held { IsHeld ahead.old.piece room.old (D.gives self.old.device) }
        ensures body { OnOk result (IfSome (D.gives self.old.device) (λ disk. out.new ≡ present_on disk (facts_of self.old.state) block)) }
        ensures size { OnOk result (length out.new.bytes ≡ 512 * sectors block.kind) }
        ensures held { IsHeld ahead.new.piece room.new (D.gives self.new.device) }
        ensures state { self.new.state ≡ self.old.state }
        ensures words { self.new.words ≡ self.old.words }
        ensures kept { KeepsDevice D.gives D.sector_count D.changes_of D.fault_count D.moment_of self.old.device self.new.device }
        ensures cause { FailsByCause (D.fault_count self.old.device) (D.fault_count self.new.device) (D.moment_of self.new.device) result }
    {
        show_body(&mut self.device, &self.state, ahead, room, block, out)
    }
}

/// The present content of a store: the bodies that it keeps, and else what its device gives, which
/// is read ahead in pieces of 128 sectors.
///
/// Its failures are those of the device. While the view lives, what the store holds in memory and
/// what a crash may leave stay, and so does each window of the store; neither the count of faults nor
/// the moment falls.
#[derive(Drop)]
pub struct StoreView<'a, D: Device> {
    store: &'a mut Store<D>,
    // The bytes of the piece that was read last.
    room: &'a mut [u8],
    // Which piece that is.
    ahead: ReadAhead,
    // The device's faults and its moment when the view was made.
    faults_before: u64,
    moment_before: u64,
    ghost sized: { length room.now ≡ 65536 },
    ghost filled: { IsHeld ahead.piece room.now (D.gives store.now.device) },
    ghost bodies: { KeepsSizes store.now.state },
    pub ghost later: { faults_before ≤ D.fault_count store.now.device },
    pub ghost onwards: { moment_before ≤ D.moment_of store.now.device },
}

impl<'a, D: Device> StoreView<'a, D> {
    /// The present content of this store, read through room for a piece
    /// ([`device_view::piece_room`]).
    pub fn new(room: &'a mut [u8], store: &'a mut Store<D>) -> Self
        requires { length room.old ≡ 65536 }
        ensures content { ⟦<StoreView<'a, D> as View>⟧.content result ≡ present_content (D.gives store.entry.now.device) store.entry.now.state }
        ensures faults { ⟦<StoreView<'a, D> as View>⟧.faults result ≡ failures (D.fault_count store.entry.now.device) (D.moment_of store.entry.now.device) }
        ensures kept { ⟦<StoreView<'a, D> as View>⟧.kept result ≡ borrowed_store D.gives D.sector_count D.changes_of store.entry.ghost_name store.entry.now (D.fault_count store.entry.now.device) (D.moment_of store.entry.now.device) }
    {
        let faults_before = store.faults();
        let moment_before = store.moment();
        store.sized();
        StoreView {
            store,
            room,
            ahead: ReadAhead::empty(),
            faults_before,
            moment_before,
        }
    }

    // Reads the present body of a block.
    fn read_block(&mut self, block: Block, out: &mut Body) -> Result<(), Failed>
        ensures body { OnOk result (IfSome (D.gives self.old.store.now.device) (λ disk. out.new ≡ present_on disk (facts_of self.old.store.now.state) block)) }
        ensures size { OnOk result (length out.new.bytes ≡ 512 * sectors block.kind) }
        ensures kept { KeepsStore D.gives D.sector_count D.changes_of self.old.store self.new.store }
        ensures faults_before { self.new.faults_before ≡ self.old.faults_before }
        ensures moment_before { self.new.moment_before ≡ self.old.moment_before }
        ensures later { D.moment_of self.old.store.now.device ≤ D.moment_of self.new.store.now.device }
        ensures cause { FailsByCause (D.fault_count self.old.store.now.device) (D.fault_count self.new.store.now.device) (D.moment_of self.new.store.now.device) result }
    {
        self.store.show(&mut self.ahead, self.room, block, out)
    }
}

impl<'a, D: Device> View for StoreView<'a, D> {
    ghost content = { λ v. present_content (D.gives v.store.now.device) v.store.now.state };

    ghost faults = { λ v. failures (D.fault_count v.store.now.device) (D.moment_of v.store.now.device) };

    ghost Kept = { BorrowedStore };

    ghost kept = { λ v. borrowed_store D.gives D.sector_count D.changes_of v.store.ghost_name v.store.now v.faults_before v.moment_before };

    /// A body that is kept is given without a call of the device. Else a sector at or past the
    /// device's end counts as zeros, and there is at most one call. From the device's last moment
    /// on it fails. Linear in the sectors read.
    fn body(&mut self, block: Block, out: &mut Body) -> Result<(), ViewFault> {
        match self.read_block(block, out) {
            Ok(()) => {}
            Err(Failed) => return Err(ViewFault::Fault),
        }
        if self.store.moment() < LAST_MOMENT {
            Ok(())
        } else {
            Err(ViewFault::Fault)
        }
    }

    ghost sized = { λ v. sized_present (D.gives v.store.now.device) (D.sector_count v.store.now.device) v.store.now.state v.bodies (D.whole v.store.now.device) };
}
