//! A volume is closed.
ghost use Rattle.device_view.specs.Devices.{CountsOnDevice};
ghost use Rattle.crash_trees.specs.txn_close.Ends.{close_cause};
ghost use Rattle.volume_core.specs.Calls.{ClosesTrees};

use crate::volume::Volume;
use crash_trees::{CloseFault, close, close_leaves, trees_close};
use sector_device::Device;

impl<D: Device> Volume<D> {
    /// Closes the volume, and gives its device back: all that its store holds is written out, and its
    /// log is marked clean. Where that went well, whatever a crash leaves of the device mounts as the
    /// present tree; and whatever one leaves inside the call, or behind one that failed, mounts as one
    /// of its trees.
    ///
    /// - [`CloseFault::Fault`]: the device failed, and nothing more was done.
    /// - [`CloseFault::Unmarked`]: the log couldn't be marked; all that the store held is written out
    ///   and durable.
    ///
    /// It takes no memory; the costs are those of [`txn_close::close`].
    pub fn close(self) -> (Result<(), CloseFault>, D)
        ensures closes { ClosesTrees D.gives D.sector_count D.moment_of D.changes_of self result.0 result.1 }
        ensures cause { CountsOnDevice close_cause (D.fault_count self.store.device) (D.fault_count result.1) (D.moment_of result.1) result.0 }
    {
        let Volume { store, .. } = self;
        trees_close(store.device());
        close_leaves(store.device());
        close(store)
    }
}
