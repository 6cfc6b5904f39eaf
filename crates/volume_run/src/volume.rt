ghost use Rattle.std.specs.Prelude.{◌≡◌, ◌≤◌, length};
ghost use Rattle.device_view.specs.Devices.{BorrowedDevice, borrowed};
ghost use Rattle.volume_mount.specs.Trees.{tree_shown};

use device_view::PIECE_BYTES;
use sector_device::Device;
use serial_run::{AskedVolume, Op, Reply};
use std::alloc::Global;
use volume_mount::MountedTree;

/// A mounted volume on its device, which is asked.
#[derive(Drop)]
pub struct RunVolume<'a, D: Device> {
    tree: &'a MountedTree<'a>,
    device: &'a mut D,
    // Room for what is read ahead, one command after the other.
    room: &'a mut [u8],
    // The device's faults and its moment when this was made.
    faults_before: u64,
    moment_before: u64,
    ghost sized: { length room.now ≡ 65536 },
    pub ghost later: { faults_before ≤ D.fault_count device.now },
    pub ghost onwards: { moment_before ≤ D.moment_of device.now },
}

impl<'a, D: Device> RunVolume<'a, D> {
    /// The mounted volume on this device, whose blocks are read through `room`, for a piece of 64 KiB
    /// ([`piece_room`](device_view::piece_room)).
    pub fn new(tree: &'a MountedTree<'a>, device: &'a mut D, room: &'a mut [u8]) -> Self
        requires room { length room.old ≡ PIECE_BYTES }
        ensures tree { ⟦<RunVolume<'a, D> as AskedVolume>⟧.tree result ≡ tree_shown tree.now.mounted.now (D.gives device.entry.now) }
        ensures upper { ⟦<RunVolume<'a, D> as AskedVolume>⟧.upper result ≡ tree.now.mounted.now.upper }
        ensures faults { ⟦<RunVolume<'a, D> as AskedVolume>⟧.fault_count result ≡ D.fault_count device.entry.now }
        ensures kept { ⟦<RunVolume<'a, D> as AskedVolume>⟧.kept result ≡ borrowed D.gives D.sector_count D.changes_of device.entry.ghost_name device.entry.now (D.fault_count device.entry.now) (D.moment_of device.entry.now) }
    {
        let faults_before = device.faults();
        let moment_before = device.moment();
        RunVolume {
            tree,
            device,
            room,
            faults_before,
            moment_before,
        }
    }
}

impl<'a, D: Device> AskedVolume for RunVolume<'a, D> {
    ghost tree = { λ v. tree_shown v.tree.now.mounted.now (D.gives v.device.now) };

    ghost upper = { λ v. v.tree.now.mounted.now.upper };

    ghost Kept = { BorrowedDevice };

    ghost kept = { λ v. borrowed D.gives D.sector_count D.changes_of v.device.ghost_name v.device.now v.faults_before v.moment_before };

    ghost fault_count = { λ v. D.fault_count v.device.now };

    ghost moment_of = { λ v. D.moment_of v.device.now };

    fn answer(&mut self, alloc: Global, op: &Op) -> Reply {
        self.tree.answer(alloc, self.room, self.device, op)
    }

    fn faults(&self) -> u64 {
        self.device.faults()
    }

    fn moment(&self) -> u64 {
        self.device.moment()
    }
}
