//! A volume is opened for operations.
ghost use Rattle.std.specs.Prelude.{◌≡◌, ◌<◌, IfOk, IfErr, IfSome};
ghost use Rattle.host_base.specs.Causes.{last_moment};
ghost use Rattle.volume_start.specs.device_view.Devices.{CountsOnDevice};
ghost use Rattle.volume_start.specs.Faults.{cause_of, device_behind};
ghost use Rattle.volume_start.specs.Starts.{FailsStart, StaysStarted};
ghost use Rattle.volume_open.specs.Opens.{IsOpened};

use sector_device::Device;
use std::alloc::Global;
use volume_core::Volume;
use volume_start::{StartFault, Started, start};

/// Mounts the volume of a device, so that it takes operations ([`volume_start::start`],
/// [`Volume::over`]).
///
/// It costs what a start does. Each error gives the device back, and is one of a start:
/// [`StartFault::Refused`] with the mount's first refusal, [`StartFault::Device`] where the device
/// failed, [`StartFault::Memory`], and [`StartFault::Unfit`] or [`StartFault::Unknown`] where the
/// volume can't be changed. Unless the device failed, nothing was written to it then. Whatever is
/// answered, an image that a crash leaves inside the mount or behind it could be left before, or
/// mounts as the same tree, where the volume's log is sound.
pub fn mount<D: Device>(alloc: Global, device: D) -> Result<Volume<D>, (StartFault, D)>
    ensures opened { IfSome (D.gives device) (λ first. IfOk result (IsOpened D.gives D.sector_count D.changes_of first)) }
    ensures stays { IfSome (D.gives device) (λ first. StaysStarted (D.sector_count device) (D.moment_of device) first (D.changes_of device) (D.changes_of (device_behind result (λ v. v.store.device)))) }
    ensures sectors { D.sector_count (device_behind result (λ v. v.store.device)) ≡ D.sector_count device }
    ensures errors { IfErr result (FailsStart D.gives D.sector_count D.changes_of D.fault_count D.moment_of device) }
    ensures counted { D.moment_of device < last_moment → CountsOnDevice cause_of (D.fault_count device) (D.fault_count (device_behind result (λ v. v.store.device))) (D.moment_of (device_behind result (λ v. v.store.device))) result }
{
    match start(alloc, device) {
        Ok(started) => {
            let Started {
                store,
                live,
                upper,
                names,
                streams,
                room,
            } = started;
            Ok(Volume::over(store, live, upper, names, streams, room))
        }
        Err(fault) => Err(fault),
    }
}
