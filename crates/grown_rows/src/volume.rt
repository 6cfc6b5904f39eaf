//! A new volume of 16,384 sectors, and changes that lie over it. Its file table begins at the sector 32, and
//! the mirror of that at the sector 16; a record has two sectors.
ghost use Rattle.std.specs.Prelude.{◌≡◌, ◌%◌, ◌*◌, ◌^◌, ◌<◌, All, IfOk, length};
ghost use Rattle.block_view.specs.Changes.{Fits};

use crate::finding::{Found, found_in};
use crate::growing::growth;
use crate::making::making;
use block_view::{Change, Overlay, View};
use device_view::{DeviceView, piece_room};
use sector_device::{Device, MemoryDevice};
use state_model::Geometry;
use std::alloc::{AllocError, Global};
use std::test::Fail;
use utf16_name::Name;
use volume_format::format;
use volume_images::per_cluster;

const SECTORS: usize = 16_384;

/// How many clusters the volume has.
pub const CLUSTERS: u64 = 2047;

/// A sector, a place in it, and the byte that stands there.
pub type Patch = (u64, usize, u8);

/// Where the file table is found.
pub fn geometry() -> Geometry
    ensures { result.mft * result.per_cluster < 2 ^ 62 }
{
    Geometry {
        per_cluster: per_cluster(8),
        mft: 4,
    }
}

// A device of so many sectors of zeros.
fn blank(alloc: Global, sectors: usize) -> Result<MemoryDevice, AllocError>
    requires { sectors ≡ 16384 }
{
    let bytes = vec![in alloc; 0u8; 512 * sectors]?;
    Ok(MemoryDevice::new(alloc, bytes, Vec::new(alloc)))
}

// Puts a byte into a sector.
fn patch(device: &mut MemoryDevice, patch: &Patch) {
    let mut sector = [0u8; 512];
    if patch.0 < device.sectors() && device.read(patch.0, &mut sector).is_ok() && patch.1 < 512 {
        sector[patch.1] = patch.2;
        let _ = device.write(patch.0, &sector);
    }
}

/// A new volume with these bytes in place of its own.
pub fn new_volume(alloc: Global, patches: &[Patch]) -> Result<MemoryDevice, Fail> {
    let mut device = blank(alloc, SECTORS)?;
    format(alloc, &mut device, 7, 1000)?;
    for one in patches {
        patch(&mut device, one);
    }
    Ok(device)
}

// The view after the changes.
fn overlay<'a, V: View>(view: &'a mut V, changes: &'a [Change]) -> Overlay<'a, V>
    requires { All Fits changes.now }
{
    Overlay { view, changes }
}

// The changes of one growth of the file table, behind these changes.
fn growth_over<V: View>(
    alloc: Global,
    view: &mut V,
    changes: &[Change],
) -> Result<Vec<Change>, Fail>
    requires { All Fits changes.now }
    ensures { IfOk result (λ more. All Fits more.items) }
{
    let mut after = overlay(view, changes);
    growth(alloc, &mut after)
}

// The changes by which a file is made, behind these changes.
fn making_over<V: View>(
    alloc: Global,
    view: &mut V,
    changes: &[Change],
    number: u64,
    name: Name,
) -> Result<Vec<Change>, Fail>
    requires number { number < 2 ^ 32 }
    requires fit { All Fits changes.now }
    ensures { IfOk result (λ more. All Fits more.items) }
{
    let mut after = overlay(view, changes);
    making(alloc, &mut after, number, name)
}

// What a check finds behind these changes.
fn found_over<V: View>(alloc: Global, view: &mut V, changes: &[Change]) -> Result<Found, Fail>
    requires { All Fits changes.now }
{
    let mut after = overlay(view, changes);
    found_in(alloc, &mut after)
}

/// Changes that lie over a volume.
#[derive(Drop)]
pub struct Laid {
    changes: Vec<Change>,
    ghost fits: { All Fits changes.items },
}

impl Laid {
    /// No changes.
    pub fn empty(alloc: Global) -> Laid {
        Laid {
            changes: Vec::new(alloc),
        }
    }

    // The changes of one growth of the file table, behind those that are laid.
    fn growth(&self, alloc: Global, device: &mut MemoryDevice) -> Result<Vec<Change>, Fail>
        ensures { IfOk result (λ more. All Fits more.items) }
    {
        let mut room = piece_room(alloc)?;
        let mut view = DeviceView::new(&mut room, device);
        growth_over(alloc, &mut view, &self.changes)
    }

    // Lays a change behind the others.
    fn lay(&mut self, change: Change) -> Result<(), AllocError>
        requires { Fits change }
    {
        self.changes.push(change)?;
        Ok(())
    }

    /// Lets the file table grow once, and lays its changes behind the others.
    pub fn grow(&mut self, alloc: Global, device: &mut MemoryDevice) -> Result<(), Fail> {
        for change in self.growth(alloc, device)? {
            self.lay(change)?;
        }
        Ok(())
    }

    // The changes by which a file is made, behind those that are laid.
    fn making(
        &self,
        alloc: Global,
        device: &mut MemoryDevice,
        number: u64,
        name: Name,
    ) -> Result<Vec<Change>, Fail>
        requires { number < 2 ^ 32 }
        ensures { IfOk result (λ more. All Fits more.items) }
    {
        let mut room = piece_room(alloc)?;
        let mut view = DeviceView::new(&mut room, device);
        making_over(alloc, &mut view, &self.changes, number, name)
    }

    /// Makes a file of the root with this number and name, and lays its changes behind the others.
    pub fn make(
        &mut self,
        alloc: Global,
        device: &mut MemoryDevice,
        number: u64,
        name: Name,
    ) -> Result<(), Fail>
        requires { number < 2 ^ 32 }
    {
        for change in self.making(alloc, device, number, name)? {
            self.lay(change)?;
        }
        Ok(())
    }

    /// What a check finds of the volume.
    pub fn found(&self, alloc: Global, device: &mut MemoryDevice) -> Result<Found, Fail> {
        let mut room = piece_room(alloc)?;
        let mut view = DeviceView::new(&mut room, device);
        found_over(alloc, &mut view, &self.changes)
    }
}
