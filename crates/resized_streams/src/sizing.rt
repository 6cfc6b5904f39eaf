//! A stream in clusters that has other sizes.
ghost use Rattle.std.specs.Prelude.{◌≡◌, ◌≤◌, ◌^◌, IfOk, length};
ghost use Rattle.record_streams.specs.record_model.Pairs.{HasSpelling};
ghost use Rattle.record_streams.specs.Fitting.{FitsButRoom, IsPlaceable};
ghost use Rattle.resized_streams.specs.Resizing.{with_sizes, IsSized};

use crate::resized::Resized;
use plan_space::Runs;
use record_streams::{ClusterSize, Extents, FileRec, Memory, placed_record};
use std::alloc::{AllocError, Global};

// The stream with these sizes.
fn with_sizes(
    alloc: Global,
    extents: &Extents,
    real: u64,
    initialised: u64,
) -> Result<Extents, AllocError>
    ensures { IfOk result (λ e. e ≡ with_sizes real initialised extents.now) }
{
    let mut runs = Runs::new(alloc);
    runs.extend(&extents.runs)?;
    Ok(Extents {
        runs,
        allocated: extents.allocated,
        real,
        initialised,
    })
}

/// Gives a stream in clusters this real and this initialised size, in bytes (Linux-NTFS
/// documentation, "Attribute Header"): it stands in one attribute then, in its clusters of before.
/// Where the initialised size rises, the bytes from the old one on, which count as zeros until then,
/// are for the caller to put. `extents` has the stream of this type and name (in UTF-16 units) of the
/// file; the volume has `per` sectors a cluster. The record may use more than 1,024 bytes then. The
/// error is want of memory. It takes time and memory linear in the record and the stream's runs.
pub fn sized(
    alloc: Global,
    per: ClusterSize,
    kind: u32,
    name: &[u16],
    extents: &Extents,
    file: &FileRec,
    real: u64,
    initialised: u64,
) -> Result<Resized, Memory>
    requires spelled { HasSpelling 0 extents.now.runs }
    requires few { length extents.now.runs ≤ 2 ^ 16 }
    requires kind { IsPlaceable kind }
    requires fits { FitsButRoom file.now }
    ensures value { IfOk result (λ z. IsSized per kind name.now extents.now file.now real initialised z) }
    ensures fits { IfOk result (λ z. FitsButRoom z.file) }
{
    let other = with_sizes(alloc, extents, real, initialised)?;
    let new = placed_record(alloc, per, kind, name, &other, file)?;
    Ok(Resized {
        file: new,
        extents: other,
        taken: Vec::new(alloc),
        freed: Vec::new(alloc),
    })
}
