//! A directory's record as a step counts it.
ghost use Rattle.std.specs.Prelude.{◌≡◌, ◌<◌, ◌≤◌, ◌^◌, IfOk, length};
ghost use Rattle.disk_model.specs.Bytes.{zeros};
ghost use Rattle.record_model.specs.Constants.{names_index};
ghost use Rattle.record_model.specs.Pairs.{HasSpelling};
ghost use Rattle.record_model.specs.Records.{used_of};
ghost use Rattle.data_plan.specs.record_streams.Fitting.{FitsButRoom, IsPlaceable};
ghost use Rattle.data_plan.specs.record_values.Values.{valued_record};
ghost use Rattle.directory_growth.specs.Clusters.{counted_record};

use data_plan::{placed_record, valued_record};
use file_record::FileRec;
use host_base::Memory;
use record_model::NAMES_INDEX;
use record_writer::WrittenRecord;
use state_model::{ClusterSize, Extents};
use std::alloc::{AllocError, Global};

// The bytes that the record uses.
pub fn used(file: &FileRec) -> u64
    requires { FitsButRoom file.now }
    ensures { result ≡ used_of file.now.attrs }
{
    u64::from(file.used())
}

// So many zeros.
#[tactic(auto, unfolding(disk_model::specs::Bytes::zeros))]
pub fn zeroed(alloc: Global, count: usize) -> Result<Vec<u8>, AllocError>
    ensures value { IfOk result (λ bytes. bytes.items ≡ zeros count) }
    ensures count { IfOk result (λ bytes. length bytes.items ≡ count) }
{
    vec![in alloc; 0u8; count]
}

// The record with a value of so many bytes of a stream of its index; which ones they are doesn't
// count.
pub fn valued(alloc: Global, kind: u32, size: u64, file: &FileRec) -> Result<FileRec, Memory>
    requires size { size ≤ 2 ^ 16 }
    requires kind { IsPlaceable kind }
    requires fits { FitsButRoom file.now }
    ensures value { IfOk result (λ r. r ≡ valued_record kind names_index (zeros size) file.now) }
    ensures fits { IfOk result FitsButRoom }
{
    let bytes = zeroed(alloc, size as usize)?;
    valued_record(alloc, kind, &NAMES_INDEX, &bytes, file)
}

// The record with a stream of its index in these clusters, where it takes so many.
#[tactic(auto, unfolding(crate::specs::Clusters::counted_record))]
pub fn counted(
    alloc: Global,
    per: ClusterSize,
    kind: u32,
    extents: &Extents,
    wanted: u64,
    file: FileRec,
) -> Result<FileRec, Memory>
    requires spelled { HasSpelling 0 extents.now.runs }
    requires few { length extents.now.runs ≤ 2 ^ 16 }
    requires kind { IsPlaceable kind }
    requires fits { FitsButRoom file }
    ensures value { IfOk result (λ r. r ≡ counted_record per kind wanted extents.now file) }
    ensures fits { IfOk result FitsButRoom }
{
    if wanted == 0 {
        return Ok(file);
    }
    placed_record(alloc, per, kind, &NAMES_INDEX, extents, &file)
}
