//! A file's unnamed data that is resized, where its record has room.
ghost use Rattle.std.specs.Prelude.{◌≡◌, ◌+◌, ◌<◌, ◌≤◌, ◌^◌, [], ◌∷◌, All, IfOk, IfSome, OnErr, not, count_by, length};
ghost use Rattle.used_laws.specs.record_model.Constants.{data_type};
ghost use Rattle.used_laws.specs.record_model.Pairs.{cluster_limit, HasSpelling};
ghost use Rattle.used_laws.specs.record_model.Records.{used_of};
ghost use Rattle.used_laws.specs.state_model.Loads.{total_clusters};
ghost use Rattle.used_laws.specs.space_model.Choosing.{chosen, with_runs};
ghost use Rattle.used_laws.specs.plan_space.Choices.{TakesFirst};
ghost use Rattle.used_laws.specs.stream_runs.Runs.{last_cluster};
ghost use Rattle.used_laws.specs.record_streams.Fitting.{FitsButRoom};
ghost use Rattle.used_laws.specs.record_streams.Placing.{placed_record};
ghost use Rattle.used_laws.specs.resized_streams.Resizing.{lengthened, IsGrown};
ghost use Rattle.used_laws.specs.Laws.{AreFormBytes, HasBytes};
ghost use Rattle.used_laws.specs.disk_model.Bytes.{AreBytes};
ghost use Rattle.used_laws.specs.step_model.Plans.{full_row};
ghost use Rattle.data_plan.specs.Changes.{IsReady};
ghost use Rattle.data_plan.specs.Faults.{IsShortOf, HasRow};

use crate::fault::DataFault;
use std::alloc::Global;
use used_laws::{
    Attr, ClusterSize, DATA, Extents, FileRec, FreeBits, OwnForm, Resized, WrittenRecord, grow,
};

// The most bytes that a record uses.
pub const MOST_USED: u64 = 1024;

// The bytes that a record uses.
pub fn used(file: &FileRec) -> u64
    requires { FitsButRoom file.now }
    ensures value { result ≡ used_of file.now.attrs }
    ensures small { result < 2 ^ 32 }
{
    u64::from(file.used())
}

// The data as it was resized, where its record has room.
pub fn with_room(z: Resized) -> Result<Resized, DataFault>
    requires { FitsButRoom z.file }
    ensures same { IfOk result (λ y. y ≡ z) }
    ensures room { HasRow (full_row (used_of z.file.attrs ∷ [])) result }
{
    let used = used(&z.file);
    if used > MOST_USED {
        return Err(DataFault::Full { used });
    }
    Ok(z)
}

// Takes so many clusters for data in these, where its record has room with them.
pub fn grown<B: FreeBits>(
    alloc: Global,
    per: ClusterSize,
    bits: &mut B,
    extents: &Extents,
    file: &FileRec,
    wanted: u64,
) -> Result<Resized, DataFault>
    requires last { IfSome (last_cluster extents.now.runs) (λ at. at < length (B.bits bits.old)) }
    requires clusters { length (B.bits bits.old) ≤ cluster_limit }
    requires spelled { HasSpelling 0 extents.now.runs }
    requires total { total_clusters extents.now.runs + wanted ≤ cluster_limit }
    requires few { length extents.now.runs + wanted ≤ 2 ^ 16 }
    requires fits { FitsButRoom file.now }
    ensures value { IfOk result (λ z. IsGrown per data_type [] extents.now file.now (chosen (B.bits bits.old) (last_cluster extents.now.runs) wanted) z) }
    ensures taken { IfOk result (λ z. B.bits bits.new ≡ with_runs (chosen (B.bits bits.old) (last_cluster extents.now.runs) wanted) (B.bits bits.old)) }
    ensures short { count_by not (B.bits bits.old) < wanted → IsShortOf (count_by not (B.bits bits.old)) result }
    ensures unchanged { count_by not (B.bits bits.old) < wanted → B.bits bits.new ≡ B.bits bits.old }
    ensures room { wanted ≤ count_by not (B.bits bits.old) → HasRow (full_row (used_of (placed_record per data_type [] (lengthened per (chosen (B.bits bits.old) (last_cluster extents.now.runs) wanted) extents.now) file.now).attrs ∷ [])) result }
    ensures first { OnErr result (TakesFirst (chosen (B.bits bits.old) (last_cluster extents.now.runs) wanted) (B.bits bits.old) (B.bits bits.new)) }
    ensures ready { IfOk result IsReady }
{
    let z = grow(alloc, per, bits, DATA, &[], extents, file, wanted)?;
    with_room(z)
}

// Each of these numbers is a byte.
fn are_bytes(bytes: &[u8])
    ensures { AreBytes bytes.now }
{}

// Mapping pairs are bytes.
fn form_has_bytes(form: &OwnForm)
    ensures { AreFormBytes form.now }
{
    match form {
        OwnForm::Resident { .. } => {}
        OwnForm::Mapped { pairs, .. } => are_bytes(pairs.as_slice()),
    }
}

// The mapping pairs of all attributes are bytes.
pub fn have_bytes(attrs: &[Attr])
    ensures { All HasBytes attrs.now }
{
    for attr in attrs {
        form_has_bytes(&attr.form);
    }
}
