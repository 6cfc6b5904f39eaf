ghost use Rattle.std.specs.Prelude.{◌≡◌, ◌<◌, ◌≤◌, ◌^◌, IfOk, OnOk, IfSome, length};
ghost use Rattle.record_model.specs.Attributes.{filled};
ghost use Rattle.record_model.specs.Pairs.{pairs_of};
ghost use Rattle.volume_format.specs.Layouts.{IsLayout};
ghost use Rattle.volume_format.specs.Files.{resident, mapped, one_run, standard_value, standard, name_attribute};

use crate::layout::Layout;
use crate::naming::name_value;
use crate::zeros::{push_zeros, zeroed};
use host_base::{Bytes, Memory};
use record_model::{
    Attr, FILE_NAME, Head, OwnForm, Run, Runs, STANDARD_INFORMATION, Sizes, StdInfo,
};
use std::alloc::{AllocError, Global};
use std_values::FixedValue;
use utf16_name::Units;

// The file's flags: hidden and system.
const SYSTEM: u32 = 6;

// The bytes of standard information.
const STANDARD_BYTES: usize = 0x48;

/// A stream of one run.
#[derive(Clone, Copy, Debug, PartialEq, Eq)]
pub struct Stream {
    pub id: u16,
    pub kind: u32,
    /// Its first cluster, or none where it is sparse.
    pub lcn: Option<u64>,
    pub clusters: u64,
    /// Its bytes, and those of them that are initialised.
    pub real: u64,
    pub initialised: u64,
}

/// An attribute with its value in the record.
pub fn resident(id: u16, kind: u32, name: Units, value: Bytes) -> Attr
    ensures { result ≡ resident id kind name value }
{
    Attr {
        head: Head { kind, flags: 0, id },
        name,
        form: OwnForm::Resident { value, indexed: 0 },
    }
}

// Puts zeros behind bytes, up to a multiple of 8.
#[tactic(auto, unfolding(record_model::specs::Attributes::filled))]
fn fill_up(bytes: &mut Vec<u8>) -> Result<(), AllocError>
    requires { length bytes.old.items ≤ 1024 }
    ensures { OnOk result (bytes.new.items ≡ filled 0 bytes.old.items) }
{
    let len = bytes.len();
    push_zeros(bytes, 8 * ((len + 7) / 8) - len)
}

// The mapping pairs of one run.
fn pairs(alloc: Global, lcn: Option<u64>, clusters: u64) -> Result<Bytes, Memory>
    requires some { 0 < clusters }
    requires few { clusters ≤ 2 ^ 32 }
    requires low { IfSome lcn (λ lcn. lcn < 2 ^ 32) }
    ensures { IfOk result (λ pairs. pairs ≡ filled 0 (pairs_of (one_run lcn clusters))) }
{
    let mut runs = Runs::new(alloc);
    runs.push(Run {
        vcn: 0,
        lcn,
        len: clusters,
    })?;
    let mut pairs = mapping_pairs::write(alloc, &runs)?;
    fill_up(&mut pairs)?;
    Ok(Bytes::from(pairs))
}

/// An attribute with its value in clusters.
pub fn mapped(alloc: Global, stream: Stream, name: Units) -> Result<Attr, Memory>
    requires some { 0 < stream.clusters }
    requires few { stream.clusters ≤ 2 ^ 32 }
    requires low { IfSome stream.lcn (λ lcn. lcn < 2 ^ 32) }
    ensures { IfOk result (λ attr. attr ≡ mapped stream.id stream.kind name stream.lcn stream.clusters stream.real stream.initialised) }
{
    let pairs = pairs(alloc, stream.lcn, stream.clusters)?;
    let sizes = Sizes {
        first: 0,
        last: stream.clusters - 1,
        unit: 0,
        allocated: 4096 * stream.clusters,
        real: stream.real,
        initialised: stream.initialised,
        held: None,
    };
    Ok(Attr {
        head: Head {
            kind: stream.kind,
            flags: 0,
            id: stream.id,
        },
        name,
        form: OwnForm::Mapped { sizes, pairs },
    })
}

// Standard information with one time.
fn standard_value(alloc: Global, time: u64) -> Result<Bytes, AllocError>
    ensures { IfOk result (λ value. value ≡ standard_value time) }
{
    let info = StdInfo {
        created: time,
        modified: time,
        changed: time,
        read_at: time,
        flags: SYSTEM,
    };
    let mut value = zeroed(alloc, STANDARD_BYTES)?;
    info.write(&mut value);
    Ok(Bytes::from(value))
}

/// Standard information with one time, as an attribute.
#[tactic(auto, unfolding(crate::specs::Files::standard))]
pub fn standard(alloc: Global, time: u64) -> Result<Attr, AllocError>
    ensures { IfOk result (λ attr. attr ≡ standard time) }
{
    let value = standard_value(alloc, time)?;
    Ok(resident(0, STANDARD_INFORMATION, Units::new(alloc), value))
}

/// The name of a system file.
#[tactic(auto, unfolding(crate::specs::Files::name_attribute))]
pub fn name_attribute(alloc: Global, v: Layout, time: u64, number: u64) -> Result<Attr, AllocError>
    requires layout { IsLayout v }
    requires system { number < 12 }
    ensures { IfOk result (λ attr. attr ≡ name_attribute v time number) }
{
    let value = name_value(alloc, v, time, number)?;
    Ok(Attr {
        head: Head {
            kind: FILE_NAME,
            flags: 0,
            id: 1,
        },
        name: Units::new(alloc),
        form: OwnForm::Resident { value, indexed: 1 },
    })
}
