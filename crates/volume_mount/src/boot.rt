//! Whether what is written to files, and what they take, may lie in the first cluster.
ghost use Rattle.std.specs.Prelude.{◌≡◌, false, IfOk, IfSome, IsTrue};
ghost use Rattle.std.specs.List.{list_any};
ghost use Rattle.host_base.specs.Answers.{Gives};
ghost use Rattle.state_model.specs.Streams.{stream_of};
ghost use Rattle.volume_state.specs.volume_model.Volumes.{file_in};
ghost use Rattle.volume_state.specs.volume_model.Owners.{covers};
ghost use Rattle.image_read.specs.volume_map.Maps.{volume_in};
ghost use Rattle.image_read.specs.image_open.Errors.{scan_cause};
ghost use Rattle.volume_mount.specs.Boot.{has_first, is_boot_data, takes_first, file_takes_first, is_taken, keeps_boot};

use host_base::Memory;
use image_read::{MountFault, Refusal, VolumeMap};
use state_model::{Attr, DATA, Run, Stream};
use std::alloc::Global;
use volume_shadows::{file_at, is_attribute_of, stream_of};

// The number of `$Boot`.
const BOOT_FILE: u64 = 7;

// The first cluster is refused by the rule that no cluster lies in two streams, where a stream has
// it, and by the one that the bit of an owned cluster is set, where its bit is clear.
const OWNER_RULE: u32 = 5;

const BIT_RULE: u32 = 6;

fn covers_first(run: &Run) -> bool
    ensures { result ≡ covers 0 run.now }
{
    match run.lcn {
        None => false,
        Some(lcn) => lcn == 0 && run.len > 0,
    }
}

fn cover_first(runs: &[Run]) -> bool
    ensures { result ≡ list_any (covers 0) runs.now }
{
    runs.iter().any(|run| covers_first(run))
}

fn has_first(stream: &Option<Stream>) -> bool
    ensures { result ≡ has_first stream.now }
{
    match stream {
        Some(Stream::Placed(extents)) => cover_first(extents.runs.as_slice()),
        Some(Stream::Held(_)) => false,
        None => false,
    }
}

// Whether an attribute of the file with this number is one of the data of `$Boot`.
fn is_boot_data(number: u64, attr: &Attr) -> bool
    ensures { result ≡ is_boot_data number attr.now }
{
    number == BOOT_FILE && is_attribute_of(DATA, &[], attr)
}

// Whether the stream that an attribute among these belongs to has the first cluster.
fn stream_has_first(alloc: Global, attrs: &[Attr], attr: &Attr) -> Result<bool, Memory>
    ensures { IfOk result (λ has. has ≡ has_first (stream_of attr.now.head.kind attr.now.name attrs.now)) }
{
    let stream = stream_of(alloc, attr.head.kind, attr.name.as_slice(), attrs)?;
    Ok(has_first(&stream))
}

// Whether it is another one than the data of `$Boot`, and has it.
#[tactic(auto, unfolding(crate::specs::Boot::takes_first))]
fn takes_first(alloc: Global, number: u64, attrs: &[Attr], attr: &Attr) -> Result<bool, Memory>
    ensures { IfOk result (λ takes. takes ≡ takes_first number attrs.now attr.now) }
{
    Ok(!is_boot_data(number, attr) && stream_has_first(alloc, attrs, attr)?)
}

fn is_same_stream(a: &Attr, b: &Attr) -> bool
    ensures { IsTrue result → (a.now.head.kind ≡ b.now.head.kind) × (a.now.name ≡ b.now.name) }
{
    a.head.kind == b.head.kind && a.name.as_slice() == b.name.as_slice()
}

// The same, by the attribute before it: one of the same stream needs no second look.
#[tactic(auto, unfolding(crate::specs::Boot::takes_first, state_model::specs::Streams::is_attribute_of))]
fn takes_next(
    alloc: Global,
    number: u64,
    attrs: &[Attr],
    before: Option<&Attr>,
    attr: &Attr,
) -> Result<bool, Memory>
    requires before { IfSome before (λ b. takes_first number attrs.now b.now ≡ false) }
    ensures { IfOk result (λ takes. takes ≡ takes_first number attrs.now attr.now) }
{
    match before {
        Some(other) if is_same_stream(other, attr) => Ok(false),
        _ => takes_first(alloc, number, attrs, attr),
    }
}

// Whether some attribute of the file with this number does so.
fn some_takes_first(alloc: Global, number: u64, attrs: &[Attr]) -> Result<bool, Memory>
    ensures { IfOk result (λ takes. takes ≡ list_any (takes_first number attrs.now) attrs.now) }
{
    let mut before: Option<&Attr> = None;
    for attr in attrs {
        if takes_next(alloc, number, attrs, before, attr)? {
            return Ok(true);
        }
        before = Some(attr);
    }
    Ok(false)
}

fn file_takes_first(alloc: Global, map: &VolumeMap, number: u64) -> Result<bool, Memory>
    ensures { IfOk result (λ takes. takes ≡ file_takes_first number (file_in (volume_in map.now) number)) }
{
    match file_at(&map.files, number) {
        Some(file) => some_takes_first(alloc, number, file.attrs().as_slice()),
        None => Ok(false),
    }
}

// Whether another stream than the data of `$Boot` has the first cluster.
fn is_taken(alloc: Global, map: &VolumeMap) -> Result<bool, Memory>
    ensures { IfOk result (λ taken. taken ≡ is_taken (volume_in map.now)) }
{
    for number in 0..map.files.len() as u64 {
        if file_takes_first(alloc, map, number)? {
            return Ok(true);
        }
    }
    Ok(false)
}

/// Refuses a volume that would let what is written reach its boot sector, which lies in the first
/// cluster (Linux-NTFS documentation, "$Boot" and "$Bitmap"). It takes time and memory linear in the
/// attributes and the runs of all files, where the attributes of each stream of a file stand one
/// behind the other, for each stream of that file; else one such pass for each attribute.
///
/// - [`MountFault::Refused`]: [`Refusal::BadVolume`] with rule 5 and number 0 where a stream has the
///   first cluster that isn't the unnamed data of `$Boot`, as rule 5 has each cluster in one stream;
///   else with rule 6 and number 0 where the bit of the first cluster is clear.
/// - [`MountFault::Memory`]: want of memory.
#[tactic(auto, unfolding(crate::specs::Boot::keeps_boot))]
pub fn keeps_boot(alloc: Global, map: &VolumeMap) -> Result<(), MountFault>
    ensures { Gives (λ x. x) scan_cause result (keeps_boot map.now.cluster_bits (volume_in map.now)) }
{
    if is_taken(alloc, map)? {
        return Err(MountFault::Refused(Refusal::BadVolume {
            rule: OWNER_RULE,
            number: 0,
        }));
    }
    if !map.cluster_bits.test(0) {
        return Err(MountFault::Refused(Refusal::BadVolume {
            rule: BIT_RULE,
            number: 0,
        }));
    }
    Ok(())
}
