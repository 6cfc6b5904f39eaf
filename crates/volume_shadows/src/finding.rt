//! The live blocks of all files, and what is said of them.
ghost use Rattle.std.specs.Prelude.{◌≡◌, ◌*◌, length, IfOk, IfSome, IsTrue};
ghost use Rattle.std.specs.List.{flat_map, range_with_len};
ghost use Rattle.std.specs.List.Sorted.{IsNonDecreasingBy, IsPermutation};
ghost use Rattle.state_model.specs.Files.{file_at};
ghost use Rattle.state_model.specs.Loads.{table_in};
ghost use Rattle.stream_laws.specs.Owners.{stream_kind};
ghost use Rattle.log_recovery.specs.declared.found.Shadow.{Shadow as a_shadow};
ghost use Rattle.volume_shadows.specs.Least.{lesser, least_of};
ghost use Rattle.volume_shadows.specs.Live.{stream_key, attr_blocks, file_blocks, live_in, least_lsn};

use crate::numbers::lesser;
use crate::searching::least_in_stream;
use disk_model::BlockKind;
use file_record::{FileRec, file_at};
use host_base::Memory;
use log_recovery::Shadow;
use state_model::{Attr, ClusterSize, DATA, INDEX_ALLOCATION};
use std::alloc::{AllocError, Global};
use stream_map::{is_attribute_of, stream_of};

// The numbers of `$MFT` and of `$MFTMirr`.
const TABLE: u64 = 0;

const MIRROR: u64 = 1;

// The kind of the blocks of the stream that an attribute of the file with this number belongs to.
#[tactic(auto, unfolding(stream_laws::specs::Owners::stream_kind, state_model::specs::Streams::is_attribute_of))]
fn stream_kind(number: u64, attr: &Attr) -> BlockKind
    ensures { result ≡ stream_kind (stream_key number attr.now) }
{
    if (number == TABLE || number == MIRROR) && is_attribute_of(DATA, &[], attr) {
        return BlockKind::FileRec;
    }
    if attr.head.kind == INDEX_ALLOCATION {
        return BlockKind::Index;
    }
    BlockKind::Plain
}

// The least LSN that is said of a live block of the stream that an attribute belongs to.
fn least_in_attr(
    alloc: Global,
    per: ClusterSize,
    number: u64,
    attrs: &[Attr],
    attr: &Attr,
    sorted: &[Shadow],
) -> Result<Option<u64>, Memory>
    requires rising { IsNonDecreasingBy (λ (s : a_shadow). s.block.first) sorted.now }
    ensures { IfOk result (λ least. least ≡ least_of (least_lsn sorted.now) (attr_blocks per number attrs.now attr.now)) }
{
    let stream = stream_of(alloc, attr.head.kind, attr.name.as_slice(), attrs)?;
    let kind = stream_kind(number, attr);
    Ok(least_in_stream(per, kind, &stream, sorted))
}

fn is_same_stream(a: &Attr, b: &Attr) -> bool
    ensures { IsTrue result → (a.now.head.kind ≡ b.now.head.kind) × (a.now.name ≡ b.now.name) }
{
    a.head.kind == b.head.kind && a.name.as_slice() == b.name.as_slice()
}

// The lesser of this and of that of one attribute more; one of the same stream as the attribute
// before it needs no second look.
fn least_with(
    alloc: Global,
    per: ClusterSize,
    number: u64,
    attrs: &[Attr],
    least: Option<u64>,
    before: Option<&Attr>,
    attr: &Attr,
    sorted: &[Shadow],
) -> Result<Option<u64>, Memory>
    requires rising { IsNonDecreasingBy (λ (s : a_shadow). s.block.first) sorted.now }
    requires before { IfSome before (λ b. lesser least (least_of (least_lsn sorted.now) (attr_blocks per number attrs.now b.now)) ≡ least) }
    ensures { IfOk result (λ now. now ≡ lesser least (least_of (least_lsn sorted.now) (attr_blocks per number attrs.now attr.now))) }
{
    match before {
        Some(other) if is_same_stream(other, attr) => Ok(least),
        _ => {
            let more = least_in_attr(alloc, per, number, attrs, attr, sorted)?;
            Ok(lesser(least, more))
        }
    }
}

// The least LSN that is said of a live block of a file with these attributes.
fn least_in_attrs(
    alloc: Global,
    per: ClusterSize,
    number: u64,
    attrs: &[Attr],
    sorted: &[Shadow],
) -> Result<Option<u64>, Memory>
    requires rising { IsNonDecreasingBy (λ (s : a_shadow). s.block.first) sorted.now }
    ensures { IfOk result (λ least. least ≡ least_of (least_lsn sorted.now) (flat_map (attr_blocks per number attrs.now) attrs.now)) }
{
    let mut least = None;
    let mut before: Option<&Attr> = None;
    for attr in attrs {
        let now = least_with(alloc, per, number, attrs, least, before, attr, sorted)?;
        least = now;
        before = Some(attr);
    }
    Ok(least)
}

// The least LSN that is said of a live block of a file, if there is one with this number.
fn least_in_file(
    alloc: Global,
    per: ClusterSize,
    files: &[Option<FileRec>],
    number: u64,
    sorted: &[Shadow],
) -> Result<Option<u64>, Memory>
    requires rising { IsNonDecreasingBy (λ (s : a_shadow). s.block.first) sorted.now }
    ensures { IfOk result (λ least. least ≡ least_of (least_lsn sorted.now) (file_blocks per number (file_at (table_in files.now) number))) }
{
    match file_at(files, number) {
        None => Ok(None),
        Some(file) => least_in_attrs(alloc, per, number, file.attrs().as_slice(), sorted),
    }
}

// The least LSN that is said of a live block of the first so many files.
fn least_in_files(
    alloc: Global,
    per: ClusterSize,
    files: &[Option<FileRec>],
    count: u64,
    sorted: &[Shadow],
) -> Result<Option<u64>, Memory>
    requires rising { IsNonDecreasingBy (λ (s : a_shadow). s.block.first) sorted.now }
    ensures { IfOk result (λ least. least ≡ least_of (λ n. least_of (least_lsn sorted.now) (file_blocks per n (file_at (table_in files.now) n))) (range_with_len 0 count)) }
{
    let mut least = None;
    for number in 0..count {
        let more = least_in_file(alloc, per, files, number, sorted)?;
        least = lesser(least, more);
    }
    Ok(least)
}

// The shadows by rising first sector.
fn sorted(alloc: Global, shadows: &[Shadow]) -> Result<Vec<Shadow>, Memory>
    ensures rising { IfOk result (λ all. IsNonDecreasingBy (λ (s : a_shadow). s.block.first) all.items) }
    ensures same { IfOk result (λ all. IsPermutation shadows.now all.items) }
{
    let mut all = copy_of(alloc, shadows)?;
    all.sort_unstable_by_key(|shadow| shadow.block.first);
    Ok(all)
}

fn copy_of(alloc: Global, shadows: &[Shadow]) -> Result<Vec<Shadow>, AllocError>
    ensures { IfOk result (λ all. all.items ≡ shadows.now) }
{
    let mut all = Vec::new(alloc);
    all.extend_from_slice(shadows)?;
    Ok(all)
}

// The least LSN that these shadows say of a live block of all files.
fn least_said(
    alloc: Global,
    per: ClusterSize,
    files: &[Option<FileRec>],
    shadows: &[Shadow],
) -> Result<Option<u64>, Memory>
    ensures { IfOk result (λ least. least ≡ least_of (least_lsn shadows.now) (live_in per files.now)) }
{
    let sorted = sorted(alloc, shadows)?;
    let slice = sorted.as_slice();
    let least = least_in_files(alloc, per, files, files.len() as u64, slice)?;
    Ok(least)
}

/// The least LSN that these shadows say of a live block of a volume's files, of `per` sectors a
/// cluster: of a block of a stream that isn't wholly past the stream's initialised size. `files` are
/// the volume's by number, each with all its attributes.
///
/// Without shadows nothing is looked for. Else it takes time and memory linear in the attributes,
/// and near-linear in the shadows and the runs, where the attributes of each stream stand one behind
/// the other, its runs stand in order and no cluster is owned twice. The error is want of memory.
pub fn least_live(
    alloc: Global,
    per: ClusterSize,
    files: &[Option<FileRec>],
    shadows: &[Shadow],
) -> Result<Option<u64>, Memory>
    ensures { IfOk result (λ least. least ≡ least_of (least_lsn shadows.now) (live_in per files.now)) }
{
    if shadows.is_empty() {
        return Ok(None);
    }
    least_said(alloc, per, files, shadows)
}
