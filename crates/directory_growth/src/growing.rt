//! A directory's index that gets more blocks.
ghost use Rattle.std.specs.Prelude.{◌≡◌, ◌+◌, ◌*◌, ◌<◌, ◌≤◌, ◌^◌, ℕ, Some, IfOk, length, not, count_by};
ghost use Rattle.disk_model.specs.Bytes.{zeros};
ghost use Rattle.index_model.specs.Trees.{Tree};
ghost use Rattle.record_model.specs.Constants.{index_root, index_allocation, names_index};
ghost use Rattle.record_model.specs.Pairs.{cluster_limit, HasSpelling};
ghost use Rattle.data_plan.specs.record_streams.Fitting.{FitsButRoom};
ghost use Rattle.data_plan.specs.record_values.Values.{valued_record};
ghost use Rattle.state_model.specs.declared.stream.Stream.TheVariants.{Placed};
ghost use Rattle.data_plan.specs.Changes.{LiesBelow};
ghost use Rattle.directory_growth.specs.Clusters.{counted_record};
ghost use Rattle.directory_growth.specs.Bitmap.{joined_answer};
ghost use Rattle.directory_growth.specs.Growing.{blocks_in, bits_in, root_bytes, bits_size, at_first, HasIndex, GrowsLittle, IsReadyIndex, IndexAfter};

use crate::bitmap::{CountedBits, bits_after};
use crate::change::IndexChange;
use crate::clusters::{lacking, longer};
use crate::counting::{counted, valued};
use data_plan::{DataFault, Resized};
use file_record::FileRec;
use host_base::Memory;
use plan_space::FreeBits;
use record_model::{BITMAP_TYPE, INDEX_ALLOCATION, INDEX_ROOT, NAMES_INDEX};
use state_model::{ClusterSize, Extents, Stream};
use std::alloc::Global;
use stream_map::stream_of;

// The bytes of the bitmap of blocks of this size: 8 for each 64 of them.
fn bits_size(size: u64) -> u64
    requires { size < 2 ^ 63 }
    ensures { result ≡ bits_size size }
{
    8 * ((size / 4096 + 63) / 64)
}

// How many bits are clear.
fn room_in<B: FreeBits>(bits: &B) -> u64
    ensures { result ≡ count_by not (B.bits bits.now) }
{
    bits.room()
}

// The size of the blocks with so many more.
fn size_with(blocks: &Extents, more: u64) -> u64
    requires real { blocks.now.real ≤ 2 ^ 30 }
    requires more { more ≤ 2 ^ 14 }
    ensures { result ≡ blocks.now.real + 4096 * more }
{
    blocks.real + 4096 * more
}

// The fault, with the clusters that were free at first where these are too few.
fn at_first(fault: DataFault, room: u64) -> DataFault
    ensures { result ≡ at_first room fault }
{
    match fault {
        DataFault::Full { used } => DataFault::Full { used },
        DataFault::Short { .. } => DataFault::Short { room },
        DataFault::Memory => DataFault::Memory,
    }
}

// What comes of the blocks and of their bitmap.
fn joined(
    blocks: Resized,
    bits: Result<CountedBits, DataFault>,
    room: u64,
) -> Result<IndexChange, DataFault>
    ensures { result ≡ joined_answer room blocks bits }
{
    match bits {
        Ok(x) => Ok(IndexChange {
            blocks,
            bits: x.bits,
            used: x.used,
        }),
        Err(fault) => Err(at_first(fault, room)),
    }
}

// The record as a step counts it with the root and the blocks.
fn beside(
    alloc: Global,
    per: ClusterSize,
    extents: &Extents,
    wanted: u64,
    file: &FileRec,
    root: u64,
) -> Result<FileRec, Memory>
    requires spelled { HasSpelling 0 extents.now.runs }
    requires few { length extents.now.runs ≤ 2 ^ 16 }
    requires root { root ≤ 2 ^ 16 }
    requires fits { FitsButRoom file.now }
    ensures value { IfOk result (λ r. r ≡ counted_record per index_allocation wanted extents.now (valued_record index_root names_index (zeros root) file.now)) }
    ensures fits { IfOk result FitsButRoom }
{
    let rooted = valued(alloc, INDEX_ROOT, root, file)?;
    counted(alloc, per, INDEX_ALLOCATION, extents, wanted, rooted)
}

// What comes of blocks and a bitmap that are there.
fn both_after<B: FreeBits>(
    alloc: Global,
    per: ClusterSize,
    bits: &mut B,
    blocks: &Extents,
    bitmap: &Stream,
    file: &FileRec,
    root: u64,
    more: u64,
) -> Result<IndexChange, DataFault>
    requires per { per ≡ 8 }
    requires clusters { length (B.bits bits.old) ≤ cluster_limit }
    requires has { HasIndex (length (B.bits bits.old)) file.now }
    requires little { GrowsLittle file.now root more }
    requires lies { LiesBelow (length (B.bits bits.old)) blocks.now }
    requires real { blocks.now.real ≤ 2 ^ 30 }
    requires more { more ≤ 2 ^ 14 }
    requires blocks { blocks_in file.now ≡ Some (Placed blocks.now) }
    requires bitmap { bits_in file.now ≡ Some bitmap.now }
    ensures after { (n : ℕ) (t : Tree) → root ≡ root_bytes t → IndexAfter (B.bits bits.old) (B.bits bits.new) n file.now t more result }
    ensures ready { IfOk result IsReadyIndex }
{
    let room = room_in(bits);
    let size = size_with(blocks, more);
    let wanted = lacking(blocks, size);
    let z = longer(
        alloc,
        per,
        bits,
        INDEX_ALLOCATION,
        blocks,
        file,
        size,
        wanted,
    )?;
    let with = beside(alloc, per, &z.extents, wanted, file, root)?;
    let least = bits_size(size);
    let answer = bits_after(alloc, per, bits, bitmap, &z.file, with, least);
    joined(z, answer, room)
}

// What comes of streams that are there.
#[tactic(auto, using(crate::proofs::Answering::no_memory))]
fn blocks_after<B: FreeBits>(
    alloc: Global,
    per: ClusterSize,
    bits: &mut B,
    blocks: &Stream,
    bitmap: &Stream,
    file: &FileRec,
    root: u64,
    more: u64,
) -> Result<IndexChange, DataFault>
    requires per { per ≡ 8 }
    requires clusters { length (B.bits bits.old) ≤ cluster_limit }
    requires has { HasIndex (length (B.bits bits.old)) file.now }
    requires little { GrowsLittle file.now root more }
    requires blocks { blocks_in file.now ≡ Some blocks.now }
    requires bitmap { bits_in file.now ≡ Some bitmap.now }
    ensures after { (n : ℕ) (t : Tree) → root ≡ root_bytes t → IndexAfter (B.bits bits.old) (B.bits bits.new) n file.now t more result }
    ensures ready { IfOk result IsReadyIndex }
{
    match blocks {
        Stream::Placed(extents) => {
            both_after(alloc, per, bits, extents, bitmap, file, root, more)
        }
        Stream::Held(_) => unreachable!(),
    }
}

// What comes of these streams of the index.
#[tactic(auto, using(crate::proofs::Answering::no_memory))]
fn streams_after<B: FreeBits>(
    alloc: Global,
    per: ClusterSize,
    bits: &mut B,
    blocks: &Option<Stream>,
    bitmap: &Option<Stream>,
    file: &FileRec,
    root: u64,
    more: u64,
) -> Result<IndexChange, DataFault>
    requires per { per ≡ 8 }
    requires clusters { length (B.bits bits.old) ≤ cluster_limit }
    requires has { HasIndex (length (B.bits bits.old)) file.now }
    requires little { GrowsLittle file.now root more }
    requires blocks { blocks_in file.now ≡ blocks.now }
    requires bitmap { bits_in file.now ≡ bitmap.now }
    ensures after { (n : ℕ) (t : Tree) → root ≡ root_bytes t → IndexAfter (B.bits bits.old) (B.bits bits.new) n file.now t more result }
    ensures ready { IfOk result IsReadyIndex }
{
    match bitmap {
        Some(bitmap) => match blocks {
            Some(blocks) => blocks_after(alloc, per, bits, blocks, bitmap, file, root, more),
            None => unreachable!(),
        },
        None => unreachable!(),
    }
}

/// What comes of a directory's index that gets so many blocks more (Linux-NTFS documentation,
/// "$INDEX_ALLOCATION", "$BITMAP", "Attribute Header"), as a step counts it: its blocks take the
/// clusters that they lack behind their own, and their sizes rise by 4,096 bytes for each, all of it
/// initialised; their bitmap, of the name `$I30` too, has 8 bytes for each 64 blocks, or as many as
/// it had, with zeros behind its bytes. As a value it stays in the record as long as that has at most
/// 1,024 bytes with the root that the index comes to have, a value of `root` bytes; else it leaves,
/// and takes its clusters behind the blocks. The record is made with them, and has the root of
/// before; nothing is put. The volume has 8 sectors a cluster, and `bits` are those of its clusters.
/// A draft can put what is made.
///
/// - [`DataFault::Short`]: fewer bits are clear than both streams want, so many. The runs of the
///   blocks are taken, or none.
/// - [`DataFault::Full`]: the record would use so many bytes, which are above 1,024. All runs that
///   the streams would take are taken.
/// - [`DataFault::Memory`]: the first of these runs are taken, none of them or all.
///
/// It takes two [`grow`](resized_streams::grow)s, and time and memory linear in the record and the
/// streams' runs.
pub fn index_after<B: FreeBits>(
    alloc: Global,
    per: ClusterSize,
    bits: &mut B,
    file: &FileRec,
    root: u64,
    more: u64,
) -> Result<IndexChange, DataFault>
    requires per { per ≡ 8 }
    requires clusters { length (B.bits bits.old) ≤ cluster_limit }
    requires has { HasIndex (length (B.bits bits.old)) file.now }
    requires little { GrowsLittle file.now root more }
    ensures after { (n : ℕ) (t : Tree) → root ≡ root_bytes t → IndexAfter (B.bits bits.old) (B.bits bits.new) n file.now t more result }
    ensures ready { IfOk result IsReadyIndex }
{
    let attrs = file.attrs().as_slice();
    let blocks = stream_of(alloc, INDEX_ALLOCATION, &NAMES_INDEX, attrs)?;
    let bitmap = stream_of(alloc, BITMAP_TYPE, &NAMES_INDEX, attrs)?;
    streams_after(alloc, per, bits, &blocks, &bitmap, file, root, more)
}
