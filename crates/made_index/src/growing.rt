//! A directory's index that gets more blocks, whether it has some or none.
ghost use Rattle.std.specs.Prelude.{◌≡◌, ◌≤◌, ℕ, IfOk, length};
ghost use Rattle.index_model.specs.Trees.{Tree};
ghost use Rattle.record_model.specs.Pairs.{cluster_limit};
ghost use Rattle.directory_growth.specs.Growing.{root_bytes, GrowsLittle, IsReadyIndex};
ghost use Rattle.made_index.specs.Growing.{HasRoot, MayGrow, AnyIndexAfter};

use crate::making::{has_blocks, make_index};
use directory_growth::{DataFault, FreeBits, IndexChange, index_after};
use file_record::FileRec;
use state_model::ClusterSize;
use std::alloc::Global;

// What comes of an index that has its root alone.
fn first_blocks<B: FreeBits>(
    alloc: Global,
    per: ClusterSize,
    bits: &mut B,
    file: &FileRec,
    root: u64,
    more: u64,
) -> Result<IndexChange, DataFault>
    requires per { per ≡ 8 }
    requires clusters { length (B.bits bits.old) ≤ cluster_limit }
    requires has { HasRoot file.now }
    requires little { GrowsLittle file.now root more }
    ensures after { (n : ℕ) (t : Tree) → root ≡ root_bytes t → AnyIndexAfter (B.bits bits.old) (B.bits bits.new) n file.now t more result }
    ensures ready { IfOk result IsReadyIndex }
{
    let made = make_index(alloc, file)?;
    index_after(alloc, per, bits, &made, root, more)
}

/// What comes of a directory's index that gets so many blocks more (Linux-NTFS documentation,
/// "$INDEX_ALLOCATION", "$BITMAP", "Attribute Header"), as [`index_after`] says it, also where all its
/// names stand in its root: the record then gets blocks and a bitmap first, as
/// [`make_index`](crate::make_index) makes them, and all that a step counts is counted for the
/// directory's record as it is. The index has both streams or neither. The volume has 8 sectors a
/// cluster, and `bits` are those of its clusters. A draft can put what is made.
///
/// - [`DataFault::Short`]: fewer bits are clear than both streams want, so many. The runs of the
///   blocks are taken, or none.
/// - [`DataFault::Full`]: the record would use so many bytes, which are above 1,024. All runs that
///   the streams would take are taken.
/// - [`DataFault::Memory`]: the first of these runs are taken, none of them or all.
///
/// It takes what [`index_after`] takes, and the time of [`make_index`](crate::make_index).
pub fn index_after_any<B: FreeBits>(
    alloc: Global,
    per: ClusterSize,
    bits: &mut B,
    file: &FileRec,
    root: u64,
    more: u64,
) -> Result<IndexChange, DataFault>
    requires per { per ≡ 8 }
    requires clusters { length (B.bits bits.old) ≤ cluster_limit }
    requires has { MayGrow (length (B.bits bits.old)) file.now }
    requires little { GrowsLittle file.now root more }
    ensures after { (n : ℕ) (t : Tree) → root ≡ root_bytes t → AnyIndexAfter (B.bits bits.old) (B.bits bits.new) n file.now t more result }
    ensures ready { IfOk result IsReadyIndex }
{
    if has_blocks(file) {
        return index_after(alloc, per, bits, file, root, more);
    }
    first_blocks(alloc, per, bits, file, root, more)
}
