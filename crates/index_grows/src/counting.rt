//! What a step counts of an index that gets blocks.
ghost use Rattle.std.specs.Prelude.{◌≡◌, ◌≤◌, true, IfErr, IfOk, length};
ghost use Rattle.record_model.specs.Pairs.{cluster_limit};
ghost use Rattle.record_model.specs.Records.{Record};
ghost use Rattle.directory_growth.specs.declared.change.BitsChange.TheVariants.{Stays};
ghost use Rattle.directory_growth.specs.Growing.{GrowsLittle};
ghost use Rattle.made_index.specs.Growing.{MayGrow};
ghost use Rattle.index_grows.specs.Counted.{CountsOf, IsTooFull, OnDataFull};

use draft_indexes::FreeBits;
use file_puts::FileRec;
use made_index::{BitsChange, DataFault, index_after_any};
use state_model::ClusterSize;
use std::alloc::Global;

// Whether the bitmap stays in its record.
fn stays(bits: &BitsChange) -> bool
    ensures { result ≡ true → (file : Record) × (bits.now ≡ Stays file) }
{
    match bits {
        BitsChange::Stays(_) => true,
        BitsChange::Leaves(_) => false,
        BitsChange::Placed(_) => false,
    }
}

/// Counts what comes of a directory's index, which takes its clusters among the bits: whether the
/// bitmap stays in the record, which has room.
pub fn count<B: FreeBits>(
    alloc: Global,
    per: ClusterSize,
    bits: &mut B,
    file: &FileRec,
    root: u64,
    more: u64,
) -> Result<bool, DataFault>
    requires per { per ≡ 8 }
    requires clusters { length (B.bits bits.old) ≤ cluster_limit }
    requires may { MayGrow (length (B.bits bits.old)) file.now }
    requires little { GrowsLittle file.now root more }
    ensures counts { IfOk result (λ stays. stays ≡ true → CountsOf (B.bits bits.old) file.now root more) }
    ensures full { IfErr result (OnDataFull (IsTooFull (B.bits bits.old) file.now root more)) }
{
    let change = index_after_any(alloc, per, bits, file, root, more)?;
    Ok(stays(&change.bits))
}
