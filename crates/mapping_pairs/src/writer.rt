ghost use Rattle.std.specs.Prelude.{◌≡◌, ◌+◌, ◌++◌, ◌∷◌, [], ◌<◌, ◌≤◌, ◌^◌, pos, ◌-ℤ◌, OnOk, IfOk, IfSome, IsTrue, length};
ghost use Rattle.record_model.specs.Pairs.{pairs_of, pair_of, signed_bytes, signed_width, fits_bytes, delta_bytes, cluster_limit, HasSpelling, first_vcn};

use byteorder::{ByteOrder, LittleEndian};
use record_model::{Memory, Run, Runs};
use std::alloc::{AllocError, Global};

/// Writes runs as mapping pairs (Linux-NTFS documentation, "Data runs") in the fewest bytes, with
/// the zero that ends them. The runs have a spelling: each has at least one cluster and lies below
/// cluster 2^32 or is sparse, they follow one another, and have at most 2^32 clusters in all. The
/// error is want of memory. The time is linear in the runs.
pub fn write(alloc: Global, runs: &Runs) -> Result<Vec<u8>, Memory>
    requires spelling { HasSpelling (first_vcn runs.now) runs.now }
    ensures value { IfOk result (λ bytes. bytes.items ≡ pairs_of runs.now) }
{
    let mut pairs = Vec::new(alloc);
    let mut before = 0;
    let mut rest = runs.as_slice();
    while let Some((run, after)) = rest.split_first() {
        push_pair(&mut pairs, before, run)?;
        before = run.lcn.unwrap_or(before);
        rest = after;
    }
    push_end(&mut pairs)?;
    Ok(pairs)
}

/// Appends the zero that ends mapping pairs.
fn push_end(out: &mut Vec<u8>) -> Result<(), AllocError>
    ensures { OnOk result (out.new.items ≡ out.old.items ++ 0 ∷ []) }
{
    out.push(0)?;
    Ok(())
}

/// Whether so many bytes, fewer than eight, hold this signed number.
fn fits_bytes(bytes: usize, value: i64) -> bool
    requires some { 0 < bytes }
    requires few { bytes < 8 }
    ensures { result ≡ fits_bytes bytes value }
{
    let limit = 1u64 << (8 * bytes - 1);
    if value < 0 {
        value.unsigned_abs() <= limit
    } else {
        value.unsigned_abs() < limit
    }
}

/// The fewest bytes that hold this signed number.
#[tactic(auto, unfolding(record_model::specs::Pairs::signed_width))]
fn signed_width(value: i64) -> usize
    ensures value { result ≡ signed_width value }
    ensures some { 0 < result }
    ensures most { result ≤ 8 }
{
    for bytes in 1..8 {
        if fits_bytes(bytes, value) {
            return bytes;
        }
    }
    8
}

/// Appends a signed number in the fewest bytes.
fn push_signed(out: &mut Vec<u8>, value: i64) -> Result<(), AllocError>
    ensures { OnOk result (out.new.items ≡ out.old.items ++ signed_bytes value) }
{
    let width = signed_width(value);
    let mut bytes = [0; 8];
    LittleEndian::write_int(&mut bytes, value, width);
    out.extend_from_slice(bytes.split_at(width).0)?;
    Ok(())
}

/// An LCN as a delta from the LCN before.
fn delta(before: u64, lcn: u64) -> i64
    requires before { before < cluster_limit }
    requires lcn { lcn < cluster_limit }
    ensures { result ≡ pos lcn -ℤ pos before }
{
    lcn as i64 - before as i64
}

/// How many bytes the delta of an LCN takes, none of a sparse run.
#[tactic(auto, using(record_model::proofs::PairsSigned::signed_lengths))]
fn delta_width(before: u64, lcn: Option<u64>) -> usize
    requires before { before < cluster_limit }
    requires lcn { IfSome lcn (λ lcn. lcn < cluster_limit) }
    ensures value { result ≡ length (delta_bytes before lcn) }
    ensures most { result ≤ 8 }
{
    match lcn {
        None => 0,
        Some(lcn) => signed_width(delta(before, lcn)),
    }
}

/// Appends the delta of an LCN, nothing for a sparse run.
fn push_delta(out: &mut Vec<u8>, before: u64, lcn: Option<u64>) -> Result<(), AllocError>
    requires before { before < cluster_limit }
    requires lcn { IfSome lcn (λ lcn. lcn < cluster_limit) }
    ensures { OnOk result (out.new.items ≡ out.old.items ++ delta_bytes before lcn) }
{
    match lcn {
        None => Ok(()),
        Some(lcn) => push_signed(out, delta(before, lcn)),
    }
}

/// Appends the pair of a run, behind this LCN.
fn push_pair(out: &mut Vec<u8>, before: u64, run: &Run) -> Result<(), AllocError>
    requires before { before < cluster_limit }
    requires len { run.now.len ≤ cluster_limit }
    requires lcn { IfSome run.now.lcn (λ lcn. lcn < cluster_limit) }
    ensures { OnOk result (out.new.items ≡ out.old.items ++ pair_of before run.now) }
{
    let len = run.len as i64;
    let header = signed_width(len) + 16 * delta_width(before, run.lcn);
    out.push(header as u8)?;
    push_signed(out, len)?;
    push_delta(out, before, run.lcn)?;
    Ok(())
}
