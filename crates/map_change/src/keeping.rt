//! The records that keep their places in a file table, and those that are read anew.
ghost use Rattle.std.specs.Prelude.{◌≡◌, ◌≤◌, ℕ, ◌-◌, ◌*◌, ◌<◌, nat_le, ◌++◌, ◌∷◌, true, take, length, IfOk, OnOk};
ghost use Rattle.std.specs.List.{range_with_len};
ghost use Rattle.map_change.specs.Touching.{AgreeBelow, NoneBelow, KeepsPlaces, changed_numbers};

use crate::numbers::touched_numbers;
use disk_model::{BlockKind, Change};
use std::alloc::{AllocError, Global};
use volume_map::{ClusterSize, Extents, Run};

// The most records that a file table has, and the most clusters that these lie in.
const MOST_RECORDS: u64 = 1_048_576;

const MOST_CLUSTERS: u64 = 2_097_152;

// The least VCN at which one of the runs begins.
#[tactic(auto, using(crate::proofs::Places::none_yet, crate::proofs::Places::none_more))]
fn first_vcn(runs: &[Run]) -> u64
    ensures { NoneBelow runs.now result }
{
    let mut least = u64::MAX;
    for run in runs {
        least = least.min(run.vcn);
    }
    least
}

// Whether the runs begin at the same cluster of their streams, and there of the volume.
fn begin_alike(old: &Run, new: &Run) -> bool
    ensures vcn { result ≡ true → old.now.vcn ≡ new.now.vcn }
    ensures lcn { result ≡ true → old.now.lcn ≡ new.now.lcn }
{
    old.vcn == new.vcn && old.lcn == new.lcn
}

// Below how many VCNs runs agree of which the first ones begin alike: up to where one of these
// ends, or another one begins.
#[tactic(auto, using(crate::proofs::Places::alike))]
fn alike_below(first: &Run, old: &[Run], other: &Run, new: &[Run]) -> u64
    requires vcn { first.now.vcn ≡ other.now.vcn }
    requires lcn { first.now.lcn ≡ other.now.lcn }
    ensures { AgreeBelow (first.now ∷ old.now) (other.now ∷ new.now) result }
{
    let end = first.vcn.saturating_add(first.len.min(other.len));
    end.min(first_vcn(old)).min(first_vcn(new))
}

// The same of runs that begin where others have differed.
#[tactic(auto, using(crate::proofs::Places::both_none))]
fn parted_below(old: &[Run], new: &[Run]) -> u64
    ensures { AgreeBelow old.now new.now result }
{
    if let ([first, old @ ..], [other, new @ ..]) = (old, new) {
        if begin_alike(first, other) {
            return alike_below(first, old, other, new);
        }
    }
    first_vcn(old).min(first_vcn(new))
}

/// How many first runs are the same in both lists.
#[tactic(auto, using(crate::proofs::Places::same_front))]
pub fn shared_runs(old: &[Run], new: &[Run]) -> usize
    ensures front { take result new.now ≡ take result old.now }
    ensures old { result ≤ length old.now }
    ensures new { result ≤ length new.now }
{
    let mut at = 0;
    while at < old.len() && at < new.len() && old[at] == new[at] {
        at += 1;
    }
    at
}

// Below how many VCNs the runs put what is in one run at the same clusters. Linear in the runs.
#[tactic(auto, using(crate::proofs::Places::behind_front))]
fn agree_below(old: &[Run], new: &[Run]) -> u64
    ensures { AgreeBelow old.now new.now result }
{
    let at = shared_runs(old, new);
    parted_below(old.split_at(at).1, new.split_at(at).1)
}

// Below which number records begin below both initialised sizes, or below neither.
#[tactic(auto, using(crate::proofs::Places::both_begun))]
fn begun_below(old: &Extents, new: &Extents) -> u64
    ensures { (m : ℕ) → m < result → nat_le new.now.initialised (1024 * m) ≡ nat_le old.now.initialised (1024 * m) }
{
    if old.initialised == new.initialised {
        MOST_RECORDS
    } else {
        old.initialised.min(new.initialised) / 1024
    }
}

/// How many records, from the first on, keep their places where the extents of a file table change.
/// It takes time linear in the runs.
#[tactic(auto, using(crate::proofs::Places::keeps_places))]
pub fn kept_records(per: ClusterSize, old: &Extents, new: &Extents) -> u64
    ensures some { 0 < per }
    ensures places { KeepsPlaces per old.now new.now result }
{
    let count = (old.real / 1024).min(new.real / 1024);
    let clusters = agree_below(old.runs.as_slice(), new.runs.as_slice()).min(MOST_CLUSTERS);
    let placed = clusters * per.sectors() / 2;
    count.min(placed).min(begun_below(old, new))
}

// Appends the numbers from one on, below another.
fn push_range(numbers: &mut Vec<u64>, from: u64, end: u64) -> Result<(), AllocError>
    ensures { OnOk result (numbers.new.items ≡ numbers.old.items ++ range_with_len from (end - from)) }
{
    for number in from..end {
        numbers.push(number)?;
    }
    Ok(())
}

/// The numbers of the records that are read anew: of those that keep their places each that changes
/// may be of, and all behind them. It takes time linear in the changes, for each of them in the
/// runs, and in the records behind those that keep their places.
pub fn changed_numbers(
    alloc: Global,
    per: ClusterSize,
    old: &Extents,
    new: &Extents,
    kept: u64,
    changes: &[Change],
) -> Result<Vec<u64>, AllocError>
    ensures { IfOk result (λ numbers. numbers.items ≡ changed_numbers per old.now new.now kept changes.now) }
{
    let runs = old.runs.as_slice();
    let mut numbers = touched_numbers(alloc, BlockKind::FileRec, per, kept, runs, changes)?;
    push_range(&mut numbers, kept, new.real / 1024)?;
    Ok(numbers)
}
