//! Runs that are joined where they touch, and runs that go on behind others.
ghost use Rattle.std.specs.Prelude.{◌≡◌, ◌+◌, ◌<◌, ◌≤◌, ◌^◌, [], ◌∷◌, ◌++◌, map, IfOk, OnOk, OnErr};
ghost use Rattle.volume_model.specs.record_model.Pairs.{cluster_limit, HasSpelling};
ghost use Rattle.volume_model.specs.record_model.Runs.{IsSmall, AreSmall};
ghost use Rattle.volume_model.specs.state_model.Loads.{total_clusters};
ghost use Rattle.stream_runs.specs.Runs.{touches, in_front, merged, moved, grown};

use std::alloc::{AllocError, Global};
use volume_model::{Memory, Run, Runs};

/// How many clusters runs have, those of sparse ones among them; linear in the runs. They are at
/// most 2^32.
pub fn total_clusters(runs: &[Run]) -> u64
    requires { total_clusters runs.now ≤ cluster_limit }
    ensures { result ≡ total_clusters runs.now }
{
    let mut total = 0;
    for run in runs {
        total += run.len;
    }
    total
}

// Whether a run from `first` on, so long, ends where another one begins, or both are sparse.
fn touches(first: Option<u64>, len: u64, second: Option<u64>) -> bool
    requires { len ≤ cluster_limit }
    ensures { result ≡ touches first len second }
{
    match (first, second) {
        (None, None) => true,
        (Some(first), Some(second)) => first <= second && second - first == len,
        _ => false,
    }
}

// Runs joined where they touch.
fn joined(alloc: Global, runs: &[Run]) -> Result<Runs, Memory>
    requires few { total_clusters runs.now ≤ cluster_limit }
    requires small { AreSmall runs.now }
    ensures { IfOk result (λ new. new ≡ merged runs.now) }
{
    let mut new = Runs::new(alloc);
    let Some((first, rest)) = runs.split_first() else {
        return Ok(new);
    };
    let mut last = *first;
    for run in rest {
        if touches(last.lcn, last.len, run.lcn) {
            last.len += run.len;
        } else {
            new.push(last)?;
            last = *run;
        }
    }
    new.push(last)?;
    Ok(new)
}

/// Runs of at most 2^32 clusters, joined where they touch on the volume or both are sparse, so that
/// none is left that could be one with the next (Linux-NTFS documentation, "Data runs"). The error
/// is want of memory. It takes time and memory linear in the runs.
pub fn merged(alloc: Global, runs: &Runs) -> Result<Runs, Memory>
    requires { total_clusters runs.now ≤ cluster_limit }
    ensures { IfOk result (λ new. new ≡ merged runs.now) }
{
    joined(alloc, runs.as_slice())
}

// A run so many clusters further back in its stream.
fn moved(clusters: u64, run: &Run) -> Run
    requires { clusters + run.now.vcn < 2 ^ 64 }
    ensures { result ≡ moved clusters run.now }
{
    Run {
        vcn: clusters + run.vcn,
        lcn: run.lcn,
        len: run.len,
    }
}

// These runs behind others, so many clusters further back.
fn push_moved(all: &mut Vec<Run>, clusters: u64, more: &[Run]) -> Result<(), AllocError>
    requires clusters { clusters ≤ cluster_limit }
    requires spelled { HasSpelling 0 more.now }
    ensures { OnOk result (all.new.items ≡ all.old.items ++ map (moved clusters) more.now) }
{
    for run in more {
        all.push(moved(clusters, run))?;
    }
    Ok(())
}

/// The runs of a stream that takes more clusters behind its own, joined where they touch. The VCNs
/// of `more` count from the first new cluster; both follow one another from VCN 0 on, and have at
/// most 2^32 clusters together. The error is want of memory. It takes time and memory linear in the
/// runs.
#[tactic(auto, unfolding(crate::specs::Runs::grown))]
pub fn grown(alloc: Global, runs: &Runs, more: &[Run]) -> Result<Runs, Memory>
    requires spelled { HasSpelling 0 runs.now }
    requires more { HasSpelling 0 more.now }
    requires few { total_clusters runs.now + total_clusters more.now ≤ cluster_limit }
    ensures { IfOk result (λ new. new ≡ grown runs.now more.now) }
{
    let mut all = Vec::new(alloc);
    let old = runs.as_slice();
    all.extend_from_slice(old)?;
    push_moved(&mut all, total_clusters(old), more)?;
    joined(alloc, &all)
}
