//! Runs of which the first clusters are kept and the others given back.
ghost use Rattle.std.specs.Prelude.{◌≡◌, ◌+◌, ◌<◌, ◌≤◌, ◌^◌, ◌∷◌, [], ◌++◌, IfOk, OnOk, All};
ghost use Rattle.volume_model.specs.record_model.Runs.{IsSmall, AreSmall};
ghost use Rattle.volume_model.specs.record_model.Pairs.{cluster_limit, HasSpelling};
ghost use Rattle.stream_runs.specs.Runs.{front, behind, back, last_cluster, IsNear};

use std::alloc::{AllocError, Global};
use volume_model::{Memory, Run, Runs};

// The first so many clusters of runs, or all of them.
fn front_of(alloc: Global, clusters: u64, runs: &[Run]) -> Result<Runs, Memory>
    requires small { AreSmall runs.now }
    ensures { IfOk result (λ new. new ≡ front clusters runs.now) }
{
    let mut new = Runs::new(alloc);
    let mut left = clusters;
    for run in runs {
        if run.len > left {
            if left > 0 {
                new.push(Run {
                    vcn: run.vcn,
                    lcn: run.lcn,
                    len: left,
                })?;
            }
            return Ok(new);
        }
        new.push(*run)?;
        left -= run.len;
    }
    Ok(new)
}

/// The first so many clusters of runs (Linux-NTFS documentation, "Data runs"), or all of them where
/// they are fewer. The error is want of memory. It takes time and memory linear in the runs.
pub fn front(alloc: Global, clusters: u64, runs: &Runs) -> Result<Runs, Memory>
    ensures { IfOk result (λ new. new ≡ front clusters runs.now) }
{
    front_of(alloc, clusters, runs.as_slice())
}

// What a run has behind its first so many clusters.
fn behind(clusters: u64, run: &Run) -> Run
    requires vcn { run.now.vcn + clusters < 2 ^ 64 }
    requires few { clusters ≤ run.now.len }
    requires small { IsSmall run.now }
    ensures run { result ≡ behind clusters run.now }
    ensures near { IsNear result }
{
    Run {
        vcn: run.vcn + clusters,
        lcn: match run.lcn {
            Some(lcn) => Some(lcn + clusters),
            None => None,
        },
        len: run.len - clusters,
    }
}

// What runs have behind their first so many clusters.
#[tactic(auto, unfolding(crate::specs::Runs::back))]
fn back_of(alloc: Global, clusters: u64, runs: &[Run]) -> Result<Vec<Run>, AllocError>
    requires small { AreSmall runs.now }
    requires spelled { HasSpelling 0 runs.now }
    ensures runs { IfOk result (λ new. new.items ≡ back clusters runs.now) }
    ensures near { IfOk result (λ new. All IsNear new.items) }
{
    let mut rest = Vec::new(alloc);
    let mut left = clusters;
    for (i, run) in runs.iter().enumerate() {
        if run.len > left {
            rest.push(behind(left, run))?;
            rest.extend_from_slice(&runs[i + 1..])?;
            return Ok(rest);
        }
        left -= run.len;
    }
    Ok(rest)
}

/// What runs have behind their first so many clusters, none where they have no more. The runs
/// follow one another from VCN 0 on. The error is want of memory. It takes time and memory linear
/// in the runs.
pub fn back(alloc: Global, clusters: u64, runs: &Runs) -> Result<Vec<Run>, AllocError>
    requires { HasSpelling 0 runs.now }
    ensures runs { IfOk result (λ new. new.items ≡ back clusters runs.now) }
    ensures near { IfOk result (λ new. All IsNear new.items) }
{
    back_of(alloc, clusters, runs.as_slice())
}

// The last cluster of runs, if they have one and that isn't sparse.
fn last_of(runs: &[Run]) -> Option<u64>
    requires { AreSmall runs.now }
    ensures { result ≡ last_cluster runs.now }
{
    let run = runs.last()?;
    let lcn = run.lcn?;
    Some((lcn + run.len).saturating_sub(1))
}

/// The last cluster of a stream with these runs, if it has one and that isn't sparse; in constant
/// time.
pub fn last_cluster(runs: &Runs) -> Option<u64>
    ensures { result ≡ last_cluster runs.now }
{
    last_of(runs.as_slice())
}
