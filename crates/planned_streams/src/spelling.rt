//! Runs that follow one another.
ghost use Rattle.std.specs.Prelude.{◌≡◌, ◌↔◌, ◌<◌, ◌≤◌, true, IfSome};
ghost use Rattle.record_model.specs.Pairs.{cluster_limit, HasSpelling, IsNext};

use record_model::{Run, Runs};

// A volume has at most so many clusters.
pub const CLUSTER_LIMIT: u64 = 0x1_0000_0000;

// Whether a first cluster lies in some volume; a sparse run has none.
fn is_low(lcn: Option<u64>) -> bool
    ensures { (result ≡ true) ↔ IfSome lcn (λ lcn. lcn < cluster_limit) }
{
    match lcn {
        Some(lcn) => lcn < CLUSTER_LIMIT,
        None => true,
    }
}

// Whether a run stands behind so many clusters of its stream.
fn is_next(clusters: u64, run: &Run) -> bool
    requires few { clusters ≤ cluster_limit }
    ensures { (result ≡ true) ↔ IsNext 0 clusters run.now }
{
    if run.vcn != clusters || run.len == 0 || run.len > CLUSTER_LIMIT - clusters {
        return false;
    }
    is_low(run.lcn)
}

fn follow(runs: &[Run]) -> bool
    ensures { (result ≡ true) ↔ HasSpelling 0 runs.now }
{
    let mut clusters = 0;
    for run in runs {
        if !is_next(clusters, run) {
            return false;
        }
        clusters += run.len;
    }
    true
}

/// Whether runs have a spelling as mapping pairs from the first VCN 0 on (Linux-NTFS documentation,
/// "Data runs"): they follow one another, each has a cluster, together they have at most 2^32, and
/// each lies below cluster 2^32 or is sparse. It takes time linear in the runs.
pub fn have_spelling(runs: &Runs) -> bool
    ensures { (result ≡ true) ↔ HasSpelling 0 runs.now }
{
    follow(runs.as_slice())
}
