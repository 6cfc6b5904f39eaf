//! Streams in clusters.
ghost use Rattle.std.specs.Prelude.{◌≡◌, ◌↔◌, ◌<◌, ◌≤◌, true, IfSome};
ghost use Rattle.record_model.specs.Pairs.{HasSpelling};
ghost use Rattle.state_model.specs.Loads.{total_clusters};
ghost use Rattle.stream_runs.specs.Runs.{last_cluster};
ghost use Rattle.tree_model.specs.Needs.{clusters_for};
ghost use Rattle.written_made.specs.data_plan.Changes.{LiesBelow};

use planned_streams::have_spelling;
use record_model::Runs;
use state_model::Extents;
use stream_runs::last_cluster;
use tree_model::clusters_for;

// The most runs of a file's data.
const MOST_RUNS: usize = 32_768;

/// The clusters of runs that have a spelling.
pub fn total_clusters(runs: &Runs) -> u64
    requires { HasSpelling 0 runs.now }
    ensures { result ≡ total_clusters runs.now }
{
    stream_runs::total_clusters(runs.as_slice())
}

// Whether the last cluster is below this number; a sparse one is.
fn ends_below(clusters: u64, runs: &Runs) -> bool
    ensures { (result ≡ true) ↔ IfSome (last_cluster runs.now) (λ at. at < clusters) }
{
    match last_cluster(runs) {
        Some(at) => at < clusters,
        None => true,
    }
}

/// Whether data stands in clusters below so many that have room for its size, in not too many runs.
pub fn lies_below(clusters: u64, extents: &Extents) -> bool
    ensures { (result ≡ true) ↔ LiesBelow clusters extents.now }
{
    if extents.runs.len() > MOST_RUNS || !have_spelling(&extents.runs) {
        return false;
    }
    ends_below(clusters, &extents.runs)
        && clusters_for(extents.real) <= total_clusters(&extents.runs)
}
