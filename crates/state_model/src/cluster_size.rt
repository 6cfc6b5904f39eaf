ghost use Rattle.std.specs.Prelude.{◌≡◌, ◌<◌, ◌≤◌, IsSome};
ghost use Rattle.state_model.specs.Clusters.{IsClusterSize, cluster_size};

use std::marker::Model;

/// The sectors of a volume's cluster: 1, 2, 4 or 8 (Linux-NTFS documentation, "$Boot"). Contracts
/// see it as their number.
#[derive(Clone, Copy, Debug, PartialEq, Eq)]
pub struct ClusterSize {
    sectors: u64,
}

impl Model for ClusterSize {
    ghost use Rattle.std.specs.Prelude.{ℕ};
    ghost use Rattle.state_model.specs.Clusters.{IsClusterSize};

    ghost Value = { ℕ };

    ghost view = { λ s. s.sectors };

    ghost invariant = { λ s. IsClusterSize s.sectors };

    ghost inverse = { λ n. record { sectors = n } };
}

impl ClusterSize {
    /// The size of a cluster of so many sectors; there is none but of 1, 2, 4 and 8. In constant
    /// time.
    pub fn new(sectors: u64) -> Option<ClusterSize>
        ensures value { result ≡ cluster_size sectors }
        ensures size { IsClusterSize sectors → IsSome result }
    {
        if sectors == 1 || sectors == 2 || sectors == 4 || sectors == 8 {
            return Some(ClusterSize { sectors });
        }
        None
    }

    /// The sectors of a cluster: 1, 2, 4 or 8. In constant time.
    pub fn sectors(self) -> u64
        ensures value { result ≡ self }
        ensures size { IsClusterSize self }
        ensures some { 0 < result }
        ensures few { result ≤ 8 }
    {
        self.sectors
    }
}
