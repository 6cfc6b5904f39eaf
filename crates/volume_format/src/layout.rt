ghost use Rattle.std.specs.Prelude.{◌≡◌, ◌<◌, ◌^◌};
ghost use Rattle.volume_format.specs.Layouts.{IsLayout, cluster_bits_first, block_first, used_clusters, cluster_bits_bytes, layout_of, clusters_of, log_pages_of, bitmap_clusters_of, room};

/// The numbers on which all of a new volume depends.
#[derive(Clone, Copy, Debug, PartialEq, Eq)]
pub struct Layout {
    /// The volume's sectors.
    pub sectors: u64,
    /// Its clusters, of eight sectors each.
    pub clusters: u64,
    /// The pages of the log, each a cluster.
    pub log_pages: u64,
    /// The clusters of the bitmap of the clusters.
    pub bitmap_clusters: u64,
}

/// The clusters of a volume on a device of so many sectors, the last of which isn't the volume's.
pub fn clusters_of(device: u64) -> u64
    ensures { result ≡ clusters_of device }
{
    device.saturating_sub(1) / 8
}

// The pages of the log of so many clusters.
fn log_pages_of(clusters: u64) -> u64
    requires { clusters < 2 ^ 62 }
    ensures { result ≡ log_pages_of clusters }
{
    512 + ((clusters + 4095) / 4096 + 2) / 3
}

/// The layout of a volume on a device of so many sectors.
#[tactic(auto, unfolding(crate::specs::Layouts::layout_of))]
pub fn layout_of(device: u64) -> Layout
    ensures { result ≡ layout_of device }
{
    let clusters = clusters_of(device);
    Layout {
        sectors: device.saturating_sub(1),
        clusters,
        log_pages: log_pages_of(clusters),
        bitmap_clusters: (clusters + 32_767) / 32_768,
    }
}

impl Layout {
    /// The first cluster of the bitmap of the clusters.
    pub fn cluster_bits_first(self) -> u64
        requires { IsLayout self }
        ensures { result ≡ cluster_bits_first self }
    {
        52 + self.log_pages
    }

    /// The cluster of the root's index block.
    pub fn block_first(self) -> u64
        requires { IsLayout self }
        ensures { result ≡ block_first self }
    {
        52 + self.log_pages + self.bitmap_clusters
    }

    /// How many clusters are used, from the first one on.
    pub fn used_clusters(self) -> u64
        requires { IsLayout self }
        ensures { result ≡ used_clusters self }
    {
        53 + self.log_pages + self.bitmap_clusters
    }

    /// How many clusters are free.
    pub fn room(self) -> u64
        requires { IsLayout self }
        ensures { result ≡ room self }
    {
        self.clusters - self.used_clusters()
    }

    /// The bytes of the bitmap of the clusters.
    pub fn cluster_bits_bytes(self) -> u64
        requires { IsLayout self }
        ensures { result ≡ cluster_bits_bytes self }
    {
        8 * (((self.clusters + 7) / 8 + 7) / 8)
    }
}
