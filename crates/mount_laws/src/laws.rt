ghost use Rattle.mount_laws.specs.Firsts.{EntriesRise, LeastIsFirst};
ghost use Rattle.mount_laws.specs.Laws.{MountedByRecord, MountedOnRing, MountedPasses};

/// Law: each page of the log of a mounted volume lies in one cluster of the volume and is initialised,
/// and no two places of the log lie in one sector: so a session may write it as it lies.
pub fn mounted_on_ring()
    ensures { MountedOnRing }
{}

/// Law: a mounted volume is a state, in clusters of eight sectors, and its log lies where its record 2
/// says by itself.
pub fn mounted_by_record()
    ensures { MountedByRecord }
{}

/// Law: a mounted volume passes the tests of a volume that is to be changed: among them that no stream
/// but the data of `$Boot` has its first cluster, and that this cluster is marked.
pub fn mounted_passes()
    ensures { MountedPasses }
{}

/// Law: the entries of a log that isn't refused stand by rising LSNs.
pub fn entries_rise()
    ensures { EntriesRise }
{}

/// Law: so where such a log shadows a live block, the least LSN that is said of one, with which a mount
/// refuses it, is that of the first entry that does.
pub fn least_is_first()
    ensures { LeastIsFirst }
{}
