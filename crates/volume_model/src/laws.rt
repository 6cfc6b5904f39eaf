ghost use Rattle.volume_model.specs.Laws.{JoinedInAnyOrder, LoadedFiles};

/// A law: the files of a volume are those that a scan loads, and both are refused alike.
pub fn loaded_files()
    ensures { LoadedFiles }
{}

/// A law: whether the attributes of a stream are joined, and which stream they then are, is the
/// same for the attributes of a file in any order.
pub fn joined_in_any_order()
    ensures { JoinedInAnyOrder }
{}
