//! The laws of these definitions.
ghost use Rattle.grown_indexes.specs.Counted.{CountsGrowths};
ghost use Rattle.grown_indexes.specs.First.{IndexGrowsFirst};
ghost use Rattle.grown_indexes.specs.Next.{IndexGrowsNext};
ghost use Rattle.grown_indexes.specs.Put.{PutGrowsFirst, PutGrowsNext};
ghost use Rattle.grown_indexes.specs.Raised.{IndexRaisesNext, PutRaises};
ghost use Rattle.grown_indexes.specs.Steps.{CountsAmongAll, PutsAmong, PutsAsCounted};

/// Law: where a draft that touched nothing before has let the index of a directory take the clusters
/// that are chosen for it, with its bitmap as a value in the record, the index has grown as it may
/// before a file is made in the directory.
pub fn index_grows_first()
    ensures { IndexGrowsFirst }
{}

/// Law: so they have where the index takes its clusters behind a file table that has grown in the
/// same draft.
pub fn index_grows_next()
    ensures { IndexGrowsNext }
{}

/// Law: so they have where the root of the index is another one then, if it lists what it listed.
pub fn index_raises_next()
    ensures { IndexRaisesNext }
{}

/// Law: so has an index of whole blocks that a draft's call has let grow with a level more, in a draft
/// that touched nothing before or behind a file table that has grown; and it has that level.
pub fn put_raises()
    ensures { PutRaises }
{}

/// Law: where the bitmap of an index's blocks stands in the record, and as many clusters are clear as
/// a step wants for the blocks, the clusters that a step counts are those by which they grow.
pub fn counts_growths()
    ensures { CountsGrowths }
{}

/// Law: so has an index of whole blocks that a draft's call has let grow, in a draft that touched
/// nothing before and knew the clear clusters.
pub fn put_grows_first()
    ensures { PutGrowsFirst }
{}

/// Law: so they have where that call came behind the one that let the file table grow.
pub fn put_grows_next()
    ensures { PutGrowsNext }
{}

/// Law: where the bitmap of the blocks stands in the record, that call takes the runs that a step
/// counts among the same clear clusters.
pub fn puts_among()
    ensures { PutsAmong }
{}

/// Law: where some number is spare and the bitmap of the blocks stands in the record, that call takes
/// the runs that a step counts.
pub fn puts_as_counted()
    ensures { PutsAsCounted }
{}

/// Law: where some number is spare, a step counts the clusters of an index among all that are clear.
pub fn counts_among_all()
    ensures { CountsAmongAll }
{}
