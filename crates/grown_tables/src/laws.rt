//! The laws of these definitions.
ghost use Rattle.grown_tables.specs.First.{TableGrowsFirst};
ghost use Rattle.grown_tables.specs.Full.{TableIsNotFull};
ghost use Rattle.grown_tables.specs.Ready.{TableIsReady, TableTakesLittle};

/// Law: where no number is spare, a file table that a draft has let grow has grown as it may before
/// a file is made in a directory, by the clusters that a step counts.
pub fn table_grows_first()
    ensures { TableGrowsFirst }
{}

/// Law: so the volume is ready for the new file: the streams that a plan changes, the bits of the
/// numbers, and the number that the operation takes are as they are asked for there.
pub fn table_is_ready()
    ensures { TableIsReady }
{}

/// Law: a step counts no more than 1,024 used bytes of record 0 then.
pub fn table_is_not_full()
    ensures { TableIsNotFull }
{}

/// Law: it has taken no more clusters then than an operation counts for it.
pub fn table_takes_little()
    ensures { TableTakesLittle }
{}
