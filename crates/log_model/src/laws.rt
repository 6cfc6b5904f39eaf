//! The laws of the log: its entries, what recovery makes of a content by a list of them, and what a
//! store needs that appends to it.
ghost use Rattle.log_model.specs.EntryLaws.{EntryIsTable, EntryReadAgain};
ghost use Rattle.log_model.specs.LogLaws.{RecoveredByte, ShadowIsRival};
ghost use Rattle.log_model.specs.LogVector.{LogVector};
ghost use Rattle.log_model.specs.StoreLaws.{OneMoreTells, OriginKept, CrashKernel, TailCountsForNothing};

/// Law: an entry is read exactly where its table holds, and then it has a spelling.
pub fn entry_is_table()
    ensures { EntryIsTable }
{}

/// Law: a written entry is read again.
pub fn entry_read_again()
    ensures { EntryReadAgain }
{}

/// Law: recovery is the byte-wise choice.
pub fn recovered_byte()
    ensures { RecoveredByte }
{}

/// Law: a block is shadowed exactly where an update of a rival stands in the log, after which no
/// transaction that ended has an update of the block itself.
pub fn shadow_is_rival()
    ensures { ShadowIsRival }
{}

/// Law: small logs recover as they should.
pub fn log_vector()
    ensures { LogVector }
{}

/// Law: what a log tells with one entry more.
pub fn one_more_tells()
    ensures { OneMoreTells }
{}

/// Law: a logged update leaves the content before the log's updates.
pub fn origin_kept()
    ensures { OriginKept }
{}

/// Law: a disk on which a block stands as before the log, or that the durable entries cover whole,
/// recovers to that content after the transactions that have ended.
pub fn crash_kernel()
    ensures { CrashKernel }
{}

/// Law: entries after the last commit count for nothing where their transactions haven't ended.
pub fn tail_counts_for_nothing()
    ensures { TailCountsForNothing }
{}
