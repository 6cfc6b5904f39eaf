ghost use Rattle.stream_laws.specs.Changes.{BytesAfterWrites, StaysElsewhere};
ghost use Rattle.stream_laws.specs.Bitmaps.{BitsOfBitmaps, BitsAfterPuts};
ghost use Rattle.stream_laws.specs.Frames.{FrameOfStreams, FrameOfRecords, FrameOfIndexes};
ghost use Rattle.stream_laws.specs.Growth.{BytesAfterPuts, StreamsGrow, GrownRunsApart, RunsGoOn};
ghost use Rattle.stream_laws.specs.Leaving.{FreeBlocksApart, OtherStreamsStay};
ghost use Rattle.stream_laws.specs.Owners.{OwnedOnce};
ghost use Rattle.stream_laws.specs.Places.{NoBlockTwice, OnceByRule};
ghost use Rattle.stream_laws.specs.Records.{OthersStay, OneRecordChanged};
ghost use Rattle.stream_laws.specs.Puts.{PutsAreWritten};
ghost use Rattle.stream_laws.specs.Replacing.{FileReplaced, FilesReplaced};
ghost use Rattle.stream_laws.specs.Sharing.{AttributesApart, StreamsApart};
ghost use Rattle.stream_laws.specs.Tables.{TableIsStream};
ghost use Rattle.stream_laws.specs.Volumes.{FrameOfVolumes, FrameOfNodes};
ghost use Rattle.stream_laws.specs.Rewrites.{TablesGoOn, VolumeRewritten};
ghost use Rattle.stream_laws.specs.Weights.{WeightsReplaced, ClustersByKind};

/// Law: a stream has the same bytes in two contents that agree on the blocks of its sectors below
/// its sizes.
pub fn frame_of_streams()
    ensures { FrameOfStreams }
{}

/// Law: a file record is the same in two contents that agree on its block.
pub fn frame_of_records()
    ensures { FrameOfRecords }
{}

/// Law: the nodes and names of an index are the same in two contents that agree on its blocks.
pub fn frame_of_indexes()
    ensures { FrameOfIndexes }
{}

/// Law: a byte of a stream is that of the last write that covers it, else that from before.
pub fn bytes_after_writes()
    ensures { BytesAfterWrites }
{}

/// Law: a stream, a file record and an index stay where no write is to a block of theirs.
pub fn stays_elsewhere()
    ensures { StaysElsewhere }
{}

/// Law: no cluster lies twice in runs that keep the rule on owners.
pub fn once_by_rule()
    ensures { OnceByRule }
{}

/// Law: no two places of a stream have a block in common, where no cluster lies twice in its runs.
pub fn no_block_twice()
    ensures { NoBlockTwice }
{}

/// Law: a file record stays under writes to the blocks of others, where no cluster lies twice in
/// the file table.
pub fn others_stay()
    ensures { OthersStay }
{}

/// Law: writes to the block of one file record change that record alone.
pub fn one_record_changed()
    ensures { OneRecordChanged }
{}

/// Law: blocks in the runs of two attributes of a volume share no sector, where no cluster lies
/// twice in it.
pub fn attributes_apart()
    ensures { AttributesApart }
{}

/// Law: blocks of two streams of a volume share no sector, where no cluster lies twice in it.
pub fn streams_apart()
    ensures { StreamsApart }
{}

/// Law: where one file is replaced, how often a cluster is used and how many names stand in a
/// directory change by what the new file adds and the old one took away.
pub fn file_replaced()
    ensures { FileReplaced }
{}

/// Law: writes that put bytes into the sectors of a stream put them into its bytes, where no
/// cluster lies twice in it.
pub fn puts_are_written()
    ensures { PutsAreWritten }
{}

/// Law: the same where several files are replaced at once, no two of them with one number.
pub fn files_replaced()
    ensures { FilesReplaced }
{}

/// Law: a volume is the same in two contents that agree on the blocks that it is loaded from.
pub fn frame_of_volumes()
    ensures { FrameOfVolumes }
{}

/// Law: the bits of a bitmap and a node are the same in two contents that agree on their bytes.
pub fn frame_of_nodes()
    ensures { FrameOfNodes }
{}

/// Law: the extents of a file table go on from themselves, and initialised ones from initialised
/// ones.
pub fn tables_go_on()
    ensures { TablesGoOn }
{}

/// Law: where some records are rewritten and the file table may grow, a volume has the new files in
/// the places of the old ones, and none behind them.
pub fn volume_rewritten()
    ensures { VolumeRewritten }
{}

/// Law: the file table of a volume that begins where the boot sector says is a stream of it.
pub fn table_is_stream()
    ensures { TableIsStream }
{}

/// Law: a block in clusters that no run of a volume has shares no sector with its streams.
pub fn free_blocks_apart()
    ensures { FreeBlocksApart }
{}

/// Law: writes to the blocks of other streams and to free clusters leave a stream, where no cluster
/// lies twice in the volume.
pub fn other_streams_stay()
    ensures { OtherStreamsStay }
{}

/// Law: a byte after puts is that of the last put that covers it, else that from before.
pub fn bytes_after_puts()
    ensures { BytesAfterPuts }
{}

/// Law: a stream that grows has its bytes from before and zeros behind them, after the puts that
/// cover all that comes to be initialised; so has a value that leaves its record.
pub fn streams_grow()
    ensures { StreamsGrow }
{}

/// Law: where a stream takes clusters that no stream has, none lies twice in it, nor in it and in
/// another stream.
pub fn grown_runs_apart()
    ensures { GrownRunsApart }
{}

/// Law: the bits of the clusters and of the records are those of the bitmaps' bytes.
pub fn bits_of_bitmaps()
    ensures { BitsOfBitmaps }
{}

/// Law: each bit of a bitmap after puts is that of the byte which is put there last, else the one
/// from before.
pub fn bits_after_puts()
    ensures { BitsAfterPuts }
{}

/// Law: where files are replaced, the clusters of each kind of block, the live blocks and the names
/// that are a link change by what the new files add and the old ones took away.
pub fn weights_replaced()
    ensures { WeightsReplaced }
{}

/// Law: each cluster is used for blocks of one kind or another, and those of a block that a volume
/// owns for blocks of its kind.
pub fn clusters_by_kind()
    ensures { ClustersByKind }
{}

/// Law: two blocks that a volume owns and that share a sector are one block, where no cluster lies
/// twice in it.
pub fn owned_once()
    ensures { OwnedOnce }
{}

/// Law: a place that lies in one of a stream's runs has its block still where runs follow them, the
/// last one getting longer or not.
pub fn runs_go_on()
    ensures { RunsGoOn }
{}
