//! What a change of blocks changes in the streams, records and indexes of a volume, and what stays.
//!
//! The contract: the laws of these definitions, as functions with no body. The layouts are those of
//! the Linux-NTFS documentation, "Attribute Header", "Data runs", "$MFT" and "$INDEX_ALLOCATION".
#![tactic(auto)]

mod laws;

pub use laws::{
    attributes_apart, bits_after_puts, bits_of_bitmaps, bytes_after_puts, bytes_after_writes,
    file_replaced, files_replaced, frame_of_indexes, frame_of_nodes, frame_of_records,
    frame_of_streams, frame_of_volumes, free_blocks_apart, grown_runs_apart, no_block_twice,
    once_by_rule, one_record_changed, other_streams_stay, others_stay, owned_once,
    puts_are_written, runs_go_on, stays_elsewhere, streams_apart, streams_grow, table_is_stream,
    tables_go_on, volume_rewritten, weights_replaced,
};
