//! Definitions of what stands in the blocks of an NTFS volume: file records with their attributes,
//! the values of attributes and index nodes, each as a reader that answers the least broken rule, a
//! table that relates bytes and values field by field, and the one canonical spelling that is
//! written.
//!
//! The layouts are those of the Linux-NTFS documentation, "FILE Record", "Attribute Header",
//! "$STANDARD_INFORMATION", "$FILE_NAME", "Data runs", "$INDEX_ROOT" and "Index Record".
#![tactic(auto)]

mod attribute;
mod constants;
mod entry;
mod flags;
mod list_entry;
mod node_laws;
mod pairs_laws;
mod record;
mod record_laws;
mod runs;
mod units;
mod value_laws;
mod values;

pub use attribute::{Attr, AttrList, Head, OwnForm, Sizes};
pub use constants::{
    ATTRIBUTE_LIST, BITMAP_TYPE, DATA, END_MARK, FILE_NAME, INDEX_ALLOCATION, INDEX_ROOT,
    MOST_ATTRIBUTES, NAMES_INDEX, OBJECT_ID, REPARSE_POINT, STANDARD_INFORMATION,
    VOLUME_INFORMATION, VOLUME_NAME,
};
pub use disk_model::{
    Bytes, FileRef, Memory, is_same_reference, put_u16, put_u32, put_u64, u8_at, u16_at, u32_at,
    u64_at,
};
pub use entry::{Entry, EntryList, last_entry};
pub use flags::{AttributeFlags, EntryFlags, FileFlags, NodeFlags, RecordFlags, VolumeFlags};
pub use list_entry::ListEntry;
pub use node_laws::{
    node_is_body, node_is_table, node_read_again, node_rule_is_least, read_node_fits,
    root_is_table, spells_one_node, written_no_longer,
};
pub use pairs_laws::{
    pairs_vectors, read_pairs_are_spelled, spelled_pairs_are_read, written_pairs_are_read,
    written_pairs_are_shortest, written_pairs_are_spelled,
};
pub use record::RecHead;
pub use record_laws::{
    attr_read_again, attr_read_is_table, attr_table_is_read, read_is_table, record_is_body,
    record_is_shaped, record_read_again, rule_is_least, spells_one_record, table_is_read,
};
pub use runs::{PairsFault, Run, Runs};
pub use units::units_at;
pub use utf16_name::{Name, NameFault, Units, check};
pub use value_laws::{
    file_name_is_table, file_name_read_again, journal_max_is_table, journal_max_read_again,
    std_info_is_table, std_info_read_again, volume_info_is_table, volume_info_read_again,
};
pub use values::{FileNameValue, JournalMax, StdInfo, ValueFault, VolumeInfo};
