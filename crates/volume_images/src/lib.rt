//! Builders of what lies in a volume, for worked rows: file records and their attributes, runs,
//! and views of blocks.
#![tactic(auto)]

mod builders;

pub use builders::{
    Kept, Part, index_block, index_view, per_cluster, put_file, record, run, sectors_view,
};
