use record_model::EntryList;

/// A node that a plan writes whole: the VCN of its block, and its entries.
#[derive(Debug, Drop)]
pub struct Write {
    pub vcn: u64,
    pub entries: EntryList,
}
