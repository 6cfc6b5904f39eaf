use host_base::Bytes;

/// A body that a store keeps: its bytes, as many as its block has, and whether it is torn.
#[derive(Debug, Drop)]
pub struct KeptBody {
    pub bytes: Bytes,
    pub torn: bool,
}
