ghost use Rattle.std.specs.Prelude.{◌≡◌, ◌<◌, ◌≤◌, ◌^◌, true, length};
ghost use Rattle.record_model.specs.Values.{is_file_name};
ghost use Rattle.record_model.specs.Nodes.{entry_length, node_used};

use record_model::Entry;

// How many bytes entries take as they are written.

/// The used bytes of a block with these entries, counted from its node header; the first entry
/// stands 0x28 bytes behind it. Linear in the entries.
#[tactic(auto, using(crate::proofs::Sizes::sums), unfolding(record_model::specs::Nodes::node_used))]
pub fn node_used(entries: &[Entry]) -> usize
    requires { node_used entries.now ≤ 8192 }
    ensures { result ≡ node_used entries.now }
{
    let mut used = 0x28;
    for entry in entries {
        used += entry_length(entry);
    }
    used
}

/// The bytes of an entry: its key begins at 0x10, and the VCN of a child stands behind
/// the key's padding to a multiple of 8.
#[tactic(auto, unfolding(record_model::specs::Nodes::entry_length))]
pub fn entry_length(entry: &Entry) -> usize
    requires { length entry.now.key < 2 ^ 32 }
    ensures { result ≡ entry_length entry.now }
{
    let bytes = 8 * ((0x10 + entry.key.len() + 7) / 8);
    match entry.down {
        Some(_) => bytes + 8,
        None => bytes,
    }
}

// How long a file-name value is.
#[tactic(auto, using(crate::proofs::Sizes::key_bounded))]
fn name_length(key: &[u8]) -> usize
    requires { is_file_name key.now ≡ true }
    ensures value { result ≡ length key.now }
    ensures small { result ≤ 576 }
{
    key.len()
}

/// The bytes of an entry whose key is a file-name value.
#[tactic(auto, using(crate::proofs::Sizes::entry_small))]
pub fn named_length(entry: &Entry) -> usize
    requires { is_file_name entry.now.key ≡ true }
    ensures value { result ≡ entry_length entry.now }
    ensures small { result ≤ 1000 }
{
    let _ = name_length(entry.key.as_slice());
    entry_length(entry)
}
