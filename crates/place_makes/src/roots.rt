//! The bytes of a root.
ghost use Rattle.std.specs.Prelude.{◌≡◌, ◌+◌, IfSome};
ghost use Rattle.record_model.specs.Nodes.{entry_length, entries_length};

use record_model::Entry;

// The most bytes of a root's entries that are counted.
const MOST: u64 = 1 << 15;

// The bytes of an entry as it is written.
#[tactic(auto, unfolding(record_model::specs::Nodes::entry_length))]
fn entry_length(entry: &Entry) -> u64
    ensures { result ≡ entry_length entry.now }
{
    let key = entry.key.as_slice();
    let bytes = 8 * ((0x10 + key.len() as u64 + 7) / 8);
    match entry.down {
        Some(_) => bytes + 8,
        None => bytes,
    }
}

/// The bytes of the value of a root with these entries; none where they are too many to count.
#[tactic(auto, using(index_node::proofs::Sizes::sums))]
pub fn root_bytes(entries: &[Entry]) -> Option<u64>
    ensures { IfSome result (λ bytes. bytes ≡ 0x20 + entries_length entries.now) }
{
    let mut left = MOST;
    for entry in entries {
        let bytes = entry_length(entry);
        if left < bytes {
            return None;
        }
        left -= bytes;
    }
    Some(0x20 + (MOST - left))
}
