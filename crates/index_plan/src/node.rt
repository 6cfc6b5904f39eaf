ghost use Rattle.std.specs.Prelude.{true, false, ◌≡◌, ◌↔◌, ◌+◌, ◌<◌, ◌≤◌, ◌∷◌, [], OnOk, IfOk, length, drop};
ghost use Rattle.record_model.specs.Nodes.{entry_length, last_entry};
ghost use Rattle.index_plan.specs.Growth.{fits, fits_in, middle, within};
ghost use Rattle.index_plan.specs.Lists.{entry_at, left_of, own_key};
ghost use Rattle.index_plan.specs.Room.{HasKeys, IsShort, Sized};
ghost use Rattle.index_plan.specs.Takings.{instead};

use index_model::Key;
use record_model::{Entry, EntryList, last_entry};
use std::alloc::{AllocError, Global};

// Nodes as lists of entries: how many bytes they take, and the edits of one node.

// The bytes of a block for entries.
const ROOM: usize = 4032;

// The bytes of an entry as it is written: its key begins at 0x10, and the VCN of a
// child stands behind the key's padding to a multiple of 8.
#[tactic(auto, unfolding(record_model::specs::Nodes::entry_length))]
fn entry_length(entry: &Entry) -> usize
    ensures { result ≡ entry_length entry.now }
{
    let key = entry.key.as_slice();
    let bytes = 8 * ((0x10 + key.len() + 7) / 8);
    match entry.down {
        Some(_) => bytes + 8,
        None => bytes,
    }
}

// Whether the entries take at most so many bytes.
fn fits_room(entries: &[Entry], room: usize) -> bool
    ensures { result ≡ fits_in room entries.now }
{
    let mut left = room;
    for entry in entries {
        let bytes = entry_length(entry);
        if left < bytes {
            return false;
        }
        left -= bytes;
    }
    true
}

// How many entries from the front lie within so many bytes.
fn count_within(entries: &[Entry], room: usize) -> usize
    ensures value { result ≡ within room entries.now }
    ensures inside { result ≤ length entries.now }
{
    let mut left = room;
    for (i, entry) in entries.iter().enumerate() {
        let bytes = entry_length(entry);
        if left < bytes {
            return i;
        }
        left -= bytes;
    }
    entries.len()
}

/// A node of one last entry with this child. The error is want of memory.
pub fn last_node(alloc: Global, down: Option<u64>) -> Result<EntryList, AllocError>
    ensures { IfOk result (λ node. node ≡ last_entry down ∷ []) }
{
    let mut node = EntryList::new(alloc);
    node.push(last_entry(alloc, down))?;
    Ok(node)
}

/// Whether the entries take at most so many bytes. Linear in the entries.
pub fn fits_in(node: &EntryList, room: usize) -> bool
    ensures { result ≡ fits_in room node.now }
{
    fits_room(node.as_slice(), room)
}

/// Whether the entries fit a block. Linear in the entries.
#[tactic(auto, unfolding(crate::specs::Growth::fits))]
pub fn fits(node: &EntryList) -> bool
    ensures { result ≡ fits node.now }
{
    fits_room(node.as_slice(), ROOM)
}

/// The place of the entry that goes up where the node is cut in two. Linear in the entries.
#[tactic(auto, unfolding(crate::specs::Growth::middle))]
pub fn middle(node: &EntryList) -> usize
    ensures value { result ≡ middle node.now }
    ensures inside { result ≤ length node.now }
{
    count_within(node.as_slice(), ROOM / 2)
}

/// The VCN of the node whose entries stand before the entry at `at`.
pub fn down_at(node: &EntryList, at: usize) -> Option<u64>
    requires { at < length node.now }
    ensures { result ≡ (entry_at at node.now).down }
{
    node.as_slice()[at].down
}

/// Puts another key in the place of the one at `at`, or takes that entry out. Linear in the entries
/// behind it.
pub fn put_instead(node: &mut EntryList, at: usize, key: Option<Key>)
    requires { at < length node.old }
    ensures { node.new ≡ instead at node.old key }
{
    match key {
        Some(key) => {
            let down = down_at(node, at);
            let Key { child, value } = key;
            let entry = Entry {
                child,
                key: value,
                down,
            };
            let _ = node.replace(at, entry);
        }
        None => {
            let _ = node.remove(at);
        }
    }
}

// Whether a key is short, and there before the last entry.
fn has_key(entry: &Entry, last: bool) -> bool
    ensures short { result ≡ true → IsShort entry.now }
    ensures some { result ≡ true → last ≡ false → 0 < length entry.now.key }
    ensures both { IsShort entry.now → (last ≡ false → 0 < length entry.now.key) → result ≡ true }
{
    let key = entry.key.len();
    key <= 576 && (last || 0 < key)
}

// Whether each key is short, and each before the last is there.
fn has_keys(entries: &[Entry]) -> bool
    ensures { (result ≡ true) ↔ HasKeys entries.now }
{
    for (i, entry) in entries.iter().enumerate() {
        let last = i == entries.len() - 1;
        if !has_key(entry, last) {
            return false;
        }
    }
    true
}

/// Whether the entries may be those of a block: each key has at most 576 bytes, each before the
/// last has some, and all entries lie in the 4,056 bytes behind the node header. Linear in the
/// entries.
pub fn is_sized(node: &EntryList) -> bool
    ensures { (result ≡ true) ↔ Sized node.now }
{
    has_keys(node.as_slice()) && fits_room(node.as_slice(), 4056)
}

/// Cuts the node in two at the entry at `at`: the entries before it are answered, and behind them a
/// last entry with its child; its key is answered too, and the entries behind it stay. The error is
/// want of memory. Linear in the entries behind it.
pub fn cut(alloc: Global, node: &mut EntryList, at: usize) -> Result<(EntryList, Key), AllocError>
    requires { at < length node.old }
    ensures left { IfOk result (λ p. p.0 ≡ left_of at node.old) }
    ensures key { IfOk result (λ p. p.1 ≡ own_key (entry_at at node.old)) }
    ensures rest { OnOk result (node.new ≡ drop (at + 1) node.old) }
{
    let mut right = node.split_off(at)?;
    let Entry { child, key, down } = right.remove(0);
    node.push(last_entry(alloc, down))?;
    let left = std::mem::replace(node, right);
    Ok((left, Key { child, value: key }))
}
