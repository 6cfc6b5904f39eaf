ghost use Rattle.std.specs.Prelude.{◌≡◌, ◌+◌, ◌-◌, ◌*◌, ◌<◌, ◌≤◌, ◌^◌, All, length};
ghost use Rattle.std.specs.List.{flat_map};
ghost use Rattle.disk_model.specs.Bytes.{written, zeros};
ghost use Rattle.record_model.specs.declared.entry.Entry.{Entry as EntryOf};
ghost use Rattle.record_model.specs.Attributes.{filled};
ghost use Rattle.record_model.specs.Nodes.{down_flag, down_bytes, last_flag, entry_length, entries_length, entry_spelling, node_head, children_of};
ghost use Rattle.index_node.specs.Spelling.{entry_head};

use crate::room::entry_length;
use disk_model::{put_bytes, put_u16, put_u32, put_u64};
use record_model::Entry;

// Writing of a node, piece behind piece: every byte of the block is written.

#[tactic(auto, unfolding(disk_model::specs::Bytes::zeros))]
fn clear(bytes: &mut [u8])
    ensures { bytes.new ≡ zeros (length bytes.old) }
{
    bytes.fill(0);
}

/// Puts so many zeros from `at` on.
pub fn put_zeros(out: &mut [u8], at: usize, count: usize)
    requires { at + count ≤ length out.old }
    ensures { out.new ≡ written at (zeros count) out.old }
{
    let end = at + count;
    clear(&mut out[at..end]);
}

// 1 for a child.
fn down_flag(down: Option<u64>) -> u8
    ensures value { result ≡ down_flag down }
    ensures small { result ≤ 1 }
{
    match down {
        Some(_) => 1,
        None => 0,
    }
}

// 2 for the last entry, which has no key.
fn last_flag(key: &[u8]) -> u16
    ensures value { result ≡ last_flag key.now }
    ensures small { result ≤ 2 }
{
    if key.is_empty() { 2 } else { 0 }
}

// Puts the first 0x10 bytes of an entry of this length.
fn put_entry_head(out: &mut [u8], at: usize, entry: &Entry, entry_length: u16)
    requires number { entry.now.child.number < 2 ^ 48 }
    requires key { length entry.now.key < 2 ^ 16 }
    requires room { at + 0x10 ≤ length out.old }
    ensures { out.new ≡ written at (entry_head entry.now entry_length) out.old }
{
    let key = entry.key.as_slice();
    put_u64(out, at, entry.child.pack());
    put_u16(out, at + 0x08, entry_length);
    put_u16(out, at + 0x0a, key.len() as u16);
    put_u16(
        out,
        at + 0x0c,
        u16::from(down_flag(entry.down)) + last_flag(key),
    );
    put_zeros(out, at + 0x0e, 2);
}

// Puts a key, with zeros up to a multiple of 8 bytes of its entry.
#[tactic(auto, using(crate::proofs::Placing::key_size))]
fn put_key(out: &mut [u8], at: usize, key: &[u8])
    requires short { length key.now < 2 ^ 16 }
    requires room { at + length (filled 0x10 key.now) ≤ length out.old }
    ensures { out.new ≡ written at (filled 0x10 key.now) out.old }
{
    put_bytes(out, at, key);
    let end = 0x10 + key.len();
    put_zeros(out, at + key.len(), 8 * ((end + 7) / 8) - end);
}

// Puts the VCN of a child, where there is one.
#[tactic(auto, using(crate::proofs::Placing::nothing_put))]
fn put_down(out: &mut [u8], at: usize, down: Option<u64>)
    requires { at + 8 * down_flag down ≤ length out.old }
    ensures { out.new ≡ written at (down_bytes down) out.old }
{
    if let Some(vcn) = down {
        put_u64(out, at, vcn);
    }
}

// Puts an entry.
#[tactic(auto, using(crate::proofs::Placing::entry_sizes))]
fn put_entry(out: &mut [u8], at: usize, entry: &Entry)
    requires number { entry.now.child.number < 2 ^ 48 }
    requires short { entry_length entry.now < 2 ^ 16 }
    requires room { at + entry_length entry.now ≤ length out.old }
    ensures { out.new ≡ written at (entry_spelling entry.now) out.old }
{
    let key = entry.key.as_slice();
    put_entry_head(out, at, entry, entry_length(entry) as u16);
    put_key(out, at + 0x10, key);
    put_down(out, at + 8 * ((0x10 + key.len() + 7) / 8), entry.down);
}

/// Puts entries one behind the other from 0x40 on, and answers where they end. Linear
/// in their bytes.
pub fn put_entries(out: &mut [u8], entries: &[Entry]) -> usize
    requires numbers { All (λ (e : EntryOf). e.child.number < 2 ^ 48) entries.now }
    requires short { entries_length entries.now < 2 ^ 16 }
    requires room { 0x40 + entries_length entries.now ≤ length out.old }
    ensures written { out.new ≡ written 0x40 (flat_map entry_spelling entries.now) out.old }
    ensures end { result ≡ 0x40 + entries_length entries.now }
{
    let mut at = 0x40;
    for entry in entries {
        put_entry(out, at, entry);
        at += entry_length(entry);
    }
    at
}

/// Puts the first 0x40 bytes of a block: its signature, LSN and VCN and its node
/// header, with the array of the update sequence as zeros.
pub fn put_block_head(out: &mut [u8], lsn: u64, vcn: u64, used: u32, flag: u8)
    requires { 0x40 ≤ length out.old }
    ensures { out.new ≡ written 0 (node_head lsn vcn used flag) out.old }
{
    put_bytes(out, 0x00, b"INDX");
    put_u16(out, 0x04, 0x28);
    put_u16(out, 0x06, 9);
    put_u64(out, 0x08, lsn);
    put_u64(out, 0x10, vcn);
    put_u32(out, 0x18, 0x28);
    put_u32(out, 0x1c, used);
    put_u32(out, 0x20, 4072);
    put_bytes(out, 0x24, &[flag]);
    put_zeros(out, 0x25, 3);
    put_zeros(out, 0x28, 0x18);
}

/// 1 where the entries have children.
pub fn children_of(entries: &[Entry]) -> u8
    ensures value { result ≡ children_of entries.now }
    ensures small { result ≤ 1 }
{
    match entries.first() {
        Some(entry) => down_flag(entry.down),
        None => 0,
    }
}
