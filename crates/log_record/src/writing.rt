ghost use Rattle.std.specs.Prelude.{◌≡◌, ◌<◌, ◌≤◌, ◌^◌, ◌++◌, length, OnOk, OnErr, IfOk};
ghost use Rattle.disk_model.specs.Bytes.{zeros};
ghost use Rattle.log_model.specs.Entries.{most_bytes, act_spelling, bytes_spelling, commit_spelling, entry_spelling, filled, front_spelling, update_spelling, FitsAct, FitsEntry};

use crate::checking::{COMMIT, HEAD, UPDATE, up8};
use disk_model::{Memory, put_u16, put_u32, put_u64};
use log_model::{Act, Entry};
use std::alloc::{AllocError, Global};

/// The first 0x30 bytes.
#[tactic(auto, unfolding(log_model::specs::Entries::front_spelling, disk_model::specs::Numbers::spell, disk_model::specs::Bytes::zeros))]
pub fn front(entry: &Entry) -> [u8; 0x30]
    requires { FitsEntry entry.now }
    ensures { result ≡ front_spelling entry.now }
{
    let client = entry.size() - 0x30;
    let mut bytes = [0; 0x30];
    put_u64(&mut bytes, 0x00, entry.lsn);
    put_u64(&mut bytes, 0x08, entry.previous);
    put_u64(&mut bytes, 0x10, entry.previous);
    put_u32(&mut bytes, 0x18, client as u32);
    put_u32(&mut bytes, 0x20, 1);
    put_u32(&mut bytes, 0x24, entry.tx);
    bytes
}

/// The next 0x28 of an update whose redo has n bytes.
#[tactic(auto, unfolding(log_model::specs::Entries::update_spelling, disk_model::specs::Numbers::spell))]
pub fn update_fields(first: u64, kind: u16, at: u16, n: usize) -> [u8; 0x28]
    requires { n ≤ most_bytes }
    ensures { result ≡ update_spelling first kind at n }
{
    let mut bytes = [0; 0x28];
    put_u16(&mut bytes, 0x00, UPDATE);
    put_u16(&mut bytes, 0x02, UPDATE);
    put_u16(&mut bytes, 0x04, 0x28);
    put_u16(&mut bytes, 0x06, n as u16);
    put_u16(&mut bytes, 0x08, (0x28 + up8(n)) as u16);
    put_u16(&mut bytes, 0x0a, n as u16);
    put_u16(&mut bytes, 0x0e, 1);
    put_u16(&mut bytes, 0x10, at);
    put_u16(&mut bytes, 0x12, kind);
    put_u16(&mut bytes, 0x14, (first % 8) as u16);
    put_u64(&mut bytes, 0x20, first / 8);
    bytes
}

/// And of a commit.
#[tactic(auto, unfolding(log_model::specs::Entries::commit_spelling, disk_model::specs::Numbers::spell, disk_model::specs::Bytes::zeros))]
pub fn commit_fields() -> [u8; 0x28]
    ensures { result ≡ commit_spelling }
{
    let mut bytes = [0; 0x28];
    put_u16(&mut bytes, 0x00, COMMIT);
    bytes
}

// Appends so many zeros.
fn push_zeros(out: &mut Vec<u8>, count: usize) -> Result<(), AllocError>
    ensures { OnOk result (out.new.items ≡ out.old.items ++ zeros count) }
{
    for _ in 0..count {
        out.push(0)?;
    }
    Ok(())
}

// Appends the bytes, with zeros up to a multiple of 8.
#[tactic(auto, using(std::proofs::lemmas::List::append_assoc), unfolding(log_model::specs::Entries::filled))]
fn push_filled(out: &mut Vec<u8>, bytes: &[u8]) -> Result<(), AllocError>
    requires { length bytes.now ≤ most_bytes }
    ensures { OnOk result (out.new.items ≡ out.old.items ++ filled bytes.now) }
{
    out.extend_from_slice(bytes)?;
    push_zeros(out, up8(bytes.len()) - bytes.len())
}

// Appends what stands after the first 30 bytes.
fn push_act(out: &mut Vec<u8>, act: &Act) -> Result<(), AllocError>
    requires { FitsAct act.now }
    ensures { OnOk result (out.new.items ≡ out.old.items ++ (act_spelling act.now ++ bytes_spelling act.now)) }
{
    match act {
        Act::Update {
            first,
            kind,
            at,
            redo,
            undo,
        } => {
            out.extend_from_slice(&update_fields(*first, *kind, *at, redo.len()))?;
            push_filled(out, redo.as_slice())?;
            push_filled(out, undo.as_slice())
        }
        Act::Commit => {
            out.extend_from_slice(&commit_fields())?;
            Ok(())
        }
    }
}

// The spelling of an entry.
fn spelling(alloc: Global, entry: &Entry) -> Result<Vec<u8>, AllocError>
    requires { FitsEntry entry.now }
    ensures { IfOk result (λ bytes. bytes.items ≡ entry_spelling entry.now) }
{
    let mut bytes = Vec::from_slice(alloc, &front(entry))?;
    push_act(&mut bytes, &entry.act)?;
    Ok(bytes)
}

/// Appends the spelling of an entry (Linux-NTFS documentation, "$LogFile"): its header, its fields,
/// and an update's redo and undo bytes, each with zeros up to a multiple of 8. The error is want of
/// memory, and leaves what is appended to. It takes time and memory linear in the entry.
pub fn write(entry: &Entry, out: &mut Vec<u8>) -> Result<(), Memory>
    requires { FitsEntry entry.now }
    ensures ok { OnOk result (out.new.items ≡ out.old.items ++ entry_spelling entry.now) }
    ensures err { OnErr result (out.new.items ≡ out.old.items) }
{
    let bytes = spelling(*out.allocator(), entry)?;
    out.extend_from_slice(&bytes)?;
    Ok(())
}
