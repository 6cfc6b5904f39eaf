ghost use Rattle.std.specs.Prelude.{◌≡◌, ◌+◌, ◌*◌, ◌<◌, ◌≤◌, ◌^◌, Ok, length, IfOk};
ghost use Rattle.disk_model.specs.host_base.Answers.{Gives};
ghost use Rattle.disk_model.specs.Numbers.{field};
ghost use Rattle.log_record.specs.Reading.{update_at};
ghost use Rattle.log_model.specs.Entries.{entry_cause, update_size, said_size, update_of, act_at, entry_at, entry_size, FitsEntry};

use crate::checking::{
    COMMIT, HEAD, UPDATE, check_commit, check_front, check_transaction, check_update, part,
    redo_length, up8,
};
use disk_model::{Bytes, u16_at, u32_at, u64_at};
use log_model::{Act, Entry, EntryFault};
use std::alloc::Global;

// What an update does, whose fields were checked.
#[tactic(auto, unfolding(log_model::specs::Entries::update_of))]
fn update_value(alloc: Global, entry: &[u8]) -> Result<Act, EntryFault>
    requires inside { update_size (field 0x36 2 entry.now) ≤ length entry.now }
    requires first { 8 * field 0x50 8 entry.now + field 0x44 2 entry.now < 2 ^ 64 }
    ensures { Gives (λ act. act) entry_cause result (Ok (update_of entry.now)) }
{
    let n = redo_length(entry);
    Ok(Act::Update {
        first: 8 * u64_at(entry, 0x50) + u64::from(u16_at(entry, 0x44)),
        kind: u16_at(entry, 0x42),
        at: u16_at(entry, 0x40),
        redo: Bytes::copy_of(alloc, part(entry, HEAD, n))?,
        undo: Bytes::copy_of(alloc, part(entry, HEAD + up8(n), n))?,
    })
}

// What an update does, or its first field at fault.
fn update(alloc: Global, entry: &[u8]) -> Result<Act, EntryFault>
    requires { update_size (field 0x36 2 entry.now) ≤ length entry.now }
    ensures { Gives (λ act. act) entry_cause result (update_at entry.now) }
{
    check_update(entry)?;
    update_value(alloc, entry)
}

// What an entry does, by its redo operation.
#[tactic(auto, using(log_model::proofs::EntryRead::said_update), unfolding(log_model::specs::Entries::act_at))]
fn act(alloc: Global, entry: &[u8]) -> Result<Act, EntryFault>
    requires long { 0x58 ≤ length entry.now }
    requires inside { said_size entry.now ≤ length entry.now }
    ensures { Gives (λ act. act) entry_cause result (act_at entry.now) }
{
    let operation = u16_at(entry, 0x30);
    if operation == UPDATE {
        return update(alloc, entry);
    }
    if operation == COMMIT {
        check_commit(entry)?;
        return Ok(Act::Commit);
    }
    Err(EntryFault::Shape { at: 0x30 })
}

// The entry, or its first field at fault.
#[tactic(auto, unfolding(log_model::specs::Entries::entry_at))]
fn entry(alloc: Global, bytes: &[u8]) -> Result<Entry, EntryFault>
    ensures { Gives (λ entry. entry) entry_cause result (entry_at bytes.now) }
{
    if bytes.len() < HEAD {
        return Err(EntryFault::Shape { at: 0x18 });
    }
    check_front(bytes)?;
    check_transaction(bytes)?;
    let act = act(alloc, bytes)?;
    Ok(Entry {
        lsn: u64_at(bytes, 0x00),
        previous: u64_at(bytes, 0x08),
        tx: u32_at(bytes, 0x24),
        act,
    })
}

/// Reads the entry at the front of these bytes (Linux-NTFS documentation, "$LogFile"), whatever
/// stands after it. `Entry::size` says how many bytes it has.
///
/// - `Shape`: the offset of the first field, from the entry's first byte on, that is neither an
///   update's nor a commit's, in the order of the table of `log_model`. At 0x18 stands
///   the length: it isn't that of the operation and the redo length, or the bytes end before it.
///   Zeros that are missing are named by their place.
/// - `Memory`: want of memory.
///
/// It takes time and memory linear in the entry.
pub fn read(alloc: Global, bytes: &[u8]) -> Result<Entry, EntryFault>
    ensures value { Gives (λ entry. entry) entry_cause result (entry_at bytes.now) }
    ensures fits { IfOk result FitsEntry }
    ensures inside { IfOk result (λ entry. entry_size entry ≤ length bytes.now) }
{
    entry(alloc, bytes)
}
