//! An entry that is put over bytes which are there.
ghost use Rattle.std.specs.Prelude.{◌≡◌, ◌+◌, ◌-◌, ◌≤◌, ◌++◌, length};
ghost use Rattle.disk_model.specs.Bytes.{up8, written, zeros};
ghost use Rattle.log_model.specs.Entries.{most_bytes, act_size, entry_size, act_spelling, bytes_spelling, entry_spelling, filled, FitsAct, FitsEntry};

use crate::checking::up8;
use crate::writing::{commit_fields, front, update_fields};
use disk_model::put_bytes;
use log_model::{Act, Entry};

#[tactic(auto, unfolding(disk_model::specs::Bytes::zeros))]
fn clear(bytes: &mut [u8])
    ensures { bytes.new ≡ zeros (length bytes.old) }
{
    bytes.fill(0);
}

// Puts so many zeros.
fn put_zeros(out: &mut [u8], at: usize, count: usize)
    requires { at + count ≤ length out.old }
    ensures { out.new ≡ written at (zeros count) out.old }
{
    clear(&mut out[at..at + count]);
}

// Puts the bytes, with zeros up to a multiple of 8.
fn put_filled(out: &mut [u8], at: usize, bytes: &[u8])
    requires few { length bytes.now ≤ most_bytes }
    requires inside { at + up8 (length bytes.now) ≤ length out.old }
    ensures { out.new ≡ written at (filled bytes.now) out.old }
{
    put_bytes(out, at, bytes);
    put_zeros(out, at + bytes.len(), up8(bytes.len()) - bytes.len());
}

// Puts what stands after the first 0x30 bytes.
fn put_act(out: &mut [u8], at: usize, act: &Act)
    requires fits { FitsAct act.now }
    requires inside { at + (act_size act.now - 0x30) ≤ length out.old }
    ensures { out.new ≡ written at (act_spelling act.now ++ bytes_spelling act.now) out.old }
{
    match act {
        Act::Update {
            first,
            kind,
            at: place,
            redo,
            undo,
        } => {
            put_bytes(out, at, &update_fields(*first, *kind, *place, redo.len()));
            put_filled(out, at + 0x28, redo.as_slice());
            put_filled(out, at + 0x28 + up8(redo.len()), undo.as_slice());
        }
        Act::Commit => put_bytes(out, at, &commit_fields()),
    }
}

/// Puts the spelling of an entry (Linux-NTFS documentation, "$LogFile") over the bytes from `at`
/// on, where [`Entry::size`] bytes have room: the same bytes as [`crate::write`] appends. All other
/// bytes stay as they were. It takes no memory, and time linear in the entry.
pub fn put(entry: &Entry, out: &mut [u8], at: usize)
    requires fits { FitsEntry entry.now }
    requires inside { at + entry_size entry.now ≤ length out.old }
    ensures spelled { out.new ≡ written at (entry_spelling entry.now) out.old }
{
    put_bytes(out, at, &front(entry));
    put_act(out, at + 0x30, &entry.act);
}
