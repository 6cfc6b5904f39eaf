ghost use Rattle.std.specs.Prelude.{◌≡◌, ◌+◌, ◌-◌, ◌*◌, ◌<◌, ◌≤◌, ◌^◌, length, OnOk};
ghost use Rattle.disk_model.specs.Numbers.{field};
ghost use Rattle.disk_model.specs.Bytes.{part, up8, all_zeros};
ghost use Rattle.log_model.specs.Entries.{keeps, update_size, said_size, is_sized, front_fits, transaction_fits, lengths_fit, is_placed, target_fits, cluster_fits, is_filled, bytes_fit, update_fits, no_lengths, no_place, commit_fits};

use disk_model::{all_zeros, u16_at, u32_at, u64_at};
use log_model::EntryFault;

/// The redo operation of an update, and its undo operation.
pub const UPDATE: u16 = 0x08;

/// The redo operation of a commit; its undo operation is 0.
pub const COMMIT: u16 = 0x1a;

/// The bytes of an entry before its redo.
pub const HEAD: usize = 0x58;

// The most bytes of an update's redo.
const MOST: u16 = 1900;

// The least LCN whose first sector has no number of 64 bits.
const LCN_END: u64 = 0x2000_0000_0000_0000;

// The test, or the field at this offset.
fn keep(test: bool, at: u32) -> Result<(), EntryFault>
    ensures { result ≡ keeps test at }
{
    if test {
        Ok(())
    } else {
        Err(EntryFault::Shape { at })
    }
}

/// The least multiple of 8 that isn't below n.
pub fn up8(n: usize) -> usize
    requires { n < 2 ^ 32 }
    ensures { result ≡ up8 n }
{
    8 * ((n + 7) / 8)
}

/// The bytes from `at` on, `n` of them.
pub fn part(bytes: &[u8], at: usize, n: usize) -> &[u8]
    requires { at + n ≤ length bytes.now }
    ensures { result.now ≡ part at n bytes.now }
{
    bytes.split_at(at).1.split_at(n).0
}

/// The length of the redo of an update, in its field.
pub fn redo_length(entry: &[u8]) -> usize
    requires { 0x58 ≤ length entry.now }
    ensures value { result ≡ field 0x36 2 entry.now }
    ensures small { result < 2 ^ 16 }
{
    usize::from(u16_at(entry, 0x36))
}

// The bytes of an entry of this operation.
#[tactic(auto, unfolding(log_model::specs::Entries::said_size))]
fn said_size(entry: &[u8]) -> usize
    requires { 0x58 ≤ length entry.now }
    ensures value { result ≡ said_size entry.now }
    ensures small { result < 2 ^ 32 }
{
    if u16_at(entry, 0x30) == UPDATE {
        HEAD + 2 * up8(redo_length(entry))
    } else {
        HEAD
    }
}

// Whether the entry says as many bytes, and has them.
#[tactic(auto, unfolding(log_model::specs::Entries::is_sized))]
fn is_sized(entry: &[u8]) -> bool
    requires { 0x58 ≤ length entry.now }
    ensures { result ≡ is_sized entry.now }
{
    let said = said_size(entry);
    0x30 + u32_at(entry, 0x18) as usize == said && said <= entry.len()
}

// The header up to its kind.
#[tactic(auto, unfolding(log_model::specs::Entries::front_fits))]
fn front_fault(entry: &[u8]) -> Result<(), EntryFault>
    requires { 0x58 ≤ length entry.now }
    ensures { result ≡ front_fits entry.now }
{
    let previous = u64_at(entry, 0x08);
    let undo_next = u64_at(entry, 0x10);
    let zero = u32_at(entry, 0x1c);
    let kind = u32_at(entry, 0x20);
    keep(undo_next == previous, 0x10)?;
    keep(is_sized(entry), 0x18)?;
    keep(zero == 0, 0x1c)?;
    keep(kind == 1, 0x20)
}

/// The header up to its kind; then its bytes are there.
pub fn check_front(entry: &[u8]) -> Result<(), EntryFault>
    requires { 0x58 ≤ length entry.now }
    ensures answer { result ≡ front_fits entry.now }
    ensures inside { OnOk result (said_size entry.now ≤ length entry.now) }
{
    front_fault(entry)
}

/// The rest of the header.
#[tactic(auto, unfolding(log_model::specs::Entries::transaction_fits))]
pub fn check_transaction(entry: &[u8]) -> Result<(), EntryFault>
    requires { 0x58 ≤ length entry.now }
    ensures { result ≡ transaction_fits entry.now }
{
    let transaction = u32_at(entry, 0x24);
    let zero = u16_at(entry, 0x28);
    keep(1 <= transaction, 0x24)?;
    keep(zero == 0, 0x28)
}

// An update's second operation, its offsets and lengths.
#[tactic(auto, unfolding(log_model::specs::Entries::lengths_fit))]
fn check_lengths(entry: &[u8]) -> Result<(), EntryFault>
    requires { 0x58 ≤ length entry.now }
    ensures { result ≡ lengths_fit entry.now }
{
    let operation = u16_at(entry, 0x32);
    let redo_offset = u16_at(entry, 0x34);
    let length = u16_at(entry, 0x36);
    let undo_offset = u16_at(entry, 0x38);
    let undo_length = u16_at(entry, 0x3a);
    keep(operation == UPDATE, 0x32)?;
    keep(redo_offset == 0x28, 0x34)?;
    keep(1 <= length && length <= MOST, 0x36)?;
    keep(
        usize::from(undo_offset) == 0x28 + up8(usize::from(length)),
        0x38,
    )?;
    keep(undo_length == length, 0x3a)
}

// Whether a block of this kind may begin in this sector of a cluster.
#[tactic(auto, unfolding(log_model::specs::Entries::is_placed))]
fn is_placed(kind: u16, sector: u16) -> bool
    ensures { result ≡ is_placed kind sector }
{
    if sector >= 8 {
        return false;
    }
    if kind == 1 {
        sector % 2 == 0
    } else if kind == 2 {
        sector == 0
    } else {
        true
    }
}

// An update's target, and the kind and sector of its block.
#[tactic(auto, unfolding(log_model::specs::Entries::target_fits))]
fn check_target(entry: &[u8]) -> Result<(), EntryFault>
    requires { 0x58 ≤ length entry.now }
    ensures { result ≡ target_fits entry.now }
{
    let target = u16_at(entry, 0x3c);
    let clusters = u16_at(entry, 0x3e);
    let kind = u16_at(entry, 0x42);
    let sector = u16_at(entry, 0x44);
    keep(target == 0, 0x3c)?;
    keep(clusters == 1, 0x3e)?;
    keep(kind <= 2, 0x42)?;
    keep(is_placed(kind, sector), 0x44)
}

// Its cluster.
#[tactic(auto, unfolding(log_model::specs::Entries::cluster_fits))]
fn check_cluster(entry: &[u8]) -> Result<(), EntryFault>
    requires { 0x58 ≤ length entry.now }
    ensures { result ≡ cluster_fits entry.now }
{
    let zero = u16_at(entry, 0x46);
    let vcn = u64_at(entry, 0x48);
    let lcn = u64_at(entry, 0x50);
    keep(zero == 0, 0x46)?;
    keep(vcn == 0, 0x48)?;
    keep(lcn < LCN_END, 0x50)
}

// Whether zeros stand between `n` bytes and the next multiple of 8.
fn is_filled(entry: &[u8], at: usize, n: usize) -> bool
    requires small { n < 2 ^ 16 }
    requires inside { at + up8 n ≤ length entry.now }
    ensures { result ≡ is_filled at n entry.now }
{
    all_zeros(part(entry, at + n, up8(n) - n))
}

// The zeros after its redo bytes and after its undo bytes.
#[tactic(auto, unfolding(log_model::specs::Entries::bytes_fit))]
fn check_bytes(entry: &[u8]) -> Result<(), EntryFault>
    requires { update_size (field 0x36 2 entry.now) ≤ length entry.now }
    ensures { result ≡ bytes_fit entry.now }
{
    let n = redo_length(entry);
    let undo = HEAD + up8(n);
    keep(is_filled(entry, HEAD, n), (HEAD + n) as u32)?;
    keep(is_filled(entry, undo, n), (undo + n) as u32)
}

#[tactic(auto, unfolding(log_model::specs::Entries::update_fits))]
fn update_fault(entry: &[u8]) -> Result<(), EntryFault>
    requires { update_size (field 0x36 2 entry.now) ≤ length entry.now }
    ensures { result ≡ update_fits entry.now }
{
    check_lengths(entry)?;
    check_target(entry)?;
    check_cluster(entry)?;
    check_bytes(entry)
}

/// The fields and bytes of an update; then its first sector has a number.
pub fn check_update(entry: &[u8]) -> Result<(), EntryFault>
    requires { update_size (field 0x36 2 entry.now) ≤ length entry.now }
    ensures answer { result ≡ update_fits entry.now }
    ensures first { OnOk result (8 * field 0x50 8 entry.now + field 0x44 2 entry.now < 2 ^ 64) }
{
    update_fault(entry)
}

// The lengths and offsets of a commit.
#[tactic(auto, unfolding(log_model::specs::Entries::no_lengths))]
fn check_no_lengths(entry: &[u8]) -> Result<(), EntryFault>
    requires { 0x58 ≤ length entry.now }
    ensures { result ≡ no_lengths entry.now }
{
    let operation = u16_at(entry, 0x32);
    let redo_offset = u16_at(entry, 0x34);
    let length = u16_at(entry, 0x36);
    let undo_offset = u16_at(entry, 0x38);
    let undo_length = u16_at(entry, 0x3a);
    keep(operation == 0, 0x32)?;
    keep(redo_offset == 0, 0x34)?;
    keep(length == 0, 0x36)?;
    keep(undo_offset == 0, 0x38)?;
    keep(undo_length == 0, 0x3a)
}

#[tactic(auto, unfolding(log_model::specs::Entries::no_place))]
fn check_no_place(entry: &[u8]) -> Result<(), EntryFault>
    requires { 0x58 ≤ length entry.now }
    ensures { result ≡ no_place entry.now }
{
    let clusters = u16_at(entry, 0x3e);
    let at = u16_at(entry, 0x40);
    let kind = u16_at(entry, 0x42);
    let sector = u16_at(entry, 0x44);
    let zero = u16_at(entry, 0x46);
    keep(clusters == 0, 0x3e)?;
    keep(at == 0, 0x40)?;
    keep(kind == 0, 0x42)?;
    keep(sector == 0, 0x44)?;
    keep(zero == 0, 0x46)
}

/// The fields of a commit.
#[tactic(auto, unfolding(log_model::specs::Entries::commit_fits))]
pub fn check_commit(entry: &[u8]) -> Result<(), EntryFault>
    requires { 0x58 ≤ length entry.now }
    ensures { result ≡ commit_fits entry.now }
{
    check_no_lengths(entry)?;
    check_no_place(entry)
}
