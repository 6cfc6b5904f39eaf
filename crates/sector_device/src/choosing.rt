//! An image that a crash leaves, made out of kept calls: those after a number of them are taken
//! back whole, and of the writes since the sync before some.
ghost use Rattle.std.specs.Prelude.{◌≡◌, ℕ, ◌+◌, ◌*◌, ◌/◌, ◌<◌, ◌≤◌, [], ◌∷◌, false, List, length, take, drop, reverse, slice_index_or};
ghost use Rattle.disk_model.specs.Sectors.{sector_of};
ghost use Rattle.sector_device.specs.declared.memory.KeptCall.{KeptCall};
ghost use Rattle.sector_device.specs.Disks.{Disk, MayHold};
ghost use Rattle.sector_device.specs.Kept.{disk_by, write_call};
ghost use Rattle.sector_device.specs.Left.{before_call, before_calls, IsInside, AreInside, is_sync, IsFair, Decides};
ghost use Rattle.sector_device.specs.Sectors.{sectors_of};

use crate::device::SECTOR_BYTES;
use crate::memory::{KeptCall, write_over};

// Puts back what a write wrote over.
fn put_back(first: u64, old: &[u8], image: &mut [u8])
    requires { first + length (sectors_of old.now) ≤ length image.old / 512 }
    ensures { sectors_of image.new ≡ before_call (write_call 0 first old.now) (sectors_of image.old) }
{
    let whole = SECTOR_BYTES * (old.len() / SECTOR_BYTES);
    write_over(image, SECTOR_BYTES * first as usize, &old[..whole]);
}

// Takes a call back.
fn take_call(call: &KeptCall, image: &mut [u8])
    requires { IsInside (length image.old / 512) call.now }
    ensures { sectors_of image.new ≡ before_call call.now (sectors_of image.old) }
{
    match call {
        KeptCall::Write { at: _, first, old } => put_back(*first, old.as_slice(), image),
        KeptCall::Read => {}
        KeptCall::Sync { at: _ } => {}
        KeptCall::Failed => {}
    }
}

// Takes the calls after the first `count` back, the newest first.
fn take_back(done: &[KeptCall], count: usize, image: &mut [u8])
    requires within { count ≤ length done.now }
    requires inside { AreInside (length image.old / 512) (reverse done.now) }
    ensures sectors { sectors_of image.new ≡ before_calls (reverse (drop count done.now)) (sectors_of image.old) }
    ensures inside { AreInside (length image.new / 512) (reverse (take count done.now)) }
{
    let mut left = done.len();
    while left > count {
        left -= 1;
        take_call(&done[left], image);
    }
}

// Decides a sector, which keeps its value, or gives it the old one; none that is decided changes.
fn decide(sector: usize, old: &[u8], is_taken: bool, image: &mut [u8], decided: &mut [bool])
    requires whole { length old.now ≡ 512 }
    requires within { sector < length image.old / 512 }
    requires few { length decided.old ≡ length image.old / 512 }
    ensures { Decides sector old.now (sectors_of image.old) (sectors_of image.new) decided.old decided.new }
{
    if decided[sector] {
        return;
    }
    if is_taken {
        decided[sector] = true;
    } else {
        write_over(image, SECTOR_BYTES * sector, old);
    }
}

// The sectors of a write, each by its flag; the flags behind them.
fn choose_of_write<'a>(
    first: u64,
    old: &[u8],
    flags: &'a [bool],
    image: &mut [u8],
    decided: &mut [bool],
) -> &'a [bool]
    requires within { first + length (sectors_of old.now) ≤ length image.old / 512 }
    requires few { length decided.old ≡ length image.old / 512 }
    ensures { (disk : Disk) (at : ℕ) (calls : List KeptCall) → IsFair disk (sectors_of image.old) decided.old 0 [] (write_call at first old.now ∷ calls) → IsFair disk (sectors_of image.new) decided.new 0 [] calls }
{
    let count = old.len() / SECTOR_BYTES;
    let (here, later) = flags.split_at(count.min(flags.len()));
    for j in 0..count {
        let is_taken = j < here.len() && here[j];
        let value = &old[SECTOR_BYTES * j..SECTOR_BYTES * j + SECTOR_BYTES];
        decide(first as usize + j, value, is_taken, image, decided);
    }
    later
}

// The sectors of a call that isn't a sync.
fn choose_of_call<'a>(
    call: &KeptCall,
    flags: &'a [bool],
    image: &mut [u8],
    decided: &mut [bool],
) -> &'a [bool]
    requires unsynced { is_sync call.now ≡ false }
    requires within { IsInside (length image.old / 512) call.now }
    requires few { length decided.old ≡ length image.old / 512 }
    ensures { (disk : Disk) (calls : List KeptCall) → IsFair disk (sectors_of image.old) decided.old 0 [] (call.now ∷ calls) → IsFair disk (sectors_of image.new) decided.new 0 [] calls }
{
    match call {
        KeptCall::Write { at: _, first, old } => {
            choose_of_write(*first, old.as_slice(), flags, image, decided)
        }
        KeptCall::Read => flags,
        KeptCall::Sync { at: _ } => flags,
        KeptCall::Failed => flags,
    }
}

fn is_sync(call: &KeptCall) -> bool
    ensures { result ≡ is_sync call.now }
{
    matches!(call, KeptCall::Sync { at: _ })
}

// The sectors written since the last sync: from the newest write back, those whose flag is set keep
// their value.
fn choose(done: &[KeptCall], flags: &[bool], image: &mut [u8], decided: &mut [bool])
    requires inside { AreInside (length image.old / 512) (reverse done.now) }
    requires few { length decided.old ≡ length image.old / 512 }
    ensures { (disk : Disk) → IsFair disk (sectors_of image.old) decided.old 0 [] (reverse done.now) → (s : ℕ) → MayHold disk s (sector_of (sectors_of image.new) s) }
{
    let mut left = done.len();
    let mut rest = flags;
    while left > 0 {
        left -= 1;
        let call = &done[left];
        if is_sync(call) {
            return;
        }
        rest = choose_of_call(call, rest, image, decided);
    }
}

// Makes of the present bytes an image that a crash leaves after the first `count` calls.
pub(crate) fn leave(
    done: &[KeptCall],
    count: usize,
    flags: &[bool],
    image: &mut [u8],
    decided: &mut [bool],
)
    requires within { count ≤ length done.now }
    requires inside { AreInside (length image.old / 512) (reverse done.now) }
    requires few { length decided.old ≡ length image.old / 512 }
    requires none { (s : ℕ) → slice_index_or decided.old s false ≡ false }
    ensures { (s : ℕ) → MayHold (disk_by (before_calls (reverse (drop count done.now)) (sectors_of image.old)) (reverse (take count done.now))) s (sector_of (sectors_of image.new) s) }
{
    take_back(done, count, image);
    choose(&done[..count], flags, image, decided);
}
