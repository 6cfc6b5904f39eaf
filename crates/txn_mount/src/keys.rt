//! Which blocks a mount puts out, and in which order.
ghost use Rattle.std.specs.Prelude.{◌≡◌, ◌+◌, ◌*◌, ◌^◌, ◌<◌, All, IfOk, length};
ghost use Rattle.std.specs.List.Sorted.{IsPermutation, IsNonDecreasingBy};
ghost use Rattle.disk_model.specs.Sectors.{sectors};
ghost use Rattle.log_recovery.specs.Recovering.{IsSized};
ghost use Rattle.txn_mount.specs.declared.puts.PutOut.{PutOut as PutOutOf};
ghost use Rattle.txn_mount.specs.Puts.{may_put, keys_where, AreKeys};

use crate::puts::PutOut;
use fixup_record::has_spelling;
use log_recovery::RecoveredBlock;
use std::alloc::{AllocError, Global};

// Whether the body has a spelling, and its block lies among so many sectors.
fn may_put(made: &RecoveredBlock, count: u64) -> bool
    requires { length made.now.body.bytes ≡ 512 * sectors made.now.block.kind }
    ensures { result ≡ may_put count made.now }
{
    let own = made.block.kind.sectors() as u64;
    has_spelling(made.block.kind, made.body.bytes())
        && made.block.first <= count
        && own <= count - made.block.first
}

// The keys of the bodies that may be put out.
fn some_keys(
    alloc: Global,
    bodies: &[RecoveredBlock],
    count: u64,
) -> Result<Vec<PutOut>, AllocError>
    requires { All IsSized bodies.now }
    ensures { IfOk result (λ keys. keys.items ≡ keys_where (may_put count) 0 bodies.now) }
{
    let mut keys = Vec::new(alloc);
    for place in 0..bodies.len() {
        let made = &bodies[place];
        if may_put(made, count) {
            let first = made.block.first;
            keys.push(PutOut { first, place })?;
        }
    }
    Ok(keys)
}

// Sorts the keys by rising first sector.
fn sort_keys(keys: &mut Vec<PutOut>)
    ensures rising { IsNonDecreasingBy (λ (k : PutOutOf). k.first) keys.new.items }
    ensures same { IsPermutation keys.old.items keys.new.items }
{
    keys.sort_unstable_by_key(|key| key.first);
}

/// The blocks of these bodies that a mount puts out on a device of so many sectors, by rising first
/// sector: those whose body has a spelling. The error is want of memory. Near-linear in the bodies.
pub fn keys_of(
    alloc: Global,
    bodies: &[RecoveredBlock],
    count: u64,
) -> Result<Vec<PutOut>, AllocError>
    requires { All IsSized bodies.now }
    ensures { IfOk result (λ keys. AreKeys count bodies.now keys.items) }
{
    let mut keys = some_keys(alloc, bodies, count)?;
    sort_keys(&mut keys);
    Ok(keys)
}
