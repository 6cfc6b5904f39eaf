//! An operation that may change a volume, with room made for it in the log.
ghost use Rattle.std.specs.Prelude.{◌≡◌, ℕ, ◌<◌, true, IfSome, Ok, Err};
ghost use Rattle.serial_run.specs.Volumes.{TellsFaults};
ghost use Rattle.tree_model.specs.Steps.{IsWithinBounds};
ghost use Rattle.volume_sync.specs.volume_core.change_plan.States.{is_data_change};
ghost use Rattle.volume_sync.specs.volume_core.working_volume.declared.fault.DoFault.TheVariants.{NeedsRoom};
ghost use Rattle.volume_sync.specs.volume_core.Volumes.{volume_tree};
ghost use Rattle.volume_replies.specs.Replies.{RepliesOn, IsTried, settled, reply_of};

use sector_device::Device;
use std::alloc::Global;
use tree_model::{Op, Reply};
use volume_sync::{DoFault, Failed, Volume, make_room};

// What a try has come to: one that wanted room and yet used pages of the log wants memory, so that it
// isn't tried without end.
fn settled(tried: Result<Reply, DoFault>, idle: bool) -> Result<Reply, DoFault>
    ensures { result ≡ settled idle tried }
{
    match tried {
        Ok(reply) => Ok(reply),
        Err(DoFault::NeedsRoom { pages, room }) => {
            if idle {
                Err(DoFault::NeedsRoom { pages, room })
            } else {
                Ok(Reply::Memory)
            }
        }
        Err(DoFault::Unknown) => Err(DoFault::Unknown),
    }
}

// Tries an operation, where the log has numbers left.
fn try_change<D: Device>(
    volume: &mut Volume<D>,
    alloc: Global,
    op: &Op,
    stamp: u64,
) -> Result<Reply, DoFault>
    requires changes { is_data_change op.now ≡ true }
    requires bounds { IsWithinBounds op.now }
    ensures tried { IsTried D.gives D.sector_count D.moment_of D.fault_count D.changes_of op.now stamp result volume.old volume.new }
{
    if !volume.may_change() {
        return Err(DoFault::NeedsRoom { pages: 0, room: 0 });
    }
    volume.known();
    let before = volume.facts();
    let tried = volume.change(alloc, op, stamp);
    let after = volume.facts();
    settled(tried, after.pages_used == before.pages_used)
}

// How many pages of the log are wanted, where these are more than were made free before.
fn more_wanted(tried: &Result<Reply, DoFault>, made: u64) -> Option<u64>
    ensures { IfSome result (λ pages. (made < pages) × (room : ℕ) × (tried.now ≡ Err (NeedsRoom pages room))) }
{
    match tried {
        Err(DoFault::NeedsRoom { pages, room: _ }) => {
            if *pages > made { Some(*pages) } else { None }
        }
        Err(DoFault::Unknown) => None,
        Ok(_) => None,
    }
}

// The reply of what was tried last.
fn reply_of(tried: Result<Reply, DoFault>) -> Reply
    ensures { result ≡ reply_of tried }
{
    match tried {
        Ok(reply) => reply,
        Err(DoFault::NeedsRoom { pages: _, room: _ }) => Reply::Memory,
        Err(DoFault::Unknown) => Reply::Fault,
    }
}

// Makes so many pages free, and tries the operation then; and so on, as often as more pages are wanted
// than were made free before.
fn make_and_try<D: Device>(
    volume: &mut Volume<D>,
    alloc: Global,
    op: &Op,
    stamp: u64,
    pages: u64,
) -> Reply
    requires changes { is_data_change op.now ≡ true }
    requires bounds { IsWithinBounds op.now }
    ensures replies { RepliesOn D.gives D.sector_count D.moment_of D.changes_of op.now stamp (Ok result) volume.old volume.new }
    ensures told { TellsFaults (volume_tree D.gives volume.old) (D.fault_count volume.old.store.device) (D.fault_count volume.new.store.device) (D.moment_of volume.old.store.device) (D.moment_of volume.new.store.device) result }
{
    volume.known();
    let mut tried = Err(DoFault::NeedsRoom { pages, room: 0 });
    let mut made = 0;
    while let Some(pages) = more_wanted(&tried, made) {
        match make_room(volume, pages) {
            Ok(true) => {}
            Ok(false) => return Reply::Memory,
            Err(Failed) => return Reply::Fault,
        }
        made = pages;
        tried = try_change(volume, alloc, op, stamp);
    }
    reply_of(tried)
}

/// The reply of a volume to an operation that writes, fills or cuts a file, at this time, in units of
/// 100 ns since 1601-01-01 ([`Volume::change`]). Where the log has no room for its changes, steps of
/// the store make it ([`make_room`]), and it is tried again.
///
/// `Reply::Fault`: the device failed, in a step too; or what was read is part of no state, only where
/// what it gives isn't known. `Reply::Memory`: want of memory; or the log has no room even where
/// none of its pages is used, or no number left for a transaction, of which there are 2^32, or for a
/// lap, of which a mount leaves 2^16.
///
/// It takes the time and memory of the operation, once more for each time that room is made, and of
/// these steps.
pub fn change_with_room<D: Device>(
    volume: &mut Volume<D>,
    alloc: Global,
    op: &Op,
    stamp: u64,
) -> Reply
    requires changes { is_data_change op.now ≡ true }
    requires bounds { IsWithinBounds op.now }
    ensures replies { RepliesOn D.gives D.sector_count D.moment_of D.changes_of op.now stamp (Ok result) volume.old volume.new }
    ensures told { TellsFaults (volume_tree D.gives volume.old) (D.fault_count volume.old.store.device) (D.fault_count volume.new.store.device) (D.moment_of volume.old.store.device) (D.moment_of volume.new.store.device) result }
{
    volume.known();
    match try_change(volume, alloc, op, stamp) {
        Err(DoFault::NeedsRoom { pages, room: _ }) => make_and_try(volume, alloc, op, stamp, pages),
        Ok(reply) => reply,
        Err(DoFault::Unknown) => Reply::Fault,
    }
}
