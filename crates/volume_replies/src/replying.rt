//! The reply of a volume.
ghost use Rattle.std.specs.Prelude.{◌≡◌, true};
ghost use Rattle.script_text.specs.Asking.{is_asked};
ghost use Rattle.serial_run.specs.Volumes.{TellsFaults};
ghost use Rattle.tree_model.specs.declared.script.Op.TheVariants.{Sync};
ghost use Rattle.tree_model.specs.Steps.{is_look, IsWithinBounds};
ghost use Rattle.volume_sync.specs.volume_core.Volumes.{volume_tree};
ghost use Rattle.volume_replies.specs.Replies.{RepliesOn, SyncsOn, Answers};

use crate::rooming::change_with_room;
use sector_device::Device;
use std::alloc::Global;
use tree_model::{Op, Reply};
use volume_sync::{Failed, Volume, sync};

// The reply to an operation that only looks.
fn look<D: Device>(volume: &mut Volume<D>, alloc: Global, op: &Op, stamp: u64) -> Reply
    requires looks { is_look op.now ≡ true }
    ensures replies { RepliesOn D.gives D.sector_count D.moment_of D.changes_of op.now stamp (Ok result) volume.old volume.new }
    ensures told { TellsFaults (volume_tree D.gives volume.old) (D.fault_count volume.old.store.device) (D.fault_count volume.new.store.device) (D.moment_of volume.old.store.device) (D.moment_of volume.new.store.device) result }
{
    let _ = stamp;
    volume.look(alloc, op)
}

// The reply to a sync behind so many turns.
fn sync_reply<D: Device>(volume: &mut Volume<D>, turns: u64) -> Reply
    ensures syncs { SyncsOn D.gives D.sector_count D.moment_of D.changes_of turns result volume.old volume.new }
    ensures told { TellsFaults (volume_tree D.gives volume.old) (D.fault_count volume.old.store.device) (D.fault_count volume.new.store.device) (D.moment_of volume.old.store.device) (D.moment_of volume.new.store.device) result }
{
    match sync(volume) {
        Ok(()) => Reply::Synced { turns },
        Err(Failed) => Reply::Fault,
    }
}

/// The reply of a volume to an operation of a script: one that looks ([`Volume::look`]), one that
/// writes, fills or cuts a file ([`change_with_room`]), at this time, in units of 100 ns since
/// 1601-01-01, or a sync ([`volume_sync::sync`]), which says that all of so many turns before it are
/// durable.
///
/// `Reply::Fault` and `Reply::Memory` come as these calls say, `Reply::Memory` never of a sync. It
/// costs what they do.
pub fn reply_to<D: Device>(
    volume: &mut Volume<D>,
    alloc: Global,
    op: &Op,
    stamp: u64,
    turns: u64,
) -> Reply
    requires asked { is_asked op.now ≡ true }
    requires bounds { IsWithinBounds op.now }
    ensures answers { Answers D.gives D.sector_count D.moment_of D.changes_of op.now stamp turns result volume.old volume.new }
    ensures told { TellsFaults (volume_tree D.gives volume.old) (D.fault_count volume.old.store.device) (D.fault_count volume.new.store.device) (D.moment_of volume.old.store.device) (D.moment_of volume.new.store.device) result }
{
    match op {
        Op::Stat { .. } | Op::List { .. } | Op::Read { .. } => look(volume, alloc, op, stamp),
        Op::Write { .. } | Op::Fill { .. } | Op::Truncate { .. } => {
            change_with_room(volume, alloc, op, stamp)
        }
        Op::Sync => sync_reply(volume, turns),
        _ => unreachable!(),
    }
}
