//! One turn of a run.
ghost use Rattle.std.specs.Prelude.{◌≡◌, ◌+◌, ◌^◌, ◌<◌, true};
ghost use Rattle.tree_model.specs.Steps.{IsWithinBounds};
ghost use Rattle.script_text.specs.Asking.{is_asked};
ghost use Rattle.change_run.specs.Turns.{IsTurnOn};

use run_model::Turn;
use sector_device::Device;
use std::alloc::Global;
use volume_replies::{Volume, reply_to};

/// Lets a command have its turn, in a run that began at this time, in units of 100 ns since
/// 1601-01-01: its operation is done at the time of its serial, and the turn gets its reply, and what
/// the device counted before and after it.
pub fn take_turn<D: Device>(volume: &mut Volume<D>, alloc: Global, time: u64, turn: &mut Turn)
    requires asked { is_asked turn.old.op ≡ true }
    requires bounds { IsWithinBounds turn.old.op }
    requires some { 0 < turn.old.serial }
    requires early { time + turn.old.serial < 2 ^ 63 }
    ensures { IsTurnOn D.gives D.sector_count D.moment_of D.fault_count D.changes_of time turn.old turn.new volume.old volume.new }
{
    turn.usn = 0;
    turn.faults_before = volume.device().faults();
    turn.reply = reply_to(volume, alloc, &turn.op, time + turn.serial, turn.serial - 1);
    turn.moment = volume.device().moment();
    turn.faults_after = volume.device().faults();
    volume.known();
}
