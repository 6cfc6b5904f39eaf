//! A run.
ghost use Rattle.std.specs.Prelude.{◌≡◌, ◌+◌, ◌^◌, ◌<◌, length, IfErr, IfOk};
ghost use Rattle.script_text.specs.Asking.{AllAsked};
ghost use Rattle.change_run.specs.Turns.{AreBlank};
ghost use Rattle.change_run.specs.Runs.{RunsSoFar};

use crate::blank::blank_turns;
use crate::turning::take_turn;
use host_base::{Gate, Memory};
use run_model::Turn;
use sector_device::Device;
use std::alloc::Global;
use std::sync::Wait;
use std::thread::Threads;
use tree_model::Script;
use volume_replies::Volume;

/// Lets the commands of a script have their turns on a volume, one after the other in its order
/// ([`blank_turns`]). The turn with the serial k is at the time `time + k`, in units of 100 ns since
/// 1601-01-01. `gate.pass` is called before each command. A command in which the device fails has
/// `fault` as its reply, one that wants memory has that, and the run goes on.
///
/// It takes one reply for each command ([`volume_replies::reply_to`]).
pub fn run_turns<R: Threads + Wait, D: Device, G: Gate>(
    rt: &R,
    alloc: Global,
    volume: &mut Volume<D>,
    script: &Script,
    time: u64,
    gate: &G,
    turns: &mut [Turn],
)
    requires asked { AllAsked script.now }
    requires blank { AreBlank script.now turns.old }
    requires early { time + length script.now < 2 ^ 63 }
    ensures { RunsSoFar D.gives D.sector_count D.moment_of D.fault_count D.changes_of script.now time (length script.now) turns.new volume.old volume.new }
{
    let _ = script;
    for i in 0..turns.len() {
        gate.pass(rt, turns[i].client, turns[i].number);
        take_turn(volume, alloc, time, &mut turns[i]);
    }
}

/// The turns of a script on a volume ([`run_turns`]). All memory for them is taken before the first:
/// the error is want of it, and then nothing was done.
pub fn change_run<R: Threads + Wait, D: Device, G: Gate>(
    rt: &R,
    alloc: Global,
    volume: &mut Volume<D>,
    script: &Script,
    time: u64,
    gate: &G,
) -> Result<Vec<Turn>, Memory>
    requires asked { AllAsked script.now }
    requires early { time + length script.now < 2 ^ 63 }
    ensures runs { IfOk result (λ turns. RunsSoFar D.gives D.sector_count D.moment_of D.fault_count D.changes_of script.now time (length script.now) turns.items volume.old volume.new) }
    ensures undone { IfErr result (λ _. volume.new ≡ volume.old) }
{
    let mut turns = blank_turns(alloc, script)?;
    run_turns(rt, alloc, volume, script, time, gate, &mut turns);
    Ok(turns)
}
