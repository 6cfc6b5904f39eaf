ghost use Rattle.std.specs.Prelude.{◌≡◌, ◌≤◌, true, IfOk, OnOk, IfSome};
ghost use Rattle.tree_model.specs.Steps.{is_look, OnlyLooks, AllLook};
ghost use Rattle.run_model.specs.Runs.{next_of};
ghost use Rattle.serial_run.specs.Runs.{IsRunOf, TakesTurns, IsTurnOf, Follows};

use crate::volume::AskedVolume;
use host_base::{Gate, Memory};
use run_model::Turn;
use std::alloc::Global;
use std::sync::Wait;
use std::thread::Threads;
use tree_model::{Command, Op, Script, What};

// The turn of an operation: its reply, the journal's next USN, and what the device counted.
fn turn_of<V: AskedVolume>(
    alloc: Global,
    volume: &mut V,
    next: u64,
    serial: u64,
    command: &Command,
    op: &Op,
) -> Result<Turn, Memory>
    requires looks { is_look op.now ≡ true }
    ensures turn { IfOk result (λ turn. IsTurnOf (V.upper volume.old) (V.tree volume.old) next (V.fault_count volume.old) (V.fault_count volume.new) (V.moment_of volume.old) (V.moment_of volume.new) serial command.now op.now turn) }
    ensures same { (V.tree volume.new ≡ V.tree volume.old) × (V.upper volume.new ≡ V.upper volume.old) × (V.kept volume.new ≡ V.kept volume.old) }
    ensures later { V.fault_count volume.old ≤ V.fault_count volume.new }
{
    let op = op.clone()?;
    let faults_before = volume.faults();
    let reply = volume.answer(alloc, &op);
    Ok(Turn {
        client: command.client,
        number: command.number,
        serial,
        usn: next,
        moment: volume.moment(),
        faults_before,
        faults_after: volume.faults(),
        op,
        reply,
    })
}

// Appends the turn of a command, if it takes one.
fn take_turn<V: AskedVolume>(
    alloc: Global,
    volume: &mut V,
    next: u64,
    command: &Command,
    turns: &mut Vec<Turn>,
) -> Result<(), Memory>
    requires { OnlyLooks command.now.what }
    ensures turn { OnOk result (Follows (V.upper volume.old) (V.tree volume.old) next (V.fault_count volume.old) (V.fault_count volume.new) (V.moment_of volume.old) (V.moment_of volume.new) command.now command.now.what turns.old.items turns.new.items) }
    ensures same { (V.tree volume.new ≡ V.tree volume.old) × (V.upper volume.new ≡ V.upper volume.old) × (V.kept volume.new ≡ V.kept volume.old) }
    ensures later { V.fault_count volume.old ≤ V.fault_count volume.new }
{
    let What::Op(op) = &command.what else {
        return Ok(());
    };
    let serial = turns.len() as u64 + 1;
    let turn = turn_of(alloc, volume, next, serial, command, op)?;
    turns.push(turn).map_err(|_| Memory)
}

/// The turns of a script's commands, one after the other in its order, on a volume that none of them
/// changes, whose change journal's next record goes to the USN `next`, 0 where there is none. The
/// turn with the serial k is at the time `time + k`, in units of 100 ns since 1601-01-01; no reply
/// tells it, since no command sets a time. `gate.pass` is called before each command. A command in
/// which the device fails has `fault` as its reply, one that wants memory has that, and the run goes
/// on; the error is want of memory for the turns themselves. It takes one answer for each command.
pub fn serial_run<R: Threads + Wait, V: AskedVolume, G: Gate>(
    rt: &R,
    alloc: Global,
    volume: &mut V,
    next: u64,
    script: &Script,
    time: u64,
    gate: &G,
) -> Result<Vec<Turn>, Memory>
    requires looks { AllLook script.now }
    requires next { IfSome (V.tree volume.old) (λ t. next_of t.journal ≡ next) }
    ensures run { IfOk result (λ turns. IfSome (V.tree volume.old) (λ t. IsRunOf (V.upper volume.old) t script.now time (V.fault_count volume.old) turns.items)) }
    ensures kept { V.kept volume.new ≡ V.kept volume.old }
    ensures later { V.fault_count volume.old ≤ V.fault_count volume.new }
    ensures turns { IfOk result (λ turns. TakesTurns script.now (V.fault_count volume.old) (V.fault_count volume.new) turns.items) }
{
    let mut turns: Vec<Turn> = Vec::new(alloc);
    for command in script.as_slice() {
        gate.pass(rt, command.client, command.number);
        take_turn(alloc, volume, next, command, &mut turns)?;
    }
    Ok(turns)
}
