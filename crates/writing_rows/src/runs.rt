//! Runs of scripts on devices in memory.
ghost use Rattle.std.specs.Prelude.{◌≡◌, true};
ghost use Rattle.tree_model.specs.Steps.{is_look, OnlyLooks, AllLook};

use crate::volume::device_of;
use host_base::{Gate, NoGate};
use script_text::{Command, Op, Script, ScriptText, What};
use sector_device::Device;
use std::alloc::Global;
use std::sync::Wait;
use std::test::Fail;
use std::thread::Threads;
use volume_run::MountFault;
use writing_run::{Ran, run_text};

// The time before the first turn.
const TIME: u64 = 1000;

/// A run of a script on the volume of a device, which it may change.
pub fn change<R: Threads + Wait, D: Device + Drop, G: Gate>(
    rt: &R,
    alloc: Global,
    script: &[u8],
    device: D,
    gate: &G,
) -> Result<Ran<D>, Fail> {
    let script = Script::read(alloc, script)?;
    if script.as_slice().len() > 16_384 {
        return Err("too many commands".into());
    }
    Ok(run_text(rt, alloc, &script, TIME, device, gate))
}

// Whether an operation only looks.
fn is_look(op: &Op) -> bool
    ensures { result ≡ is_look op.now }
{
    matches!(op, Op::Stat { .. } | Op::List { .. } | Op::Read { .. })
}

// Whether a command asks for such an operation.
fn looks(command: &Command) -> bool
    ensures { result ≡ true → OnlyLooks command.now.what }
{
    match &command.what {
        What::Op(op) => is_look(op),
        What::Find(_) => true,
    }
}

// Whether all commands of a script do.
fn only_looks(script: &Script) -> bool
    ensures { result ≡ true → AllLook script.now }
{
    script.as_slice().iter().all(|command| looks(command))
}

// A run of a script of such commands on the volume of a device.
fn look_at<R: Threads + Wait, D: Device>(
    rt: &R,
    alloc: Global,
    script: &Script,
    device: &mut D,
) -> Result<String, MountFault>
    requires { AllLook script.now }
{
    volume_run::run_text(rt, alloc, script, TIME, device, &NoGate)
}

/// A run of a script that only looks on the volume of a device.
pub fn look_on<R: Threads + Wait, D: Device>(
    rt: &R,
    alloc: Global,
    script: &[u8],
    device: &mut D,
) -> Result<Result<String, MountFault>, Fail> {
    let script = Script::read(alloc, script)?;
    if !only_looks(&script) {
        return Err("a script that changes".into());
    }
    Ok(look_at(rt, alloc, &script, device))
}

/// The same on an image.
pub fn look<R: Threads + Wait>(
    rt: &R,
    alloc: Global,
    script: &[u8],
    image: &[u8],
) -> Result<Result<String, MountFault>, Fail> {
    let mut device = device_of(alloc, image.to_vec(alloc)?, &[])?;
    look_on(rt, alloc, script, &mut device)
}
