//! A script's run on the volume of a device.
ghost use Rattle.std.specs.Prelude.{◌≡◌, false, Err, ◌+◌, ◌^◌, ◌<◌, ◌≤◌, [], length, IfOk, IfErr, IfSome, string_bytes};
ghost use Rattle.run_model.specs.Texts.{IsRunText};
ghost use Rattle.script_text.specs.Asking.{AllAsked};
ghost use Rattle.change_run.specs.Turns.{AreBlank};
ghost use Rattle.writing_run.specs.Runs.{RunsAndCloses, RunsScript, is_flushed};

use change_run::{Volume, blank_turns, laps_bounded, run_turns};
use host_base::{Gate, Memory};
use run_model::Turn;
use sector_device::{Device, LAST_MOMENT};
use std::alloc::Global;
use std::sync::Wait;
use std::thread::Threads;
use tree_model::Script;
use volume_open::{CloseFault, Refusal, StartFault, mount};

/// What a run of a script came to, and the device.
#[derive(Drop)]
pub struct Ran<D> {
    /// The printed text of its turns, or why there is none.
    pub text: Result<String, StartFault>,
    /// Whether all that the turns changed is on the device: the closing flush didn't fail.
    pub flushed: bool,
    pub device: D,
}

// What refuses a device without sectors.
const NO_SECTORS: Refusal = Refusal::Short {
    sectors: 1,
    device: 0,
};

// No command has a turn.
fn not_run<D>(device: D, fault: StartFault) -> Ran<D>
    ensures text { result.text ≡ Err fault }
    ensures flushed { result.flushed ≡ false }
    ensures device { result.device ≡ device }
{
    Ran {
        text: Err(fault),
        flushed: false,
        device,
    }
}

// Whether a close has left all on the device: a log that couldn't be marked clean is recovered by
// the next mount.
fn is_flushed(closed: &Result<(), CloseFault>) -> bool
    ensures { result ≡ is_flushed closed.now }
{
    match closed {
        Ok(()) => true,
        Err(CloseFault::Unmarked) => true,
        Err(CloseFault::Fault) => false,
    }
}

// Lets the commands have their turns on an opened volume, and closes it.
fn run_opened<R: Threads + Wait, D: Device, G: Gate>(
    rt: &R,
    alloc: Global,
    mut volume: Volume<D>,
    script: &Script,
    time: u64,
    gate: &G,
    turns: &mut [Turn],
) -> (bool, D)
    requires asked { AllAsked script.now }
    requires blank { AreBlank script.now turns.old }
    requires early { time + length script.now < 2 ^ 63 }
    ensures { RunsAndCloses D.gives D.sector_count D.moment_of D.fault_count D.changes_of script.now time turns.new volume result.0 result.1 }
{
    run_turns(rt, alloc, &mut volume, script, time, gate, turns);
    let _faults = volume.device().faults();
    let (closed, device) = volume.close();
    (is_flushed(&closed), device)
}

// The printed text of turns.
fn text_of(alloc: Global, turns: &[Turn]) -> Result<String, Memory>
    ensures { IfOk result (λ text. IsRunText turns.now [] (string_bytes text)) }
{
    let mut text = String::new(alloc);
    transcript::text(turns, &[], &mut text)?;
    Ok(text)
}

// The text of a run, or want of memory for it.
fn text_or_memory(alloc: Global, turns: &[Turn]) -> Result<String, StartFault>
    ensures text { IfOk result (λ text. IsRunText turns.now [] (string_bytes text)) }
    ensures memory { IfErr result (λ e. e ≡ StartFault.Memory) }
{
    match text_of(alloc, turns) {
        Ok(text) => Ok(text),
        Err(Memory) => Err(StartFault::Memory),
    }
}

/// Runs a script on the volume of a device, from the time `time` on, in units of 100 ns since
/// 1601-01-01: the volume is mounted so that it takes changes ([`volume_open::mount`]), the commands
/// have their turns ([`run_turns`]), and the volume is closed, which writes out all that they changed
/// and marks the log clean. `gate.pass` is called before each command. A command in which the device
/// fails is replied `fault`, one that wants memory has that, and the run goes on.
///
/// All memory for the turns is taken before the device is called. It costs the mount, which reads what
/// a check reads and the log once more, each command's own costs, and the writing out of each block
/// that was changed.
///
/// - [`StartFault::Memory`]: want of memory for the turns or the mount, and then nothing was written to
///   the device; or for the text, behind a run that was closed.
/// - [`StartFault::Device`]: the device failed in the mount, or its last moment had come before.
/// - The others are those of the mount.
pub fn run_text<R: Threads + Wait, D: Device, G: Gate>(
    rt: &R,
    alloc: Global,
    script: &Script,
    time: u64,
    device: D,
    gate: &G,
) -> Ran<D>
    requires asked { AllAsked script.now }
    requires few { length script.now ≤ 16384 }
    requires early { time + length script.now < 2 ^ 63 }
    ensures { RunsScript D.gives D.sector_count D.moment_of D.fault_count D.changes_of script.now time result.text result.flushed device result.device }
{
    laps_bounded();
    let _faults = device.faults();
    let mut turns = match blank_turns(alloc, script) {
        Ok(turns) => turns,
        Err(Memory) => return not_run(device, StartFault::Memory),
    };
    if device.sectors() == 0 {
        return not_run(device, StartFault::Refused(NO_SECTORS));
    }
    if device.moment() >= LAST_MOMENT {
        return not_run(device, StartFault::Device);
    }
    match mount(alloc, device) {
        Ok(volume) => {
            let (flushed, device) = run_opened(rt, alloc, volume, script, time, gate, &mut turns);
            Ran {
                text: text_or_memory(alloc, &turns),
                flushed,
                device,
            }
        }
        Err((fault, device)) => not_run(device, fault),
    }
}
