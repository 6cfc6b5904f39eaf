//! The run of a script on a volume.
ghost use Rattle.std.specs.Prelude.{◌≡◌, ◌^◌, ◌<◌, ◌≤◌, ◌↔◌, true, length};
ghost use Rattle.script_text.specs.Asking.{AllAsked};
ghost use Rattle.tree_model.specs.Steps.{is_look};
ghost use Rattle.ntfs_host.specs.declared.command.Asked.TheVariants.{Run};
ghost use Rattle.ntfs_host.specs.Outcomes.{Answers, HasCauses, HasRunCauses, KeepsOrder, LeavesRun, LeavesDevice, IsWhole};
ghost use Rattle.ntfs_host.specs.Runs.{looks, only_looks, AnswersScript, NothingRefuses, WritesNoScript, CallsForLine};

use crate::changing::change_volume;
use crate::host::Outcome;
use crate::looking::look_at;
use crate::output::write_script_fault;
use crate::scripts::{ScriptError, read_script};
use crate::status::{MEMORY, NO_SCRIPT, SOURCE_FAULT, status_of};
use host_base::{Gate, Sink, Source};
use sector_device::Device;
use std::alloc::Global;
use std::sync::Wait;
use std::thread::Threads;
use tree_model::{Command, Op, Script, What};

// Whether an operation only looks.
fn is_look(op: &Op) -> bool
    ensures { result ≡ is_look op.now }
{
    matches!(op, Op::Stat { .. } | Op::List { .. } | Op::Read { .. })
}

// Whether a command asks for such an operation.
fn looks(command: &Command) -> bool
    ensures { result ≡ looks command.now.what }
{
    match &command.what {
        What::Op(op) => is_look(op),
        What::Find(_) => true,
    }
}

// Whether all commands of a script do.
fn only_looks(script: &Script) -> bool
    ensures { result ≡ only_looks script.now }
{
    script.as_slice().iter().all(|command| looks(command))
}

// Runs a script on the volume of the device.
fn run_script<R: Threads + Wait, K: Sink, D: Device, G: Gate>(
    rt: &R,
    alloc: Global,
    script: &Script,
    time: u64,
    sink: &mut K,
    device: D,
    gate: &G,
) -> Outcome<D>
    requires asked { AllAsked script.now }
    requires few { length script.now ≤ 16384 }
    requires early { time < 2 ^ 62 }
    ensures answers { AnswersScript D.gives D.sector_count D.moment_of D.fault_count D.changes_of script.now (only_looks script.now) time result.status device result.device (K.taken sink.old) (K.taken sink.new) }
    ensures sectors { D.sector_count result.device ≡ D.sector_count device }
    ensures sink_causes { HasCauses 7 result.status (K.faults sink.old) (K.faults sink.new) }
    ensures device_causes { HasRunCauses result.status D.fault_count D.moment_of device result.device }
    ensures leaves { LeavesRun result.status D.gives D.changes_of device result.device }
{
    if !only_looks(script) {
        return change_volume(rt, alloc, script, time, sink, device, gate);
    }
    let mut device = device;
    let status = look_at(rt, alloc, script, time, sink, &mut device, gate);
    Outcome { status, device }
}

// Writes why a source has no script, and gives the status.
fn tell_no_script<K: Sink>(alloc: Global, sink: &mut K, error: ScriptError) -> u8
    ensures writes { WritesNoScript error result (K.taken sink.old) (K.taken sink.new) }
    ensures calls { CallsForLine error sink.old sink.new }
    ensures causes { HasCauses 7 result (K.faults sink.old) (K.faults sink.new) }
{
    match error {
        ScriptError::Refused(fault) => {
            let written = write_script_fault(alloc, sink, fault);
            status_of(written, NO_SCRIPT)
        }
        ScriptError::Memory => MEMORY,
        ScriptError::Source => SOURCE_FAULT,
    }
}

/// Reads the script of the source and runs it on the volume of the device; its text, or the line of
/// what refuses the script or the volume, goes to the sink.
///
/// The whole source is read first, then the volume is mounted, then the commands have their turns on
/// it from the time `time` on, in units of 100 ns since 1601-01-01, and then the text is written, a
/// line at a time. The volume is one of eight sectors a cluster that a mount doesn't refuse, and names
/// are in order by its own table of upper-case units. Mounting it reads what a check reads, and costs
/// as much; each command asks the volume's own indexes. A script that only looks leaves the device only
/// read ([`look_at`]). For another one the volume has to be one that may be changed (`refused 17
/// Unbuilt 8` and `9`): what its log recovers is written out, a session is opened there, and behind the
/// commands the volume is closed, which writes out all that they changed ([`change_volume`]).
///
/// So a refusal of the volume, or the status of a failure of the device, comes only of a script that is
/// accepted; without one the device isn't called, and the sink isn't before the source was read to its
/// end. A volume that is refused is only read. A command in which the device fails is replied `fault`,
/// and the run goes on.
pub fn run_command<R: Threads + Wait, S: Source, K: Sink, D: Device, G: Gate>(
    rt: &R,
    alloc: Global,
    time: u64,
    source: &mut S,
    sink: &mut K,
    device: D,
    gate: &G,
) -> Outcome<D>
    requires early { time < 2 ^ 62 }
    ensures answers { Answers (Run time) result.status (S.left source.old) D.sector_count D.gives D.fault_count D.moment_of D.changes_of device result.device K.taken sink.old sink.new }
    ensures source_causes { HasCauses 5 result.status (S.faults source.old) (S.faults source.new) }
    ensures sink_causes { HasCauses 7 result.status (K.faults sink.old) (K.faults sink.new) }
    ensures device_causes { HasRunCauses result.status D.fault_count D.moment_of device result.device }
    ensures order { KeepsOrder (Run time) result.status S.left source.old source.new sink.old sink.new device result.device }
    ensures leaves { LeavesDevice (Run time) result.status D.sector_count D.gives D.moment_of D.changes_of device result.device }
    ensures whole { IsWhole (Run time) result.status (S.left source.old) D.sector_count D.gives device }
{
    match read_script(alloc, source) {
        Ok(script) => run_script(rt, alloc, &script, time, sink, device, gate),
        Err(error) => {
            let status = tell_no_script(alloc, sink, error);
            Outcome { status, device }
        }
    }
}
