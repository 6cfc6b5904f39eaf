//! The run of a script that may change a volume.
ghost use Rattle.std.specs.Prelude.{◌≡◌, ◌^◌, ◌<◌, ◌≤◌, length};
ghost use Rattle.script_text.specs.Asking.{AllAsked};
ghost use Rattle.ntfs_host.specs.Outcomes.{HasCauses, HasRunCauses, LeavesRun};
ghost use Rattle.ntfs_host.specs.Runs.{flushed_status, WritesText, WritesFault, WritesRan, AnswersChanges};

use crate::host::Outcome;
use crate::output::write_refusal;
use crate::printing::write_lines;
use crate::status::{DEVICE_FAULT, DONE, MEMORY, REFUSED, SINK_FAULT, status_of};
use host_base::{Gate, Sink};
use sector_device::Device;
use std::alloc::Global;
use std::sync::Wait;
use std::thread::Threads;
use tree_model::Script;
use volume_run::Refusal;
use writing_run::{Ran, StartFault, run_text};

// The status of a run whose text is written.
fn flushed_status(flushed: bool) -> u8
    ensures { result ≡ flushed_status flushed }
{
    if flushed { DONE } else { DEVICE_FAULT }
}

// Writes the text of a run, a line at a time.
fn print_run<K: Sink>(sink: &mut K, text: &str, flushed: bool) -> u8
    ensures writes { WritesText flushed result text.now (K.taken sink.old) (K.taken sink.new) }
    ensures causes { HasCauses 7 result (K.faults sink.old) (K.faults sink.new) }
{
    match write_lines(sink, text.as_bytes()) {
        Ok(()) => flushed_status(flushed),
        Err(_) => SINK_FAULT,
    }
}

// Writes the line of a refusal, where a fault of a start is one.
fn print_fault<K: Sink>(alloc: Global, sink: &mut K, fault: StartFault) -> u8
    ensures writes { WritesFault fault result (K.taken sink.old) (K.taken sink.new) }
    ensures causes { HasCauses 7 result (K.faults sink.old) (K.faults sink.new) }
{
    let refusal = match fault {
        StartFault::Refused(refusal) => refusal,
        StartFault::Unfit => Refusal::Unbuilt { rule: 8 },
        StartFault::Unknown => Refusal::Unbuilt { rule: 9 },
        StartFault::Memory => return MEMORY,
        StartFault::Device => return DEVICE_FAULT,
    };
    status_of(write_refusal(alloc, sink, refusal), REFUSED)
}

// Writes the text of a run, or the line of what refuses it.
fn tell<K: Sink>(alloc: Global, sink: &mut K, text: Result<String, StartFault>, flushed: bool) -> u8
    ensures writes { WritesRan text flushed result (K.taken sink.old) (K.taken sink.new) }
    ensures causes { HasCauses 7 result (K.faults sink.old) (K.faults sink.new) }
{
    match text {
        Ok(text) => print_run(sink, &text, flushed),
        Err(fault) => print_fault(alloc, sink, fault),
    }
}

/// Mounts the volume of the device so that it takes changes, runs a script on it, and closes it; the
/// text, or the line of what refuses the volume, goes to the sink.
pub fn change_volume<R: Threads + Wait, K: Sink, D: Device, G: Gate>(
    rt: &R,
    alloc: Global,
    script: &Script,
    time: u64,
    sink: &mut K,
    device: D,
    gate: &G,
) -> Outcome<D>
    requires asked { AllAsked script.now }
    requires few { length script.now ≤ 16384 }
    requires early { time < 2 ^ 62 }
    ensures answers { AnswersChanges D.gives D.sector_count D.moment_of D.fault_count D.changes_of script.now time result.status device result.device (K.taken sink.old) (K.taken sink.new) }
    ensures sectors { D.sector_count result.device ≡ D.sector_count device }
    ensures leaves { LeavesRun result.status D.gives D.changes_of device result.device }
    ensures sink_causes { HasCauses 7 result.status (K.faults sink.old) (K.faults sink.new) }
    ensures device_causes { HasRunCauses result.status D.fault_count D.moment_of device result.device }
{
    let Ran {
        text,
        flushed,
        device,
    } = run_text(rt, alloc, script, time, device, gate);
    let status = tell(alloc, sink, text, flushed);
    Outcome { status, device }
}
