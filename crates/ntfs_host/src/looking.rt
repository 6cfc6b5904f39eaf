//! The run of a script that only looks at a volume.
ghost use Rattle.std.specs.Prelude.{◌≡◌, None, IfOk, IfSome, string_bytes};
ghost use Rattle.tree_model.specs.Steps.{AllLook};
ghost use Rattle.volume_run.specs.Prints.{IsPrintedRun, RunsAs, counted_by};
ghost use Rattle.ntfs_host.specs.Answers.{known_mount, answer_status};
ghost use Rattle.ntfs_host.specs.Outcomes.{HasCauses, HasRunCauses};
ghost use Rattle.ntfs_host.specs.Runs.{AnswersLooks, LooksAt};

use crate::output::write_refusal;
use crate::printing::print_text;
use crate::status::{DEVICE_FAULT, MEMORY, REFUSED, status_of};
use host_base::{Gate, Sink};
use sector_device::Device;
use std::alloc::Global;
use std::sync::Wait;
use std::thread::Threads;
use tree_model::Script;
use volume_run::{MountFault, run_text};

// The text of the script's run on the volume of the device.
fn text_of_run<R: Threads + Wait, D: Device, G: Gate>(
    rt: &R,
    alloc: Global,
    script: &Script,
    time: u64,
    device: &mut D,
    gate: &G,
) -> Result<String, MountFault>
    requires looks { AllLook script.now }
    ensures answer { IfSome (known_mount (D.sector_count device.old) (D.gives device.old)) (λ m. RunsAs m script.now time (counted_by D.fault_count D.moment_of device.old) (D.fault_count device.new) result) }
    ensures told { IfOk result (λ text. IsPrintedRun None script.now time (counted_by D.fault_count D.moment_of device.old) (D.fault_count device.new) (string_bytes text)) }
    ensures leaves { LooksAt D.gives D.fault_count D.changes_of device.old device.new }
    ensures sectors { D.sector_count device.new ≡ D.sector_count device.old }
    ensures causes { HasRunCauses (answer_status result) D.fault_count D.moment_of device.old device.new }
{
    run_text(rt, alloc, script, time, device, gate)
}

/// Mounts the volume of the device to look at it, and runs a script there whose commands only look;
/// its text, or the line of what refuses the volume, goes to the sink. The device is only read.
pub fn look_at<R: Threads + Wait, K: Sink, D: Device, G: Gate>(
    rt: &R,
    alloc: Global,
    script: &Script,
    time: u64,
    sink: &mut K,
    device: &mut D,
    gate: &G,
) -> u8
    requires looks { AllLook script.now }
    ensures answers { AnswersLooks script.now time result (known_mount (D.sector_count device.old) (D.gives device.old)) (counted_by D.fault_count D.moment_of device.old) (D.fault_count device.new) (K.taken sink.old) (K.taken sink.new) }
    ensures sink_causes { HasCauses 7 result (K.faults sink.old) (K.faults sink.new) }
    ensures device_causes { HasRunCauses result D.fault_count D.moment_of device.old device.new }
    ensures leaves { LooksAt D.gives D.fault_count D.changes_of device.old device.new }
    ensures sectors { D.sector_count device.new ≡ D.sector_count device.old }
{
    match text_of_run(rt, alloc, script, time, device, gate) {
        Ok(text) => print_text(sink, &text),
        Err(MountFault::Refused(refusal)) => status_of(
            write_refusal(alloc, sink, refusal),
            REFUSED,
        ),
        Err(MountFault::Memory) => MEMORY,
        Err(MountFault::Device) => DEVICE_FAULT,
    }
}
