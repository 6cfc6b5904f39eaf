//! A script's run on a mounted volume.
ghost use Rattle.std.specs.Prelude.{◌≡◌, ◌<◌, None, [], IfOk, IfSome, IsErrOf, string_bytes};
ghost use Rattle.host_base.specs.Causes.{HasFailed, last_moment};
ghost use Rattle.device_view.specs.Devices.{KeepsDevice};
ghost use Rattle.tree_model.specs.Steps.{AllLook};
ghost use Rattle.run_model.specs.Texts.{IsRunText};
ghost use Rattle.volume_mount.specs.image_open.declared.refusal.Refusal.{Refusal as RefusalOf};
ghost use Rattle.serial_run.specs.Runs.{IsRunOf, TakesTurns};
ghost use Rattle.volume_mount.specs.Trees.{tree_shown};
ghost use Rattle.volume_mount.specs.Mounts.{mounted_of};
ghost use Rattle.volume_run.specs.Prints.{IsPrintedRun, RunsAs, counted_by};

use crate::volume::RunVolume;
use device_view::piece_room;
use host_base::{Gate, Memory};
use run_model::Turn;
use sector_device::Device;
use serial_run::{Script, serial_run};
use std::alloc::Global;
use std::sync::Wait;
use std::thread::Threads;
use volume_mount::{MountFault, Mounted, MountedTree, Refusal, mount};

// The printed text of turns.
fn text_of(alloc: Global, turns: &[Turn]) -> Result<String, Memory>
    ensures { IfOk result (λ text. IsRunText turns.now [] (string_bytes text)) }
{
    let mut text = String::new(alloc);
    transcript::text(turns, &[], &mut text)?;
    Ok(text)
}

// The turns of a script on a mounted volume without a change journal.
fn turns_on<R: Threads + Wait, D: Device, G: Gate>(
    rt: &R,
    alloc: Global,
    mounted: &Mounted,
    script: &Script,
    time: u64,
    device: &mut D,
    gate: &G,
) -> Result<Vec<Turn>, Memory>
    requires looks { AllLook script.now }
    requires unjournaled { IfSome (tree_shown mounted.now (D.gives device.old)) (λ t. t.journal ≡ None) }
    ensures run { IfOk result (λ turns. IfSome (tree_shown mounted.now (D.gives device.old)) (λ t. IsRunOf mounted.now.upper t script.now time (D.fault_count device.old) turns.items)) }
    ensures turns { IfOk result (λ turns. TakesTurns script.now (D.fault_count device.old) (D.fault_count device.new) turns.items) }
    ensures kept { KeepsDevice D.gives D.sector_count D.changes_of D.fault_count D.moment_of device.old device.new }
{
    let tree = MountedTree::new(alloc, mounted)?;
    let mut room = piece_room(alloc)?;
    let mut volume = RunVolume::new(&tree, device, &mut room);
    serial_run(rt, alloc, &mut volume, 0, script, time, gate)
}

/// The printed text of a run of the script, from the time `time` on, in units of 100 ns since
/// 1601-01-01, on the volume of the device: it is mounted, and then the commands have their turns,
/// each of which asks the volume's own indexes. `gate.pass` is called before each command. The
/// device is only read. A command in which it fails is replied `fault`, and the run goes on.
///
/// Mounting costs what a check does; each command costs what [`MountedTree::answer`] does, in one
/// room of 64 KiB for all of them.
///
/// - [`MountFault::Refused`]: what [`mount`] refuses.
/// - [`MountFault::Device`]: the device failed while it was mounted.
/// - [`MountFault::Memory`]: want of memory for the mount, the turns or the text.
#[tactic(auto, using(crate::proofs::Printed::unjournaled, crate::proofs::Printed::any_run, crate::proofs::Printed::run_is, crate::proofs::Printed::mount_fails, crate::proofs::Printed::wants_memory))]
pub fn run_text<R: Threads + Wait, D: Device, G: Gate>(
    rt: &R,
    alloc: Global,
    script: &Script,
    time: u64,
    device: &mut D,
    gate: &G,
) -> Result<String, MountFault>
    requires looks { AllLook script.now }
    ensures answer { IfSome (D.gives device.old) (λ disk. RunsAs (mounted_of disk) script.now time (counted_by D.fault_count D.moment_of device.old) (D.fault_count device.new) result) }
    ensures told { IfOk result (λ text. IsPrintedRun None script.now time (counted_by D.fault_count D.moment_of device.old) (D.fault_count device.new) (string_bytes text)) }
    ensures kept { KeepsDevice D.gives D.sector_count D.changes_of D.fault_count D.moment_of device.old device.new }
    ensures fault { IsErrOf result MountFault.Device → HasFailed (D.fault_count device.old) (D.fault_count device.new) (D.moment_of device.new) }
    ensures refused { D.moment_of device.old < last_moment → (r : RefusalOf) → result ≡ Err (MountFault.Refused r) → D.fault_count device.new ≡ D.fault_count device.old }
    ensures none { D.sector_count device.old ≡ 0 → result ≡ Err (MountFault.Refused (Refusal.Short 1 0)) }
    ensures unasked { D.sector_count device.old ≡ 0 → device.new ≡ device.old }
{
    let mounted = mount(alloc, device)?;
    let turns = turns_on(rt, alloc, &mounted, script, time, device, gate)?;
    Ok(text_of(alloc, &turns)?)
}
