ghost use Rattle.std.specs.Prelude.{◌≡◌, ◌+◌, ◌*◌, ◌≤◌, ◌⊎◌, IfOk, OnOk, Err, IfErr, IsErr, IsErrOf};
ghost use Rattle.std.specs.Option.{option_map};
ghost use Rattle.host_base.specs.Answers.{GivesOrFails};
ghost use Rattle.host_base.specs.Causes.{HasFailed};
ghost use Rattle.sector_device.specs.Moments.{Begins};
ghost use Rattle.volume_format.specs.declared.fault.FormatFault.TheVariants.{Fault as device_failed, Memory as no_memory, Refused as is_refused};
ghost use Rattle.volume_format.specs.Layouts.{IsLayout, layout_of, used_clusters, device_calls, device_writes};
ghost use Rattle.volume_format.specs.Answers.{format_answer, format_cause, IsUntouched};
ghost use Rattle.volume_format.specs.Images.{formatted, Puts, regions};
ghost use Rattle.volume_format.specs.Stopping.{PutsFront, KeepsOthers};
ghost use Rattle.volume_format.specs.Crashing.{IsSettledNow, StaysFrom, KeepsLeft};

use crate::fault::{FormatFault, FormatRefusal, Formatted};
use crate::layout::{Layout, clusters_of, layout_of};
use crate::parts::make_parts;
use crate::writing::{PIECE_BYTES, put_image};
use sector_device::Device;
use std::alloc::Global;

const MOST_CLUSTERS: u64 = 16_777_216;

// The sectors of the least device.
const LEAST_SECTORS: u64 = 4537;

// The answer for a device of so many sectors, before anything is written.
#[tactic(auto, unfolding(crate::specs::Answers::format_answer))]
fn check(device: u64) -> Result<Formatted, FormatRefusal>
    ensures answer { result ≡ format_answer device }
    ensures layout { OnOk result (IsLayout (layout_of device)) }
{
    if device == 0 {
        return Err(FormatRefusal::Short {
            sectors: 1,
            device: 0,
        });
    }
    let clusters = clusters_of(device);
    if clusters > MOST_CLUSTERS {
        return Err(FormatRefusal::VolumeLarge { clusters });
    }
    if device < LEAST_SECTORS {
        return Err(FormatRefusal::Short {
            sectors: LEAST_SECTORS,
            device,
        });
    }
    Ok(Formatted {
        clusters,
        room: layout_of(device).room(),
    })
}

// Makes the volume's regions and writes them.
fn write_volume<D: Device>(
    alloc: Global,
    device: &mut D,
    v: Layout,
    seed: u64,
    time: u64,
) -> Result<(), FormatFault>
    requires layout { IsLayout v }
    requires within { 8 * v.clusters ≤ D.sector_count device.old }
    ensures causes { IsErr result → IsErrOf result device_failed ⊎ IsErrOf result no_memory }
    ensures memory { IsErrOf result no_memory → IsUntouched (D.gives device.old) (D.gives device.new) (D.moment_of device.old) (D.moment_of device.new) (D.changes_of device.old) (D.changes_of device.new) (D.fault_count device.old) (D.fault_count device.new) }
    ensures image { OnOk result (Puts (regions v seed time) (D.gives device.old) (D.gives device.new)) }
    ensures stopped { IsErrOf result device_failed → PutsFront (regions v seed time) (D.gives device.old) (D.gives device.new) }
    ensures others { KeepsOthers v (D.gives device.old) (D.gives device.new) }
    ensures moment { OnOk result (D.moment_of device.new ≡ D.moment_of device.old + 2 * device_calls v) }
    ensures changes { OnOk result (Begins (device_writes v) 1 (D.changes_of device.old) (D.changes_of device.new)) }
    ensures settled { OnOk result (IsSettledNow (D.changes_of device.new)) }
    ensures above { StaysFrom (8 * used_clusters v) (D.moment_of device.old) (D.changes_of device.old) (D.changes_of device.new) }
    ensures sectors { D.sector_count device.new ≡ D.sector_count device.old }
    ensures later { D.fault_count device.old ≤ D.fault_count device.new }
    ensures fault { IsErrOf result device_failed → HasFailed (D.fault_count device.old) (D.fault_count device.new) (D.moment_of device.new) }
    ensures counted { ¬ IsErrOf result device_failed → D.fault_count device.new ≡ D.fault_count device.old }
{
    let parts = make_parts(alloc, v, seed, time)?;
    let mut room = vec![in alloc; 0u8; PIECE_BYTES as usize]?;
    put_image(device, v, &parts, &mut room)?;
    Ok(())
}

/// Makes a new volume of all sectors of a device but the last one, with this serial number; all its
/// times are `time`, in units of 100 ns since 1601-01-01. The volume has clusters of eight sectors
/// of 512 bytes and the twelve system files, and no other (Linux-NTFS documentation, "$Boot", "FILE
/// Record" and the files' own pages). Whatever is answered, free clusters stay as they were, and
/// the last sector too.
///
/// It takes time linear in the clusters, constant memory, and writes at most 64 KiB in a call; the
/// last call is a sync. Of this the contract says how many writes there are, that there is one
/// sync, no read, and that after a format that is done nothing is unsynced: then a crash leaves
/// one image, the new volume.
///
/// Whatever is answered, a crash during the format, or after it, leaves in free clusters, and in
/// the last sector, only what it might have left there before. More isn't promised of a crash
/// during a format: the regions of the volume may have old and new sectors in any mixture. The
/// boot sector is written last, but no sync is before it, so it may be there without the rest.
///
/// - [`FormatRefusal::Short`]: the device has no sector, or fewer than 4,537.
/// - [`FormatRefusal::VolumeLarge`]: there would be more than 16,777,216 clusters. It comes before
///   the second case of `Short`. After these two the device wasn't called.
/// - [`FormatFault::Fault`]: the device failed; what was written until then stands there, region by
///   region in their order, of which the boot sector's is the last. Of the region that failed any
///   sectors may stand.
/// - [`FormatFault::Memory`]: want of memory; the device wasn't called.
pub fn format<D: Device>(
    alloc: Global,
    device: &mut D,
    seed: u64,
    time: u64,
) -> Result<Formatted, FormatFault>
    ensures answer { GivesOrFails (λ formatted. formatted) format_cause result (format_answer (D.sector_count device.old)) }
    ensures image { IfOk result (λ _. D.gives device.new ≡ option_map (λ old. formatted old seed time) (D.gives device.old)) }
    ensures stopped { IsErrOf result device_failed → PutsFront (regions (layout_of (D.sector_count device.old)) seed time) (D.gives device.old) (D.gives device.new) }
    ensures others { KeepsOthers (layout_of (D.sector_count device.old)) (D.gives device.old) (D.gives device.new) }
    ensures calls { IfOk result (λ _. D.moment_of device.new ≡ D.moment_of device.old + 2 * device_calls (layout_of (D.sector_count device.old))) }
    ensures changes { IfOk result (λ _. Begins (device_writes (layout_of (D.sector_count device.old))) 1 (D.changes_of device.old) (D.changes_of device.new)) }
    ensures settled { IfOk result (λ _. IsSettledNow (D.changes_of device.new)) }
    ensures others_left { KeepsLeft (layout_of (D.sector_count device.old)) (D.sector_count device.old) (D.moment_of device.old) (D.changes_of device.old) (D.changes_of device.new) }
    ensures only { IfErr (format_answer (D.sector_count device.old)) (λ refusal. result ≡ Err (is_refused refusal)) }
    ensures memory { IsErrOf result no_memory → IsUntouched (D.gives device.old) (D.gives device.new) (D.moment_of device.old) (D.moment_of device.new) (D.changes_of device.old) (D.changes_of device.new) (D.fault_count device.old) (D.fault_count device.new) }
    ensures refused { IsErr (format_answer (D.sector_count device.old)) → IsUntouched (D.gives device.old) (D.gives device.new) (D.moment_of device.old) (D.moment_of device.new) (D.changes_of device.old) (D.changes_of device.new) (D.fault_count device.old) (D.fault_count device.new) }
    ensures sectors { D.sector_count device.new ≡ D.sector_count device.old }
    ensures later { D.fault_count device.old ≤ D.fault_count device.new }
    ensures fault { IsErrOf result device_failed → HasFailed (D.fault_count device.old) (D.fault_count device.new) (D.moment_of device.new) }
    ensures counted { ¬ IsErrOf result device_failed → D.fault_count device.new ≡ D.fault_count device.old }
{
    let sectors = device.sectors();
    let answer = check(sectors)?;
    write_volume(alloc, device, layout_of(sectors), seed, time)?;
    Ok(answer)
}
