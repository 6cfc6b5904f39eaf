//! The top call.
ghost use Rattle.std.specs.Prelude.{◌≡◌, ℕ, ◌^◌, ◌<◌, None, IfOk};
ghost use Rattle.ntfs_host.specs.declared.command.Asked.{Asked as the_asked};
ghost use Rattle.ntfs_host.specs.declared.command.Asked.TheVariants.{Quietly, Run};
ghost use Rattle.ntfs_host.specs.Answers.{known_answer};
ghost use Rattle.ntfs_host.specs.Outcomes.{AnswersQuiet, AnswersNoLine, Answers, HasCauses, HasDeviceCauses, HasCausesBy, KeepsOrder, LeavesDevice, IsWhole};
ghost use Rattle.ntfs_host.specs.Words.{asked_by, asked_in};

use crate::answers::answer;
use crate::command::{Asked, Quiet};
use crate::output::write_refusal;
use crate::printing::print_text;
use crate::script_run::run_command;
use crate::status::{DEVICE_FAULT, MEMORY, REFUSED, SINK_FAULT, USAGE, status_of};
use command_line::{Command, LineFault, read_line};
use host_base::{Gate, Sink, Source, write_all};
use sector_device::Device;
use std::alloc::{AllocError, Global};
use std::sync::Wait;
use std::thread::Threads;
use volume_run::MountFault;

const USAGE_LINE: &str = "usage: ntfshost IMAGE COMMAND [--time N] [--seed N] [--journal N]\n";

/// How a command ended, and the device.
///
/// The status is 0 where the command was done and its whole text written, 2 where the words are no
/// line of a command, 3 where the image was refused, 4 where the script was, 5 where a read of the
/// source failed, 6 for want of memory, 7 where a write of the sink failed and 8 where a call of
/// the device failed.
#[derive(Drop)]
pub struct Outcome<D> {
    pub status: u8,
    pub device: D,
}

// Law: what is left on a device that isn't called is what may be left where memory is wanting.
fn leaves_uncalled<D: Device>(device: &D)
    ensures { (asked : the_asked) → LeavesDevice asked 6 D.sector_count D.gives D.moment_of D.changes_of device.now device.now }
{
    let _ = device;
}

// Reads the device and prints the answer.
fn answer_into<K: Sink, D: Device>(
    alloc: Global,
    command: &Quiet,
    sink: &mut K,
    device: &mut D,
) -> u8
    ensures answers { AnswersQuiet result (known_answer command.now (D.sector_count device.old) (D.gives device.old)) (K.taken sink.old) (K.taken sink.new) }
    ensures sink_causes { HasCauses 7 result (K.faults sink.old) (K.faults sink.new) }
    ensures device_causes { HasDeviceCauses result D.fault_count D.moment_of device.old device.new }
    ensures leaves { LeavesDevice (Quietly command.now) result D.sector_count D.gives D.moment_of D.changes_of device.old device.new }
{
    match answer(alloc, command, device) {
        Ok(text) => print_text(sink, text.as_str()),
        Err(MountFault::Refused(refusal)) => status_of(
            write_refusal(alloc, sink, refusal),
            REFUSED,
        ),
        Err(MountFault::Memory) => MEMORY,
        Err(MountFault::Device) => DEVICE_FAULT,
    }
}

/// Does a command that runs no script, on the device; its text, or the line of the first refusal
/// that applies, goes to the sink. The device is only read, but by `Format`.
///
/// `Scan` prints a line for each long name of a file record in use, `N S P Q NAME` with the number
/// and sequence of the file and of its directory, by file number, directory number and raw units,
/// and then `links K`. It takes each volume whose boot sector is in the profile, wherever its file
/// table lies, and attribute lists. It reads the boot sector, record 2 and the log, by which it
/// recovers the volume in memory, and then goes over the file table, in reads of 64 KiB where its
/// records lie one behind the other: once, or twice where a file has an attribute list. Its time is
/// linear in the log's pages on the device and near linear in its entries, linear in the file
/// table, and in its runs for each record, and near linear in the links, which it sorts; its memory
/// grows with the entries of the log and the links, or with the file table where a file has an
/// attribute list, and has room for the text twice.
///
/// `Dump` prints the tree that the volume stands for: by number a line for each node, `node N S
/// KIND SIZE VALID CLUSTERS CREATED MODIFIED CHANGED READ`, with sizes in bytes and times in units
/// of 100 ns since 1601-01-01; the links in the order of a scan, first the long ones as `link N P
/// long NAME` and then the short ones as `link N P short NAME`; `journal FIRST NEXT REACH`, or
/// `journal -` where there is none; and `room R`, the free clusters. `Check` prints of that tree
/// `ok nodes N links L room R journal FIRST NEXT`, or `journal -` at the end; its links are the
/// long and the short ones. Both refuse what a scan refuses; then a version other than 3.1; and
/// then a volume that breaks one of the nine rules under which it stands for a tree, by the first
/// that is broken and the least number at which it is. They read what a scan reads; then the
/// bitmaps, the table of upper-case units and the change journal, each once; each block of an index
/// twice, for its names and for whether it is torn; and the records of the file table, and those of
/// its mirror, for whether one is torn. Their time is linear in what they read and near linear in
/// the runs of all streams, which they sort; their memory grows with the file table and the
/// bitmaps, and has room for the text twice.
///
/// `Journal` prints of each record of the change journal `USN N S P Q REASON ATTRS TIME NAME`, with
/// the file's number and sequence and its directory's, the reason and the attributes in eight
/// hexadecimal digits; and then `journal FIRST NEXT`. It refuses what a dump refuses, and before
/// the rules a volume without a journal whose records can be read. It reads what a dump reads, and
/// the journal once more; its memory grows with the records too.
///
/// `Format` makes a new volume with this serial number, all of whose times are this one, and prints
/// `formatted CLUSTERS ROOM`. It refuses a device of no sectors, of more than 16,777,216 clusters
/// of eight sectors, and of fewer than 4,537 sectors. It writes the system's files; free clusters
/// and the last sector of the device stay as they are, also where a crash cuts it off, of which no
/// more is promised. Its time is linear in the log and the bitmap of the clusters, and its memory
/// doesn't grow with the volume.
///
/// The layouts are those of the Linux-NTFS documentation, "$Boot", "$MFT", "FILE Record",
/// "$FILE_NAME", "$INDEX_ROOT", "$Bitmap" and "$UsnJrnl". The status is that of [`Outcome`].
pub fn quiet_command<K: Sink, D: Device>(
    alloc: Global,
    command: &Quiet,
    sink: &mut K,
    device: D,
) -> Outcome<D>
    ensures answers { AnswersQuiet result.status (known_answer command.now (D.sector_count device) (D.gives device)) (K.taken sink.old) (K.taken sink.new) }
    ensures sink_causes { HasCauses 7 result.status (K.faults sink.old) (K.faults sink.new) }
    ensures device_causes { HasDeviceCauses result.status D.fault_count D.moment_of device result.device }
    ensures leaves { LeavesDevice (Quietly command.now) result.status D.sector_count D.gives D.moment_of D.changes_of device result.device }
    ensures whole { IsWhole (Quietly command.now) result.status None D.sector_count D.gives device }
{
    let mut device = device;
    let status = answer_into(alloc, command, sink, &mut device);
    Outcome { status, device }
}

// What a command asks for, or words that are no line of one.
fn asked_by(command: &Option<Command>) -> Asked
    ensures asked { result ≡ asked_by command.now }
{
    match command {
        Some(Command::Scan) => Asked::Quietly(Quiet::Scan),
        Some(Command::Dump) => Asked::Quietly(Quiet::Dump),
        Some(Command::Check) => Asked::Quietly(Quiet::Check),
        Some(Command::Journal) => Asked::Quietly(Quiet::Journal),
        Some(Command::Format { seed, time }) => Asked::Quietly(Quiet::Format {
            seed: *seed,
            time: *time,
        }),
        Some(Command::Run { time }) => Asked::Run { time: *time },
        Some(Command::Enable { .. }) => Asked::NoLine,
        Some(Command::Gen { .. }) => Asked::NoLine,
        None => Asked::NoLine,
    }
}

// What the words ask for. The error is want of memory.
fn asked_in(alloc: Global, words: &[String]) -> Result<Asked, AllocError>
    ensures asked { IfOk result (λ asked. asked ≡ asked_in words.now) }
    ensures early { IfOk result (λ asked. (time : ℕ) → asked ≡ Run time → time < 2 ^ 62) }
{
    match read_line(alloc, words) {
        Ok(command) => Ok(asked_by(&Some(command))),
        Err(LineFault::NoLine) => Ok(asked_by(&None)),
        Err(LineFault::Memory) => Err(AllocError),
    }
}

fn write_usage<K: Sink>(sink: &mut K) -> u8
    ensures answers { AnswersNoLine result (K.taken sink.old) (K.taken sink.new) }
    ensures causes { HasCauses 7 result (K.faults sink.old) (K.faults sink.new) }
{
    match write_all(sink, USAGE_LINE.as_bytes()) {
        Ok(()) => USAGE,
        Err(_) => SINK_FAULT,
    }
}

// Does what is asked for.
fn do_asked<R: Threads + Wait + Sync, S: Source, K: Sink, D: Device + Send, G: Gate + Sync>(
    rt: &R,
    alloc: Global,
    asked: Asked,
    source: &mut S,
    sink: &mut K,
    device: D,
    gate: &G,
) -> Outcome<D>
    requires early { (time : ℕ) → asked ≡ Run time → time < 2 ^ 62 }
    ensures answers { Answers asked result.status (S.left source.old) D.sector_count D.gives D.fault_count D.moment_of D.changes_of device result.device K.taken sink.old sink.new }
    ensures source_causes { HasCauses 5 result.status (S.faults source.old) (S.faults source.new) }
    ensures sink_causes { HasCauses 7 result.status (K.faults sink.old) (K.faults sink.new) }
    ensures device_causes { HasCausesBy asked result.status D.fault_count D.moment_of device result.device }
    ensures order { KeepsOrder asked result.status S.left source.old source.new sink.old sink.new device result.device }
    ensures leaves { LeavesDevice asked result.status D.sector_count D.gives D.moment_of D.changes_of device result.device }
    ensures whole { IsWhole asked result.status (S.left source.old) D.sector_count D.gives device }
{
    match asked {
        Asked::Quietly(quiet) => quiet_command(alloc, &quiet, sink, device),
        Asked::Run { time } => run_command(rt, alloc, time, source, sink, device, gate),
        Asked::NoLine => Outcome {
            status: write_usage(sink),
            device,
        },
    }
}

/// Does the command that the words name, on the volume image of the device; its text, or the line
/// of a refusal, goes to the sink.
///
/// `words` has the program's name, the image and the command, and its options (`command_line`):
/// `scan`, `dump`, `check`, `journal` or `format`, which [`quiet_command`] does, or `run`, which
/// runs the script that the source has left, from the time of `--time` on. `enable` and `gen` are
/// no commands yet. `gate.pass` is called before each command of a script. The status is that of
/// `Outcome`.
///
/// A run mounts the volume, lets the script's commands change it, and closes it; where they only
/// look the device is only read. It takes volumes with eight sectors a cluster: other sectors a
/// cluster are refused by the boot sector's field at 13, in this field's place. It refuses what a
/// check refuses, and between the version and the rules a volume with a change journal, and one
/// whose log is small; a log of another program that asks for what no mount may write is refused
/// with the log; and at the end a volume that can't be changed yet (`refused 17 Unbuilt 8` and
/// `9`). It reads what a check reads, once more the first sector and the log, and the table of
/// upper-case units, by which names are in order; it writes out what the log recovers; a command
/// reads the index blocks on its path, and the sectors of the bytes that it asks for, and what it
/// changes is logged, and written out by the end.
///
/// Its clauses, whose words stand in `specs/Outcomes.antt` and, for a run, in `specs/Runs.antt`, go by
/// what the words ask for. They say what the sink took, and of a run also what a crash leaves; that
/// faults have their causes, that a run reads its whole script before it calls the device or the sink,
/// what is left on the device, and that a command that nothing refuses is done.
pub fn ntfs_host<R: Threads + Wait + Sync, S: Source, K: Sink, D: Device + Send, G: Gate + Sync>(
    rt: &R,
    alloc: Global,
    words: &[String],
    source: &mut S,
    sink: &mut K,
    device: D,
    gate: &G,
) -> Outcome<D>
    ensures answers { Answers (asked_in words.now) result.status (S.left source.old) D.sector_count D.gives D.fault_count D.moment_of D.changes_of device result.device K.taken sink.old sink.new }
    ensures source_causes { HasCauses 5 result.status (S.faults source.old) (S.faults source.new) }
    ensures sink_causes { HasCauses 7 result.status (K.faults sink.old) (K.faults sink.new) }
    ensures device_causes { HasCausesBy (asked_in words.now) result.status D.fault_count D.moment_of device result.device }
    ensures order { KeepsOrder (asked_in words.now) result.status S.left source.old source.new sink.old sink.new device result.device }
    ensures leaves { LeavesDevice (asked_in words.now) result.status D.sector_count D.gives D.moment_of D.changes_of device result.device }
    ensures whole { IsWhole (asked_in words.now) result.status (S.left source.old) D.sector_count D.gives device }
{
    match asked_in(alloc, words) {
        Ok(asked) => do_asked(rt, alloc, asked, source, sink, device, gate),
        Err(_) => {
            leaves_uncalled(&device);
            Outcome {
                status: MEMORY,
                device,
            }
        }
    }
}
