//! The texts that answer the commands that run no script.
ghost use Rattle.std.specs.Prelude.{◌≡◌, ◌<◌, ◌≤◌, IfOk, IfSome, string_bytes};
ghost use Rattle.host_base.specs.Answers.{GivesOrFails};
ghost use Rattle.volume_format.specs.Answers.{format_answer};
ghost use Rattle.volume_run.specs.image_open.Errors.{scan_cause, refused_as};
ghost use Rattle.image_dump.specs.Texts.{scan_text, dump_text, check_text, journal_text};
ghost use Rattle.ntfs_host.specs.declared.command.Quiet.TheVariants.{Scan as the_scan, Dump as the_dump, Check as the_check, Journal as the_journal};
ghost use Rattle.ntfs_host.specs.declared.command.Asked.TheVariants.{Quietly};
ghost use Rattle.ntfs_host.specs.Answers.{format_refusal, error_of_format, format_line, known_answer, answer_status};
ghost use Rattle.ntfs_host.specs.Outcomes.{HasDeviceCauses, Formats, LeavesDevice};
ghost use Rattle.ntfs_host.specs.Runs.{IsOnlyRead};

use crate::command::Quiet;
use crate::text::formatted_line;
use file_tree::{Link, Tree};
use host_base::Memory;
use image_dump::{check_text, dump_text, journal_text, scan_text};
use sector_device::Device;
use std::alloc::Global;
use volume_format::{FormatFault, FormatRefusal, Formatted, format};
use volume_run::{MountFault, ReadJournal, Refusal, check_image, read_journal, scan_image};

fn text_of_links(alloc: Global, links: &[Link]) -> Result<String, Memory>
    ensures text { IfOk result (λ text. string_bytes text ≡ scan_text links.now) }
{
    let mut text = String::new(alloc);
    scan_text(links, &mut text)?;
    Ok(text)
}

fn dump_of_tree(alloc: Global, tree: &Tree) -> Result<String, Memory>
    ensures text { IfOk result (λ text. string_bytes text ≡ dump_text tree.now) }
{
    let mut text = String::new(alloc);
    dump_text(tree, &mut text)?;
    Ok(text)
}

fn line_of_tree(alloc: Global, tree: &Tree) -> Result<String, Memory>
    ensures text { IfOk result (λ text. string_bytes text ≡ check_text tree.now) }
{
    let mut text = String::new(alloc);
    check_text(tree, &mut text)?;
    Ok(text)
}

fn text_of_journal(alloc: Global, journal: &ReadJournal) -> Result<String, Memory>
    ensures text { IfOk result (λ text. string_bytes text ≡ journal_text journal.now.entries journal.now.first journal.now.next) }
{
    let mut text = String::new(alloc);
    let entries = journal.entries.as_slice();
    journal_text(entries, journal.first, journal.next, &mut text)?;
    Ok(text)
}

// The text of a scan.
fn scan_answer<D: Device>(alloc: Global, device: &mut D) -> Result<String, MountFault>
    ensures answer { IfSome (known_answer the_scan (D.sector_count device.old) (D.gives device.old)) (GivesOrFails (λ text. string_bytes text) scan_cause result) }
    ensures leaves { IsOnlyRead D.gives D.changes_of device.old device.new }
    ensures sectors { D.sector_count device.new ≡ D.sector_count device.old }
    ensures causes { HasDeviceCauses (answer_status result) D.fault_count D.moment_of device.old device.new }
{
    let links = scan_image(alloc, device)?;
    Ok(text_of_links(alloc, &links)?)
}

// The text of a dump.
fn dump_answer<D: Device>(alloc: Global, device: &mut D) -> Result<String, MountFault>
    ensures answer { IfSome (known_answer the_dump (D.sector_count device.old) (D.gives device.old)) (GivesOrFails (λ text. string_bytes text) scan_cause result) }
    ensures leaves { IsOnlyRead D.gives D.changes_of device.old device.new }
    ensures sectors { D.sector_count device.new ≡ D.sector_count device.old }
    ensures causes { HasDeviceCauses (answer_status result) D.fault_count D.moment_of device.old device.new }
{
    let tree = check_image(alloc, device)?;
    Ok(dump_of_tree(alloc, &tree)?)
}

// The text of a check.
fn check_answer<D: Device>(alloc: Global, device: &mut D) -> Result<String, MountFault>
    ensures answer { IfSome (known_answer the_check (D.sector_count device.old) (D.gives device.old)) (GivesOrFails (λ text. string_bytes text) scan_cause result) }
    ensures leaves { IsOnlyRead D.gives D.changes_of device.old device.new }
    ensures sectors { D.sector_count device.new ≡ D.sector_count device.old }
    ensures causes { HasDeviceCauses (answer_status result) D.fault_count D.moment_of device.old device.new }
{
    let tree = check_image(alloc, device)?;
    Ok(line_of_tree(alloc, &tree)?)
}

// The text of a journal.
fn journal_answer<D: Device>(alloc: Global, device: &mut D) -> Result<String, MountFault>
    ensures answer { IfSome (known_answer the_journal (D.sector_count device.old) (D.gives device.old)) (GivesOrFails (λ text. string_bytes text) scan_cause result) }
    ensures leaves { IsOnlyRead D.gives D.changes_of device.old device.new }
    ensures sectors { D.sector_count device.new ≡ D.sector_count device.old }
    ensures causes { HasDeviceCauses (answer_status result) D.fault_count D.moment_of device.old device.new }
{
    let journal = read_journal(alloc, device)?;
    Ok(text_of_journal(alloc, &journal)?)
}

fn format_refusal(refusal: FormatRefusal) -> Refusal
    ensures value { result ≡ format_refusal refusal }
{
    match refusal {
        FormatRefusal::VolumeLarge { clusters } => Refusal::VolumeLarge { clusters },
        FormatRefusal::Short { sectors, device } => Refusal::Short { sectors, device },
    }
}

fn error_of_format(fault: FormatFault) -> MountFault
    ensures value { result ≡ error_of_format fault }
{
    match fault {
        FormatFault::Refused(refusal) => MountFault::Refused(format_refusal(refusal)),
        FormatFault::Fault => MountFault::Device,
        FormatFault::Memory => MountFault::Memory,
    }
}

// Makes a volume.
fn make_volume<D: Device>(
    alloc: Global,
    device: &mut D,
    seed: u64,
    time: u64,
) -> Result<Formatted, MountFault>
    ensures answer { GivesOrFails (λ f. f) scan_cause result (refused_as format_refusal (format_answer (D.sector_count device.old))) }
    ensures leaves { Formats seed time (answer_status result) D.sector_count D.gives D.moment_of D.changes_of device.old device.new }
    ensures sectors { D.sector_count device.new ≡ D.sector_count device.old }
    ensures causes { HasDeviceCauses (answer_status result) D.fault_count D.moment_of device.old device.new }
{
    match format(alloc, device, seed, time) {
        Ok(formatted) => Ok(formatted),
        Err(fault) => Err(error_of_format(fault)),
    }
}

// The line of a volume that was made.
#[tactic(auto, using(crate::proofs::Answering::line_is_refused))]
fn format_answer<D: Device>(
    alloc: Global,
    device: &mut D,
    seed: u64,
    time: u64,
) -> Result<String, MountFault>
    ensures answer { GivesOrFails (λ text. string_bytes text) scan_cause result (format_line (D.sector_count device.old)) }
    ensures leaves { Formats seed time (answer_status result) D.sector_count D.gives D.moment_of D.changes_of device.old device.new }
    ensures sectors { D.sector_count device.new ≡ D.sector_count device.old }
    ensures causes { HasDeviceCauses (answer_status result) D.fault_count D.moment_of device.old device.new }
{
    let formatted = make_volume(alloc, device, seed, time)?;
    Ok(formatted_line(alloc, formatted)?)
}

/// The text that answers a command on the device, which is only read but by a format; it takes
/// memory for two copies of the text.
///
/// The errors are want of memory, a failure of the device, and the first refusal that applies,
/// which leaves the device as it was.
pub fn answer<D: Device>(
    alloc: Global,
    command: &Quiet,
    device: &mut D,
) -> Result<String, MountFault>
    ensures answer { IfSome (known_answer command.now (D.sector_count device.old) (D.gives device.old)) (GivesOrFails (λ text. string_bytes text) scan_cause result) }
    ensures leaves { LeavesDevice (Quietly command.now) (answer_status result) D.sector_count D.gives D.moment_of D.changes_of device.old device.new }
    ensures causes { HasDeviceCauses (answer_status result) D.fault_count D.moment_of device.old device.new }
{
    match command {
        Quiet::Scan => scan_answer(alloc, device),
        Quiet::Dump => dump_answer(alloc, device),
        Quiet::Check => check_answer(alloc, device),
        Quiet::Journal => journal_answer(alloc, device),
        Quiet::Format { seed, time } => format_answer(alloc, device, *seed, *time),
    }
}
