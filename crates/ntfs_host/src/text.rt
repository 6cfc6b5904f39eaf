//! The lines that are printed.
ghost use Rattle.std.specs.Prelude.{◌≡◌, IfOk, string_bytes};
ghost use Rattle.ntfs_host.specs.Scripts.{script_line};
ghost use Rattle.ntfs_host.specs.Text.{refusal_line, formatted_line};

use script_text::ScriptFault;
use std::alloc::{AllocError, Global};
use volume_format::Formatted;
use volume_run::Refusal;

/// The refusal's line: its number, its name and its values.
#[tactic(auto, unfolding(crate::specs::Text::refusal_line))]
pub fn refusal_line(alloc: Global, refusal: Refusal) -> Result<String, AllocError>
    ensures { IfOk result (λ line. string_bytes line ≡ refusal_line refusal) }
{
    match refusal {
        Refusal::NotNtfs { rule } => format!(in alloc; "refused 1 NotNtfs {rule}\n"),
        Refusal::Geometry { field, value } => {
            format!(in alloc; "refused 2 Geometry {field} {value}\n")
        }
        Refusal::VolumeLarge { clusters } => {
            format!(in alloc; "refused 3 VolumeLarge {clusters}\n")
        }
        Refusal::Short { sectors, device } => {
            format!(in alloc; "refused 4 Short {sectors} {device}\n")
        }
        Refusal::BadFixup { number } => format!(in alloc; "refused 5 BadFixup {number}\n"),
        Refusal::BadRecord { number, rule } => {
            format!(in alloc; "refused 6 BadRecord {number} {rule}\n")
        }
        Refusal::MftList => String::from_str(alloc, "refused 7 MftList\n"),
        Refusal::MftLarge { records } => format!(in alloc; "refused 8 MftLarge {records}\n"),
        Refusal::Version { major, minor } => {
            format!(in alloc; "refused 9 Version {major} {minor}\n")
        }
        Refusal::LogVersion { major, minor } => {
            format!(in alloc; "refused 10 LogVersion {major} {minor}\n")
        }
        Refusal::NoRestart => String::from_str(alloc, "refused 11 NoRestart\n"),
        Refusal::ForeignLog { lsn } => format!(in alloc; "refused 12 ForeignLog {lsn}\n"),
        Refusal::LogSmall { pages, needed } => {
            format!(in alloc; "refused 13 LogSmall {pages} {needed}\n")
        }
        Refusal::NoJournal { why } => format!(in alloc; "refused 14 NoJournal {why}\n"),
        Refusal::BadVolume { rule, number } => {
            format!(in alloc; "refused 15 BadVolume {rule} {number}\n")
        }
        Refusal::HasJournal => String::from_str(alloc, "refused 16 HasJournal\n"),
        Refusal::Unbuilt { rule } => format!(in alloc; "refused 17 Unbuilt {rule}\n"),
    }
}

/// The line of a volume that was made: `formatted CLUSTERS ROOM`.
#[tactic(auto, unfolding(crate::specs::Text::formatted_line))]
pub fn formatted_line(alloc: Global, formatted: Formatted) -> Result<String, AllocError>
    ensures { IfOk result (λ line. string_bytes line ≡ formatted_line formatted) }
{
    let (clusters, room) = (formatted.clusters, formatted.room);
    format!(in alloc; "formatted {clusters} {room}\n")
}

/// The line that says what refuses a script; there is none for want of memory.
#[tactic(auto, unfolding(crate::specs::Scripts::script_line))]
pub fn script_line(alloc: Global, fault: ScriptFault) -> Result<String, AllocError>
    ensures { IfOk result (λ line. string_bytes line ≡ script_line fault) }
{
    match fault {
        ScriptFault::TooLarge => String::from_str(alloc, "script bytes\n"),
        ScriptFault::Line { number, rule } => {
            format!(in alloc; "script line {number} rule {rule}\n")
        }
        ScriptFault::TooManyClients { client } => format!(in alloc; "script clients {client}\n"),
        ScriptFault::TooManyCommands => String::from_str(alloc, "script commands\n"),
        ScriptFault::Memory => Ok(String::new(alloc)),
    }
}
