//! Whether a volume has a change journal.
ghost use Rattle.std.specs.Prelude.{◌≡◌, ◌&&◌, is_some, IfOk};
ghost use Rattle.std.specs.List.{list_any};
ghost use Rattle.host_base.specs.Answers.{Gives};
ghost use Rattle.file_tree.specs.declared.link.Link.{Link as the_link};
ghost use Rattle.file_tree.specs.Names.{same_name};
ghost use Rattle.file_tree.specs.Trees.{is_in};
ghost use Rattle.file_tree.specs.Walks.{child_in};
ghost use Rattle.image_read.specs.volume_map.Maps.{volume_in};
ghost use Rattle.volume_state.specs.Journals.{extend_file, journal_name};
ghost use Rattle.image_read.specs.image_open.Errors.{scan_cause};
ghost use Rattle.volume_mount.specs.Mounts.{journal_number, has_no_journal};

use file_tree::Link;
use host_base::Memory;
use image_read::{MountFault, Refusal, VolumeMap};
use std::alloc::Global;
use volume_lookup::{Upcase, all_links};

// The number of `$Extend`.
const EXTEND_FILE: u64 = 11;

// `$UsnJrnl`
const JOURNAL_NAME: [u16; 8] = [0x24, 0x55, 0x73, 0x6e, 0x4a, 0x72, 0x6e, 0x6c];

// A volume with a change journal isn't mounted yet.
const JOURNAL_RULE: u32 = 6;

// Whether some link of the directory has the same name.
fn has_same(up: &Upcase, links: &[Link], directory: u64, part: &[u16]) -> bool
    ensures { result ≡ list_any (λ (l : the_link). is_in directory l && same_name up.now l.name part.now) links.now }
{
    links.iter().any(|link| link.parent.number == directory && up.same(link.name.units(), part))
}

// Whether a part leads to a file in the directory.
fn leads(up: &Upcase, links: &[Link], directory: u64, part: &[u16]) -> bool
    ensures { result ≡ is_some (child_in up.now links.now directory part.now) }
{
    has_same(up, links, directory, part)
}

// Whether `$UsnJrnl` leads to a file in `$Extend`.
#[tactic(auto, unfolding(volume_state::specs::Journals::journal_name))]
fn has_journal(alloc: Global, map: &VolumeMap, up: &Upcase) -> Result<bool, Memory>
    ensures { IfOk result (λ has. has ≡ is_some (journal_number up.now (volume_in map.now))) }
{
    let links = all_links(alloc, &map.files)?;
    Ok(leads(up, links.as_slice(), EXTEND_FILE, &JOURNAL_NAME))
}

/// Refuses a volume in whose `$Extend` (Linux-NTFS documentation, "$UsnJrnl") the name `$UsnJrnl`
/// leads to a file, by this table of upper-case units. Linear in the names.
///
/// - [`MountFault::Refused`]: [`Refusal::Unbuilt`] with 6.
/// - [`MountFault::Memory`]: want of memory.
#[tactic(auto, unfolding(crate::specs::Mounts::has_no_journal))]
pub fn has_no_journal(alloc: Global, map: &VolumeMap, up: &Upcase) -> Result<(), MountFault>
    ensures { Gives (λ x. x) scan_cause result (has_no_journal up.now (volume_in map.now)) }
{
    if has_journal(alloc, map, up)? {
        return Err(MountFault::Refused(Refusal::Unbuilt { rule: JOURNAL_RULE }));
    }
    Ok(())
}
