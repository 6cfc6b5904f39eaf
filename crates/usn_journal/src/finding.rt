//! The file that holds the journal.
ghost use Rattle.std.specs.Prelude.{◌≡◌, IfOk};
ghost use Rattle.std.specs.Option.{option_copied};
ghost use Rattle.file_tree.specs.Trees.{same_links};
ghost use Rattle.file_tree.specs.Walks.{child_in};
ghost use Rattle.volume_map.specs.Maps.{volume_in};
ghost use Rattle.volume_state.specs.Journals.{extend_file, journal_name, file_or_none};

use file_tree::{Link, chosen};
use record_rules::file_at;
use std::alloc::{AllocError, Global};
use volume_map::{FileRec, Upcase, VolumeMap};

// The number of `$Extend`.
const EXTEND_FILE: u64 = 11;

// `$UsnJrnl`
const JOURNAL_NAME: [u16; 8] = [0x24, 0x55, 0x73, 0x6e, 0x4a, 0x72, 0x6e, 0x6c];

// The links of a directory whose name is the same.
#[tactic(auto, unfolding(file_tree::specs::Trees::same_links))]
fn same_links(
    alloc: Global,
    up: &Upcase,
    links: &[Link],
    directory: u64,
    part: &[u16],
) -> Result<Vec<Link>, AllocError>
    ensures { IfOk result (λ same. same.items ≡ same_links up.now links.now directory part.now) }
{
    let mut same = Vec::new(alloc);
    for link in links {
        if link.parent.number == directory && up.same(link.name.units(), part) {
            same.push(link.clone()?)?;
        }
    }
    Ok(same)
}

/// The number of the file that `$UsnJrnl` names in `$Extend`, if there is one. Linear in the links.
#[tactic(auto, unfolding(file_tree::specs::Walks::child_in, file_tree::specs::Trees::look_up, volume_state::specs::Journals::journal_name))]
pub fn journal_number(alloc: Global, up: &Upcase, links: &[Link]) -> Result<Option<u64>, AllocError>
    ensures value { IfOk result (λ number. number ≡ child_in up.now links.now extend_file journal_name) }
{
    let same = same_links(alloc, up, links, EXTEND_FILE, &JOURNAL_NAME)?;
    Ok(chosen(up.as_slice(), &same, &JOURNAL_NAME))
}

/// The file with this number, if there is a number, and a file.
pub fn file_or_none(map: &VolumeMap, number: Option<u64>) -> Option<&FileRec>
    ensures value { option_copied result ≡ file_or_none (volume_in map.now) number }
{
    match number {
        Some(number) => file_at(&map.files, number),
        None => None,
    }
}
