//! What a volume has to show beside the rules before it is changed.
ghost use Rattle.std.specs.Prelude.{◌≡◌};
ghost use Rattle.host_base.specs.Answers.{Gives};
ghost use Rattle.state_model.specs.Rules.{first_failing};
ghost use Rattle.volume_state.specs.volume_model.Volumes.{file_in, count_of};
ghost use Rattle.image_read.specs.volume_map.Maps.{volume_in};
ghost use Rattle.image_read.specs.image_open.Errors.{scan_cause};
ghost use Rattle.volume_mount.specs.Mounts.{list_count, has_single_list, has_single_lists, changeable};

use crate::boot::keeps_boot;
use crate::pages::pages_lie;
use image_read::{LogPlace, MountFault, Refusal, VolumeMap};
use state_model::ATTRIBUTE_LIST;
use std::alloc::Global;
use volume_shadows::{FileRec, file_at};

// How many attributes of a file are attribute lists.
fn list_count(file: &FileRec) -> usize
    ensures { result ≡ list_count file.now }
{
    file.attrs()
        .as_slice()
        .iter()
        .filter(|attr| attr.head.kind == ATTRIBUTE_LIST)
        .count()
}

// Whether the file with this number has one at most, if there is one.
fn has_single_list(map: &VolumeMap, number: u64) -> bool
    ensures { result ≡ has_single_list (file_in (volume_in map.now) number) }
{
    match file_at(&map.files, number) {
        Some(file) => list_count(file) <= 1,
        None => true,
    }
}

// The least number of a file that has two.
#[tactic(auto, unfolding(state_model::specs::Rules::first_failing))]
fn first_with_two(map: &VolumeMap) -> Option<u64>
    ensures { result ≡ first_failing (λ n. has_single_list (file_in (volume_in map.now) n)) (count_of (volume_in map.now)) }
{
    (0..map.files.len() as u64).find(|number| !has_single_list(map, *number))
}

// Refuses a volume in which an attribute list has a second piece.
#[tactic(auto, unfolding(crate::specs::Mounts::has_single_lists))]
fn has_single_lists(map: &VolumeMap) -> Result<(), MountFault>
    ensures { Gives (λ x. x) scan_cause result (has_single_lists (volume_in map.now)) }
{
    match first_with_two(map) {
        Some(number) => Err(MountFault::Refused(Refusal::BadVolume { rule: 4, number })),
        None => Ok(()),
    }
}

/// Refuses a loaded volume that keeps the nine rules and can't be changed yet without harm
/// (Linux-NTFS documentation, "$LogFile", "$ATTRIBUTE_LIST", "$Boot"). It takes time linear in the
/// attributes of all files and in the runs of the log, and beside it what [`keeps_boot`] takes.
///
/// - [`MountFault::Refused`]: the first that applies of [`Refusal::LogSmall`] where a page of the log
///   at this place lies nowhere, as [`pages_lie`] says; [`Refusal::BadVolume`] with rule 4 and the
///   least number of a file whose attribute list has a second piece; and [`Refusal::BadVolume`] with
///   number 0, and rule 5 where a stream has the first cluster, in which the boot sector lies, that
///   isn't the data of `$Boot`, or rule 6 where the bit of that cluster is clear.
/// - [`MountFault::Memory`]: want of memory.
#[tactic(auto, unfolding(crate::specs::Mounts::changeable))]
pub fn may_be_changed(alloc: Global, place: &LogPlace, map: &VolumeMap) -> Result<(), MountFault>
    ensures { Gives (λ x. x) scan_cause result (changeable place.now map.now.cluster_bits (volume_in map.now)) }
{
    pages_lie(place, map)?;
    has_single_lists(map)?;
    keeps_boot(alloc, map)
}
