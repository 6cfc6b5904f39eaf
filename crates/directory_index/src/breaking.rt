//! The first directory whose index isn't the list of its names.
ghost use Rattle.std.specs.Prelude.{◌≡◌, ◌<◌, ℕ, Ok, Some, IfSome, length, slice_index};
ghost use Rattle.std.specs.Option.{option_copied};
ghost use Rattle.host_base.specs.Answers.{GivesOrFails};
ghost use Rattle.host_base.specs.Causes.{Counts};
ghost use Rattle.state_model.specs.Loads.{table_in};
ghost use Rattle.state_model.specs.Rules.{names_in, first_failing};
ghost use Rattle.record_rules.specs.Counts.{names_at};
ghost use Rattle.record_rules.specs.Links.{links_in};
ghost use Rattle.index_tree.specs.block_view.Views.{AsksView};
ghost use Rattle.volume_model.specs.Volumes.{Volume};
ghost use Rattle.volume_model.specs.Indexes.{index_links, lists_names, keeps_index};
ghost use Rattle.directory_index.specs.Errors.{index_cause};
ghost use Rattle.directory_index.specs.Loaded.{volume_with, only_directory, directory_at};

use crate::fault::IndexFault;
use crate::holding::index_links;
use host_base::FileRef;
use index_tree::View;
use record_rules::{FileRec, file_at, is_directory_record, is_index};
use state_model::{ClusterSize, LinkList};
use std::alloc::Global;
use volume_model::Upcase;

// Whether these are the names of the directory, in order.
fn lists_names(
    up: &Upcase,
    files: &[Option<FileRec>],
    links: &[LinkList],
    count: usize,
    directory: FileRef,
    held: &Option<LinkList>,
) -> bool
    requires table { links.now ≡ links_in files.now }
    requires counted { count ≡ names_in (table_in files.now) directory (length files.now) }
    ensures { result ≡ lists_names up.now (table_in files.now) (length files.now) directory held.now }
{
    match held {
        Some(held) => is_index(
            up.as_slice(),
            files,
            links,
            directory,
            count,
            held.as_slice(),
        ),
        None => false,
    }
}

// Whether the index of this directory is the list of its names.
fn has_index<V: View>(
    alloc: Global,
    view: &mut V,
    per: ClusterSize,
    up: &Upcase,
    files: &[Option<FileRec>],
    links: &[LinkList],
    count: usize,
    directory: FileRef,
    file: &FileRec,
) -> Result<bool, IndexFault>
    requires table { links.now ≡ links_in files.now }
    requires counted { count ≡ names_in (table_in files.now) directory (length files.now) }
    ensures value { IfSome (V.content view.old) (λ c. GivesOrFails (λ kept. kept) index_cause result (Ok (lists_names up.now (table_in files.now) (length files.now) directory (index_links c per up.now file.now)))) }
    ensures kept { AsksView V.content V.kept V.faults index_cause view.old view.new result }
{
    let held = index_links(alloc, view, per, up, file)?;
    Ok(lists_names(up, files, links, count, directory, &held))
}

fn only_directory(file: &FileRec) -> Option<&FileRec>
    ensures { option_copied result ≡ only_directory (Some file.now) }
{
    if is_directory_record(file) {
        Some(file)
    } else {
        None
    }
}

// The directory with this number, if there is one.
#[tactic(auto, unfolding(crate::specs::Loaded::directory_at))]
fn directory_at(files: &[Option<FileRec>], number: u64) -> Option<&FileRec>
    ensures { option_copied result ≡ directory_at (table_in files.now) number }
{
    match file_at(files, number) {
        Some(file) => only_directory(file),
        None => None,
    }
}

// Whether the index of the directory with this number is the list of its names, if there is one.
fn keeps_index<V: View>(
    alloc: Global,
    view: &mut V,
    per: ClusterSize,
    up: &Upcase,
    files: &[Option<FileRec>],
    links: &[LinkList],
    counts: &[usize],
    number: u64,
) -> Result<bool, IndexFault>
    requires table { links.now ≡ links_in files.now }
    requires size { length counts.now ≡ length files.now }
    requires counted { (n : ℕ) → n < length files.now → slice_index counts.now n ≡ names_at (table_in files.now) n (length files.now) }
    requires inside { number < length files.now }
    ensures value { IfSome (V.content view.old) (λ c. GivesOrFails (λ kept. kept) index_cause result (Ok (keeps_index c (volume_with per files.now) up.now number))) }
    ensures kept { AsksView V.content V.kept V.faults index_cause view.old view.new result }
{
    let Some(file) = directory_at(files, number) else {
        return Ok(true);
    };
    let directory = FileRef {
        number,
        seq: file.head().seq,
    };
    let count = counts[number as usize];
    has_index(alloc, view, per, up, files, links, count, directory, file)
}

// The least number at which the index of a directory isn't the list of its names.
fn first_failing<V: View>(
    alloc: Global,
    view: &mut V,
    per: ClusterSize,
    up: &Upcase,
    files: &[Option<FileRec>],
    links: &[LinkList],
    counts: &[usize],
) -> Result<Option<u64>, IndexFault>
    requires table { links.now ≡ links_in files.now }
    requires size { length counts.now ≡ length files.now }
    requires counted { (n : ℕ) → n < length files.now → slice_index counts.now n ≡ names_at (table_in files.now) n (length files.now) }
    ensures value { IfSome (V.content view.old) (λ c. GivesOrFails (λ found. found) index_cause result (Ok (first_failing (keeps_index c (volume_with per files.now) up.now) (length files.now)))) }
    ensures kept { AsksView V.content V.kept V.faults index_cause view.old view.new result }
{
    for number in 0..files.len() {
        let kept = keeps_index(alloc, view, per, up, files, links, counts, number as u64)?;
        if !kept {
            return Ok(Some(number as u64));
        }
    }
    Ok(None)
}

/// The least number of a directory whose index isn't the list of the names that stand in it: read
/// in order, it doesn't hold exactly these names, or two of them have equal units, or a node of it
/// is at fault (Linux-NTFS documentation, "$INDEX_ROOT" and "Index Record"). `files` has the file
/// of each number, if there is one, with all its attributes, `links` the names of each and `counts`
/// how many names stand in each; `up` is the table of upper-case units, and a volume has `per`
/// sectors a cluster.
///
/// - [`IndexFault::View`]: the view failed, and counts it.
/// - [`IndexFault::Memory`]: there is no memory left.
///
/// It reads each block of the indexes once, one directory after the other, and holds the names of
/// one directory at a time. It takes time near-linear in the files, in the blocks that hold nodes
/// and the names that these have, and for each name in those of its file; blocks of an allocation
/// that no node lies in cost nothing.
pub fn first_broken<V: View>(
    alloc: Global,
    view: &mut V,
    per: ClusterSize,
    up: &Upcase,
    files: &[Option<FileRec>],
    links: &[LinkList],
    counts: &[usize],
) -> Result<Option<u64>, IndexFault>
    requires table { links.now ≡ links_in files.now }
    requires size { length counts.now ≡ length files.now }
    requires counted { (n : ℕ) → n < length files.now → slice_index counts.now n ≡ names_at (table_in files.now) n (length files.now) }
    ensures value { IfSome (V.content view.old) (λ c. (v : Volume) → v.per ≡ per → v.files ≡ files.now → GivesOrFails (λ found. found) index_cause result (Ok (first_failing (keeps_index c v up.now) (length files.now)))) }
    ensures kept { AsksView V.content V.kept V.faults index_cause view.old view.new result }
{
    first_failing(alloc, view, per, up, files, links, counts)
}
