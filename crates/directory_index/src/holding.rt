//! The names that a directory's index holds.
ghost use Rattle.std.specs.Prelude.{◌≡◌, Ok, IfSome};
ghost use Rattle.host_base.specs.Answers.{GivesOrFails};
ghost use Rattle.index_tree.specs.index_model.Walks.{walk_of};
ghost use Rattle.index_tree.specs.Places.{place_of};
ghost use Rattle.index_tree.specs.block_view.Views.{AsksView};
ghost use Rattle.volume_model.specs.Indexes.{links_read, index_links};
ghost use Rattle.directory_index.specs.Errors.{index_cause};
ghost use Rattle.directory_index.specs.Answered.{answer_of};

use crate::fault::IndexFault;
use crate::placing::index_place;
use index_tree::{DirPlace, TreeFault, View, ViewFault, walk};
use record_rules::FileRec;
use state_model::{ClusterSize, LinkList};
use std::alloc::Global;
use volume_model::Upcase;

// What a walk over an index comes to: its links, or none where a node is at fault.
fn answer_of(walked: Result<LinkList, TreeFault>) -> Result<Option<LinkList>, IndexFault>
    ensures { result ≡ answer_of walked }
{
    match walked {
        Ok(links) => Ok(Some(links)),
        Err(TreeFault::Node { .. }) => Ok(None),
        Err(TreeFault::Present) => Ok(None),
        Err(TreeFault::Absent) => Ok(None),
        Err(TreeFault::Deep { .. }) => Ok(None),
        Err(TreeFault::View(ViewFault::Fault)) => Err(IndexFault::View),
        Err(TreeFault::View(ViewFault::Memory)) => Err(IndexFault::Memory),
    }
}

// The links of the index at a place, or none where a node is at fault.
fn links_at<V: View>(
    alloc: Global,
    view: &mut V,
    up: &Upcase,
    dir: &DirPlace,
) -> Result<Option<LinkList>, IndexFault>
    ensures value { IfSome (V.content view.old) (λ c. GivesOrFails (λ links. links) index_cause result (Ok (links_read (walk_of c (place_of dir.now) up.now dir.now.root)))) }
    ensures kept { AsksView V.content V.kept V.faults index_cause view.old view.new result }
{
    answer_of(walk(alloc, view, dir, up))
}

/// The names that the index of a directory holds, in its order, in a volume of `per` sectors a
/// cluster (Linux-NTFS documentation, "$INDEX_ROOT" and "Index Record"); none where its root isn't
/// there or isn't resident, or a node of it is at fault. An index block that lies in no run or in a
/// sparse one, or that begins at or past the initialised size, is zeros, and so at fault. `up` is
/// the table of upper-case units by which names are compared.
///
/// - [`IndexFault::View`]: the view failed, and counts it.
/// - [`IndexFault::Memory`]: there is no memory left.
///
/// It reads each block of the index once. It takes memory linear in the runs of the allocation and
/// in the bytes of the nodes; time is near-linear in these, where the runs stand in order. Blocks
/// that no node lies in cost nothing.
pub fn index_links<V: View>(
    alloc: Global,
    view: &mut V,
    per: ClusterSize,
    up: &Upcase,
    file: &FileRec,
) -> Result<Option<LinkList>, IndexFault>
    ensures value { IfSome (V.content view.old) (λ c. GivesOrFails (λ links. links) index_cause result (Ok (index_links c per up.now file.now))) }
    ensures kept { AsksView V.content V.kept V.faults index_cause view.old view.new result }
{
    match index_place(alloc, per, file)? {
        Some(dir) => links_at(alloc, view, up, &dir),
        None => Ok(None),
    }
}
