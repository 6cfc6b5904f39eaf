//! The attribute lists of files.
ghost use Rattle.std.specs.Prelude.{◌≡◌, ◌==◌, ◌<◌, ◌≤◌, ◌++◌, ◌∷◌, [], find, map, length, IfOk, OnOk, IfSome, IsTrue};
ghost use Rattle.std.specs.Option.{option_copied};
ghost use Rattle.record_model.specs.ListEntries.{list_entries};
ghost use Rattle.record_model.specs.declared.attribute.Attr.{Attr as attr};
ghost use Rattle.record_model.specs.Constants.{attribute_list};
ghost use Rattle.state_model.specs.Streams.{stream_bytes, real_size};
ghost use Rattle.state_model.specs.Loads.{attr_name, list_stream, list_entries_in, entries_of, table_in};
ghost use Rattle.volume_map.specs.Errors.{map_cause, NeverRefused};
ghost use Rattle.volume_map.specs.Lists.{read_of, list_at, lists_of, Takes, GoesOn};
ghost use Rattle.stream_map.specs.block_view.Views.{AsksView};

use crate::fault::MapFault;
use crate::list_read::ListRead;
use file_record::{FileRec, file_at};
use record_model::{ATTRIBUTE_LIST, Attr};
use state_model::{ClusterSize, Stream};
use std::alloc::{AllocError, Global};
use stream_map::{Body, Step, View, next_entry, stream_of};
use volume_model::Memory;

// The first attribute that is a list.
fn list_attr(attrs: &[Attr]) -> Option<&Attr>
    ensures { option_copied result ≡ find (λ (a : attr). a.head.kind == attribute_list) attrs.now }
{
    attrs.iter().find(|attr| attr.head.kind == ATTRIBUTE_LIST)
}

// Its name; none where there is none.
fn list_name(attrs: &[Attr]) -> &[u16]
    ensures { result.now ≡ attr_name (find (λ (a : attr). a.head.kind == attribute_list) attrs.now) }
{
    match list_attr(attrs) {
        Some(attr) => attr.name.as_slice(),
        None => &[],
    }
}

// The attribute list of the record.
#[tactic(auto, unfolding(state_model::specs::Loads::list_stream))]
fn list_stream(alloc: Global, file: &FileRec) -> Result<Option<Stream>, Memory>
    ensures value { IfOk result (λ stream. stream ≡ list_stream file.now) }
{
    let attrs = file.attrs().as_slice();
    stream_of(alloc, ATTRIBUTE_LIST, list_name(attrs), attrs)
}

// Takes what comes next in a list; whether that was an entry.
fn take_step(list: &mut ListRead, step: Step) -> Result<bool, AllocError>
    ensures { IfOk result (Takes step list.old list.new) }
{
    match step {
        Step::End => Ok(false),
        Step::Fault => {
            list.whole = false;
            Ok(false)
        }
        Step::Entry(entry) => {
            list.entries.push(entry)?;
            Ok(true)
        }
    }
}

// Reads the next step of a list, and takes it.
fn read_step<V: View>(
    alloc: Global,
    view: &mut V,
    per: ClusterSize,
    stream: &Stream,
    at: &mut u64,
    body: &mut Body,
    list: &mut ListRead,
) -> Result<bool, MapFault>
    requires place { at.old ≤ real_size stream.now }
    ensures step { IfSome (V.content view.old) (λ c. IfOk result (GoesOn (stream_bytes c per stream.now) at.old at.new list.old list.new)) }
    ensures moves { IfOk result (λ more. IsTrue more → at.old < at.new) }
    ensures inside { at.new ≤ real_size stream.now }
    ensures kept { AsksView V.content V.kept V.faults map_cause view.old view.new result }
    ensures certain { NeverRefused result }
{
    let step = next_entry(alloc, view, per, stream, at, body)?;
    Ok(take_step(list, step)?)
}

// The entries of a list.
fn read_list<V: View>(
    alloc: Global,
    view: &mut V,
    per: ClusterSize,
    stream: &Stream,
    body: &mut Body,
) -> Result<ListRead, MapFault>
    ensures value { IfSome (V.content view.old) (λ c. IfOk result (λ list. read_of list ≡ list_entries (stream_bytes c per stream.now))) }
    ensures kept { AsksView V.content V.kept V.faults map_cause view.old view.new result }
    ensures certain { NeverRefused result }
{
    let mut list = ListRead::empty(alloc);
    let mut at = 0;
    let mut more = true;
    while more {
        more = read_step(alloc, view, per, stream, &mut at, body, &mut list)?;
    }
    Ok(list)
}

// The entries of the list of the file with this number; none where there is no file, or no list.
#[tactic(auto, unfolding(crate::specs::Lists::list_at, state_model::specs::Loads::entries_of))]
fn list_at<V: View>(
    alloc: Global,
    view: &mut V,
    per: ClusterSize,
    records: &[Option<FileRec>],
    number: usize,
    body: &mut Body,
) -> Result<ListRead, MapFault>
    ensures value { IfSome (V.content view.old) (λ c. IfOk result (λ list. read_of list ≡ list_at c per (table_in records.now) number)) }
    ensures kept { AsksView V.content V.kept V.faults map_cause view.old view.new result }
    ensures certain { NeverRefused result }
{
    let Some(file) = file_at(records, number as u64) else {
        return Ok(ListRead::empty(alloc));
    };
    match list_stream(alloc, file)? {
        None => Ok(ListRead::empty(alloc)),
        Some(stream) => read_list(alloc, view, per, &stream, body),
    }
}

fn push(lists: &mut Vec<ListRead>, list: ListRead) -> Result<(), AllocError>
    ensures { OnOk result (lists.new.items ≡ lists.old.items ++ list ∷ []) }
{
    lists.push(list)?;
    Ok(())
}

/// The entries of the attribute list of each file, by the numbers of the records; `body` is room
/// for a body. Linear in the records, and in the entries with the runs of their list.
pub fn read_lists<V: View>(
    alloc: Global,
    view: &mut V,
    per: ClusterSize,
    records: &[Option<FileRec>],
    body: &mut Body,
) -> Result<Vec<ListRead>, MapFault>
    ensures value { IfSome (V.content view.old) (λ c. IfOk result (λ lists. map read_of lists.items ≡ lists_of c per (table_in records.now) (length records.now))) }
    ensures len { IfOk result (λ lists. length lists.items ≡ length records.now) }
    ensures kept { AsksView V.content V.kept V.faults map_cause view.old view.new result }
    ensures certain { NeverRefused result }
{
    let mut lists = Vec::new(alloc);
    for number in 0..records.len() {
        let list = list_at(alloc, view, per, records, number, body)?;
        push(&mut lists, list)?;
    }
    Ok(lists)
}
