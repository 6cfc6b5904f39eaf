//! A change of a map, put in place.
ghost use Rattle.std.specs.Prelude.{◌≡◌, ◌-◌, ◌<◌, ◌≤◌, ◌++◌, [], ◌∷◌, None, length, replicate, slice_set, vec_capacity};
ghost use Rattle.volume_map.specs.state_model.Loads.{record_count};
ghost use Rattle.volume_map.specs.Heads.{no_head};
ghost use Rattle.map_change.specs.Parts.{live_parts};
ghost use Rattle.map_change.specs.Applying.{resized, tabled, applied_one, applied_all, runs_put, bits_put, bits_applied, records_applied, applied, HasRoomFor, HasRoom};

use crate::change::{BitRun, BitsChange, MapChange, PartsChange, RecordChange};
use crate::live::LiveMap;
use bit_set::BitSet;
use volume_map::{Extents, FileRec, Head};

// ---- the table

fn count_files(files: &Vec<Option<FileRec>>) -> usize
    ensures { result ≡ length files.now.items }
{
    files.len()
}

// No file behind the others.
fn push_none(files: &mut Vec<Option<FileRec>>)
    requires { length files.old.items < vec_capacity files.old }
    ensures items { files.new.items ≡ files.old.items ++ None ∷ [] }
    ensures room { vec_capacity files.old ≤ vec_capacity files.new }
{
    // There is room for it.
    let _ = files.push(None);
}

// No file at each number more that there has to be.
fn fill_files(files: &mut Vec<Option<FileRec>>, count: usize)
    requires { count ≤ vec_capacity files.old }
    ensures { files.new.items ≡ files.old.items ++ replicate (count - length files.old.items) None }
{
    while count_files(files) < count {
        push_none(files);
    }
}

// So many files: the first ones, and none behind them.
#[tactic(auto, using(crate::proofs::Resizing::cut_filled))]
fn resize_files(files: &mut Vec<Option<FileRec>>, count: usize)
    requires { count ≤ vec_capacity files.old }
    ensures { files.new.items ≡ resized count None files.old.items }
{
    files.truncate(count);
    fill_files(files, count);
}

// The head of a record that isn't there.
fn no_head() -> Head
    ensures { result ≡ no_head }
{
    Head {
        in_use: false,
        sequence: 1,
    }
}

// The same of heads.
fn resize_heads(heads: &mut Vec<Head>, count: usize)
    requires { count ≤ vec_capacity heads.old }
    ensures { heads.new.items ≡ resized count no_head heads.old.items }
{
    // There is room for them.
    let _ = heads.resize(count, no_head());
}

// Gives the file table these extents, and as many records.
#[tactic(auto, using(crate::proofs::Resizing::all_resized))]
fn put_table(live: &mut LiveMap, table: Extents)
    requires { HasRoomFor live.old (record_count table) }
    ensures { live_parts live.new ≡ tabled table (live_parts live.old) }
{
    let count = (table.real / 1024) as usize;
    resize_files(&mut live.map.files, count);
    resize_heads(&mut live.map.heads, count);
    live.map.table = table;
}

// ---- records

// Puts a file in the place of the one with this number, if there is a place.
fn put_file(files: &mut Vec<Option<FileRec>>, number: u64, file: Option<FileRec>)
    ensures { files.new.items ≡ slice_set files.old.items number file }
{
    if number < files.len() as u64 {
        files[number as usize] = file;
    }
}

// The same of a head.
fn put_head(heads: &mut Vec<Head>, number: u64, head: Head)
    ensures { heads.new.items ≡ slice_set heads.old.items number head }
{
    if number < heads.len() as u64 {
        heads[number as usize] = head;
    }
}

// Puts one record in its place.
#[tactic(auto, using(crate::proofs::Lists::all_set))]
fn put_record(live: &mut LiveMap, change: RecordChange)
    ensures { live_parts live.new ≡ applied_one change (live_parts live.old) }
{
    let RecordChange { number, file, head } = change;
    put_file(&mut live.map.files, number, file);
    put_head(&mut live.map.heads, number, head);
}

// Puts records in their places, the last one first.
fn put_records(live: &mut LiveMap, records: Vec<RecordChange>)
    ensures { live_parts live.new ≡ applied_all records.items (live_parts live.old) }
{
    let mut records = records;
    while let Some(change) = records.pop() {
        put_record(live, change);
    }
}

// ---- bits

// Gives the bits of a run their value, those of them that there are.
#[tactic(auto, using(crate::proofs::Marked::past_put, crate::proofs::Marked::run_put))]
fn put_run(bits: &mut BitSet, run: BitRun)
    ensures { bits.new ≡ runs_put (run ∷ []) bits.old }
{
    let count = bits.bits();
    if count <= run.first {
        return;
    }
    let len = run.len.min(count - run.first);
    if run.value {
        bits.set_run(run.first, len);
    } else {
        bits.clear_run(run.first, len);
    }
}

// The same of runs, the last one first.
#[tactic(auto, using(crate::proofs::Marked::none_put))]
fn put_runs(bits: &mut BitSet, runs: Vec<BitRun>)
    ensures { bits.new ≡ runs_put runs.items bits.old }
{
    let mut runs = runs;
    while let Some(run) = runs.pop() {
        put_run(bits, run);
    }
}

// Puts bits in the place of others.
fn put_bits(bits: &mut BitSet, new: BitsChange)
    ensures { bits.new ≡ bits_put new bits.old }
{
    match new {
        BitsChange::Whole(new) => *bits = new,
        BitsChange::Runs(runs) => put_runs(bits, runs),
    }
}

// ---- the map

// Puts the table, records and bits in their places.
fn put_parts(live: &mut LiveMap, parts: PartsChange)
    requires { HasRoomFor live.old (record_count parts.table) }
    ensures { live_parts live.new ≡ bits_applied parts (records_applied parts (live_parts live.old)) }
{
    let PartsChange {
        table,
        records,
        record_bits,
        cluster_bits,
    } = parts;
    put_table(live, table);
    put_records(live, records);
    put_bits(&mut live.map.record_bits, record_bits);
    put_bits(&mut live.map.cluster_bits, cluster_bits);
}

/// Puts a change in place: where it was prepared for this map as it is now, the map is then that of
/// the view after the changes. It takes no memory, and time linear in the change, for each run of
/// bits in its words and in the logarithm of the bits; it drops what it replaces.
pub fn apply(live: &mut LiveMap, change: MapChange)
    requires prepared { HasRoom live.old change }
    ensures { live_parts live.new ≡ applied change (live_parts live.old) }
{
    match change {
        MapChange::Anew(map) => *live = map,
        MapChange::Parts(parts) => put_parts(live, parts),
    }
}
