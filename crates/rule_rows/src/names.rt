//! Rows of changes of a loaded volume, and whether they leave its files their names.
ghost use Rattle.std.specs.Prelude.{◌≡◌};
ghost use Rattle.map_change.specs.Plain.{is_plain};

use crate::files::{D, DOT, FG, Form, OneFile, OneName, file_record, records_of};
use bit_set::BitSet;
use file_record::FileRec;
use map_change::{BitsChange, LiveMap, MapChange, PartsChange, RecordChange, VolumeMap};
use record_model::Runs;
use record_rules::has_type;
use same_names::keeps_names;
use state_model::{ClusterSize, Extents};
use std::alloc::{AllocError, Global};
use std::test::Fail;
use volume_map::Head;

// A record that is put: its number, and the file that it is, if it is one.
#[derive(Clone, Copy)]
struct OnePut(u64, Option<OneFile>);

// Records that are put, how many records there are then, and whether the names are kept.
struct Row(&'static [OnePut], u64, bool);

const E: &[OneName] = &[OneName(5, 5, 0, b'e')];

static FILES: [OneFile; 3] = [
    OneFile(5, 5, Form::Directory, DOT),
    OneFile(24, 1, Form::File, FG),
    OneFile(25, 1, Form::File, D),
];

const SAME: OnePut = OnePut(25, Some(OneFile(25, 1, Form::Bare, D)));

const OTHER: OnePut = OnePut(25, Some(OneFile(25, 1, Form::File, E)));

const MORE: OnePut = OnePut(25, Some(OneFile(25, 1, Form::File, FG)));

const LATER: OnePut = OnePut(25, Some(OneFile(25, 2, Form::File, D)));

static ROWS: [Row; 13] = [
    Row(&[], 27, true),
    Row(&[SAME], 27, true),
    Row(&[OTHER], 27, false),
    Row(&[MORE], 27, false),
    Row(&[LATER], 27, false),
    // A file that goes, that becomes the extension of another one, and that comes.
    Row(&[OnePut(25, None)], 27, false),
    Row(
        &[OnePut(25, Some(OneFile(25, 1, Form::Extension, D)))],
        27,
        false,
    ),
    Row(
        &[OnePut(26, Some(OneFile(26, 1, Form::File, D)))],
        27,
        false,
    ),
    Row(&[OnePut(26, None), SAME], 27, true),
    // Of two with one number the first one holds; one past the last record is put nowhere.
    Row(&[SAME, OTHER], 27, true),
    Row(&[OTHER, SAME], 27, false),
    Row(&[OnePut(27, Some(OneFile(27, 1, Form::File, E)))], 27, true),
    // The table grows.
    Row(&[], 28, false),
];

fn extents_of(alloc: Global, count: u64) -> Extents {
    let size = count.saturating_mul(1024);
    Extents {
        runs: Runs::new(alloc),
        allocated: size,
        real: size,
        initialised: size,
    }
}

fn live_of(alloc: Global) -> Result<LiveMap, Fail> {
    let map = VolumeMap {
        per_cluster: ClusterSize::new(8).ok_or("no size")?,
        clusters: 0,
        mft: 0,
        table: extents_of(alloc, 27),
        files: records_of(alloc, &FILES)?,
        heads: Vec::new(alloc),
        record_bits: BitSet::from_bytes(alloc, &[], 0).or(Err(AllocError))?,
        cluster_bits: BitSet::from_bytes(alloc, &[], 0).or(Err(AllocError))?,
    };
    Ok(LiveMap { map, plain: false })
}

// Whether the file, if there is one, has no attribute list.
fn is_plain(file: &Option<FileRec>) -> bool
    ensures { result ≡ is_plain file.now }
{
    match file {
        Some(file) => !has_type(0x20, file),
        None => true,
    }
}

fn change_of(number: u64, file: Option<FileRec>) -> Result<RecordChange, Fail> {
    if !is_plain(&file) {
        return Err("an attribute list".into());
    }
    let head = Head {
        in_use: true,
        sequence: 1,
    };
    Ok(RecordChange { number, file, head })
}

fn put_of(alloc: Global, put: &OnePut) -> Result<RecordChange, Fail> {
    match &put.1 {
        Some(file) => change_of(put.0, Some(file_record(alloc, file)?)),
        None => change_of(put.0, None),
    }
}

fn parts_of(alloc: Global, row: &Row) -> Result<PartsChange, Fail> {
    let mut records = Vec::new(alloc);
    for put in row.0 {
        records.push(put_of(alloc, put)?)?;
    }
    Ok(PartsChange {
        table: extents_of(alloc, row.1),
        records,
        record_bits: BitsChange::Runs(Vec::new(alloc)),
        cluster_bits: BitsChange::Runs(Vec::new(alloc)),
    })
}

fn keeps(alloc: Global, row: &Row) -> Result<bool, Fail> {
    let live = live_of(alloc)?;
    let change = MapChange::Parts(parts_of(alloc, row)?);
    Ok(keeps_names(alloc, &live, &change).or(Err(AllocError))?)
}

#[test]
fn changes_keep_names(rt: HostRuntime) -> Result<(), Fail> {
    for (at, row) in ROWS.iter().enumerate() {
        assert_eq!(rt; keeps(rt.alloc(), row)?, row.2, "{at}");
    }
    Ok(())
}

#[test]
fn a_map_loaded_anew_keeps_names(rt: HostRuntime) -> Result<(), Fail> {
    let alloc = rt.alloc();
    let live = live_of(alloc)?;
    let change = MapChange::Anew(live_of(alloc)?);
    let keeps = keeps_names(alloc, &live, &change).or(Err(AllocError))?;
    assert!(rt; keeps);
    Ok(())
}
