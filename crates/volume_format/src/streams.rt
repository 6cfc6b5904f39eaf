ghost use Rattle.std.specs.Prelude.{◌≡◌, ◌++◌, [], ◌∷◌, Some, IfOk, OnOk};
ghost use Rattle.disk_model.specs.Numbers.{spell};
ghost use Rattle.disk_model.specs.Bytes.{zeros};
ghost use Rattle.record_model.specs.StdValues.{volume_info_over};
ghost use Rattle.record_model.specs.Nodes.{FitsDown, last_entry};
ghost use Rattle.record_model.specs.Constants.{names_index, index_root, bitmap_type};
ghost use Rattle.index_node.specs.Roots.{root_spelling};
ghost use Rattle.volume_format.specs.Layouts.{IsLayout};
ghost use Rattle.volume_format.specs.Files.{FitsData, data_attrs, table_streams, volume_streams, root_streams, bad_streams, extend_streams, other_streams, resident};

use crate::attributes::{Stream, mapped, resident};
use crate::layout::Layout;
use crate::naming::{Data, units};
use crate::zeros::zeroed;
use host_base::{Bytes, Memory};
use index_node::write_root;
use record_model::{
    Attr, BITMAP_TYPE, DATA, EntryList, INDEX_ALLOCATION, INDEX_ROOT, NAMES_INDEX,
    VOLUME_INFORMATION, VOLUME_NAME, VolumeInfo, last_entry,
};
use record_writer::FileRec;
use std::alloc::{AllocError, Global};
use std_values::FixedValue;
use utf16_name::Units;

// A stream in clusters, all of whose bytes are initialised.
fn in_clusters(id: u16, kind: u32, first: u64, clusters: u64, bytes: u64) -> Stream
    ensures { result ≡ record { id = id; kind = kind; lcn = Some first; clusters = clusters; real = bytes; initialised = bytes } }
{
    Stream {
        id,
        kind,
        lcn: Some(first),
        clusters,
        real: bytes,
        initialised: bytes,
    }
}

// The name of a directory's index.
fn index_name(alloc: Global) -> Result<Units, AllocError>
    ensures { IfOk result (λ name. name ≡ names_index) }
{
    Units::copy_of(alloc, &NAMES_INDEX)
}

// An index root with a last entry alone.
fn empty_root(alloc: Global, down: Option<u64>) -> Result<Attr, AllocError>
    requires { FitsDown down }
    ensures { IfOk result (λ attr. attr ≡ resident 2 index_root names_index (root_spelling 1 (last_entry down ∷ []))) }
{
    let mut entries = EntryList::new(alloc);
    entries.push(last_entry(alloc, down))?;
    let value = write_root(alloc, 1, entries)?;
    Ok(resident(2, INDEX_ROOT, index_name(alloc)?, value))
}

/// Puts the data without a name.
pub fn push_data(alloc: Global, place: Data, file: &mut FileRec) -> Result<(), Memory>
    requires { FitsData place }
    ensures { OnOk result (file.new ≡ record { head = file.old.head; attrs = file.old.attrs ++ data_attrs place }) }
{
    match place {
        Data::Absent => Ok(()),
        Data::Empty => Ok(file.push(resident(2, DATA, Units::new(alloc), Bytes::new(alloc)))?),
        Data::Clusters {
            first,
            clusters,
            bytes,
        } => {
            let stream = in_clusters(2, DATA, first, clusters, bytes);
            file.push(mapped(alloc, stream, Units::new(alloc))?)?;
            Ok(())
        }
    }
}

// Puts the bitmap of the file table's records.
fn push_table(alloc: Global, file: &mut FileRec) -> Result<(), Memory>
    ensures { OnOk result (file.new ≡ record { head = file.old.head; attrs = file.old.attrs ++ table_streams }) }
{
    let stream = in_clusters(3, BITMAP_TYPE, 3, 1, 8);
    file.push(mapped(alloc, stream, Units::new(alloc))?)?;
    Ok(())
}

// The volume's version.
fn version(alloc: Global) -> Result<Bytes, AllocError>
    ensures { IfOk result (λ value. value ≡ volume_info_over (record { major = 3; minor = 1; flags = 0 }) (zeros 0x0C)) }
{
    let info = VolumeInfo {
        major: 3,
        minor: 1,
        flags: 0,
    };
    let mut value = zeroed(alloc, 12)?;
    info.write(&mut value);
    Ok(Bytes::from(value))
}

// Puts an empty label and the version.
#[tactic(auto, unfolding(crate::specs::Files::volume_streams))]
fn push_volume(alloc: Global, file: &mut FileRec) -> Result<(), AllocError>
    ensures { OnOk result (file.new ≡ record { head = file.old.head; attrs = file.old.attrs ++ volume_streams }) }
{
    let label = resident(2, VOLUME_NAME, Units::new(alloc), Bytes::new(alloc));
    file.push(label)?;
    let version = version(alloc)?;
    file.push(resident(3, VOLUME_INFORMATION, Units::new(alloc), version))
}

// The bitmap of an index with one block.
#[tactic(auto, unfolding(disk_model::specs::Numbers::spell))]
fn one_bit(alloc: Global) -> Result<Attr, AllocError>
    ensures { IfOk result (λ attr. attr ≡ resident 4 bitmap_type names_index (spell 8 1)) }
{
    let value = Bytes::copy_of(alloc, &[1, 0, 0, 0, 0, 0, 0, 0])?;
    Ok(resident(4, BITMAP_TYPE, index_name(alloc)?, value))
}

// Puts the root's index, which has one block.
#[tactic(auto, unfolding(crate::specs::Files::root_streams))]
fn push_root(alloc: Global, v: Layout, file: &mut FileRec) -> Result<(), Memory>
    requires { IsLayout v }
    ensures { OnOk result (file.new ≡ record { head = file.old.head; attrs = file.old.attrs ++ root_streams v }) }
{
    file.push(empty_root(alloc, Some(0))?)?;
    let stream = in_clusters(3, INDEX_ALLOCATION, v.block_first(), 1, 4096);
    file.push(mapped(alloc, stream, index_name(alloc)?)?)?;
    file.push(one_bit(alloc)?)?;
    Ok(())
}

// Puts one sparse run over all clusters.
fn push_bad(alloc: Global, v: Layout, file: &mut FileRec) -> Result<(), Memory>
    requires { IsLayout v }
    ensures { OnOk result (file.new ≡ record { head = file.old.head; attrs = file.old.attrs ++ bad_streams v }) }
{
    let stream = Stream {
        id: 2,
        kind: DATA,
        lcn: None,
        clusters: v.clusters,
        real: 4096 * v.clusters,
        initialised: 0,
    };
    let name = Units::from(units(alloc, b"$Bad")?);
    file.push(mapped(alloc, stream, name)?)?;
    Ok(())
}

// Puts an empty index.
#[tactic(auto, unfolding(crate::specs::Files::extend_streams))]
fn push_extend(alloc: Global, file: &mut FileRec) -> Result<(), AllocError>
    ensures { OnOk result (file.new ≡ record { head = file.old.head; attrs = file.old.attrs ++ extend_streams }) }
{
    file.push(empty_root(alloc, None)?)
}

/// Puts what a system file has behind its data.
#[tactic(auto, unfolding(crate::specs::Files::other_streams))]
pub fn push_others(alloc: Global, v: Layout, number: u64, file: &mut FileRec) -> Result<(), Memory>
    requires { IsLayout v }
    ensures { OnOk result (file.new ≡ record { head = file.old.head; attrs = file.old.attrs ++ other_streams v number }) }
{
    match number {
        0 => push_table(alloc, file),
        3 => Ok(push_volume(alloc, file)?),
        5 => push_root(alloc, v, file),
        8 => push_bad(alloc, v, file),
        11 => Ok(push_extend(alloc, file)?),
        _ => Ok(()),
    }
}
