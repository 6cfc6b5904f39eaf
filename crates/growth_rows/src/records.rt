//! Records 0 and 6 of a volume in memory: a file table with its bitmap, and the bits of the
//! clusters. The table begins at the sector 32.
ghost use Rattle.std.specs.Prelude.{◌≡◌, IfOk, length};

use bit_set::BitSet;
use block_view::{Block, BlockKind, Held, MemoryView};
use draft_records::data_extents;
use file_record::FileRec;
use host_base::{Bytes, FileRef};
use planned_streams::Extents;
use record_model::{Attr, BITMAP_TYPE, DATA, Head, OwnForm, RecHead, Sizes};
use record_writer::WrittenRecord;
use std::alloc::Global;
use std::test::Fail;
use utf16_name::Units;

/// What stands in a record as a stream: a value of so many zeros; or pairs, with the number of the
/// last VCN and the size, all of which is initialised.
#[derive(Clone, Copy)]
pub enum Standing {
    Value(u16),
    Pairs(&'static [u8], u64, u64),
}

/// A volume: its clusters, record 0's data and bitmap and so many bytes of another value, and record
/// 6's data; and which clusters are free: from one on so many, of which each is so far behind the one
/// before.
pub struct Volume(
    pub u64,
    pub Standing,
    pub Standing,
    pub u16,
    pub Standing,
    pub (u64, u64, u64),
);

// The header of a record in use.
fn head(number: u32) -> RecHead {
    RecHead {
        lsn: 0,
        seq: 1,
        links: 0,
        flags: 1,
        base: FileRef { number: 0, seq: 0 },
        next_id: 3,
        number,
    }
}

fn zeros(alloc: Global, count: u16) -> Result<OwnForm, Fail> {
    let value = vec![in alloc; 0u8; usize::from(count)]?;
    Ok(OwnForm::Resident {
        value: Bytes::from(value),
        indexed: 0,
    })
}

fn form_of(alloc: Global, standing: Standing) -> Result<OwnForm, Fail> {
    match standing {
        Standing::Value(count) => zeros(alloc, count),
        Standing::Pairs(pairs, last, size) => Ok(OwnForm::Mapped {
            sizes: Sizes {
                first: 0,
                last,
                unit: 0,
                allocated: last.saturating_add(1).saturating_mul(4096),
                real: size,
                initialised: size,
                held: None,
            },
            pairs: Bytes::copy_of(alloc, pairs)?,
        }),
    }
}

fn push(
    alloc: Global,
    file: &mut FileRec,
    kind: u32,
    id: u16,
    standing: Standing,
) -> Result<(), Fail> {
    let form = form_of(alloc, standing)?;
    file.push(Attr {
        head: Head { kind, flags: 0, id },
        name: Units::new(alloc),
        form,
    })?;
    Ok(())
}

// Record 0, with another value behind its streams, if that has bytes.
fn table_record(alloc: Global, volume: &Volume) -> Result<FileRec, Fail> {
    let mut file = FileRec::empty(alloc, head(0));
    push(alloc, &mut file, DATA, 0, volume.1)?;
    push(alloc, &mut file, BITMAP_TYPE, 1, volume.2)?;
    if volume.3 > 0 {
        push(alloc, &mut file, 0x100, 2, Standing::Value(volume.3))?;
    }
    Ok(file)
}

fn bitmap_record(alloc: Global, volume: &Volume) -> Result<FileRec, Fail> {
    let mut file = FileRec::empty(alloc, head(6));
    push(alloc, &mut file, DATA, 0, volume.4)?;
    Ok(file)
}

// The block of a record that lies in the table's first run.
fn block_of(number: u64) -> Block
    ensures { result.kind ≡ BlockKind.FileRec }
{
    Block {
        first: number.saturating_mul(2).saturating_add(32),
        kind: BlockKind::FileRec,
    }
}

fn held(number: u64, bytes: Vec<u8>) -> Held
    requires { length bytes.items ≡ 1024 }
{
    Held {
        block: block_of(number),
        bytes: Bytes::from(bytes),
        torn: false,
    }
}

// The body of a record.
fn body_of(alloc: Global, file: &FileRec) -> Result<Vec<u8>, Fail>
    ensures { IfOk result (λ body. length body.items ≡ 1024) }
{
    if !file.has_spelling() {
        return Err("no spelling".into());
    }
    let mut out = [0u8; 1024];
    file.write(&mut out);
    Ok(Vec::from_slice(alloc, &out)?)
}

/// The records of a volume, and zeros elsewhere. The calls with these numbers fail.
pub fn view_of(alloc: Global, volume: &Volume, failing: &[u64]) -> Result<MemoryView, Fail> {
    let table = table_record(alloc, volume)?;
    let bitmap = bitmap_record(alloc, volume)?;
    let mut bodies = Vec::new(alloc);
    bodies.push(held(0, body_of(alloc, &table)?))?;
    bodies.push(held(6, body_of(alloc, &bitmap)?))?;
    Ok(MemoryView::new(bodies, failing.to_vec(alloc)?))
}

/// The clusters of a volume's file table.
pub fn lies_of(alloc: Global, volume: &Volume) -> Result<Extents, Fail> {
    let table = table_record(alloc, volume)?;
    Ok(data_extents(alloc, &table)?)
}

fn clear(bits: &mut BitSet, number: u64) {
    if number < bits.bits() {
        bits.clear_run(number, 1);
    }
}

/// The bits of a volume's clusters.
pub fn bits_of(alloc: Global, volume: &Volume) -> Result<BitSet, Fail> {
    let bytes = vec![in alloc; 0xFFu8; (volume.0 / 8) as usize]?;
    let mut bits = BitSet::from_bytes(alloc, &bytes, volume.0)?;
    let (first, count, step) = volume.5;
    for i in 0..count {
        clear(&mut bits, first.saturating_add(i.saturating_mul(step)));
    }
    Ok(bits)
}
