//! The images of the rows: the tiny image, and a small volume that breaks no rule, in clusters of
//! one sector and of eight (Linux-NTFS documentation, "FILE Record", "Attribute Header" and
//! "$INDEX_ROOT").
use sector_device::MemoryDevice;
use std::alloc::{AllocError, Global};
use volume_format::format;

// Where the file table stands, and in the tiny image the copy of its first four records.
const TABLE: usize = 4096;

const MIRROR: usize = 28672;

// Bytes that stand from this place on.
struct Edit(usize, &'static [u8]);

// A name: its directory, whose sequence is its number, its namespace, its letters, and its flags.
struct FileName(u8, u8, &'static [u8], u8);

// An entry of an index: a file, its sequence and its name.
struct Link(u8, u8, FileName);

// An attribute: a value in the record by its type; a name; an index of these entries; data in so
// many clusters from this one on, each of so many sectors; or so many bytes as they stand.
enum Part {
    Value(u8, &'static [u8]),
    Name(FileName),
    Index(&'static [Link]),
    Stored(u8, u8, u8),
    Bytes(usize, &'static [Edit]),
}

// The number, the sequence and the flags of a file record.
struct Head(u8, u8, u8);

struct File(Head, &'static [Part]);

/// An image that rows run on: the tiny image, the same without sectors by its boot sector, a volume
/// that breaks no rule, one with clusters of eight sectors, a new volume in 4,537 sectors, or as many
/// sectors of zeros.
#[derive(Clone, Copy, Debug, PartialEq, Eq)]
pub enum Image {
    Tiny,
    Unsized,
    Whole,
    Wide,
    New,
    Blank,
}

impl Image {
    /// The bytes of the image. The error is want of memory.
    pub fn bytes(self, alloc: Global) -> Result<Vec<u8>, AllocError> {
        match self {
            Image::Tiny => tiny(alloc),
            Image::Unsized => unsized_tiny(alloc),
            Image::Whole => whole(alloc),
            Image::Wide => wide(alloc, &WIDE_BITMAP),
            Image::New => new_volume(alloc),
            Image::Blank => zeros(alloc, 4537),
        }
    }
}

// The boot sector: clusters of one sector, the file table at cluster 8 and its mirror at 56.
static BOOT: [Edit; 7] = [
    Edit(0x03, b"NTFS    "),
    Edit(0x0b, &[0, 2, 1]),
    Edit(0x30, &[8]),
    Edit(0x38, &[56]),
    Edit(0x40, &[2]),
    Edit(0x44, &[8]),
    Edit(0x1fe, &[0x55, 0xaa]),
];

// What differs where clusters have eight sectors: the file table at cluster 1, and its mirror at 7.
static WIDE_BOOT: [Edit; 5] = [
    Edit(0x0d, &[8]),
    Edit(0x30, &[1]),
    Edit(0x38, &[7]),
    Edit(0x40, &[0xf6]),
    Edit(0x44, &[1]),
];

// The head of a file record, whose array of the update sequence stands at 30 and whose first
// attribute stands at 38.
static FRONT: [Edit; 4] = [
    Edit(0x00, b"FILE\x30\0\x03"),
    Edit(0x12, &[1, 0, 0x38]),
    Edit(0x1c, &[0, 4]),
    Edit(0x30, &[1]),
];

// What index roots have in common, and data in clusters.
static INDEX: [Edit; 6] = [
    Edit(0x00, &[0x90]),
    Edit(0x09, &[4, 0x18]),
    Edit(0x14, &[0x20]),
    Edit(0x18, b"$\0I\x003\x000"),
    Edit(0x20, &[0x30, 0, 0, 0, 1, 0, 0, 0, 0, 0x10, 0, 0, 8]),
    Edit(0x30, &[0x10]),
];

static STORED: [Edit; 4] = [
    Edit(0x00, &[0x80]),
    Edit(0x04, &[0x48]),
    Edit(0x08, &[1, 0, 0x40]),
    Edit(0x20, &[0x40]),
];

// `$MFT`, `$LogFile` and the root of the tiny image.
static SYSTEM: [File; 2] = [
    File(
        Head(0, 1, 1),
        &[
            Part::Name(FileName(5, 3, b"$MFT", 0)),
            Part::Stored(32, 8, 1),
        ],
    ),
    File(
        Head(2, 2, 1),
        &[
            Part::Name(FileName(5, 3, b"$LogFile", 0)),
            Part::Stored(16, 40, 1),
        ],
    ),
];

static ROOT: File = File(Head(5, 5, 3), &[Part::Name(FileName(5, 3, b".", 0x10))]);

// The bits of the clusters in use: 0 to 87, 96 and 97.
const CLUSTERS: &[u8] = &[
    255, 255, 255, 255, 255, 255, 255, 255, 255, 255, 255, 0, 3, 0, 0, 0,
];

// Standard information with the times 1, 2, 3 and 4: made, modified, changed and read.
const INFORMATION: &[u8] = &[
    1, 0, 0, 0, 0, 0, 0, 0, 2, 0, 0, 0, 0, 0, 0, 0, 3, 0, 0, 0, 0, 0, 0, 0, 4, 0, 0, 0, 0, 0, 0, 0,
    0, 0, 0, 0, 0, 0, 0, 0, 0, 0, 0, 0, 0, 0, 0, 0, 0, 0, 0, 0, 0, 0, 0, 0, 0, 0, 0, 0, 0, 0, 0, 0,
    0, 0, 0, 0, 0, 0, 0, 0,
];

// The files of the volume that breaks no rule, in clusters of any size: the volume's version; the
// root; `$Extend`; the directory `d`; and a file in `d` with a long and a short name.
static FILES: [File; 5] = [
    File(
        Head(3, 3, 1),
        &[Part::Value(0x70, &[0, 0, 0, 0, 0, 0, 0, 0, 3, 1, 0, 0])],
    ),
    File(
        Head(5, 5, 3),
        &[
            Part::Name(FileName(5, 3, b".", 0)),
            Part::Index(&[
                Link(11, 11, FileName(5, 3, b"$Extend", 0)),
                Link(5, 5, FileName(5, 3, b".", 0)),
                Link(24, 24, FileName(5, 3, b"d", 0)),
                Link(25, 1, FileName(5, 3, b"f", 0)),
            ]),
        ],
    ),
    File(
        Head(11, 11, 3),
        &[
            Part::Name(FileName(5, 3, b"$Extend", 0)),
            Part::Index(&[Link(27, 1, FileName(11, 3, b"$UsnJrnl", 0))]),
        ],
    ),
    File(
        Head(24, 24, 3),
        &[
            Part::Name(FileName(5, 3, b"d", 0)),
            Part::Index(&[
                Link(26, 1, FileName(24, 1, b"Long", 0)),
                Link(26, 1, FileName(24, 2, b"LONG~1", 0)),
            ]),
        ],
    ),
    File(
        Head(26, 1, 1),
        &[
            Part::Value(0x10, INFORMATION),
            Part::Name(FileName(24, 1, b"Long", 0)),
            Part::Name(FileName(24, 2, b"LONG~1", 0)),
            Part::Value(0x80, b"hello"),
        ],
    ),
];

// The others in clusters of one sector: the table, the log, the bitmap, the file `f` in the root,
// and the change journal.
static STORED_FILES: [File; 5] = [
    File(
        Head(0, 1, 1),
        &[
            Part::Stored(64, 8, 1),
            Part::Value(0xb0, &[0x6d, 0x08, 0, 0x0f]),
        ],
    ),
    File(Head(2, 2, 1), &[Part::Stored(16, 72, 1)]),
    File(Head(6, 6, 1), &[Part::Value(0x80, CLUSTERS)]),
    File(
        Head(25, 1, 1),
        &[
            Part::Value(0x10, INFORMATION),
            Part::Name(FileName(5, 3, b"f", 0)),
            Part::Stored(1, 96, 1),
        ],
    ),
    File(
        Head(27, 1, 1),
        &[
            Part::Value(0x10, INFORMATION),
            Part::Name(FileName(11, 3, b"$UsnJrnl", 0)),
            Part::Bytes(0x58, RECORDS),
            Part::Bytes(0x40, LIMITS),
        ],
    ),
];

// And in clusters of eight, but for the bitmap.
static WIDE_FILES: [File; 4] = [
    File(
        Head(0, 1, 1),
        &[
            Part::Stored(8, 1, 8),
            Part::Value(0xb0, &[0x6d, 0x08, 0, 0x0f]),
        ],
    ),
    File(Head(2, 2, 1), &[Part::Stored(2, 9, 8)]),
    File(
        Head(25, 1, 1),
        &[
            Part::Value(0x10, INFORMATION),
            Part::Name(FileName(5, 3, b"f", 0)),
            Part::Stored(1, 12, 8),
        ],
    ),
    File(
        Head(27, 1, 1),
        &[
            Part::Value(0x10, INFORMATION),
            Part::Name(FileName(11, 3, b"$UsnJrnl", 0)),
            Part::Bytes(0x58, WIDE_RECORDS),
            Part::Bytes(0x40, LIMITS),
        ],
    ),
];

// The bits of the 16 clusters in use, 0 to 10, 12 and 13; and without 12.
static WIDE_BITMAP: File = File(Head(6, 6, 1), &[Part::Value(0x80, &[255, 0x37])]);

// `$J`, sparse, with 64 bytes in cluster 97; and `$Max` with 32 zeros.
const RECORDS: &[Edit] = &[
    Edit(0x00, &[0x80, 0, 0, 0, 0x58]),
    Edit(0x08, &[1, 2, 0x48]),
    Edit(0x0d, &[0x80, 2]),
    Edit(0x20, &[0x50]),
    Edit(0x28, &[0, 2]),
    Edit(0x30, &[64]),
    Edit(0x38, &[64]),
    Edit(0x40, &[0, 2]),
    Edit(0x48, b"$\0J"),
    Edit(0x50, &[0x11, 1, 97]),
];

// The same in cluster 13 of eight sectors.
const WIDE_RECORDS: &[Edit] = &[
    Edit(0x00, &[0x80, 0, 0, 0, 0x58]),
    Edit(0x08, &[1, 2, 0x48]),
    Edit(0x0d, &[0x80, 2]),
    Edit(0x20, &[0x50]),
    Edit(0x28, &[0, 0x10]),
    Edit(0x30, &[64]),
    Edit(0x38, &[64]),
    Edit(0x40, &[0, 0x10]),
    Edit(0x48, b"$\0J"),
    Edit(0x50, &[0x11, 1, 13]),
];

const LIMITS: &[Edit] = &[
    Edit(0x00, &[0x80, 0, 0, 0, 0x40]),
    Edit(0x09, &[4, 0x18]),
    Edit(0x0e, &[3, 0, 32]),
    Edit(0x14, &[0x20]),
    Edit(0x18, b"$\0M\0a\0x"),
];

// A record of the change journal for the file of record 26, made and closed, whose name is `f`; it
// has 64 bytes and begins at byte 0 of the journal (Microsoft's reference, "USN_RECORD_V2").
static JOURNAL: [Edit; 4] = [
    Edit(0x00, &[64, 0, 0, 0, 2, 0, 0, 0, 26, 0, 0, 0, 0, 0, 1]),
    Edit(0x10, &[25, 0, 0, 0, 0, 0, 1]),
    Edit(0x20, &[0xea, 3, 0, 0, 0, 0, 0, 0, 0, 1, 0, 0x80]),
    Edit(0x34, &[0x20, 0, 0, 0, 2, 0, 60, 0, 0x66]),
];

fn zeros(alloc: Global, sectors: u16) -> Result<Vec<u8>, AllocError> {
    vec![in alloc; 0u8; 512 * usize::from(sectors)]
}

// Writes the bytes from `at` on. Those past the end are left out.
fn put(image: &mut [u8], at: usize, bytes: &[u8]) {
    for (i, byte) in bytes.iter().enumerate() {
        if let Some(cell) = image.get_mut(at.saturating_add(i)) {
            *cell = *byte;
        }
    }
}

// Writes a number in eight bytes; the fields behind a shorter one are written later.
fn put_number(image: &mut [u8], at: usize, number: usize) {
    put(image, at, &number.to_le_bytes());
}

fn put_all(image: &mut [u8], at: usize, edits: &[Edit]) {
    for edit in edits {
        put(image, at.saturating_add(edit.0), edit.1);
    }
}

// The next multiple of 8.
fn padded(size: usize) -> usize {
    size.div_ceil(8).saturating_mul(8)
}

// How many bytes a file-name value has.
fn size_of(name: &FileName) -> usize {
    name.2.len().saturating_mul(2).saturating_add(0x42)
}

fn put_name(image: &mut [u8], at: usize, name: &FileName) {
    put(image, at, &[name.0, 0, 0, 0, 0, 0, name.0]);
    put(image, at.saturating_add(0x3b), &[name.3]);
    put_number(image, at.saturating_add(0x40), name.2.len());
    put(image, at.saturating_add(0x41), &[name.1]);
    for (i, unit) in name.2.iter().enumerate() {
        let place = i.saturating_mul(2).saturating_add(0x42);
        put(image, at.saturating_add(place), &[*unit]);
    }
}

// The head of an attribute whose value stands in the record at 18; where the attribute ends.
fn put_head(image: &mut [u8], at: usize, kind: u8, id: u8, count: usize) -> usize {
    let size = padded(count.saturating_add(0x18));
    put(image, at, &[kind]);
    put_number(image, at.saturating_add(0x04), size);
    put_number(image, at.saturating_add(0x10), count);
    put(image, at.saturating_add(0x0a), &[0x18, 0, 0, 0, id]);
    put(image, at.saturating_add(0x14), &[0x18]);
    at.saturating_add(size)
}

fn put_link(image: &mut [u8], at: usize, link: &Link) -> usize {
    let count = size_of(&link.2);
    let size = padded(count.saturating_add(0x10));
    put(image, at, &[link.0, 0, 0, 0, 0, 0, link.1]);
    put_number(image, at.saturating_add(0x08), size);
    put_number(image, at.saturating_add(0x0a), count);
    put_name(image, at.saturating_add(0x10), &link.2);
    at.saturating_add(size)
}

fn put_index(image: &mut [u8], at: usize, id: u8, links: &[Link]) -> usize {
    let mut end = at.saturating_add(0x40);
    for link in links {
        end = put_link(image, end, link);
    }
    put(image, end.saturating_add(0x08), &[0x10, 0, 0, 0, 2]);
    end = end.saturating_add(0x10);
    let used = end.saturating_sub(at.saturating_add(0x30));
    put_number(image, at.saturating_add(0x34), used);
    put_number(image, at.saturating_add(0x38), used);
    put_number(image, at.saturating_add(0x04), used.saturating_add(0x30));
    put_number(image, at.saturating_add(0x10), used.saturating_add(0x10));
    put_all(image, at, &INDEX);
    put(image, at.saturating_add(0x0e), &[id]);
    end
}

fn put_stored(image: &mut [u8], at: usize, id: u8, run: (u8, u8, u8)) -> usize {
    let (count, first, per_cluster) = run;
    let size = 512 * usize::from(per_cluster) * usize::from(count);
    put_all(image, at, &STORED);
    put(image, at.saturating_add(0x0e), &[id]);
    put(image, at.saturating_add(0x18), &[count.saturating_sub(1)]);
    for place in [0x28, 0x30, 0x38] {
        put_number(image, at.saturating_add(place), size);
    }
    put(image, at.saturating_add(0x40), &[0x11, count, first]);
    at.saturating_add(0x48)
}

// Writes an attribute; where it ends.
fn put_part(image: &mut [u8], at: usize, id: u8, part: &Part) -> usize {
    let place = at.saturating_add(0x18);
    match part {
        Part::Value(kind, value) => {
            let end = put_head(image, at, *kind, id, value.len());
            put(image, place, value);
            end
        }
        Part::Name(name) => {
            let end = put_head(image, at, 0x30, id, size_of(name));
            put(image, at.saturating_add(0x16), &[1]);
            put_name(image, place, name);
            end
        }
        Part::Index(links) => put_index(image, at, id, links),
        Part::Stored(count, first, per) => put_stored(image, at, id, (*count, *first, *per)),
        Part::Bytes(size, edits) => {
            put_all(image, at, edits);
            at.saturating_add(*size)
        }
    }
}

fn byte_at(image: &[u8], at: usize) -> u8 {
    match image.get(at) {
        Some(byte) => *byte,
        None => 0,
    }
}

// Moves the last word of each sector into the array of the update sequence, and writes the check
// word 1 in its place.
fn protect(image: &mut [u8], at: usize) {
    for (end, place) in [(0x1fe, 0x32), (0x3fe, 0x34)] {
        let end = at.saturating_add(end);
        let word = [byte_at(image, end), byte_at(image, end.saturating_add(1))];
        put(image, at.saturating_add(place), &word);
        put(image, end, &[1, 0]);
    }
}

// Writes a file record into the table that begins there.
fn put_file(image: &mut [u8], table: usize, file: &File) {
    let at = table.saturating_add(1024 * usize::from(file.0.0));
    let mut end = at.saturating_add(0x38);
    let mut count = 0u8;
    for part in file.1 {
        end = put_part(image, end, count, part);
        count = count.saturating_add(1);
    }
    put(image, end, &[0xff, 0xff, 0xff, 0xff]);
    let used = end.saturating_sub(at).saturating_add(8);
    put_number(image, at.saturating_add(0x18), used);
    put_all(image, at, &FRONT);
    put(image, at.saturating_add(0x10), &[file.0.1]);
    put(image, at.saturating_add(0x16), &[file.0.2]);
    put(image, at.saturating_add(0x28), &[count, 0, 0, 0, file.0.0]);
    protect(image, at);
}

// An image of so many sectors, of which the last is behind the volume, with a log of FF there.
fn volume(alloc: Global, sectors: u16, log: usize) -> Result<Vec<u8>, AllocError> {
    let mut image = zeros(alloc, sectors)?;
    put_all(&mut image, 0, &BOOT);
    let clusters = sectors.saturating_sub(1);
    put(&mut image, 0x28, &clusters.to_le_bytes());
    put(&mut image, log, &[0xff; 8192]);
    Ok(image)
}

// A volume that was made at the time 0.
fn new_volume(alloc: Global) -> Result<Vec<u8>, AllocError> {
    let blank = zeros(alloc, 4537)?;
    if blank.len() % 512 != 0 {
        return Err(AllocError);
    }
    let mut device = MemoryDevice::new(alloc, blank, Vec::new(alloc));
    match format(alloc, &mut device, 0, 0) {
        Ok(_) => device.left_by(alloc, device.done.len(), &[]),
        Err(_) => Err(AllocError),
    }
}

// 65 sectors, of which 8 to 39 are 16 file records, 40 to 55 a log, and 56 to 63 copies of the
// first four records.
fn tiny(alloc: Global) -> Result<Vec<u8>, AllocError> {
    let mut image = volume(alloc, 65, 20480)?;
    for file in &SYSTEM {
        put_file(&mut image, TABLE, file);
        put_file(&mut image, MIRROR, file);
    }
    put_file(&mut image, TABLE, &ROOT);
    Ok(image)
}

// The same, with no sectors by its boot sector.
fn unsized_tiny(alloc: Global) -> Result<Vec<u8>, AllocError> {
    let mut image = tiny(alloc)?;
    put(&mut image, 0x28, &[0]);
    Ok(image)
}

// 129 sectors, with a table of 32 records, the log in the sectors from 72 on, the data of `f` in
// sector 96, and the journal in another one.
fn filled(alloc: Global, journal: usize) -> Result<Vec<u8>, AllocError> {
    let mut image = volume(alloc, 129, 72 * 512)?;
    for file in &FILES {
        put_file(&mut image, TABLE, file);
    }
    put_all(&mut image, journal, &JOURNAL);
    Ok(image)
}

// Clusters of one sector; the journal stands in cluster 97.
fn whole(alloc: Global) -> Result<Vec<u8>, AllocError> {
    let mut image = filled(alloc, 97 * 512)?;
    for file in &STORED_FILES {
        put_file(&mut image, TABLE, file);
    }
    Ok(image)
}

// Clusters of eight sectors; the journal stands in cluster 13.
fn wide(alloc: Global, bitmap: &File) -> Result<Vec<u8>, AllocError> {
    let mut image = filled(alloc, 13 * 4096)?;
    put_all(&mut image, 0, &WIDE_BOOT);
    for file in &WIDE_FILES {
        put_file(&mut image, TABLE, file);
    }
    put_file(&mut image, TABLE, bitmap);
    Ok(image)
}
