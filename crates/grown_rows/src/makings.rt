//! Files that are made in the root of a new volume, one behind the other.
ghost use Rattle.std.specs.Prelude.{◌≤◌, ◌<◌, ◌^◌};

use crate::volume::{Laid, new_volume};
use sector_device::MemoryDevice;
use std::alloc::Global;
use std::test::Fail;
use utf16_name::Name;

// How many files have been made; and what is found then: how many files and names there are, how many
// numbers are spare, and how many there are in all.
#[derive(Clone, Copy, Debug, PartialEq)]
struct Row(u64, usize, usize, usize, u64);

// A new volume has 12 files and 40 spare numbers, 24 to 63; its file table grows by 256.
static ROWS: [Row; 7] = [
    Row(0, 12, 12, 40, 64),
    Row(1, 13, 13, 39, 64),
    Row(16, 28, 28, 24, 64),
    Row(30, 42, 42, 10, 64),
    Row(40, 52, 52, 0, 64),
    Row(41, 53, 53, 255, 320),
    Row(80, 92, 92, 216, 320),
];

// With the last spare number taken, the file table grows.
const SPARE: u64 = 40;

// A name of 1 to 200 small letters, another one for each number below 1,000.
fn name_of(alloc: Global, number: u64) -> Result<Name, Fail> {
    let mut units = Vec::new(alloc);
    let mut left = number % 1000 * 7919 % 10_007;
    for _ in 0..1 + number % 1000 * 37 % 200 {
        units.push(0x61 + (left % 26) as u16)?;
        left = left / 26 + number % 17;
    }
    Ok(Name::checked(alloc, &units)?)
}

// Makes the file that is next behind so many.
fn make_next(
    alloc: Global,
    laid: &mut Laid,
    device: &mut MemoryDevice,
    made: u64,
) -> Result<(), Fail>
    requires { made ≤ 1000 }
{
    if made == SPARE {
        laid.grow(alloc, device)?;
    }
    let name = name_of(alloc, made)?;
    laid.make(alloc, device, 24 + made, name)
}

// What is found of the volume, as a row behind so many files.
fn row_of(alloc: Global, laid: &Laid, device: &mut MemoryDevice, made: u64) -> Result<Row, Fail> {
    let found = laid.found(alloc, device)?;
    Ok(Row(made, found.nodes, found.links, found.spare, found.count))
}

// Makes files up to so many.
fn make_up_to(
    alloc: Global,
    laid: &mut Laid,
    device: &mut MemoryDevice,
    from: u64,
    to: u64,
) -> Result<(), Fail> {
    for made in from..to.min(1000) {
        make_next(alloc, laid, device, made)?;
    }
    Ok(())
}

#[test]
fn files_are_made(rt: HostRuntime) -> Result<(), Fail> {
    let alloc = rt.alloc();
    let mut device = new_volume(alloc, &[])?;
    let mut laid = Laid::empty(alloc);
    let mut made = 0;
    for row in &ROWS {
        make_up_to(alloc, &mut laid, &mut device, made, row.0)?;
        made = row.0;
        let found = row_of(alloc, &laid, &mut device, made)?;
        assert_eq!(rt; found, *row);
    }
    Ok(())
}
