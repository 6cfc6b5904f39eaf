//! The table of upper-case units, and the order of names by it.
use std::alloc::{AllocError, Global};
use std::cmp::Ordering;
use std::test::Fail;
use upcase_order::{Upcase, UpcaseFault};

#[test]
fn reads_low_byte_first(rt: HostRuntime) -> Result<(), Fail> {
    let mut bytes = vec![in rt.alloc(); 0u8; 131_072]?;
    for (at, byte) in [(2, 0x34), (3, 0x12), (131_070, 0xCD), (131_071, 0xAB)] {
        if let Some(place) = bytes.get_mut(at) {
            *place = byte;
        }
    }
    let table = Upcase::read(rt.alloc(), &bytes)?;
    for (unit, want) in [(1, Some(0x1234)), (65_535, Some(0xABCD)), (65_536, None)] {
        assert_eq!(rt; table.as_slice().get(unit).copied(), want, "{unit}");
    }
    Ok(())
}

#[test]
fn refuses_any_other_length(rt: HostRuntime) -> Result<(), Fail> {
    for len in [0, 131_070, 131_071, 131_073, 131_074] {
        let bytes = vec![in rt.alloc(); 0u8; len]?;
        let want = UpcaseFault::Length { len: len as u64 };
        assert_eq!(rt; Upcase::read(rt.alloc(), &bytes).err(), Some(want));
    }
    Ok(())
}

#[test]
fn raises_plain_letters_alone(rt: HostRuntime) -> Result<(), Fail> {
    let table = Upcase::standard(rt.alloc())?.clone()?;
    for (unit, want) in [
        (0x60, Some(0x60)),
        (0x61, Some(0x41)),
        (0x7A, Some(0x5A)),
        (0x7B, Some(0x7B)),
        (0xE9, Some(0xE9)),
        (0xFFFF, Some(0xFFFF)),
        (0x10000, None),
    ] {
        assert_eq!(rt; table.as_slice().get(unit).copied(), want, "{unit}");
    }
    Ok(())
}

// The units of a name in plain letters.
fn units(alloc: Global, text: &str) -> Result<Vec<u16>, AllocError> {
    let mut units = Vec::new(alloc);
    for byte in text.bytes() {
        units.push(u16::from(byte))?;
    }
    Ok(units)
}

// Two names, their order, and whether they are the same but for letters' cases.
struct Pair(&'static str, &'static str, Ordering, bool);

static PAIRS: [Pair; 10] = [
    Pair("a", "B", Ordering::Less, false),
    Pair("B", "a", Ordering::Greater, false),
    Pair("A", "a", Ordering::Less, true),
    Pair("a", "A", Ordering::Greater, true),
    Pair("a", "a", Ordering::Equal, true),
    Pair("$mft", "$MFT", Ordering::Greater, true),
    Pair("$MFT", "$MFTMirr", Ordering::Less, false),
    Pair("a", "A0", Ordering::Less, false),
    Pair("_", "z", Ordering::Greater, false),
    Pair("", "a", Ordering::Less, false),
];

fn compared(
    alloc: Global,
    table: &Upcase,
    a: &str,
    b: &str,
) -> Result<(Ordering, bool), AllocError> {
    let first = units(alloc, a)?;
    let second = units(alloc, b)?;
    Ok((table.order(&first, &second), table.same(&first, &second)))
}

#[test]
fn orders_by_hand(rt: HostRuntime) -> Result<(), Fail> {
    let table = Upcase::standard(rt.alloc())?;
    for Pair(a, b, order, same) in PAIRS.iter() {
        assert_eq!(rt;
            compared(rt.alloc(), &table, a, b)?,
            (*order, *same),
            "{a} {b}"
        );
    }
    Ok(())
}
