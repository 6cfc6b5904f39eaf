//! Names and their units: what refuses them, how they are printed, and how texts are read.
use std::alloc::Global;
use std::test::Fail;
use utf16_name::{Name, NameFault, Units, check, text_units};

// So many units `a` and then these, and what refuses them as a name.
struct Checked(usize, &'static [u16], Option<NameFault>);

static CHECKED: [Checked; 5] = [
    Checked(255, &[], None),
    Checked(256, &[], Some(NameFault::Length { len: 256 })),
    Checked(0, &[], Some(NameFault::Length { len: 0 })),
    Checked(1, &[0], Some(NameFault::BadUnit { at: 1 })),
    Checked(1, &[0x62, 0x2f, 0], Some(NameFault::BadUnit { at: 2 })),
];

#[test]
fn what_is_no_name_is_refused(rt: HostRuntime) -> Result<(), Fail> {
    for (row, Checked(len, rest, fault)) in CHECKED.iter().enumerate() {
        let mut units = vec![in rt.alloc(); 0x61; *len]?;
        units.extend_from_slice(rest)?;
        let refused = Name::checked(rt.alloc(), &units).err();
        assert_eq!(rt; (check(&units), refused), (*fault, *fault), "row {row}");
    }
    Ok(())
}

// The units of a name, and how they are printed.
struct Printed(&'static [u16], &'static str);

static PRINTED: [Printed; 3] = [
    Printed(&[0x24, 0x4d, 0x46, 0x54], "in $MFT"),
    Printed(&[0x61, 0x20, 0x62, 0x5c], "in a\\u0020b\\u005C"),
    Printed(
        &[0x21, 0x7e, 0x7f, 0xe9, 0xd83d],
        "in !~\\u007F\\u00E9\\uD83D",
    ),
];

// The text of a name behind what stood there.
fn text_of(alloc: Global, units: &[u16]) -> Result<String, Fail> {
    let name = Name::checked(alloc, units)?;
    let mut text = String::from_str(alloc, "in ")?;
    name.append_text(&mut text)?;
    Ok(text)
}

#[test]
fn names_are_printed(rt: HostRuntime) -> Result<(), Fail> {
    for (row, Printed(units, want)) in PRINTED.iter().enumerate() {
        assert_eq!(rt; text_of(rt.alloc(), units)?.as_str(), *want, "row {row}");
    }
    Ok(())
}

#[test]
fn names_are_cloned_and_their_units_copied(rt: HostRuntime) -> Result<(), Fail> {
    let name = Name::checked(rt.alloc(), [0x61, 0x62].as_slice())?;
    let clone = name.clone()?;
    assert!(rt; clone == name);
    let units = Units::copy_of(rt.alloc(), name.units())?;
    assert_eq!(rt; units.as_slice(), [0x61, 0x62].as_slice());
    Ok(())
}

// Whether units are their copy and their clone, and the copy has this length.
fn are_copied(alloc: Global, units: &Units, len: usize) -> Result<bool, Fail> {
    let copy = Units::copy_of(alloc, units.as_slice())?;
    let clone = units.clone()?;
    Ok(
        clone == copy
            && copy.len() == len
            && copy.is_empty() == (len == 0)
            && units.as_slice() == copy.into_vec().as_slice(),
    )
}

#[test]
fn units_are_lists(rt: HostRuntime) -> Result<(), Fail> {
    let units = Units::from([0x61, 0x62].to_vec(rt.alloc())?);
    assert!(rt; are_copied(rt.alloc(), &units, 2)?);
    assert!(rt; are_copied(rt.alloc(), &Units::new(rt.alloc()), 0)?);
    Ok(())
}

// A text and its units.
struct Text(&'static str, &'static [u16]);

static TEXTS: [Text; 4] = [
    Text("!a~", &[0x21, 0x61, 0x7e]),
    Text("\\u0000\\u002Fx\\uaBcD", &[0, 0x2f, 0x78, 0xabcd]),
    Text(
        "\u{80}\u{e9}\u{ffff}\u{1f600}\u{10ffff}",
        &[0x80, 0xe9, 0xffff, 0xd83d, 0xde00, 0xdbff, 0xdfff],
    ),
    Text("", &[]),
];

fn read(alloc: Global, text: &str) -> Result<Vec<u16>, NameFault> {
    Ok(text_units(alloc, text)?.into_vec())
}

#[test]
fn texts_are_read(rt: HostRuntime) -> Result<(), Fail> {
    for (row, Text(text, units)) in TEXTS.iter().enumerate() {
        assert_eq!(rt; read(rt.alloc(), text)?.as_slice(), *units, "row {row}");
    }
    Ok(())
}

#[test]
fn what_is_printed_is_read(rt: HostRuntime) -> Result<(), Fail> {
    let name = Name::from_text(rt.alloc(), "\\u0061b\u{1f600}")?;
    assert_eq!(rt; name.units(), [0x61, 0x62, 0xd83d, 0xde00].as_slice());
    let mut text = String::new(rt.alloc());
    name.append_text(&mut text)?;
    assert_eq!(rt; text.as_str(), "ab\\uD83D\\uDE00");
    assert!(rt; Name::from_text(rt.alloc(), text.as_str())? == name);
    Ok(())
}

// A text, and what refuses it as a name.
struct Refused(&'static str, NameFault);

static REFUSED: [Refused; 15] = [
    Refused(" ", NameFault::Text { at: 0 }),
    Refused("a b", NameFault::Text { at: 1 }),
    Refused("ab/", NameFault::Text { at: 2 }),
    Refused("a\u{7f}", NameFault::Text { at: 1 }),
    Refused("\u{e9}\u{1f600}\n", NameFault::Text { at: 6 }),
    Refused("ab\\", NameFault::Text { at: 2 }),
    Refused("a\\u12", NameFault::Text { at: 1 }),
    Refused("a\\u123 4", NameFault::Text { at: 1 }),
    Refused("\\u0041\\u12g4", NameFault::Text { at: 6 }),
    Refused("\\U0041", NameFault::Text { at: 0 }),
    Refused("\\\\", NameFault::Text { at: 0 }),
    Refused("a\\u00e\u{e9}", NameFault::Text { at: 1 }),
    Refused("", NameFault::Length { len: 0 }),
    Refused("a\\u002f", NameFault::BadUnit { at: 1 }),
    Refused("\u{1f600}\\u0000", NameFault::BadUnit { at: 2 }),
];

#[test]
fn faults_of_texts_have_places(rt: HostRuntime) -> Result<(), Fail> {
    for Refused(text, fault) in REFUSED.iter() {
        assert_eq!(rt;
            Name::from_text(rt.alloc(), text).err(),
            Some(*fault),
            "{text}"
        );
    }
    Ok(())
}
