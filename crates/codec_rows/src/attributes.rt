//! Attributes that are read where they stand, refused, and written.
use crate::parts::put_byte;
use attr_codec::{
    AttrFault, AttrRef, Form, Head, OwnForm, Sizes, read, write_mapped, write_resident,
};
use std::alloc::{AllocError, Global};
use std::test::Fail;

// The bytes of a stream `ab`, and the attribute as which they are read.
struct Row(&'static [u8], AttrRef<'static>);

static ROWS: [Row; 2] = [
    // three bytes
    Row(
        &[
            0x80, 0, 0, 0, 0x28, 0, 0, 0, 0, 2, 0x18, 0, 0, 0, 7, 0, 3, 0, 0, 0, 0x20, 0, 1, 0,
            0x61, 0, 0x62, 0, 0, 0, 0, 0, 1, 2, 3, 0, 0, 0, 0, 0,
        ],
        AttrRef {
            head: PLAIN,
            length: 0x28,
            name: b"a\0b\0",
            form: Form::Resident {
                value: &[1, 2, 3],
                indexed: 1,
            },
        },
    ),
    // ten clusters, sparse
    Row(
        &[
            0x80, 0, 0, 0, 0x60, 0, 0, 0, 1, 2, 0x48, 0, 0, 0x80, 7, 0, 0, 0, 0, 0, 0, 0, 0, 0, 9,
            0, 0, 0, 0, 0, 0, 0, 0x50, 0, 4, 0, 0, 0, 0, 0, 0, 0x50, 0, 0, 0, 0, 0, 0, 0x21, 0x43,
            0, 0, 0, 0, 0, 0, 0, 0x40, 0, 0, 0, 0, 0, 0, 0, 0x20, 0, 0, 0, 0, 0, 0, 0x61, 0, 0x62,
            0, 0, 0, 0, 0, 0x11, 10, 0x10, 0, 0, 0, 0, 0, 0, 0, 0, 0, 0, 0, 0, 0,
        ],
        AttrRef {
            head: SPARSE,
            length: 0x60,
            name: b"a\0b\0",
            form: Form::Mapped {
                sizes: SIZES,
                pairs: &[0x11, 10, 0x10, 0, 0, 0, 0, 0, 0, 0, 0, 0, 0, 0, 0, 0],
            },
        },
    ),
];

const PLAIN: Head = Head {
    kind: 0x80,
    flags: 0,
    id: 7,
};

const SPARSE: Head = Head {
    kind: 0x80,
    flags: 0x8000,
    id: 7,
};

const SIZES: Sizes = Sizes {
    first: 0,
    last: 9,
    unit: 4,
    allocated: 0x5000,
    real: 0x4321,
    initialised: 0x4000,
    held: Some(0x2000),
};

static NAME: [u16; 2] = [0x61, 0x62];

static VALUE: [u8; 3] = [1, 2, 3];

static PAIRS: [u8; 16] = [0x11, 10, 0x10, 0, 0, 0, 0, 0, 0, 0, 0, 0, 0, 0, 0, 0];

#[test]
fn attributes_are_read(rt: HostRuntime) {
    for Row(bytes, attr) in &ROWS {
        assert_eq!(rt; read(bytes), Ok(*attr), "{} bytes", attr.length);
    }
}

#[test]
fn a_resident_attribute_is_written(rt: HostRuntime) -> Result<(), Fail> {
    let mut out = Vec::new(rt.alloc());
    write_resident(&PLAIN, &NAME, &VALUE, 1, &mut out)?;
    assert_eq!(rt; out.as_slice(), ROWS[0].0);
    Ok(())
}

#[test]
fn a_mapped_attribute_is_written(rt: HostRuntime) -> Result<(), Fail> {
    let mut out = Vec::new(rt.alloc());
    write_mapped(&SPARSE, &NAME, &SIZES, &PAIRS, &mut out)?;
    assert_eq!(rt; out.as_slice(), ROWS[1].0);
    Ok(())
}

// Whether a form that owns its bytes is this one.
fn is_form(own: &OwnForm, form: &Form) -> bool {
    match (own, form) {
        (
            OwnForm::Resident { value, indexed },
            Form::Resident {
                value: bytes,
                indexed: flag,
            },
        ) => { value.as_slice() == *bytes && indexed == flag }
        (
            OwnForm::Mapped { sizes, pairs },
            Form::Mapped {
                sizes: numbers,
                pairs: bytes,
            },
        ) => { sizes == numbers && pairs.as_slice() == *bytes }
        _ => false,
    }
}

// Whether a copy has the head, the name `ab` and the form of this attribute.
fn is_copied(alloc: Global, attr: &AttrRef) -> Result<bool, AllocError> {
    let form = attr.form.to_own_form(alloc)?;
    let copy = attr.to_attr(alloc)?;
    let is_named = copy.head == attr.head && copy.name.as_slice() == NAME.as_slice();
    Ok(is_named && is_form(&copy.form, &attr.form) && is_form(&form, &attr.form))
}

#[test]
fn attributes_are_copied(rt: HostRuntime) -> Result<(), Fail> {
    for Row(_, attr) in &ROWS {
        assert!(rt; is_copied(rt.alloc(), attr)?, "{} bytes", attr.length);
    }
    Ok(())
}

// What is answered for the resident attribute with this byte at this place.
fn fault_with(alloc: Global, at: usize, byte: u8) -> Result<Option<AttrFault>, AllocError> {
    let mut bytes = ROWS[0].0.to_vec(alloc)?;
    put_byte(&mut bytes, at, byte);
    Ok(read(&bytes).err())
}

#[test]
fn faults(rt: HostRuntime) -> Result<(), Fail> {
    let length = Some(AttrFault::Rule { rule: 3 });
    let outside = Some(AttrFault::Rule { rule: 6 });
    let table = [
        // a length of 0x10, of no eights, past the bytes
        (0x04, 0x10, length),
        (0x04, 0x24, length),
        (0x04, 0x30, length),
        // a mapped header is longer
        (0x08, 1, length),
        // a name that ends with the attribute, and one byte past it; without units it stands
        // nowhere
        (0x0a, 0x24, None),
        (0x0a, 0x25, outside),
        (0x09, 0, None),
        // a value that ends with the attribute, and one byte past it
        (0x10, 8, None),
        (0x10, 9, outside),
        (0x14, 0x26, outside),
        // behind the shorter attribute stand other bytes
        (0x04, 0x20, outside),
    ];
    for (at, byte, fault) in table {
        assert_eq!(rt; fault_with(rt.alloc(), at, byte)?, fault, "{at}");
    }
    Ok(())
}
