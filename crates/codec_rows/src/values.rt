//! Values of known types that are read, refused, and written.
use host_base::FileRef;
use std::alloc::Global;
use std::test::Fail;
use std_values::{
    FileNameValue, FixedValue, JournalMax, NamedValue, StdInfo, ValueFault, VolumeInfo,
    is_file_name,
};
use utf16_name::Name;

// The name `.` of a root directory, in itself.
static ROOT_NAME: [u8; 0x44] = [
    5, 0, 0, 0, 0, 0, 5, 0, 1, 0, 0, 0, 0, 0, 0, 0, 2, 0, 0, 0, 0, 0, 0, 0, 3, 0, 0, 0, 0, 0, 0, 0,
    4, 0, 0, 0, 0, 0, 0, 0, 0, 0x10, 0, 0, 0, 0, 0, 0, 6, 0, 0, 0, 0, 0, 0, 0, 6, 0, 0, 0x10, 0, 0,
    0, 0, 1, 3, 0x2e, 0,
];

#[test]
fn standard_information(rt: HostRuntime) {
    let info = StdInfo {
        created: 0x0102_0304_0506_0708,
        modified: 2,
        changed: 3,
        read_at: u64::MAX,
        flags: 6,
    };
    let mut value = [0xaa; 0x48];
    info.write(&mut value);
    assert_eq!(rt; StdInfo::read(&value), Ok(info));
    assert_eq!(rt; [value[0], value[0x24], value[0x47]], [8, 0xaa, 0xaa]);
}

#[test]
fn volume_information(rt: HostRuntime) -> Result<(), Fail> {
    let mut value = *b"\0\0\0\0\0\0\0\0\x03\x01\x00\x00";
    let info = VolumeInfo {
        major: 3,
        minor: 1,
        flags: 1,
    };
    assert_eq!(rt; VolumeInfo::read(&value)?, VolumeInfo { flags: 0, ..info });
    info.write(&mut value);
    assert_eq!(rt;
        value.as_slice(),
        b"\0\0\0\0\0\0\0\0\x03\x01\x01\x00".as_slice()
    );
    Ok(())
}

#[test]
fn limits_of_a_journal(rt: HostRuntime) {
    let limits = JournalMax {
        max: 0x0200_0000,
        delta: 0x0080_0000,
        id: 1,
        lowest: 4096,
    };
    let mut value = [0; 0x20];
    limits.write(&mut value);
    assert_eq!(rt; JournalMax::read(&value), Ok(limits));
    assert_eq!(rt; [value[3], value[0x19]], [2, 0x10]);
}

#[test]
fn name_of_a_root(rt: HostRuntime) -> Result<(), Fail> {
    let alloc = rt.alloc();
    let fields = FileNameValue::read(alloc, &ROOT_NAME)?;
    let root = FileNameValue {
        parent: FileRef { number: 5, seq: 5 },
        created: 1,
        modified: 2,
        changed: 3,
        read_at: 4,
        allocated: 0x1000,
        real: 6,
        flags: 0x1000_0006,
        space: 3,
        name: Name::checked(alloc, &[0x2e])?,
    };
    assert_eq!(rt; fields, root);
    let mut value = [0; 0x44];
    assert_eq!(rt; root.name.units().len(), 1);
    root.write(&mut value);
    assert_eq!(rt; value.as_slice(), ROOT_NAME.as_slice());
    Ok(())
}

// The root's name with this byte at this place.
fn name_with(at: usize, byte: u8) -> [u8; 0x44] {
    let mut value = ROOT_NAME;
    if at < value.len() {
        value[at] = byte;
    }
    value
}

#[test]
fn faults_of_a_name(rt: HostRuntime) {
    let length = Some(ValueFault::Length { len: 0x44 });
    let shape = Some(ValueFault::Shape);
    let table = [
        (0x40, 1, None),
        // no unit, and two of which one is missing
        (0x40, 0, length),
        (0x40, 2, length),
        // the last namespace, and one behind it
        (0x41, 0, None),
        (0x41, 4, shape),
        // the units 0 and /
        (0x42, 0, shape),
        (0x42, 0x2f, shape),
    ];
    for (at, byte, fault) in table {
        let value = name_with(at, byte);
        assert_eq!(rt;
            FileNameValue::read(rt.alloc(), &value).err(),
            fault,
            "{at}"
        );
        assert_eq!(rt; is_file_name(&value), fault.is_none(), "{at}");
    }
}

#[derive(Clone, Copy)]
enum Type {
    Info,
    Volume,
    Journal,
    Name,
}

// What is answered for these bytes as a value of this type.
fn fault_of(alloc: Global, value: Type, bytes: &[u8]) -> Option<ValueFault> {
    match value {
        Type::Info => StdInfo::read(bytes).err(),
        Type::Volume => VolumeInfo::read(bytes).err(),
        Type::Journal => JournalMax::read(bytes).err(),
        Type::Name => FileNameValue::read(alloc, bytes).err(),
    }
}

#[test]
fn short_values(rt: HostRuntime) {
    let table = [
        (Type::Info, 0x2f, true),
        (Type::Info, 0x30, false),
        (Type::Volume, 0x0b, true),
        (Type::Volume, 0x0c, false),
        (Type::Journal, 0x1f, true),
        (Type::Journal, 0x20, false),
        (Type::Name, 0x41, true),
    ];
    for (value, len, is_short) in table {
        let bytes = ROOT_NAME.split_at(len).0;
        let fault = is_short.then_some(ValueFault::Length { len: len as u64 });
        assert_eq!(rt; fault_of(rt.alloc(), value, bytes), fault, "{len}");
    }
    assert!(rt; !is_file_name(&ROOT_NAME[..0x41]));
}
