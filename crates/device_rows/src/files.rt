//! Devices over files: one that isn't there, one that is written, and one that may only be read.
use host_base::Failed;
use sector_device::{Device, FileDevice};
use std::fs;
use std::test::Fail;

// What a thread is given.
fn send<T: Send>(_: &T) {}

#[test]
fn a_missing_file_fails(rt: HostRuntime) {
    let mut device = FileDevice::at(&rt, "no such file");
    let mut out = [0; 512];
    send(&device);
    assert_eq!(rt; device.sectors(), 16384);
    let answers = [
        device.read(16383, &mut out),
        device.write(0, &[0; 512]),
        device.sync(),
    ];
    assert_eq!(rt; answers, [Err(Failed); 3]);
    assert_eq!(rt; (device.faults(), device.moment()), (3, 6));
}

#[test]
fn a_file_is_read_and_written(rt: HostRuntime) -> Result<(), Fail> {
    fs::write(&rt, "device.img", [3u8; 1300].as_slice())?;
    let mut device = FileDevice::at(&rt, "device.img");
    let mut out = [0; 1024];
    assert_eq!(rt; device.sectors(), 2);
    let answers = [
        device.write(1, &[4; 512]),
        device.sync(),
        device.read(0, &mut out),
    ];
    assert_eq!(rt; answers, [Ok(()); 3]);
    assert_eq!(rt; (out[0], out[511], out[512], out[1023]), (3, 3, 4, 4));
    assert_eq!(rt; (device.faults(), device.moment()), (0, 6));
    Ok(())
}

#[test]
fn what_was_written_stands_in_the_file(rt: HostRuntime) -> Result<(), Fail> {
    fs::write(&rt, "kept.img", [3u8; 1300].as_slice())?;
    let mut device = FileDevice::at(&rt, "kept.img");
    if device.sectors() == 2 {
        let _ = device.write(1, &[4; 512]);
    }
    let kept = fs::read(&rt, "kept.img")?;
    assert_eq!(rt; kept.len(), 1300);
    assert_eq!(rt;
        (kept[511], kept[512], kept[1023], kept[1024]),
        (3, 4, 4, 3)
    );
    Ok(())
}

// A program that runs can't be opened for writing.
#[test]
fn a_file_for_reading_alone_is_read(rt: HostRuntime) {
    let mut device = FileDevice::at(&rt, "/proc/self/exe");
    let mut out = [0; 512];
    assert!(rt; device.sectors() > 0);
    assert_eq!(rt; device.read(0, &mut out), Ok(()));
    assert_eq!(rt; (out[0], out[1], out[2], out[3]), (0x7f, b'E', b'L', b'F'));
    assert_eq!(rt; device.write(0, &out), Err(Failed));
    assert_eq!(rt; (device.faults(), device.moment()), (1, 4));
}
