//! The text of a run, and of one behind it.
use crate::runs::{change, look_on};
use crate::volume::{device_of, volume};
use host_base::NoGate;
use sector_device::MemoryDevice;
use std::alloc::Global;
use std::sync::Wait;
use std::test::Fail;
use std::thread::Threads;
use writing_run::Ran;

// Bytes in the record of one file, and in clusters of the other one.
const LAID: &[u8] = b"1 write /a 0 68656c6c6f\n1 fill /b 0 5000 2a\n";

const LAID_TEXT: &str = "1 1 1 0 wrote 5\n1 2 2 0 wrote 5000\n";

const SCRIPT: &[u8] = b"# a file in its record
1 write /a 2 4142
1 read /A 0 10
# one in clusters, of which it gets one more
1 fill /b 4000 5000 2b
1 read /b 3998 4
1 truncate /b 4097
1 truncate /b 9000
1 read /b 4095 4
1 stat /b
1 sync
1 write /q 0 00
1 write / 0 00
1 fill /$MFT 0 1 00
1 list /
";

const TEXT: &str = "1 1 1 0 wrote 2
1 2 2 0 bytes 686541426f
1 3 3 0 wrote 5000
1 4 4 0 bytes 2a2a2b2b
1 5 5 0 size 4097
1 6 6 0 size 9000
1 7 7 0 bytes 2b2b0000
1 8 8 0 stat 25 1 file 1 9000 3 9 1006 1006 9
1 9 9 0 synced 8
1 10 10 0 not-found 1
1 11 11 0 is-directory
1 12 12 0 system
1 13 13 0 names 14 $AttrDef $BadClus $Bitmap $Boot $Extend $LogFile $MFT $MFTMirr $Secure $UpCase $Volume . a b
";

const LOOKS: &[u8] = b"1 read /a 0 4096
1 stat /a
1 read /b 3998 4
1 read /b 4095 4
1 read /b 8998 4
1 stat /b
";

const LOOKS_TEXT: &str = "1 1 1 0 bytes 686541426f
1 2 2 0 stat 24 1 file 1 5 0 9 1001 1001 9
1 3 3 0 bytes 2a2a2b2b
1 4 4 0 bytes 2b2b0000
1 5 5 0 bytes 0000
1 6 6 0 stat 25 1 file 1 9000 3 9 1006 1006 9
";

// The device behind a run, where the run has this text and is flushed.
fn told<R: Threads + Wait>(
    rt: &R,
    alloc: Global,
    script: &[u8],
    text: &str,
    device: MemoryDevice,
) -> Result<MemoryDevice, Fail> {
    let Ran {
        text: found,
        flushed,
        device,
    } = change(rt, alloc, script, device, &NoGate)?;
    match found {
        Ok(found) if flushed && found.as_str() == text => Ok(device),
        Ok(_) => Err("another text".into()),
        Err(_) => Err("no text".into()),
    }
}

// The device behind both runs.
fn behind<R: Threads + Wait>(rt: &R, alloc: Global) -> Result<MemoryDevice, Fail> {
    let device = device_of(alloc, volume(alloc)?, &[])?;
    let device = told(rt, alloc, LAID, LAID_TEXT, device)?;
    told(rt, alloc, SCRIPT, TEXT, device)
}

// Whether looks behind both runs have their text.
fn is_as_told<R: Threads + Wait>(rt: &R, alloc: Global) -> Result<bool, Fail> {
    let mut device = behind(rt, alloc)?;
    Ok(match look_on(rt, alloc, LOOKS, &mut device)? {
        Ok(text) => text.as_str() == LOOKS_TEXT,
        Err(_) => false,
    })
}

#[test]
fn a_run_is_told_and_stays(rt: HostRuntime) -> Result<(), Fail> {
    assert!(rt; is_as_told(&rt, rt.alloc())?);
    Ok(())
}
