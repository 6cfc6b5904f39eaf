//! A run of the top call, in memory.
use crate::images::Image;
use host_base::{Gate, MemorySink, MemorySource};
use ntfs_host::ntfs_host;
use sector_device::MemoryDevice;
use std::alloc::{AllocError, Global};
use std::process::Abort;
use std::sync::Wait;
use std::sync::atomic::{AtomicU64, Ordering};
use std::test::Fail;
use std::thread::Threads;

/// The words of the commands.
pub const SCAN_WORDS: &[&str] = &["ntfshost", "tiny.img", "scan"];

pub const CHECK_WORDS: &[&str] = &["ntfshost", "tiny.img", "check"];

pub const DUMP_WORDS: &[&str] = &["ntfshost", "tiny.img", "dump"];

pub const FORMAT_WORDS: &[&str] = &["ntfshost", "v", "format"];

pub const RUN_WORDS: &[&str] = &["ntfshost", "tiny.img", "run"];

/// The text of a scan of the tiny image, and of a check of the volume that breaks no rule.
pub const TINY_TEXT: &[u8] = b"0 1 5 5 $MFT\n2 2 5 5 $LogFile\n5 5 5 5 .\nlinks 3\n";

/// The line of the names of a new volume.
pub const NAMES_TEXT: &[u8] =
    b"1 1 1 0 names 12 $AttrDef $BadClus $Bitmap $Boot $Extend $LogFile $MFT $MFTMirr $Secure $UpCase $Volume .\n";

pub const CHECK_TEXT: &[u8] = b"ok nodes 6 links 7 room 38 journal 0 64\n";

/// What is run: a device of this image, these words, and what the source holds.
#[derive(Drop)]
pub struct Call(pub Image, pub &'static [&'static str], pub &'static [u8]);

/// Whose call fails.
#[derive(Clone, Copy, Debug, PartialEq, Eq)]
pub enum Part {
    Source,
    Device,
    Sink,
}

/// The call with this number fails; the first has the number 1.
#[derive(Clone, Copy, Debug, PartialEq, Eq)]
pub struct Fault(pub Part, pub u64);

/// No call fails.
pub const NO_FAULT: Fault = Fault(Part::Sink, 0);

/// The words as a command line gives them. The error is want of memory.
pub fn words_of(alloc: Global, words: &[&str]) -> Result<Vec<String>, AllocError> {
    let mut owned = Vec::new(alloc);
    for word in words {
        owned.push(String::from_str(alloc, word)?)?;
    }
    Ok(owned)
}

// The numbers of the calls of this part that fail.
fn failing(alloc: Global, fault: Fault, part: Part) -> Result<Vec<u64>, AllocError> {
    let mut numbers = Vec::new(alloc);
    if fault.0 == part {
        numbers.push(fault.1)?;
    }
    Ok(numbers)
}

/// A device of this image, with the call that fails.
pub fn device<R: Abort + AllocGlobal>(
    rt: &R,
    image: Image,
    fault: Fault,
) -> Result<MemoryDevice, Fail> {
    let alloc = rt.alloc();
    let bytes = image.bytes(alloc)?;
    assert_eq!(rt; bytes.len() % 512, 0);
    let failing = failing(alloc, fault, Part::Device)?;
    Ok(MemoryDevice::new(alloc, bytes, failing))
}

// A source of these bytes, with the call that fails.
fn source(alloc: Global, bytes: &[u8], fault: Fault) -> Result<MemorySource, AllocError> {
    let failing = failing(alloc, fault, Part::Source)?;
    Ok(MemorySource::new(bytes.to_vec(alloc)?, failing))
}

// A gate that notes who passes: two decimal digits for each, the client and the command's number.
#[derive(Drop)]
struct Trail {
    passed: AtomicU64,
}

impl Gate for Trail {
    fn pass<R: Threads + Wait>(&self, _rt: &R, client: u32, number: u32) {
        let passer = u64::from(client)
            .wrapping_mul(10)
            .wrapping_add(u64::from(number));
        let before = self.passed.load(Ordering::SeqCst);
        self.passed.store(
            before.wrapping_mul(100).wrapping_add(passer),
            Ordering::SeqCst,
        );
    }
}

/// How a run ended: its status, what it wrote, and who passed the gate.
#[derive(Drop)]
pub struct Ended {
    pub status: u8,
    pub sink: MemorySink,
    pub passed: u64,
}

impl Ended {
    /// Whether the run has this status and this text.
    pub fn is(&self, status: u8, text: &[u8]) -> bool {
        self.status == status && self.sink.bytes() == text
    }
}

/// A run of the top call with the call that fails.
pub fn run<R: Threads + Wait + Sync + Abort + AllocGlobal>(
    rt: &R,
    call: &Call,
    fault: Fault,
) -> Result<Ended, Fail> {
    let alloc = rt.alloc();
    let words = words_of(alloc, call.1)?;
    let mut source = source(alloc, call.2, fault)?;
    let mut sink = MemorySink::new(alloc, failing(alloc, fault, Part::Sink)?);
    let device = device(rt, call.0, fault)?;
    let gate = Trail {
        passed: AtomicU64::new(0),
    };
    let outcome = ntfs_host(rt, alloc, &words, &mut source, &mut sink, device, &gate);
    Ok(Ended {
        status: outcome.status,
        sink,
        passed: gate.passed.load(Ordering::SeqCst),
    })
}
