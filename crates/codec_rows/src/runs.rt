//! The runs of a stream, read from mapping pairs and written.
ghost use Rattle.std.specs.Prelude.{◌≡◌};

use mapping_pairs::{read, write};
use record_model::{PairsFault, Run, Runs};
use std::process::Abort;
use std::test::Fail;

fn run(vcn: u64, lcn: u64, len: u64) -> Run
    ensures { result ≡ record { vcn = vcn; lcn = Some lcn; len = len } }
{
    Run {
        vcn,
        lcn: Some(lcn),
        len,
    }
}

#[test]
fn reads_runs(rt: HostRuntime) -> Result<(), Fail> {
    let sparse = Run {
        vcn: 64,
        lcn: None,
        len: 8,
    };
    let pairs = b"\x11\x30\x60\x21\x10\x00\x01\x01\x08\x11\x20\xe0\x00";
    let runs = read(rt.alloc(), pairs, 0)?;
    let expected = [run(0, 96, 48), run(48, 352, 16), sparse, run(72, 320, 32)];
    assert_eq!(rt; runs.as_slice(), expected.as_slice());

    let pairs = b"\x31\x38\x73\x25\x34\x32\x14\x01\xe5\x11\x02\x00";
    let runs = read(rt.alloc(), pairs, 0)?;
    let expected = [run(0, 3417459, 56), run(56, 3553112, 276)];
    assert_eq!(rt; runs.as_slice(), expected.as_slice());
    Ok(())
}

#[test]
fn refuses_faults(rt: HostRuntime) {
    let table = [
        (b"\x11\x30".as_slice(), PairsFault::Cut { at: 0 }),
        (b"\x11\x30\x60".as_slice(), PairsFault::Cut { at: 3 }),
        (b"\x10\x05\x00".as_slice(), PairsFault::Header { at: 0 }),
        (b"\x11\x01\x80\x00".as_slice(), PairsFault::Range { at: 0 }),
    ];
    for (pairs, fault) in table {
        assert_eq!(rt; read(rt.alloc(), pairs, 0).err(), Some(fault));
    }
}

#[test]
fn writes_runs(rt: HostRuntime) -> Result<(), Fail> {
    let mut runs = Runs::new(rt.alloc());
    runs.push(run(0, 5, 200))?;
    let pairs = write(rt.alloc(), &runs)?;
    assert_eq!(rt; pairs.as_slice(), b"\x12\xc8\x00\x05\x00".as_slice());
    Ok(())
}

fn from_byte(byte: u8) -> i64 {
    let number = i64::from(byte);
    if number < 128 { number } else { number - 256 }
}

fn from_bytes(low: u8, high: u8) -> i64 {
    let number = i64::from(low) + 256 * i64::from(high);
    if number < 32768 {
        number
    } else {
        number - 65536
    }
}

/// What a list of one run means, all of whose numbers are below 2^32.
fn expected(len: i64, lcn: Option<i64>) -> Result<Option<Run>, PairsFault> {
    if len < 1 || lcn.is_some_and(|lcn| lcn < 0) {
        return Err(PairsFault::Range { at: 0 });
    }
    Ok(Some(Run {
        vcn: 0,
        lcn: lcn.map(|lcn| lcn.unsigned_abs()),
        len: len.unsigned_abs(),
    }))
}

fn only_run(runs: &Runs) -> Option<Run> {
    match runs.as_slice() {
        [run] => Some(*run),
        _ => None,
    }
}

fn check<R: Abort + AllocGlobal>(rt: &R, pairs: &[u8], expected: Result<Option<Run>, PairsFault>) {
    let found = read(rt.alloc(), pairs, 0).map(|runs| only_run(&runs));
    assert_eq!(rt; found, expected, "{pairs:?}");
}

/// Each list of one run in at most four bytes.
#[test]
fn reads_short_runs(rt: HostRuntime) {
    for number in 0..65536u32 {
        let low = (number % 256) as u8;
        let high = (number / 256) as u8;
        if high == 0 {
            check(&rt, &[0x01, low, 0], expected(from_byte(low), None));
        }
        let long = expected(from_bytes(low, high), None);
        check(&rt, &[0x02, low, high, 0], long);
        let placed = expected(from_byte(low), Some(from_byte(high)));
        check(&rt, &[0x11, low, high, 0], placed);
    }
}
