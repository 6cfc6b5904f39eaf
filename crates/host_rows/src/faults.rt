//! Runs of which one call of the source, the device or the sink fails, and who passes the gate.
use crate::images::Image;
use crate::runs::{
    Call, DUMP_WORDS, Fault, NAMES_TEXT, NO_FAULT, Part, RUN_WORDS, SCAN_WORDS, run,
};
use std::process::Abort;
use std::sync::Wait;
use std::test::Fail;
use std::thread::Threads;

// What is run, and how it is answered.
struct Table(Call, &'static [Row]);

// The call that fails, and then the status, the text and who passes the gate.
struct Row(Fault, u8, &'static [u8], u64);

const SCRIPT: &[u8] = b"1 list /\n1 stat /\n1 stat /F/x\n1 stat /q\n";

// The write of a scan or a dump that fails, and what the ones before it wrote. Of a run, the
// source's first and second read fail, then the first read of the device, then each write: the
// commands come before the text, and after the script and the volume.
static PRINTED: [Table; 3] = [
    Table(
        Call(Image::Tiny, SCAN_WORDS, b""),
        &[
            Row(Fault(Part::Sink, 1), 7, b"", 0),
            Row(Fault(Part::Sink, 2), 7, b"0 1 5 5 $MFT\n", 0),
            Row(
                Fault(Part::Sink, 3),
                7,
                b"0 1 5 5 $MFT\n2 2 5 5 $LogFile\n",
                0,
            ),
            Row(
                Fault(Part::Sink, 4),
                7,
                b"0 1 5 5 $MFT\n2 2 5 5 $LogFile\n5 5 5 5 .\n",
                0,
            ),
        ],
    ),
    Table(
        Call(Image::Whole, DUMP_WORDS, b""),
        &[Row(
            Fault(Part::Sink, 2),
            7,
            b"node 5 5 directory 0 0 0 0 0 0 0\n",
            0,
        )],
    ),
    Table(
        Call(Image::New, RUN_WORDS, SCRIPT),
        &[
            Row(Fault(Part::Source, 1), 5, b"", 0),
            Row(Fault(Part::Source, 2), 5, b"", 0),
            Row(Fault(Part::Device, 1), 8, b"", 0),
            Row(Fault(Part::Sink, 1), 7, b"", 11_121_314),
            Row(Fault(Part::Sink, 2), 7, NAMES_TEXT, 11_121_314),
        ],
    ),
];

const USAGE: &[u8] = b"usage: ntfshost IMAGE COMMAND [--time N] [--seed N] [--journal N]\n";

// Words that are no line of a command.
static OTHER: [&[&str]; 7] = [
    &["ntfshost", "x.img", "burn"],
    &["ntfshost", "x.img", "Scan"],
    &["ntfshost", "scan", "x.img"],
    &["ntfshost", "x.img", "scan", "scan"],
    &["ntfshost", "x.img"],
    &["ntfshost"],
    &[],
];

const LOOKS: &[u8] = b"1 list /\n# nothing\n1 stat /q\n1 stat /\n";

const LOOKS_TEXT: &[u8] =
    b"1 1 1 0 names 12 $AttrDef $BadClus $Bitmap $Boot $Extend $LogFile $MFT $MFTMirr $Secure $UpCase $Volume .
1 2 2 0 not-found 1
1 3 3 0 stat 5 5 directory 1 0 0 0 0 0 0
";

const BROKEN: &[u8] = b"1 stat /\n1 stat\n";

const AT_0: &[&str] = &["ntfshost", "tiny.img", "run", "--time=0"];

const AT_1000: &[&str] = &["ntfshost", "tiny.img", "run", "--time=1000"];

// Each command passes once, in the script's order; from another time on the run is the same. None
// passes where the device, the script or the volume fails.
static GATES: [Table; 5] = [
    Table(
        Call(Image::New, AT_0, LOOKS),
        &[Row(NO_FAULT, 0, LOOKS_TEXT, 111_213)],
    ),
    Table(
        Call(Image::New, AT_1000, LOOKS),
        &[Row(NO_FAULT, 0, LOOKS_TEXT, 111_213)],
    ),
    Table(
        Call(Image::New, RUN_WORDS, LOOKS),
        &[
            Row(Fault(Part::Sink, 1), 7, b"", 111_213),
            Row(Fault(Part::Device, 1), 8, b"", 0),
        ],
    ),
    Table(
        Call(Image::New, RUN_WORDS, BROKEN),
        &[Row(NO_FAULT, 4, b"script line 2 rule 6\n", 0)],
    ),
    Table(
        Call(Image::Tiny, RUN_WORDS, LOOKS),
        &[Row(NO_FAULT, 3, b"refused 2 Geometry 13 1\n", 0)],
    ),
];

// A volume with a change journal; and the sectors of a cluster, which a run refuses in their place,
// before the volume's sectors.
static REFUSED: [Table; 3] = [
    Table(
        Call(Image::Wide, RUN_WORDS, LOOKS),
        &[Row(NO_FAULT, 3, b"refused 17 Unbuilt 6\n", 0)],
    ),
    Table(
        Call(Image::Unsized, RUN_WORDS, LOOKS),
        &[Row(NO_FAULT, 3, b"refused 2 Geometry 13 1\n", 0)],
    ),
    Table(
        Call(Image::Unsized, SCAN_WORDS, b""),
        &[Row(NO_FAULT, 3, b"refused 2 Geometry 40 0\n", 0)],
    ),
];

// The first row that isn't answered so.
fn first_bad<R: Threads + Wait + Sync + Abort + AllocGlobal>(
    rt: &R,
    table: &Table,
) -> Result<Option<usize>, Fail> {
    for (i, row) in table.1.iter().enumerate() {
        let ended = run(rt, &table.0, row.0)?;
        if !ended.is(row.1, row.2) || ended.passed != row.3 {
            return Ok(Some(i));
        }
    }
    Ok(None)
}

#[test]
fn each_failure_has_its_status_and_the_lines_before(rt: HostRuntime) -> Result<(), Fail> {
    for (i, table) in PRINTED.iter().enumerate() {
        assert_eq!(rt; first_bad(&rt, table)?, None, "table {i}");
    }
    Ok(())
}

// The first write fails; and no words are answered.
#[test]
fn other_words_are_answered_by_the_usage_line(rt: HostRuntime) -> Result<(), Fail> {
    for (i, words) in OTHER.iter().enumerate() {
        let ended = run(&rt, &Call(Image::Tiny, words, b""), Fault(Part::Sink, 1))?;
        assert!(rt; ended.is(7, b""), "row {i}");
    }
    let ended = run(&rt, &Call(Image::Tiny, &[], b""), NO_FAULT)?;
    assert!(rt; ended.is(2, USAGE));
    Ok(())
}

#[test]
fn the_gate_stands_before_the_text_and_after_the_volume(rt: HostRuntime) -> Result<(), Fail> {
    for (i, table) in GATES.iter().enumerate() {
        assert_eq!(rt; first_bad(&rt, table)?, None, "table {i}");
    }
    Ok(())
}

#[test]
fn a_volume_that_is_not_mounted_has_no_run(rt: HostRuntime) -> Result<(), Fail> {
    for (i, table) in REFUSED.iter().enumerate() {
        assert_eq!(rt; first_bad(&rt, table)?, None, "table {i}");
    }
    Ok(())
}
