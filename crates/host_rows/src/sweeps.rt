//! Commands of which each call of the device fails by its number, up to one that is never reached.
use crate::images::Image;
use crate::runs::{
    CHECK_TEXT, CHECK_WORDS, Call, FORMAT_WORDS, Fault, NAMES_TEXT, Part, RUN_WORDS, SCAN_WORDS,
    TINY_TEXT, run,
};
use std::process::Abort;
use std::sync::Wait;
use std::test::Fail;
use std::thread::Threads;

// What is run, and its text where no call fails. Calls have numbers above the first one of these
// and below the second.
struct Sweep(Call, &'static [u8], u64, u64);

static READ: [Sweep; 2] = [
    Sweep(Call(Image::Tiny, SCAN_WORDS, b""), TINY_TEXT, 0, 100),
    Sweep(Call(Image::Whole, CHECK_WORDS, b""), CHECK_TEXT, 0, 100),
];

static FORMATTED: Sweep = Sweep(
    Call(Image::Blank, FORMAT_WORDS, b""),
    b"formatted 567 0\n",
    8,
    200,
);

// The first call that isn't answered by the status 8 and no text, and whether it is never reached
// and lies within the bounds: then the text is the whole one.
fn first_whole<R: Threads + Wait + Sync + Abort + AllocGlobal>(
    rt: &R,
    sweep: &Sweep,
) -> Result<(u64, bool), Fail> {
    let mut failed = 0;
    for call in 1..=sweep.3 {
        let ended = run(rt, &sweep.0, Fault(Part::Device, call))?;
        if !ended.is(8, b"") {
            let is_within = failed > sweep.2 && failed < sweep.3;
            return Ok((call, is_within && ended.is(0, sweep.1)));
        }
        failed = call;
    }
    Ok((failed, false))
}

#[test]
fn a_device_that_fails_has_nothing_written(rt: HostRuntime) -> Result<(), Fail> {
    for (i, sweep) in READ.iter().enumerate() {
        let (call, is_whole) = first_whole(&rt, sweep)?;
        assert!(rt; is_whole, "row {i}, call {call}");
    }
    Ok(())
}

const LISTS: Call = Call(Image::New, RUN_WORDS, b"1 list /\n");

// How many calls end the run with the status 8 and no text, and how many behind them are told by
// the line of the command; and whether the call behind these is never reached.
fn told_faults<R: Threads + Wait + Sync + Abort + AllocGlobal>(
    rt: &R,
) -> Result<(u64, u64, bool), Fail> {
    let (mut ended_by, mut told) = (0u64, 0u64);
    for call in 1..=200 {
        let ended = run(rt, &LISTS, Fault(Part::Device, call))?;
        if told == 0 && ended.is(8, b"") {
            ended_by = call;
        } else if ended.is(0, b"1 1 1 0 fault\n") {
            told = told.wrapping_add(1);
        } else {
            return Ok((ended_by, told, ended.is(0, NAMES_TEXT)));
        }
    }
    Ok((ended_by, told, false))
}

#[test]
fn a_device_that_fails_in_a_command_is_told_by_its_line(rt: HostRuntime) -> Result<(), Fail> {
    let (ended_by, told, is_whole) = told_faults(&rt)?;
    assert!(rt; ended_by > 0);
    assert!(rt; told > 0);
    assert!(rt; is_whole);
    Ok(())
}

#[test]
fn a_device_that_fails_ends_a_format(rt: HostRuntime) -> Result<(), Fail> {
    let (call, is_whole) = first_whole(&rt, &FORMATTED)?;
    assert!(rt; is_whole, "call {call}");
    Ok(())
}
