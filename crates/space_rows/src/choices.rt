//! Choices of clusters among twelve bits, beside a plain program; and three growths one after the
//! other, in a bitmap and over one that stays.
ghost use Rattle.std.specs.Prelude.{◌<◌, IsTrue, IfSome, length};

use host_base::Memory;
use plan_space::{BitSet, FreeBits, Run, SpaceFault, Taken, choose};
use std::alloc::Global;
use std::test::Fail;

// The twelve low bits of a number.
fn low_bits(number: u16) -> [bool; 12] {
    let mut bits = [false; 12];
    let mut rest = number;
    for bit in bits.iter_mut() {
        *bit = rest % 2 == 1;
        rest /= 2;
    }
    bits
}

// The first run of so many clear bits, or the longest one.
fn plain_run(bits: &[bool], most: u8) -> (usize, u8) {
    let mut found = (0, 0);
    for len in 1..most.saturating_add(1) {
        let clear = bits
            .windows(usize::from(len))
            .position(|run| !run.contains(&true));
        if let Some(first) = clear {
            found = (first, len);
        }
    }
    found
}

// How many bits from this one on are clear, so many at most.
fn plain_front(bits: &[bool], first: usize, most: u8) -> u8 {
    let mut count = 0;
    for bit in bits.iter().skip(first) {
        if *bit || count == most {
            return count;
        }
        count = count.saturating_add(1);
    }
    count
}

fn set_all(bits: &mut [bool], first: usize, len: usize) {
    for bit in bits.iter_mut().skip(first).take(len) {
        *bit = true;
    }
}

fn is_run(run: Option<&Run>, first: usize, len: usize) -> bool {
    match run {
        Some(run) => run.lcn == Some(first as u64) && run.len == len as u64,
        None => false,
    }
}

// Whether the runs are those of the plain program, behind the first of them, of which so many
// clusters are wanted.
fn are_anywhere(bits: &mut [bool], wanted: u8, runs: &[Run]) -> bool {
    let mut left = wanted;
    for run in runs {
        let (first, len) = plain_run(bits, left);
        if !is_run(Some(run), first, usize::from(len)) {
            return false;
        }
        set_all(bits, first, usize::from(len));
        left = left.saturating_sub(len);
    }
    left == 0
}

// Whether the runs are those of the plain program for a stream with this last cluster, if it has
// one. The bits of its runs are set.
fn are_plain(bits: &mut [bool], last: Option<u8>, wanted: u8, runs: &[Run]) -> bool {
    let Some(last) = last else {
        return are_anywhere(bits, wanted, runs);
    };
    let first = usize::from(last) + 1;
    let front = plain_front(bits, first, wanted);
    if front == 0 {
        return are_anywhere(bits, wanted, runs);
    }
    set_all(bits, first, usize::from(front));
    is_run(runs.first(), first, usize::from(front))
        && are_anywhere(
            bits,
            wanted.saturating_sub(front),
            runs.get(1..).unwrap_or(&[]),
        )
}

// Whether the bits are these, and the room is their clear ones.
fn has_bits<B: FreeBits>(bits: &B, plain: &[bool]) -> bool {
    let mut room = 0u64;
    for (number, bit) in plain.iter().enumerate() {
        if bits.test(number as u64) != *bit {
            return false;
        }
        room = room.saturating_add(if *bit { 0 } else { 1 });
    }
    bits.room() == room && bits.len() == plain.len() as u64
}

// Whether a stream with this last cluster may grow among the bits.
fn may_grow<B: FreeBits>(bits: &B, last: Option<u64>) -> bool
    ensures { IsTrue result → IfSome last (λ at. at < length (B.bits bits.now)) }
{
    match last {
        Some(at) => at < bits.len(),
        None => true,
    }
}

fn wide(last: Option<u8>) -> Option<u64> {
    match last {
        Some(at) => Some(u64::from(at)),
        None => None,
    }
}

// Whether so many clusters are chosen as the plain program chooses them, or refused with all bits
// as they were.
fn is_chosen<B: FreeBits>(
    alloc: Global,
    bits: &mut B,
    plain: &mut [bool],
    last: Option<u8>,
    wanted: u8,
) -> Result<bool, Memory> {
    let room = bits.room();
    let cluster = wide(last);
    if !may_grow(bits, cluster) {
        return Ok(false);
    }
    match choose(alloc, bits, cluster, u64::from(wanted)) {
        Ok(runs) => Ok(are_plain(plain, last, wanted, runs.as_slice()) && has_bits(bits, plain)),
        Err(SpaceFault::Short { room: told }) => {
            Ok(told == room && room < u64::from(wanted) && has_bits(bits, plain))
        }
        Err(SpaceFault::Memory) => Err(Memory),
    }
}

// Whether the clusters of a bitmap that stays are so chosen, two of which were taken before.
fn are_taken(alloc: Global, pattern: u16, last: Option<u8>, wanted: u8) -> Result<bool, Memory> {
    let base = BitSet::from_bytes(alloc, pattern.to_le_bytes().as_slice(), 12)?;
    let mut plain = low_bits(pattern);
    let mut taken = Taken::new(alloc, &base);
    if !is_chosen(alloc, &mut taken, &mut plain, None, 2)? {
        return Ok(false);
    }
    is_chosen(alloc, &mut taken, &mut plain, last, wanted)
}

// Whether a set's clusters are so chosen, and those of a bitmap that stays.
fn are_chosen(alloc: Global, pattern: u16, last: Option<u8>, wanted: u8) -> Result<bool, Memory> {
    let mut set = BitSet::from_bytes(alloc, pattern.to_le_bytes().as_slice(), 12)?;
    let mut plain = low_bits(pattern);
    if !is_chosen(alloc, &mut set, &mut plain, last, wanted)? {
        return Ok(false);
    }
    are_taken(alloc, pattern, last, wanted)
}

// The first number of clusters for which they aren't.
fn first_other(alloc: Global, pattern: u16, last: Option<u8>) -> Result<Option<u8>, Memory> {
    for wanted in 0..13u8 {
        if !are_chosen(alloc, pattern, last, wanted)? {
            return Ok(Some(wanted));
        }
    }
    Ok(None)
}

// Each cluster as the last one, and none.
fn last_of(number: u8) -> Option<u8> {
    if number < 12 { Some(number) } else { None }
}

#[test]
fn choices_among_twelve_bits(rt: HostRuntime) -> Result<(), Fail> {
    for pattern in 0..4096u16 {
        for last in 0..13u8 {
            assert_eq!(rt;
                first_other(rt.alloc(), pattern, last_of(last))?,
                None,
                "{pattern} {last}"
            );
        }
    }
    Ok(())
}

// Three growths: the last cluster of each stream, 12 where it has none, and how many more it wants.
struct Growths(u16, (u8, u8), (u8, u8), (u8, u8));

static GROWTHS: [Growths; 4] = [
    Growths(0, (12, 3), (2, 2), (0, 7)),
    Growths(0b1010_0100_0010, (1, 4), (12, 1), (7, 3)),
    Growths(0b0101_0101_0101, (12, 2), (2, 2), (3, 2)),
    Growths(0b1111_0000_1111, (3, 2), (5, 2), (12, 1)),
];

// Whether what is taken over the bits is what is taken out of a set of them, growth by growth.
fn are_alike(alloc: Global, row: &Growths) -> Result<bool, Memory> {
    let bytes = row.0.to_le_bytes();
    let base = BitSet::from_bytes(alloc, bytes.as_slice(), 12)?;
    let mut set = BitSet::from_bytes(alloc, bytes.as_slice(), 12)?;
    let mut taken = Taken::new(alloc, &base);
    for (number, wanted) in [row.1, row.2, row.3] {
        let last = wide(last_of(number));
        if !may_grow(&set, last) || !may_grow(&taken, last) {
            return Ok(false);
        }
        match (
            choose(alloc, &mut set, last, u64::from(wanted)),
            choose(alloc, &mut taken, last, u64::from(wanted)),
        ) {
            (Ok(runs), Ok(others)) => {
                if runs.as_slice() != others.as_slice() {
                    return Ok(false);
                }
            }
            (Err(fault), Err(other)) => {
                if fault != other {
                    return Ok(false);
                }
            }
            _ => return Ok(false),
        }
    }
    Ok(true)
}

// The first row whose growths aren't alike.
fn first_unlike(alloc: Global) -> Result<Option<usize>, Memory> {
    for (number, row) in GROWTHS.iter().enumerate() {
        if !are_alike(alloc, row)? {
            return Ok(Some(number));
        }
    }
    Ok(None)
}

#[test]
fn growths_over_a_bitmap_that_stays(rt: HostRuntime) -> Result<(), Fail> {
    assert_eq!(rt; first_unlike(rt.alloc())?, None);
    Ok(())
}
