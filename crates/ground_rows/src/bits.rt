//! Bitmaps as sets of bits: their runs of clear bits, and how many are clear.
use bit_set::BitSet;
use std::alloc::Global;
use std::test::Fail;

// The definition's plain program.
fn plain_first_run(bits: &[bool], len: usize) -> Option<u64> {
    if len == 0 {
        return Some(0);
    }
    let first = bits.windows(len).position(|run| !run.contains(&true))?;
    Some(first as u64)
}

// The twelve low bits of a number.
fn low_bits(number: u16) -> [bool; 12] {
    let mut bits = [false; 12];
    let mut rest = number;
    for bit in bits.iter_mut() {
        *bit = rest % 2 == 1;
        rest /= 2;
    }
    bits
}

// The least length whose first run isn't that of the plain program.
fn first_other(set: &BitSet, bits: &[bool]) -> Option<u8> {
    for len in [0, 1, 2, 3, 6, 12, 13u8] {
        if set.first_run(u64::from(len)) != plain_first_run(bits, usize::from(len)) {
            return Some(len);
        }
    }
    None
}

#[test]
fn first_runs_of_small_sets(rt: HostRuntime) -> Result<(), Fail> {
    for pattern in 0..4096u16 {
        let set = BitSet::from_bytes(rt.alloc(), pattern.to_le_bytes().as_slice(), 12)?;
        let bits = low_bits(pattern);
        assert_eq!(rt; first_other(&set, bits.as_slice()), None, "{pattern}");
    }
    Ok(())
}

// The same within a range.
fn plain_first_run_in(bits: &[bool], len: usize, from: usize, end: usize) -> Option<u64> {
    let end = end.min(bits.len());
    if end < from {
        return None;
    }
    plain_first_run(&bits[from..end], len)?.checked_add(from as u64)
}

// The first run of the greatest length that there is.
fn plain_longest_in(bits: &[bool], from: usize, end: usize) -> Option<(u64, u64)> {
    let mut longest = None;
    for len in 1..13u8 {
        match plain_first_run_in(bits, usize::from(len), from, end) {
            Some(first) => longest = Some((first, u64::from(len))),
            None => return longest,
        }
    }
    longest
}

// A length and a range.
struct Ask(u8, u8, u8);

static ASKS: [Ask; 4] = [Ask(2, 1, 11), Ask(3, 4, 9), Ask(1, 3, 20), Ask(4, 0, 12)];

// The first row for which the set answers another thing than the plain programs.
fn first_other_range(set: &BitSet, bits: &[bool]) -> Option<usize> {
    for (row, Ask(len, from, end)) in ASKS.iter().enumerate() {
        let (low, high) = (usize::from(*from), usize::from(*end));
        let run = set.first_run_in(u64::from(*len), low as u64, high as u64);
        let longest = set.longest_in(low as u64, high as u64);
        if run != plain_first_run_in(bits, usize::from(*len), low, high)
            || longest != plain_longest_in(bits, low, high)
        {
            return Some(row);
        }
    }
    None
}

#[test]
fn runs_in_ranges_of_small_sets(rt: HostRuntime) -> Result<(), Fail> {
    for pattern in 0..4096u16 {
        let set = BitSet::from_bytes(rt.alloc(), pattern.to_le_bytes().as_slice(), 12)?;
        let bits = low_bits(pattern);
        assert_eq!(rt; first_other_range(&set, bits.as_slice()), None, "{pattern}");
    }
    Ok(())
}

// How many bits there are, how many are clear, and the longest run of clear ones.
fn told(set: &BitSet) -> (u64, u64, Option<(u64, u64)>) {
    (set.bits(), set.count_clear(), set.longest())
}

#[test]
fn bits_past_the_bytes_are_clear(rt: HostRuntime) -> Result<(), Fail> {
    let set = BitSet::from_bytes(rt.alloc(), [0x07, 0xff].as_slice(), 20)?;
    assert_eq!(rt; told(&set), (20, 9, Some((3, 5))));
    for (number, want) in [(2, true), (3, false), (15, true), (16, false), (25, false)] {
        assert_eq!(rt; set.test(number), want, "{number}");
    }
    for (from, want) in [(0, Some(3)), (8, Some(16)), (19, Some(19)), (20, None)] {
        assert_eq!(rt; set.lowest(from), want, "{from}");
    }
    Ok(())
}

// The first bit of a run, its length and the value that it gets; what the set tells then.
struct Step(u64, u64, bool, (u64, u64, Option<(u64, u64)>));

static STEPS: [Step; 4] = [
    Step(0, 0, false, (200, 200, Some((0, 200)))),
    Step(0, 200, true, (200, 0, None)),
    Step(60, 70, false, (200, 70, Some((60, 70)))),
    Step(94, 2, true, (200, 68, Some((60, 34)))),
];

// Gives the bits of a run this value, where the set has them.
fn put(set: &mut BitSet, first: u64, len: u64, value: bool) {
    if set.bits() < first || set.bits() - first < len {
        return;
    }
    if value {
        set.set_run(first, len);
    } else {
        set.clear_run(first, len);
    }
}

#[test]
fn runs_cross_words(rt: HostRuntime) -> Result<(), Fail> {
    let none: [u8; 0] = [];
    let mut set = BitSet::from_bytes(rt.alloc(), none.as_slice(), 200)?;
    for (row, Step(first, len, value, want)) in STEPS.iter().enumerate() {
        put(&mut set, *first, *len, *value);
        assert_eq!(rt; told(&set), *want, "row {row}");
    }
    Ok(())
}

// A set of 200 bits with a clear run across words.
fn with_a_run(alloc: Global) -> Result<BitSet, Fail> {
    let none: [u8; 0] = [];
    let mut set = BitSet::from_bytes(alloc, none.as_slice(), 200)?;
    put(&mut set, 0, 200, true);
    put(&mut set, 60, 70, false);
    Ok(set)
}

#[test]
fn runs_across_words_are_found(rt: HostRuntime) -> Result<(), Fail> {
    let set = with_a_run(rt.alloc())?;
    for (len, want) in [(70, Some(60)), (71, None)] {
        assert_eq!(rt; set.first_run(len), want, "{len}");
    }
    for (from, want) in [(129, Some(129)), (130, None)] {
        assert_eq!(rt; set.lowest(from), want, "{from}");
    }
    Ok(())
}

// A set of 5,000 bits with clear runs across blocks of 1,024 bits, in one block, and at the end.
fn with_runs_across_blocks(alloc: Global) -> Result<BitSet, Fail> {
    let none: [u8; 0] = [];
    let mut set = BitSet::from_bytes(alloc, none.as_slice(), 5000)?;
    put(&mut set, 0, 5000, true);
    for (first, len) in [(1000, 60), (2040, 20), (3071, 60), (4990, 10)] {
        put(&mut set, first, len, false);
    }
    Ok(set)
}

// A length, a range, and where its first run of so many clear bits is.
static FIRST_RUNS: [(u64, u64, u64, Option<u64>); 9] = [
    (60, 0, 5000, Some(1000)),
    (61, 0, 5000, None),
    (60, 1001, 5000, Some(3071)),
    (60, 1001, 3130, None),
    (19, 1041, 5000, Some(1041)),
    (20, 1041, 3000, Some(2040)),
    (1, 3131, 9000, Some(4990)),
    (11, 3131, 9000, None),
    (0, 5001, 9000, None),
];

// A range, and its longest run of clear bits.
static LONGEST_RUNS: [(u64, u64, Option<(u64, u64)>); 7] = [
    (0, 5000, Some((1000, 60))),
    (1001, 5000, Some((3071, 60))),
    (1010, 3080, Some((1010, 50))),
    (1100, 3080, Some((2040, 20))),
    (4000, 6000, Some((4990, 10))),
    (1060, 2040, None),
    (3000, 2000, None),
];

#[test]
fn runs_across_blocks_are_found(rt: HostRuntime) -> Result<(), Fail> {
    let set = with_runs_across_blocks(rt.alloc())?;
    assert_eq!(rt; told(&set), (5000, 150, Some((1000, 60))));
    for (row, (len, from, end, want)) in FIRST_RUNS.iter().enumerate() {
        assert_eq!(rt; set.first_run_in(*len, *from, *end), *want, "row {row}");
    }
    for (row, (from, end, want)) in LONGEST_RUNS.iter().enumerate() {
        assert_eq!(rt; set.longest_in(*from, *end), *want, "row {row}");
    }
    Ok(())
}

#[test]
fn a_changed_run_is_found_anew(rt: HostRuntime) -> Result<(), Fail> {
    let mut set = with_runs_across_blocks(rt.alloc())?;
    put(&mut set, 1023, 2, true);
    assert_eq!(rt; told(&set), (5000, 148, Some((3071, 60))));
    for (len, want) in [(23, Some(1000)), (24, Some(1025)), (36, Some(3071))] {
        assert_eq!(rt; set.first_run(len), want, "{len}");
    }
    put(&mut set, 0, 5000, false);
    assert_eq!(rt; told(&set), (5000, 5000, Some((0, 5000))));
    for (len, want) in [(4993, Some(7)), (4994, None)] {
        assert_eq!(rt; set.first_run_in(len, 7, 5000), want, "{len}");
    }
    Ok(())
}

#[test]
fn a_run_of_bytes_is_found_across_blocks(rt: HostRuntime) -> Result<(), Fail> {
    let mut bytes = [0xff; 640];
    bytes[125..132].fill(0);
    let set = BitSet::from_bytes(rt.alloc(), bytes.as_slice(), 5120)?;
    assert_eq!(rt; told(&set), (5120, 56, Some((1000, 56))));
    assert_eq!(rt; set.first_run_in(32, 1024, 5120), Some(1024));
    Ok(())
}
