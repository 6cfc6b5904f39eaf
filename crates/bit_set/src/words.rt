ghost use Rattle.std.specs.Prelude.{◌≡◌, ℕ, ◌+◌, ◌-◌, ◌*◌, ◌/◌, ◌%◌, ◌^◌, ◌<◌, ◌≤◌, ◌⊎◌, ◌≢◌, not, if◌then◌else◌, IfOk, length, slice_index, vec_len};
ghost use Rattle.std.specs.Int.{bit_at};
ghost use Rattle.bit_set.specs.Words.{is_one, word_bit, byte_bit, clear_count, FillsRun};

use byteorder::{ByteOrder, LittleEndian};
use std::alloc::{AllocError, Global};

/// The bits of a word.
pub const WORD_BITS: u64 = 64;

// The eight bytes from `at` on, zeros past the end.
fn eight_bytes(bytes: &[u8], at: usize) -> [u8; 8]
    ensures { (k : ℕ) → k < 8 → slice_index result k ≡ slice_index bytes.now (at + k) }
{
    let rest = bytes.split_at(at.min(bytes.len())).1;
    let count = rest.len().min(8);
    let mut eight = [0; 8];
    eight[..count].copy_from_slice(&rest[..count]);
    eight
}

// The bits of the eight bytes from `at` on, clear past the end.
fn word_at(bytes: &[u8], at: usize) -> u64
    ensures { (j : ℕ) → j < 64 → is_one result j ≡ byte_bit bytes.now (8 * at + j) }
{
    LittleEndian::read_u64(&eight_bytes(bytes, at))
}

// So many words of the bytes' bits, clear past the end.
pub fn words_of(alloc: Global, bytes: &[u8], count: usize) -> Result<Vec<u64>, AllocError>
    requires { count ≤ 2 ^ 58 }
    ensures count { IfOk result (λ words. vec_len words ≡ count) }
    ensures bits { IfOk result
        (λ words. (i : ℕ) → i < 64 * count → word_bit words.items i ≡ byte_bit bytes.now i) }
{
    let mut words = Vec::with_capacity(alloc, count)?;
    for place in 0..count {
        words.push(word_at(bytes, 8 * place))?;
    }
    Ok(words)
}

// Whether the bit at this place is set.
pub fn is_set(words: &[u64], at: u64) -> bool
    requires { at < 64 * length words.now }
    ensures { result ≡ word_bit words.now at }
{
    words[(at / WORD_BITS) as usize] >> (at % WORD_BITS) & 1 == 1
}

// How many of the bits from `at` on stand in its word, below the end.
fn stretch(at: u64, end: u64) -> u64
    requires { at < end }
    ensures some { 0 < result }
    ensures within { at + result ≤ end }
    ensures word { at % 64 + result ≤ 64 }
{
    (WORD_BITS - at % WORD_BITS).min(end - at)
}

// A word whose low bits are ones.
fn low_ones(len: u64) -> u64
    requires some { 0 < len }
    requires within { len ≤ 64 }
    ensures { result ≡ 2 ^ len - 1 }
{
    u64::MAX >> (WORD_BITS - len)
}

// How many of the word's bits from `from` on are clear.
fn clear_in_word(word: u64, from: u64, len: u64) -> u64
    requires some { 0 < len }
    requires within { from + len ≤ 64 }
    ensures { result ≡ clear_count (is_one word) from len }
{
    u64::from((!(word >> from) & low_ones(len)).count_ones())
}

// How many bits are clear from `first` on, below `end`.
pub fn clear_between(words: &[u64], first: u64, end: u64) -> u64
    requires order { first ≤ end }
    requires within { end ≤ 64 * length words.now }
    ensures count { result ≡ clear_count (word_bit words.now) first (end - first) }
    ensures bound { result ≤ end - first }
{
    let mut count = 0;
    let mut at = first;
    while at < end {
        let len = stretch(at, end);
        count += clear_in_word(words[(at / WORD_BITS) as usize], at % WORD_BITS, len);
        at += len;
    }
    count
}

// The word with its bits from `from` on set or clear.
fn filled(word: u64, from: u64, len: u64, value: bool) -> u64
    requires some { 0 < len }
    requires within { from + len ≤ 64 }
    ensures inside { (j : ℕ) → from ≤ j → j < from + len → is_one result j ≡ value }
    ensures others { (j : ℕ) → j < 64 → (j < from) ⊎ (from + len ≤ j) → is_one result j ≡ is_one word j }
{
    let mask = low_ones(len) << from;
    if value { word | mask } else { word & !mask }
}

// Sets or clears the bits from `first` on, below `end`.
pub fn fill(words: &mut [u64], first: u64, end: u64, value: bool)
    requires order { first ≤ end }
    requires within { end ≤ 64 * length words.old }
    ensures { FillsRun words.old words.new first end value }
{
    let mut at = first;
    while at < end {
        let len = stretch(at, end);
        let place = (at / WORD_BITS) as usize;
        words[place] = filled(words[place], at % WORD_BITS, len, value);
        at += len;
    }
}

// The word whose ones are the word's bits that differ from this value.
fn differing(word: u64, value: bool) -> u64
    ensures { (j : ℕ) → j < 64
        → is_one result j ≡ (if value then not (is_one word j) else is_one word j) }
{
    if value { !word } else { word }
}

// How many of the word's bits have this value from `from` on.
fn same_in_word(word: u64, from: u64, value: bool) -> u64
    requires { from < 64 }
    ensures within { from + result ≤ 64 }
    ensures same { (j : ℕ) → from ≤ j → j < from + result → is_one word j ≡ value }
    ensures other { from + result < 64 → is_one word (from + result) ≢ value }
{
    let others = differing(word, value) >> from;
    if others == 0 {
        return WORD_BITS - from;
    }
    u64::from(others.trailing_zeros())
}

// The end of the run of bits with this value that begins at `at`, below `end`.
pub fn run_end(words: &[u64], at: u64, end: u64, value: bool) -> u64
    requires order { at ≤ end }
    requires within { end ≤ 64 * length words.now }
    ensures order { at ≤ result }
    ensures within { result ≤ end }
    ensures same { (i : ℕ) → at ≤ i → i < result → word_bit words.now i ≡ value }
    ensures other { result < end → word_bit words.now result ≢ value }
{
    let mut at = at;
    while at < end {
        let from = at % WORD_BITS;
        let same = same_in_word(words[(at / WORD_BITS) as usize], from, value).min(end - at);
        at += same;
        if from + same < WORD_BITS {
            return at;
        }
    }
    end
}
