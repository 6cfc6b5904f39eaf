//! Bits in bytes, the low bit first.
ghost use Rattle.std.specs.Prelude.{◌≡◌, ℕ, ◌+◌, ◌-◌, ◌*◌, ◌/◌, ◌%◌, ◌^◌, ◌<◌, ◌≤◌, ◌⊎◌, length};
ghost use Rattle.bit_set.specs.Words.{is_one};
ghost use Rattle.draft_bits.specs.Filling.{FillsBytes};

// How many of the bits from `at` on stand in its byte, below the end.
fn stretch(at: u64, end: u64) -> u64
    requires { at < end }
    ensures some { 0 < result }
    ensures within { at + result ≤ end }
    ensures byte { at % 8 + result ≤ 8 }
{
    (8 - at % 8).min(end - at)
}

// A byte whose low bits are ones.
fn low_ones(len: u64) -> u8
    requires some { 0 < len }
    requires within { len ≤ 8 }
    ensures { result ≡ 2 ^ len - 1 }
{
    u8::MAX >> (8 - len)
}

// The byte with its bits from `from` on set or clear.
fn filled(byte: u8, from: u64, len: u64, value: bool) -> u8
    requires some { 0 < len }
    requires within { from + len ≤ 8 }
    ensures inside { (j : ℕ) → from ≤ j → j < from + len → is_one result j ≡ value }
    ensures others { (j : ℕ) → j < 8 → (j < from) ⊎ (from + len ≤ j) → is_one result j ≡ is_one byte j }
{
    let mask = low_ones(len) << from;
    if value { byte | mask } else { byte & !mask }
}

/// Sets or clears the bits of bytes from the number `first` on, below `end`, and leaves the others;
/// they count from the low bit of the first byte. It takes time linear in the bytes that have them.
pub fn fill_bits(bytes: &mut [u8], first: u64, end: u64, value: bool)
    requires order { first ≤ end }
    requires within { end ≤ 8 * length bytes.old }
    ensures { FillsBytes bytes.old bytes.new first end value }
{
    let mut at = first;
    while at < end {
        let len = stretch(at, end);
        let place = (at / 8) as usize;
        bytes[place] = filled(bytes[place], at % 8, len, value);
        at += len;
    }
}
