ghost use Rattle.std.specs.Prelude.{◌≡◌, ◌<◌, ◌≤◌, ◌^◌, IfOk, length};
ghost use Rattle.host_base.specs.Answers.{Gives};
ghost use Rattle.script_text.specs.Faults.{line_cause};
ghost use Rattle.script_text.specs.Words.{number_in, count_in, bytes_or, bytes_in, byte_in};
ghost use Rattle.hex.specs.Hex.{decode_of};

use crate::fault::LineFault;
use hex::{FromHex, FromHexError};
use host_base::decimal_number;
use std::alloc::Global;
use tree_model::Bytes;

/// The most bytes that one command writes.
pub const WRITTEN_BYTES: u64 = 65_536;

/// The number of a word. The error is rule 8.
#[tactic(auto, unfolding(crate::specs::Words::number_in))]
pub fn number_in(word: &str) -> Result<u64, LineFault>
    ensures value { Gives (λ n. n) line_cause result (number_in word.now) }
    ensures below { IfOk result (λ n. n < 2 ^ 62) }
{
    match decimal_number(word) {
        Some(number) => Ok(number),
        None => Err(LineFault::Rule { rule: 8 }),
    }
}

/// The number of a word, which is at most so many bytes. The errors are the rules 8 and 9.
#[tactic(auto, unfolding(crate::specs::Words::count_in))]
pub fn count_in(most: u64, word: &str) -> Result<u64, LineFault>
    ensures value { Gives (λ n. n) line_cause result (count_in most word.now) }
    ensures within { IfOk result (λ n. n ≤ most) }
{
    let count = number_in(word)?;
    if count > most {
        return Err(LineFault::Rule { rule: 9 });
    }
    Ok(count)
}

// The bytes that pairs of hexadecimal digits spell.
fn digits_in(alloc: Global, word: &str) -> Result<Bytes, LineFault>
    ensures value { Gives (λ bytes. bytes) line_cause result (bytes_or (decode_of word.now)) }
    ensures within { IfOk result (λ bytes. length bytes ≤ WRITTEN_BYTES) }
{
    if word.len() as u64 / 2 > WRITTEN_BYTES {
        return Err(LineFault::Rule { rule: 9 });
    }
    match hex::decode(alloc, word) {
        Ok(bytes) => Ok(Bytes::from(bytes)),
        Err(FromHexError::OutOfMemory) => Err(LineFault::Memory),
        Err(_) => Err(LineFault::Rule { rule: 9 }),
    }
}

/// The bytes of a word: none for `-`, else those that its hexadecimal digits spell, 65,536 at most.
/// It takes time and memory linear in the word. The errors are rule 9 and want of memory.
#[tactic(auto, unfolding(crate::specs::Words::bytes_in))]
pub fn bytes_in(alloc: Global, word: &str) -> Result<Bytes, LineFault>
    ensures value { Gives (λ bytes. bytes) line_cause result (bytes_in word.now) }
    ensures within { IfOk result (λ bytes. length bytes ≤ WRITTEN_BYTES) }
{
    if word == "-" {
        return Ok(Bytes::new(alloc));
    }
    digits_in(alloc, word)
}

/// The byte that exactly two hexadecimal digits spell. The error is rule 9.
#[tactic(auto, unfolding(crate::specs::Words::byte_in))]
pub fn byte_in(word: &str) -> Result<u8, LineFault>
    ensures { Gives (λ byte. byte) line_cause result (byte_in word.now) }
{
    match <[u8; 1] as FromHex>::from_hex(word) {
        Ok(bytes) => Ok(bytes[0]),
        Err(_) => Err(LineFault::Rule { rule: 9 }),
    }
}
