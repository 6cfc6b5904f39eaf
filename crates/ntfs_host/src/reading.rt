//! The bytes of a source.
ghost use Rattle.std.specs.Prelude.{◌≡◌, ◌≤◌, ◌<◌, ◌++◌, IfOk, IsErrOf, length, take};
ghost use Rattle.std.specs.Io.KnownBytes.{Consumes, IsAtEnd};
ghost use Rattle.host_base.specs.Causes.{Rose, Counts};
ghost use Rattle.ntfs_host.specs.Scripts.{source_cause, LosesAtMost};

use host_base::{Failed, Source};
use std::alloc::{AllocError, Global};

// One byte more than a script has at most.
const MOST: usize = 16_777_217;

// The bytes that are asked for at once.
const CHUNK: usize = 65_536;

/// Why a source's bytes can't be had.
#[derive(Clone, Copy, Debug, PartialEq, Eq)]
pub enum SourceError {
    Memory,
    /// A read of the source failed.
    Source,
}

impl From<AllocError> for SourceError {
    ghost use Rattle.std.specs.Prelude.{◌≡◌};
    ghost use Rattle.ntfs_host.specs.declared.reading.SourceError.TheVariants.{Memory as no_memory};

    ghost from_gives = { λ _ e. e ≡ no_memory };

    fn from(_: AllocError) -> Self {
        SourceError::Memory
    }
}

impl From<Failed> for SourceError {
    ghost use Rattle.std.specs.Prelude.{◌≡◌};
    ghost use Rattle.ntfs_host.specs.declared.reading.SourceError.TheVariants.{Source as source_failed};

    ghost from_gives = { λ _ e. e ≡ source_failed };

    fn from(_: Failed) -> Self {
        SourceError::Source
    }
}

// Appends the bytes of one read, of at most so many, and says how many there were.
fn read_more<S: Source>(
    source: &mut S,
    chunk: &mut [u8],
    room: usize,
    bytes: &mut Vec<u8>,
) -> Result<usize, SourceError>
    requires some { 0 < room }
    requires inside { room ≤ length chunk.old }
    ensures most_read { LosesAtMost room (S.left source.old) (S.left source.new) }
    ensures consumed { IfOk result (λ count. Consumes (S.left source.old) (S.left source.new) (take count chunk.new)) }
    ensures grown { IfOk result (λ count. bytes.new.items ≡ bytes.old.items ++ take count chunk.new) }
    ensures few { IfOk result (λ count. count ≤ room) }
    ensures end { IfOk result (λ count. count ≡ 0 → IsAtEnd (S.left source.new)) }
    ensures later { S.faults source.old ≤ S.faults source.new }
    ensures fault { IsErrOf result SourceError.Source → Rose (S.faults source.old) (S.faults source.new) }
    ensures counted { Counts source_cause (S.faults source.old) (S.faults source.new) result }
{
    let (front, _) = chunk.split_at_mut(room);
    let count = source.read(front)?;
    bytes.extend_from_slice(front.split_at(count).0)?;
    Ok(count)
}

// The same, through a chunk that isn't empty.
fn read_through<S: Source>(
    alloc: Global,
    source: &mut S,
    chunk: &mut [u8],
) -> Result<Vec<u8>, SourceError>
    requires { 0 < length chunk.old }
    ensures most_read { LosesAtMost 16777217 (S.left source.old) (S.left source.new) }
    ensures consumed { IfOk result (λ bytes. Consumes (S.left source.old) (S.left source.new) bytes.items) }
    ensures end { IfOk result (λ bytes. length bytes.items < 16777217 → IsAtEnd (S.left source.new)) }
    ensures most { IfOk result (λ bytes. length bytes.items ≤ 16777217) }
    ensures later { S.faults source.old ≤ S.faults source.new }
    ensures fault { IsErrOf result SourceError.Source → Rose (S.faults source.old) (S.faults source.new) }
    ensures counted { Counts source_cause (S.faults source.old) (S.faults source.new) result }
{
    let mut bytes = Vec::new(alloc);
    while bytes.len() < MOST {
        let room = chunk.len().min(MOST - bytes.len());
        let count = read_more(source, chunk, room, &mut bytes)?;
        if count == 0 {
            return Ok(bytes);
        }
    }
    Ok(bytes)
}

/// The bytes that a source has left, or the first 16,777,217 of them, one more than a script has at
/// most; in reads of 64 KiB. No more is read, also where it fails.
#[tactic(auto, using(crate::proofs::Losses::loses_none))]
pub fn read_source<S: Source>(alloc: Global, source: &mut S) -> Result<Vec<u8>, SourceError>
    ensures most_read { LosesAtMost 16777217 (S.left source.old) (S.left source.new) }
    ensures consumed { IfOk result (λ bytes. Consumes (S.left source.old) (S.left source.new) bytes.items) }
    ensures end { IfOk result (λ bytes. length bytes.items < 16777217 → IsAtEnd (S.left source.new)) }
    ensures most { IfOk result (λ bytes. length bytes.items ≤ 16777217) }
    ensures later { S.faults source.old ≤ S.faults source.new }
    ensures fault { IsErrOf result SourceError.Source → Rose (S.faults source.old) (S.faults source.new) }
    ensures counted { Counts source_cause (S.faults source.old) (S.faults source.new) result }
{
    let mut chunk = vec![in alloc; 0u8; CHUNK]?;
    read_through(alloc, source, &mut chunk)
}
