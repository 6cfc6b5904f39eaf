//! The script that a source has.
ghost use Rattle.std.specs.Prelude.{◌≡◌, ◌≤◌, length, IfSome, IfOk, IsErrOf};
ghost use Rattle.host_base.specs.Answers.{GivesOrFails};
ghost use Rattle.host_base.specs.Causes.{Rose, Counts};
ghost use Rattle.script_text.specs.Asking.{AllAsked};
ghost use Rattle.script_text.specs.Scripts.{script_of};
ghost use Rattle.ntfs_host.specs.Scripts.{script_error_cause, IsAccepted, LosesAtMost, ReadsWhole};

use crate::reading::{SourceError, read_source};
use host_base::Source;
use script_text::{Script, ScriptFault, ScriptText};
use std::alloc::Global;

/// Why a source has no script.
#[derive(Clone, Copy, Debug, PartialEq, Eq)]
pub enum ScriptError {
    Memory,
    /// A read of the source failed.
    Source,
    /// The bytes are no script.
    Refused(ScriptFault),
}

/// The script that the source has left, which is read to its end, or, where it is too large, a byte
/// past the most that a script has.
///
/// It has 16,384 commands at most. The errors are want of memory, a failure of the source, and what refuses
/// the script. It takes time and memory linear in the bytes.
pub fn read_script<S: Source>(alloc: Global, source: &mut S) -> Result<Script, ScriptError>
    ensures answer { IfSome (S.left source.old) (λ bytes. GivesOrFails (λ script. script) script_error_cause result (script_of bytes)) }
    ensures asked { IfOk result AllAsked }
    ensures few { IfOk result (λ script. length script ≤ 16384) }
    ensures accepted { IfOk result (λ _. IsAccepted (S.left source.old) (S.left source.new)) }
    ensures whole { ReadsWhole result (S.left source.old) (S.left source.new) }
    ensures most_read { LosesAtMost 16777217 (S.left source.old) (S.left source.new) }
    ensures later { S.faults source.old ≤ S.faults source.new }
    ensures fault { IsErrOf result ScriptError.Source → Rose (S.faults source.old) (S.faults source.new) }
    ensures counted { Counts script_error_cause (S.faults source.old) (S.faults source.new) result }
{
    let bytes = match read_source(alloc, source) {
        Ok(bytes) => bytes,
        Err(SourceError::Memory) => return Err(ScriptError::Memory),
        Err(SourceError::Source) => return Err(ScriptError::Source),
    };
    match Script::read(alloc, &bytes) {
        Ok(script) => Ok(script),
        Err(ScriptFault::Memory) => Err(ScriptError::Memory),
        Err(fault) => Err(ScriptError::Refused(fault)),
    }
}
