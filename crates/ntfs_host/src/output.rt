//! Text that goes to the sink.
ghost use Rattle.std.specs.Prelude.{◌≡◌, ◌≤◌, OnOk, OnErr, IsErrOf};
ghost use Rattle.std.specs.Io.KnownBytes.{Appends};
ghost use Rattle.host_base.specs.Causes.{Rose, Counts, AppendsPart};
ghost use Rattle.ntfs_host.specs.Scripts.{script_line};
ghost use Rattle.ntfs_host.specs.Statuses.{write_cause};
ghost use Rattle.ntfs_host.specs.Text.{refusal_line};

use crate::text::{refusal_line, script_line};
use crate::write_error::WriteError;
use host_base::{Sink, write_all};
use script_text::ScriptFault;
use std::alloc::Global;
use volume_run::Refusal;

/// Writes the refusal's line.
#[tactic(auto, using(host_base::proofs::Appending::nothing))]
pub fn write_refusal<K: Sink>(
    alloc: Global,
    sink: &mut K,
    refusal: Refusal,
) -> Result<(), WriteError>
    ensures ok { OnOk result (Appends (K.taken sink.old) (K.taken sink.new) (refusal_line refusal)) }
    ensures err { OnErr result (AppendsPart (K.taken sink.old) (K.taken sink.new) (refusal_line refusal)) }
    ensures later { K.faults sink.old ≤ K.faults sink.new }
    ensures fault { IsErrOf result WriteError.Sink → Rose (K.faults sink.old) (K.faults sink.new) }
    ensures counted { Counts write_cause (K.faults sink.old) (K.faults sink.new) result }
{
    let line = refusal_line(alloc, refusal)?;
    write_all(sink, line.as_bytes())?;
    Ok(())
}

/// Writes the line that says what refuses a script.
#[tactic(auto, using(host_base::proofs::Appending::nothing))]
pub fn write_script_fault<K: Sink>(
    alloc: Global,
    sink: &mut K,
    fault: ScriptFault,
) -> Result<(), WriteError>
    ensures ok { OnOk result (Appends (K.taken sink.old) (K.taken sink.new) (script_line fault)) }
    ensures err { OnErr result (AppendsPart (K.taken sink.old) (K.taken sink.new) (script_line fault)) }
    ensures later { K.faults sink.old ≤ K.faults sink.new }
    ensures fault { IsErrOf result WriteError.Sink → Rose (K.faults sink.old) (K.faults sink.new) }
    ensures counted { Counts write_cause (K.faults sink.old) (K.faults sink.new) result }
{
    let line = script_line(alloc, fault)?;
    write_all(sink, line.as_bytes())?;
    Ok(())
}
