//! Text that goes to a sink line by line.
ghost use Rattle.std.specs.Prelude.{◌≡◌, ◌⊎◌, ◌<◌, ◌≤◌, OnOk, OnErr, length};
ghost use Rattle.std.specs.Io.KnownBytes.{Appends};
ghost use Rattle.host_base.specs.Causes.{HasCause, AppendsPart};
ghost use Rattle.ntfs_host.specs.Outcomes.{HasCauses};

use crate::status::{DONE, SINK_FAULT};
use host_base::{Failed, Sink, write_all};

// How many bytes the first line has, its end among them; all, where no line ends.
fn line_length(text: &[u8]) -> usize
    ensures within { result ≤ length text.now }
    ensures some { 0 < length text.now → 0 < result }
{
    match text.iter().position(|byte| *byte == b'\n') {
        Some(at) => at + 1,
        None => text.len(),
    }
}

/// Writes a text, each of its lines by itself, in time linear in it.
pub fn write_lines<K: Sink>(sink: &mut K, text: &[u8]) -> Result<(), Failed>
    ensures ok { OnOk result (Appends (K.taken sink.old) (K.taken sink.new) text.now) }
    ensures err { OnErr result (AppendsPart (K.taken sink.old) (K.taken sink.new) text.now) }
    ensures cause { HasCause (K.faults sink.old) (K.faults sink.new) result }
{
    let mut rest = text;
    while !rest.is_empty() {
        let (line, behind) = rest.split_at(line_length(rest));
        match write_all(sink, line) {
            Ok(()) => rest = behind,
            Err(failed) => return Err(failed),
        }
    }
    Ok(())
}

/// Writes a text, each of its lines by itself, and gives the status.
pub fn print_text<K: Sink>(sink: &mut K, text: &str) -> u8
    ensures status { (result ≡ 0) ⊎ (result ≡ 7) }
    ensures done { result ≡ 0 → Appends (K.taken sink.old) (K.taken sink.new) text.now }
    ensures part { result ≡ 7 → AppendsPart (K.taken sink.old) (K.taken sink.new) text.now }
    ensures causes { HasCauses 7 result (K.faults sink.old) (K.faults sink.new) }
{
    match write_lines(sink, text.as_bytes()) {
        Ok(()) => DONE,
        Err(_) => SINK_FAULT,
    }
}
