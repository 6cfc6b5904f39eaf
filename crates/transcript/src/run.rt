//! The text of a run.
ghost use Rattle.std.specs.Prelude.{◌≡◌, IfOk, OnOk, OnErr, string_bytes};
ghost use Rattle.std.specs.List.{flat_map};
ghost use Rattle.run_model.specs.Texts.{IsRunText, Line};
ghost use Rattle.transcript.specs.Appended.{AppendsRunText};

use crate::line::{RunLine, lines_of, sort};
use host_base::Memory;
use run_model::{FindLine, Turn};
use std::alloc::{AllocError, Global};

// The lines one behind the other.
fn joined(alloc: Global, lines: &[RunLine]) -> Result<String, AllocError>
    ensures { IfOk result (λ text. string_bytes text ≡ flat_map (λ (l : Line). l.text) lines.now) }
{
    let mut text = String::new(alloc);
    for line in lines {
        text.push_str(line.as_str())?;
    }
    Ok(text)
}

fn run_text(alloc: Global, turns: &[Turn], finds: &[FindLine]) -> Result<String, Memory>
    ensures { IfOk result (λ text. IsRunText turns.now finds.now (string_bytes text)) }
{
    let mut lines = lines_of(alloc, turns, finds)?;
    sort(&mut lines)?;
    Ok(joined(alloc, &lines)?)
}

/// Appends the text of a run: for each command the line `CLIENT NUMBER SERIAL USN REPLY`, by client
/// and then by number. A find has `-` in place of its turn's number. The error is want of memory,
/// and leaves `out` as it was. It takes time linear in the text, and near linear in the number of
/// lines to put them in order, and memory for two copies of the text.
pub fn text(turns: &[Turn], finds: &[FindLine], out: &mut String) -> Result<(), Memory>
    ensures value { OnOk result
        (AppendsRunText turns.now finds.now (string_bytes out.old) (string_bytes out.new)) }
    ensures unchanged { OnErr result (string_bytes out.new ≡ string_bytes out.old) }
{
    let text = run_text(*out.allocator(), turns, finds)?;
    out.push_str(&text)?;
    Ok(())
}
