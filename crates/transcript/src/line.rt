//! The lines of a run's text.
ghost use Rattle.std.specs.Prelude.{◌≡◌, [], ◌∷◌, ◌++◌, IfOk, OnOk, map};
ghost use Rattle.run_model.specs.Texts.{turn_line, find_line, line_order};
ghost use Rattle.transcript.specs.Appended.{IsInOrder};

use crate::reply::reply_text;
use host_base::Memory;
use run_model::{FindLine, Turn};
use std::alloc::{AllocError, Global};
use std::cmp::Ordering;
use std::marker::Model;

/// A line with the client and the number by which it is put in order.
#[derive(Debug, Drop)]
pub struct RunLine {
    client: u32,
    number: u32,
    text: String,
}

impl Model for RunLine {
    ghost use Rattle.std.specs.Prelude.{string_bytes};
    ghost use Rattle.run_model.specs.Texts.{Line};

    ghost Value = { Line };

    ghost view = { λ l. record { client = l.client; number = l.number; text = string_bytes l.text } };
}

impl RunLine {
    /// The line of a command that had its turn. The error is want of memory.
    fn of_turn(alloc: Global, turn: &Turn) -> Result<RunLine, Memory>
        ensures { IfOk result (λ line. line ≡ turn_line turn.now) }
    {
        let (client, number) = (turn.client, turn.number);
        let (serial, usn) = (turn.serial, turn.usn);
        let reply = reply_text(alloc, &turn.reply)?;
        let text = format!(in alloc; "{client} {number} {serial} {usn} {reply}\n")?;
        Ok(RunLine {
            client,
            number,
            text,
        })
    }

    /// The line of a find, which has no turn. The error is want of memory.
    fn of_find(alloc: Global, find: &FindLine) -> Result<RunLine, Memory>
        ensures { IfOk result (λ line. line ≡ find_line find.now) }
    {
        let (client, number, usn) = (find.client, find.number, find.usn);
        let reply = reply_text(alloc, &find.reply)?;
        let text = format!(in alloc; "{client} {number} - {usn} {reply}\n")?;
        Ok(RunLine {
            client,
            number,
            text,
        })
    }

    /// The line as it is printed.
    pub fn as_str(&self) -> &str
        ensures { result.now ≡ self.now.text }
    {
        &self.text
    }
}

// By client, and then by number.
fn compare(a: &RunLine, b: &RunLine) -> Ordering
    ensures { result ≡ line_order a.now b.now }
{
    a.client.cmp(&b.client).then(a.number.cmp(&b.number))
}

fn push_line(lines: &mut Vec<RunLine>, line: RunLine) -> Result<(), AllocError>
    ensures { OnOk result (lines.new.items ≡ lines.old.items ++ line ∷ []) }
{
    lines.push(line)?;
    Ok(())
}

/// The lines of the turns, and then those of the finds. The error is want of memory.
pub fn lines_of(alloc: Global, turns: &[Turn], finds: &[FindLine]) -> Result<Vec<RunLine>, Memory>
    ensures { IfOk result
        (λ lines. lines.items ≡ map turn_line turns.now ++ map find_line finds.now) }
{
    let mut lines = Vec::new(alloc);
    for turn in turns {
        push_line(&mut lines, RunLine::of_turn(alloc, turn)?)?;
    }
    for find in finds {
        push_line(&mut lines, RunLine::of_find(alloc, find)?)?;
    }
    Ok(lines)
}

/// Puts the lines in order by client and then by number, in time near linear in their number. The
/// error is want of memory.
pub fn sort(lines: &mut Vec<RunLine>) -> Result<(), AllocError>
    ensures { OnOk result (IsInOrder lines.old.items lines.new.items) }
{
    lines.sort_by(|a, b| compare(a, b))
}
