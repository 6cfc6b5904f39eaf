ghost use Rattle.std.specs.Prelude.{◌≡◌, IfOk, map};
ghost use Rattle.host_base.specs.Answers.{Gives};
ghost use Rattle.script_text.specs.Asking.{IsAsked};
ghost use Rattle.script_text.specs.Commands.{write_of, fill_of, truncate_of, sync_of, change_named};
ghost use Rattle.script_text.specs.Faults.{line_cause};

use crate::fault::LineFault;
use crate::path::path;
use crate::word::{WRITTEN_BYTES, byte_in, bytes_in, count_in, number_in};
use std::alloc::Global;
use tree_model::{Op, What};

// What the words of a write ask for.
#[tactic(auto, unfolding(crate::specs::Commands::write_of))]
fn write_of(alloc: Global, words: &[&str]) -> Result<What, LineFault>
    ensures value { Gives (λ what. what) line_cause result (write_of (map (λ word. word.now) words.now)) }
    ensures asked { IfOk result IsAsked }
{
    let [word, offset, bytes] = words else {
        return Err(LineFault::Rule { rule: 6 });
    };
    let path = path(alloc, word)?;
    let offset = number_in(offset)?;
    let bytes = bytes_in(alloc, bytes)?;
    Ok(What::Op(Op::Write {
        path,
        offset,
        bytes,
    }))
}

// What the words of a fill ask for.
#[tactic(auto, unfolding(crate::specs::Commands::fill_of))]
fn fill_of(alloc: Global, words: &[&str]) -> Result<What, LineFault>
    ensures value { Gives (λ what. what) line_cause result (fill_of (map (λ word. word.now) words.now)) }
    ensures asked { IfOk result IsAsked }
{
    let [word, offset, count, byte] = words else {
        return Err(LineFault::Rule { rule: 6 });
    };
    let path = path(alloc, word)?;
    let offset = number_in(offset)?;
    let count = count_in(WRITTEN_BYTES, count)?;
    let byte = byte_in(byte)?;
    Ok(What::Op(Op::Fill {
        path,
        offset,
        count,
        byte,
    }))
}

// What the words of a truncate ask for.
#[tactic(auto, unfolding(crate::specs::Commands::truncate_of))]
fn truncate_of(alloc: Global, words: &[&str]) -> Result<What, LineFault>
    ensures value { Gives (λ what. what) line_cause result (truncate_of (map (λ word. word.now) words.now)) }
    ensures asked { IfOk result IsAsked }
{
    let [word, size] = words else {
        return Err(LineFault::Rule { rule: 6 });
    };
    let path = path(alloc, word)?;
    let size = number_in(size)?;
    Ok(What::Op(Op::Truncate { path, size }))
}

// What a sync asks for, which takes no words.
#[tactic(auto, unfolding(crate::specs::Commands::sync_of))]
fn sync_of(words: &[&str]) -> Result<What, LineFault>
    ensures value { Gives (λ what. what) line_cause result (sync_of (map (λ word. word.now) words.now)) }
    ensures asked { IfOk result IsAsked }
{
    match words {
        [] => Ok(What::Op(Op::Sync)),
        _ => Err(LineFault::Rule { rule: 6 }),
    }
}

/// What a command of this name that changes a file, or a sync, asks for with these words. Another
/// name breaks rule 5. It takes time and memory linear in the words.
#[tactic(auto, unfolding(crate::specs::Commands::change_named))]
pub fn change_named(alloc: Global, name: &str, words: &[&str]) -> Result<What, LineFault>
    ensures value { Gives (λ what. what) line_cause result (change_named name.now (map (λ word. word.now) words.now)) }
    ensures asked { IfOk result IsAsked }
{
    if name == "write" {
        return write_of(alloc, words);
    }
    if name == "fill" {
        return fill_of(alloc, words);
    }
    if name == "truncate" {
        return truncate_of(alloc, words);
    }
    if name == "sync" {
        return sync_of(words);
    }
    Err(LineFault::Rule { rule: 5 })
}
