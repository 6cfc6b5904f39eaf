ghost use Rattle.std.specs.Prelude.{◌≡◌, IfOk, map};
ghost use Rattle.host_base.specs.Answers.{Gives};
ghost use Rattle.script_text.specs.Asking.{IsAsked};
ghost use Rattle.script_text.specs.Commands.{path_alone, read_of, what_named, what_of};
ghost use Rattle.script_text.specs.Faults.{line_cause};

use crate::change::change_named;
use crate::fault::LineFault;
use crate::path::path;
use crate::word::{count_in, number_in};
use std::alloc::Global;
use tree_model::{Op, Path, What};

// The most bytes that one command reads.
const READ_BYTES: u64 = 4096;

// The path of a command that takes a path alone.
#[tactic(auto, unfolding(crate::specs::Commands::path_alone))]
fn path_alone(alloc: Global, words: &[&str]) -> Result<Path, LineFault>
    ensures { Gives (λ path. path) line_cause result (path_alone (map (λ word. word.now) words.now)) }
{
    match words {
        [word] => path(alloc, word),
        _ => Err(LineFault::Rule { rule: 6 }),
    }
}

// What the words of a read ask for.
#[tactic(auto, unfolding(crate::specs::Commands::read_of))]
fn read_of(alloc: Global, words: &[&str]) -> Result<What, LineFault>
    ensures value { Gives (λ what. what) line_cause result (read_of (map (λ word. word.now) words.now)) }
    ensures asked { IfOk result IsAsked }
{
    let [word, offset, count] = words else {
        return Err(LineFault::Rule { rule: 6 });
    };
    let path = path(alloc, word)?;
    let offset = number_in(offset)?;
    let count = count_in(READ_BYTES, count)?;
    Ok(What::Op(Op::Read {
        path,
        offset,
        count,
    }))
}

// What a command of this name asks for with these words.
#[tactic(auto, unfolding(crate::specs::Commands::what_named))]
fn what_named(alloc: Global, name: &str, words: &[&str]) -> Result<What, LineFault>
    ensures value { Gives (λ what. what) line_cause result (what_named name.now (map (λ word. word.now) words.now)) }
    ensures asked { IfOk result IsAsked }
{
    if name == "stat" {
        let path = path_alone(alloc, words)?;
        return Ok(What::Op(Op::Stat { path }));
    }
    if name == "list" {
        let path = path_alone(alloc, words)?;
        return Ok(What::Op(Op::List { path }));
    }
    if name == "read" {
        return read_of(alloc, words);
    }
    change_named(alloc, name, words)
}

/// What the words behind a client ask for. The errors are the first of the rules 5 to 9 that is
/// broken, and want of memory. It takes time and memory linear in the words. Commands that make,
/// name or remove files, and those of the index and the journal, are unknown so far.
#[tactic(auto, unfolding(crate::specs::Commands::what_of))]
pub fn what(alloc: Global, words: &[&str]) -> Result<What, LineFault>
    ensures value { Gives (λ what. what) line_cause result (what_of (map (λ word. word.now) words.now)) }
    ensures asked { IfOk result IsAsked }
{
    match words {
        [name, words @ ..] => what_named(alloc, name, words),
        [] => Err(LineFault::Rule { rule: 5 }),
    }
}
