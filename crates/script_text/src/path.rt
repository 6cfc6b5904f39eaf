ghost use Rattle.std.specs.Prelude.{◌≡◌, map};
ghost use Rattle.host_base.specs.Answers.{Gives};
ghost use Rattle.script_text.specs.Faults.{line_cause};
ghost use Rattle.script_text.specs.Paths.{part_of, parts_of, path_between, path_of};

use crate::fault::LineFault;
use crate::pieces::pieces;
use std::alloc::Global;
use tree_model::Path;
use utf16_name::{NameFault, Units, text_units};

/// The most parts that a path has.
const PARTS: usize = 255;

// The units of a part's text.
#[tactic(auto, unfolding(crate::specs::Paths::part_of))]
fn part(alloc: Global, text: &str) -> Result<Units, LineFault>
    ensures { Gives (λ part. part) line_cause result (part_of text.now) }
{
    match text_units(alloc, text) {
        Ok(units) if units.is_empty() => Err(LineFault::Rule { rule: 7 }),
        Ok(units) => Ok(units),
        Err(NameFault::Memory) => Err(LineFault::Memory),
        Err(_) => Err(LineFault::Rule { rule: 7 }),
    }
}

// The parts with these texts.
fn parts(alloc: Global, texts: &[&str]) -> Result<Path, LineFault>
    ensures { Gives (λ path. path) line_cause result (parts_of (map (λ text. text.now) texts.now)) }
{
    let mut path = Path::new(alloc);
    for text in texts {
        path.push(part(alloc, text)?)?;
    }
    Ok(path)
}

// The path with these texts between its slashes.
#[tactic(auto, unfolding(crate::specs::Paths::path_between))]
fn path_between(alloc: Global, texts: &[&str]) -> Result<Path, LineFault>
    ensures { Gives (λ path. path) line_cause result (path_between (map (λ text. text.now) texts.now)) }
{
    let [before, texts @ ..] = texts else {
        return Err(LineFault::Rule { rule: 7 });
    };
    if !before.is_empty() {
        return Err(LineFault::Rule { rule: 7 });
    }
    if texts.is_empty() || texts.len() > PARTS {
        return Err(LineFault::Rule { rule: 7 });
    }
    parts(alloc, texts)
}

#[tactic(auto, unfolding(crate::specs::Paths::path_of))]
/// The path that a word spells: `/`, or 1 to 255 parts, each `/` and the text of a unit or more. It
/// takes time and memory linear in the word. The errors are rule 7 and want of memory.
pub fn path(alloc: Global, word: &str) -> Result<Path, LineFault>
    ensures value { Gives (λ path. path) line_cause result (path_of word.now) }
{
    if word == "/" {
        return Ok(Path::new(alloc));
    }
    let texts = pieces(alloc, word, '/')?;
    path_between(alloc, texts.as_slice())
}
