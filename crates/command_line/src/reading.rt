ghost use Rattle.std.specs.Prelude.{◌≡◌, map, string_bytes, option_and_then};
ghost use Rattle.host_base.specs.Answers.{Gives};
ghost use Rattle.host_base.specs.Numbers.{number_of};
ghost use Rattle.command_line.specs.Faults.{line_cause};
ghost use Rattle.command_line.specs.Lines.{found_texts};
ghost use Rattle.command_line.specs.Commands.{command_in, command_named, is_first, line_of, number_in, size_of};

use crate::command::Command;
use crate::fault::LineFault;
use crate::matching::matches;
use clap::ArgMatches;
use host_base::decimal_number;
use std::alloc::Global;

// The command of this name, with what it takes.
#[tactic(auto, unfolding(crate::specs::Commands::command_named))]
fn command_named(name: &str, time: u64, seed: u64, max: u64) -> Option<Command>
    ensures { result ≡ command_named name.now time seed max }
{
    match name {
        "scan" => Some(Command::Scan),
        "dump" => Some(Command::Dump),
        "check" => Some(Command::Check),
        "journal" => Some(Command::Journal),
        "format" => Some(Command::Format { seed, time }),
        "enable" => Some(Command::Enable { max, time }),
        "run" => Some(Command::Run { time }),
        "gen" => Some(Command::Gen { seed, time }),
        _ => None,
    }
}

// The size of a journal, which is 8,192 to 1,073,741,824.
#[tactic(auto, unfolding(crate::specs::Commands::size_of))]
fn size(text: &str) -> Option<u64>
    ensures { result ≡ size_of text.now }
{
    let max = decimal_number(text)?;
    if 8192 <= max && max <= 1073741824 {
        Some(max)
    } else {
        None
    }
}

// Whether the image is the word behind the program's name.
fn is_first(image: &str, words: &[String]) -> bool
    ensures { result ≡ is_first image.now (map (λ word. string_bytes word) words.now) }
{
    match words {
        [_, word, ..] => image == word.as_str(),
        _ => false,
    }
}

// The command that the texts name.
#[tactic(auto, unfolding(crate::specs::Commands::command_in))]
fn command_in(matches: &ArgMatches<'_>, words: &[String]) -> Option<Command>
    ensures { result ≡ command_in (found_texts matches.now) (map (λ word. string_bytes word) words.now) }
{
    let image = matches.get_str("image")?;
    if !is_first(image, words) {
        return None;
    }
    let time = decimal_number(matches.get_str("time")?)?;
    let seed = decimal_number(matches.get_str("seed")?)?;
    let max = size(matches.get_str("journal")?)?;
    command_named(matches.get_str("command")?, time, seed, max)
}

#[tactic(auto, unfolding(crate::specs::Commands::line_in))]
/// The command that the words of a command line name. The first word is the program's name, which
/// isn't looked at; behind it stand the image, the command and the options `--time N`, `--seed N`
/// and `--journal N`, also as `--time=N`, whose defaults are 0, 1 and 262144. The image is the
/// first of these words, since it is opened before the line is read.
///
/// `NoLine` comes where the words aren't such a line, an option stands twice, a number isn't `0` or
/// decimal digits without a leading 0 below 2^62, or the journal isn't 8,192 to 1,073,741,824
/// bytes. `Memory` comes for want of memory alone. It takes time and memory linear in the words.
pub fn read_line(alloc: Global, words: &[String]) -> Result<Command, LineFault>
    ensures answer { Gives (λ command. command) line_cause result (line_of words.now) }
{
    let matches = matches(alloc, words)?;
    match command_in(&matches, words) {
        Some(command) => Ok(command),
        None => Err(LineFault::NoLine),
    }
}
