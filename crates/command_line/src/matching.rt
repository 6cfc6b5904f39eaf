ghost use Rattle.std.specs.Prelude.{◌≡◌, false, map, string_bytes, IfOk};
ghost use Rattle.host_base.specs.Answers.{Gives};
ghost use Rattle.command_line.specs.Faults.{kind_fault, line_cause};
ghost use Rattle.command_line.specs.Texts.{texts_of};
ghost use Rattle.command_line.specs.Lines.{found_texts, line_app, option_rule, place_rule};
ghost use Rattle.clap.specs.Words.{app_of, kind_of, rule_of};

use crate::fault::LineFault;
use clap::error::ErrorKind;
use clap::{Arg, ArgMatches, Command, Error};
use std::alloc::{AllocError, Global};

// A word that goes by its place.
fn place<'a>(alloc: Global, name: &'a str) -> Arg<'a>
    ensures rule { rule_of result ≡ place_rule name.entry.now }
    ensures local { result.global ≡ false }
{
    Arg::new(alloc, name).required(true)
}

// An option that takes a value, with its default.
fn option<'a>(alloc: Global, name: &'a str, default: &'a str) -> Arg<'a>
    ensures rule { rule_of result ≡ option_rule name.entry.now default.entry.now }
    ensures local { result.global ≡ false }
{
    Arg::new(alloc, name).long(name).default_value(default)
}

// The command line as `clap` sees it.
fn line<'a>(alloc: Global) -> Result<Command<'a>, AllocError>
    ensures { IfOk result (λ line. app_of line ≡ line_app) }
{
    let line = Command::new(alloc, "ntfshost")
        .disable_help_flag(true)
        .disable_version_flag(true);
    let line = line.arg(place(alloc, "image"))?;
    let line = line.arg(place(alloc, "command"))?;
    let line = line.arg(option(alloc, "time", "0"))?;
    let line = line.arg(option(alloc, "seed", "1"))?;
    line.arg(option(alloc, "journal", "262144"))
}

// Why `clap` refuses words.
fn fault(error: &Error) -> LineFault
    ensures { result ≡ kind_fault (kind_of error.now) }
{
    match error.kind() {
        ErrorKind::OutOfMemory => LineFault::Memory,
        _ => LineFault::NoLine,
    }
}

// The texts that the words give, as `clap` finds them.
pub(crate) fn matches<'a>(alloc: Global, words: &'a [String]) -> Result<ArgMatches<'a>, LineFault>
    ensures { Gives found_texts line_cause result (texts_of (map (λ word. string_bytes word) words.now)) }
{
    let line = line(alloc)?;
    match line.try_get_matches_from(words) {
        Ok(matches) => Ok(matches),
        Err(error) => Err(fault(&error)),
    }
}
