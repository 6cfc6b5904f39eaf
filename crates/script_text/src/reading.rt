ghost use Rattle.std.specs.Prelude.{◌≡◌, ℕ, List, Result, ◌==◌, ◌<◌, ◌≤◌, [], ◌∷◌, length, position, IfErr, IfOk, OnOk, MatchOption};
ghost use Rattle.std.specs.List.{slice_split};
ghost use Rattle.host_base.specs.Answers.{Gives, Explains};
ghost use Rattle.script_text.specs.Asking.{AllAsked};
ghost use Rattle.script_text.specs.declared.fault.ScriptFault.{ScriptFault};
ghost use Rattle.script_text.specs.Faults.{script_cause};
ghost use Rattle.script_text.specs.Lines.{IsWithin};
ghost use Rattle.script_text.specs.Scripts.{AreCounts, with_request, with_line, commands_in};

use crate::fault::ScriptFault;
use crate::line::{CLIENTS, Request, read_line};
use std::alloc::Global;
use tree_model::{Command, Script};

/// The most bytes of a script.
pub const LARGEST: usize = 16_777_216;

/// The most commands of a script.
pub const COMMANDS: usize = 16_384;

// Adds what a client asks for as its next command.
#[tactic(auto, unfolding(crate::specs::Scripts::with_request))]
fn add(commands: &mut Script, counts: &mut [u32], request: Request) -> Result<(), ScriptFault>
    requires clients { length counts.old ≡ CLIENTS }
    requires client { IsWithin request }
    requires counts { AreCounts counts.old commands.old }
    requires asked { AllAsked commands.old }
    requires few { length commands.old ≤ COMMANDS }
    ensures ok { OnOk result (with_request commands.old (Some request) ≡ Ok commands.new) }
    ensures counts { OnOk result (AreCounts counts.new commands.new) }
    ensures asked { OnOk result (AllAsked commands.new) }
    ensures few { OnOk result (length commands.new ≤ COMMANDS) }
    ensures err { IfErr result (λ e. Explains (script_cause e) (with_request commands.old (Some request))) }
{
    if commands.as_slice().len() >= COMMANDS {
        return Err(ScriptFault::TooManyCommands);
    }
    let Request { client, what } = request;
    let place = client as usize - 1;
    let number = counts[place] + 1;
    commands.push(Command {
        client,
        number,
        what,
    })?;
    counts[place] = number;
    Ok(())
}

// Adds what the line of this number asks for.
#[tactic(auto, unfolding(crate::specs::Scripts::with_line, crate::specs::Scripts::with_request))]
fn add_line(
    alloc: Global,
    number: u64,
    line: &[u8],
    commands: &mut Script,
    counts: &mut [u32],
) -> Result<(), ScriptFault>
    requires clients { length counts.old ≡ CLIENTS }
    requires counts { AreCounts counts.old commands.old }
    requires asked { AllAsked commands.old }
    requires few { length commands.old ≤ COMMANDS }
    ensures ok { OnOk result (with_line number commands.old line.now ≡ Ok commands.new) }
    ensures counts { OnOk result (AreCounts counts.new commands.new) }
    ensures asked { OnOk result (AllAsked commands.new) }
    ensures few { OnOk result (length commands.new ≤ COMMANDS) }
    ensures err { IfErr result (λ e. Explains (script_cause e) (with_line number commands.old line.now)) }
{
    match read_line(alloc, number, line)? {
        Some(request) => add(commands, counts, request),
        None => Ok(()),
    }
}

// Where the first line ends.
fn line_end(bytes: &[u8]) -> Option<usize>
    ensures { result ≡ position (λ b. b == 10) bytes.now }
{
    bytes.iter().position(|byte| *byte == b'\n')
}

// The first line without its LF, and what follows that; nothing where there is no LF.
fn first_line(bytes: &[u8]) -> Option<(&[u8], &[u8])>
    ensures { MatchOption result (slice_split (λ b. b == 10) bytes.now ≡ bytes.now ∷ [])
        (λ x. (slice_split (λ b. b == 10) bytes.now ≡ x.0.now ∷ slice_split (λ b. b == 10) x.1.now)
        × (length x.1.now < length bytes.now)) }
{
    let Some(end) = line_end(bytes) else {
        return None;
    };
    let (line, rest) = bytes.split_at(end);
    Some((line, rest.split_at(1).1))
}

// The commands of lines, in time and memory linear in the bytes.
fn commands_in(alloc: Global, bytes: &[u8]) -> Result<Script, ScriptFault>
    requires { length bytes.now ≤ LARGEST }
    ensures value { Gives (λ script. script) script_cause result (commands_in bytes.now) }
    ensures asked { IfOk result AllAsked }
    ensures few { IfOk result (λ script. length script ≤ COMMANDS) }
{
    let mut commands = Script::new(alloc);
    let mut counts = [0u32; CLIENTS];
    let mut rest = bytes;
    let mut number = 1u64;
    while let Some((line, behind)) = first_line(rest) {
        add_line(alloc, number, line, &mut commands, &mut counts)?;
        rest = behind;
        number += 1;
    }
    if !rest.is_empty() {
        return Err(ScriptFault::Line { number, rule: 1 });
    }
    Ok(commands)
}

/// The text of scripts.
pub trait ScriptText: Sized {
    /// The script that bytes spell, or what refuses them.
    ghost script_of: { List ℕ → Result Self ScriptFault };

    /// Its commands ask for operations that a script may ask for so far, each within its bounds.
    ghost AllAsked: { Self → Type 0 };

    /// It has 16,384 commands at most.
    ghost IsShort: { Self → Type 0 };

    /// Reads a script: its commands, numbered from 1 for each client. `TooLarge` comes where there
    /// are more than 16,777,216 bytes; else the first line at fault says `Line` with its number and
    /// the first rule that it breaks, `TooManyClients`, which is tried between the rules 4 and 5,
    /// or `TooManyCommands` at a command behind the 16,384th. The last error is want of memory. It
    /// takes time and memory linear in the bytes. Its commands look, write, fill, cut or sync,
    /// within their bounds.
    fn read(alloc: Global, bytes: &[u8]) -> Result<Self, ScriptFault>
        ensures value { Gives (λ script. script) script_cause result (script_of bytes.now) }
        ensures asked { IfOk result (λ script. AllAsked script) }
        ensures few { IfOk result (λ script. IsShort script) };
}

impl ScriptText for Script {
    ghost use Rattle.script_text.specs.Scripts.{script_of};
    ghost use Rattle.script_text.specs.Asking.{AllAsked, IsShort};

    ghost script_of = { script_of };

    ghost AllAsked = { AllAsked };

    ghost IsShort = { IsShort };

    fn read(alloc: Global, bytes: &[u8]) -> Result<Script, ScriptFault> {
        if bytes.len() > LARGEST {
            return Err(ScriptFault::TooLarge);
        }
        commands_in(alloc, bytes)
    }
}
