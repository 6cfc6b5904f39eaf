ghost use Rattle.std.specs.Prelude.{◌≡◌, ◌==◌, true, false, ◌<◌, length, map, IfOk, IfSome, MatchOption};
ghost use Rattle.std.specs.List.{list_any};
ghost use Rattle.std.specs.Str.{is_utf8};
ghost use Rattle.host_base.specs.Answers.{Gives};
ghost use Rattle.host_base.specs.Numbers.{number_of};
ghost use Rattle.script_text.specs.Faults.{script_cause};
ghost use Rattle.script_text.specs.Lines.{IsWithin, is_passed_over, client_in, asked_by, request_by, request_in, request_of};

use crate::command::what;
use crate::fault::{LineFault, ScriptFault};
use crate::pieces::pieces;
use host_base::decimal_number;
use std::alloc::Global;
use tree_model::What;

/// The clients of a script are those from 1 to this.
pub const CLIENTS: usize = 1;

/// What a line asks for, and its client.
#[derive(Debug, Drop)]
pub struct Request {
    pub client: u32,
    pub what: What,
}

// Whether a line is passed over: it is empty or begins with `#`.
fn is_passed_over(line: &str) -> bool
    ensures { result ≡ is_passed_over line.now }
{
    let bytes = line.as_bytes();
    bytes.is_empty() || bytes[0] == b'#'
}

// The client of a word, a number other than 0.
fn client(word: &str) -> Option<u64>
    ensures value { result ≡ client_in (number_of word.now) }
    ensures some { IfSome result (λ client. 0 < client) }
{
    match decimal_number(word) {
        Some(0) => None,
        client => client,
    }
}

// What the words behind a client ask for at the line of this number.
#[tactic(auto, unfolding(crate::specs::Lines::asked_by))]
fn asked_by(
    alloc: Global,
    number: u64,
    client: Option<u64>,
    words: &[&str],
) -> Result<Option<Request>, ScriptFault>
    requires { IfSome client (λ client. 0 < client) }
    ensures value { Gives (λ request. request) script_cause result
        (asked_by number client (map (λ word. word.now) words.now)) }
    ensures within { IfOk result (λ request. IfSome request IsWithin) }
{
    let Some(client) = client else {
        return Err(ScriptFault::Line { number, rule: 4 });
    };
    if client > CLIENTS as u64 {
        return Err(ScriptFault::TooManyClients { client });
    }
    match what(alloc, words) {
        Ok(what) => Ok(Some(Request {
            client: client as u32,
            what,
        })),
        Err(LineFault::Rule { rule }) => Err(ScriptFault::Line { number, rule }),
        Err(LineFault::Memory) => Err(ScriptFault::Memory),
    }
}

// Whether some word is empty.
fn has_empty(words: &[&str]) -> bool
    ensures { result ≡ list_any (λ word. length word.now == 0) words.now }
{
    words.iter().any(|word| word.is_empty())
}

// What words of the line of this number, none of them empty, ask for.
#[tactic(auto, unfolding(crate::specs::Lines::request_by))]
fn request_by(alloc: Global, number: u64, words: &[&str]) -> Result<Option<Request>, ScriptFault>
    ensures value { Gives (λ request. request) script_cause result
        (request_by number (map (λ word. word.now) words.now)) }
    ensures within { IfOk result (λ request. IfSome request IsWithin) }
{
    match words {
        [first, words @ ..] => asked_by(alloc, number, client(first), words),
        [] => Err(ScriptFault::Line { number, rule: 3 }),
    }
}

// What the words of the line of this number ask for.
#[tactic(auto, using(crate::proofs::Words::any_empty), unfolding(crate::specs::Lines::request_in))]
fn request_in(alloc: Global, number: u64, words: &[&str]) -> Result<Option<Request>, ScriptFault>
    ensures value { Gives (λ request. request) script_cause result
        (request_in number (map (λ word. word.now) words.now)) }
    ensures within { IfOk result (λ request. IfSome request IsWithin) }
{
    if has_empty(words) {
        return Err(ScriptFault::Line { number, rule: 3 });
    }
    request_by(alloc, number, words)
}

// The text of bytes that are UTF-8.
fn text(bytes: &[u8]) -> Option<&str>
    ensures { MatchOption result (is_utf8 bytes.now ≡ false)
        (λ text. (is_utf8 bytes.now ≡ true) × (text.now ≡ bytes.now)) }
{
    match str::from_utf8(bytes) {
        Ok(text) => Some(text),
        Err(_) => None,
    }
}

/// What the line of this number, without its LF, asks for, or nothing where it is passed over. The
/// errors are the first of the rules 2 to 9 that it breaks, `TooManyClients`, which comes between 4
/// and 5, and want of memory. It takes time and memory linear in the line.
#[tactic(auto, unfolding(crate::specs::Lines::request_of))]
pub fn read_line(alloc: Global, number: u64, line: &[u8]) -> Result<Option<Request>, ScriptFault>
    ensures value { Gives (λ request. request) script_cause result (request_of number line.now) }
    ensures within { IfOk result (λ request. IfSome request IsWithin) }
{
    let Some(line) = text(line) else {
        return Err(ScriptFault::Line { number, rule: 2 });
    };
    if is_passed_over(line) {
        return Ok(None);
    }
    let words = pieces(alloc, line, ' ')?;
    request_in(alloc, number, words.as_slice())
}
