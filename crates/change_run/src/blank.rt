//! The turns of a script before it is run.
ghost use Rattle.std.specs.Prelude.{◌≡◌, ◌+◌, [], ◌∷◌, ◌++◌, IfOk, OnOk, length};
ghost use Rattle.run_model.specs.declared.turn.Turn.{Turn as the_turn};
ghost use Rattle.script_text.specs.Asking.{IsAsked, AllAsked};
ghost use Rattle.change_run.specs.Turns.{IsBlank, AreBlank};

use host_base::Memory;
use run_model::Turn;
use std::alloc::Global;
use tree_model::{Command, Reply, Script, What};

// The turn of a command, of which nothing was replied yet.
fn blank_turn(command: &Command, serial: u64) -> Result<Turn, Memory>
    requires asked { IsAsked command.now.what }
    ensures { IfOk result (IsBlank command.now serial) }
{
    match &command.what {
        What::Op(op) => Ok(Turn {
            client: command.client,
            number: command.number,
            serial,
            usn: 0,
            moment: 0,
            faults_before: 0,
            faults_after: 0,
            op: op.clone()?,
            reply: Reply::Memory,
        }),
        What::Find(_) => unreachable!(),
    }
}

// Appends the turn of the next command.
fn add_turn(command: &Command, turns: &mut Vec<Turn>) -> Result<(), Memory>
    requires asked { IsAsked command.now.what }
    ensures { OnOk result ((turn : the_turn) × IsBlank command.now (length turns.old.items + 1) turn × (turns.new.items ≡ turns.old.items ++ turn ∷ [])) }
{
    let serial = turns.len() as u64 + 1;
    let turn = blank_turn(command, serial)?;
    turns.push(turn).map_err(|_| Memory)
}

/// The turns of a script's commands before they are run: whose they are, and what they ask for. They
/// take all memory that the turns need, so that none wants any for itself later. The error is want of
/// memory. Linear in the script.
pub fn blank_turns(alloc: Global, script: &Script) -> Result<Vec<Turn>, Memory>
    requires asked { AllAsked script.now }
    ensures { IfOk result (λ turns. AreBlank script.now turns.items) }
{
    let mut turns: Vec<Turn> = Vec::new(alloc);
    for command in script.as_slice() {
        add_turn(command, &mut turns)?;
    }
    Ok(turns)
}
