//! The laws of these definitions.
ghost use Rattle.plans_lead.specs.Leading.{PlansLeadOn};
ghost use Rattle.plans_lead.specs.Welcoming.{KeptIsWelcome};

use spares_at_mount::blocks_off_log;
use writes_keep::{writes_keep, writes_keep_lists, writes_keep_names};

/// Law: a volume takes the changes of a plan that writes or cuts a file. They lead to the next
/// state, which can be written, in which the files have their names, and then by the same streams
/// again; no two are of one block or of rivals; and each lies off the log, and off the boot sector
/// where no other stream than $Boot's data has its cluster. A state that a mount takes leads to one
/// that it takes too.
pub fn plans_lead_on()
    ensures { PlansLeadOn }
{
    blocks_off_log();
    writes_keep();
    writes_keep_names();
    writes_keep_lists();
}

/// Law: where an operation keeps what a volume asks for, no file has more attribute lists and no name
/// comes to lead to a change journal, a state that a mount takes leads to one that it takes too.
pub fn kept_is_welcome()
    ensures { KeptIsWelcome }
{}
