//! The laws of these definitions.
ghost use Rattle.plans_keep.specs.Keeping.{PlansKeep};

use plan_spares::{drafts_go_on, plans_spare};

/// Law: the changes of a draft that puts the bodies of a plan, each with a spelling, and keeps the
/// log where it lies, lead from the state before to the one behind as a volume asks: their blocks
/// are no rivals of one another or of a block from which a state is read, and their bodies can be
/// written.
pub fn plans_keep()
    ensures { PlansKeep }
{
    drafts_go_on();
    plans_spare();
}
