//! The laws of these definitions.
ghost use Rattle.plan_spares.specs.Plans.{PlansSpare};

use plan_model::{drafts_go_on, owned_once, states_stand};

/// Law: the changes of a plan's draft, which leave the log where it lies and each attribute list in
/// its own record, have no rival among the blocks from which the state before is read; and each
/// block from which the state behind is read was one of those, or is changed.
pub fn plans_spare()
    ensures { PlansSpare }
{
    drafts_go_on();
    owned_once();
    states_stand();
}
