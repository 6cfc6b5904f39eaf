//! The laws of these definitions.
ghost use Rattle.table_steps.specs.Steps.{TableIsRefused, TableTakesStep};

use table_makes::{table_grows_first, table_is_not_full, table_is_ready, table_takes_little};

/// Law: where no number of a state is spare, and a draft that touched nothing has let the file
/// table grow, it has grown as it may before a file is made, by the clusters that a step counts.
pub fn table_takes_step()
    ensures { TableTakesStep }
{
    table_grows_first();
    table_is_ready();
    table_is_not_full();
    table_takes_little();
}

/// Law: where the file table can't grow first since record 0 would be too full, it would use as
/// many bytes as a step counts.
pub fn table_is_refused()
    ensures { TableIsRefused }
{}
