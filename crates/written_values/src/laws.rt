//! The laws of these definitions.
ghost use Rattle.written_values.specs.Laws.{CutsAreDone, ShorterAreDone, ValuesAreDone};

use change_steps::times_are_set;

/// Law: where a draft has put the value of data that stays in its record, with the times, it stands
/// for a state, and the operation has changed the tree and left the content as a step says.
pub fn values_are_done()
    ensures { ValuesAreDone }
{
    times_are_set();
}

/// Law: so it is where a draft has put a lesser size of data that keeps its clusters, and the
/// times.
pub fn shorter_are_done()
    ensures { ShorterAreDone }
{
    times_are_set();
}

/// Law: so it is where a draft has put data that is cut and gives clusters back, their bits, and
/// the times.
pub fn cuts_are_done()
    ensures { CutsAreDone }
{
    times_are_set();
}
