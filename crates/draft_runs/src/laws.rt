//! The laws of these definitions.
ghost use Rattle.draft_runs.specs.Effects.{RunsArePut};

/// Law: the bits of runs that are put into a bitmap whose sectors lie apart have their value, each
/// other bit stays, and no block is touched but the bitmap's sectors.
pub fn runs_are_put()
    ensures { RunsArePut }
{}
