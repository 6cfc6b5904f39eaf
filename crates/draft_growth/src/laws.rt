//! The laws of these definitions.
ghost use Rattle.draft_growth.specs.Effects.{GrownIsRead};

/// Law: a table that grew has 256 records more, and where its records lie apart, each new one is
/// zeros.
pub fn grown_is_read()
    ensures { GrownIsRead }
{}
