//! The laws of these definitions.
ghost use Rattle.turn_laws.specs.Sparing.{StepsSpare};

use sector_device::Device;

/// Law: a step of a store, whether it answers `Ok` or fails, leaves the body of each block that is on
/// no page of the log, whose body isn't dead and that has no dirty rival; and such a block stays
/// one.
pub fn steps_spare<D: Device>(_device: &D)
    ensures { StepsSpare D.gives D.sector_count D.moment_of D.changes_of }
{}
