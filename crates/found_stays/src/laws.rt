//! The laws of these definitions.
ghost use Rattle.found_stays.specs.Laws.{BodiesStay, CallsJoin, ImagesBear, StartsStay, StepsStay};

use sector_device::Device;

/// Law: where the sectors of the blocks by which a log is found are durable as they were at first, and
/// none was written since, each image that a crash leaves has these blocks as they were, and so has
/// what reads give.
pub fn images_bear()
    ensures { ImagesBear }
{}

/// Law: calls one behind the other leave these sectors where each does; and whatever is left since
/// they began has the blocks as they were at first.
pub fn calls_join()
    ensures { CallsJoin }
{}

/// Law: a step of a store, whether it answers `Ok` or fails, leaves these sectors, and so do the calls
/// by which its log is closed.
pub fn steps_stay<D: Device>(_device: &D)
    ensures { StepsStay D.gives D.moment_of D.changes_of }
{}

/// Law: a store keeps no body of such a block, so its present content has it as it was at first.
pub fn bodies_stay()
    ensures { BodiesStay }
{}

/// Law: a disk of which nothing is unsynced is as it was at first; and blocks of clusters in which no
/// page of the log lies have no sector of the log.
pub fn starts_stay()
    ensures { StartsStay }
{}
