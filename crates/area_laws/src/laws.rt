ghost use Rattle.area_laws.specs.Laws.{CallsAreFollowed, RingIsFollowed};

use log_area::Device;

/// Law: each call of a ring but for writes leaves one that follows the ring before: with an entry
/// more, a page sealed, or all written pages durable. So does whatever is done in other sectors.
pub fn ring_is_followed()
    ensures { RingIsFollowed }
{}

/// Law: a page that is sent to its place of a device, or a restart page, leaves a ring that follows
/// the one before, whether the write answers `Ok` or fails.
pub fn calls_are_followed<D: Device>(_device: &D)
    ensures { CallsAreFollowed D.gives D.changes_of D.moment_of }
{}
