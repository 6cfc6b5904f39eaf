//! The laws of the store.
ghost use Rattle.store_model.specs.Laws.{CrashRefinement, SoundEvents, WindowsMove, NoPartialBlock, StoppedRecovery, WordsAgree, NeverWaits, DeviceCalls, RestartIsChosen, RingIsPrefix};
ghost use Rattle.store_model.specs.Rests.{RestTells};
ghost use Rattle.store_model.specs.StoreVector.{StoreVector};

/// Law: whatever is done with a store after a mount, and at whatever moment a crash comes, each
/// image that it may leave recovers to the content after some number of commits, and to none older
/// than what was known durable at any earlier moment.
pub fn crash_refinement()
    ensures { CrashRefinement }
{}

/// Law: each event keeps the facts of a store.
pub fn sound_events()
    ensures { SoundEvents }
{}

/// Law: what each event does to the window of contents.
pub fn windows_move()
    ensures { WindowsMove }
{}

/// Law: no image is refused for a block that its list covers in part.
pub fn no_partial_block()
    ensures { NoPartialBlock }
{}

/// Law: recovery of an image is asked for nothing that it can't write, and one that is stopped and
/// begun again, however often, is the recovery.
pub fn stopped_recovery()
    ensures { StoppedRecovery }
{}

/// Law: the machine's words are those of the log.
pub fn words_agree()
    ensures { WordsAgree }
{}

/// Law: a checkpoint waits for nothing but durable entries and the end of the open transaction, and
/// a sync may always drop what it has to.
pub fn never_waits()
    ensures { NeverWaits }
{}

/// Law: what the calls of a device are to the machine.
pub fn device_calls()
    ensures { DeviceCalls }
{}

/// Law: the restart page by which recovery begins.
pub fn restart_is_chosen()
    ensures { RestartIsChosen }
{}

/// Law: what recovery reads of the ring.
pub fn ring_is_prefix()
    ensures { RingIsPrefix }
{}

/// Law: what a list tells from a later place on.
pub fn rest_tells()
    ensures { RestTells }
{}

/// Law: small stores do what they should.
pub fn store_vector()
    ensures { StoreVector }
{}
