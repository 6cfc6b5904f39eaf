//! The laws of these definitions.
ghost use Rattle.state_streams.specs.Streams.{StreamsOfStates};

/// Law: in a state the sizes of a stream in clusters are lawful, its runs lie in the volume and have a
/// spelling, and where none is sparse they have no more clusters than the volume.
pub fn streams_of_states()
    ensures { StreamsOfStates }
{}
