//! The laws of these definitions.
ghost use Rattle.stream_runs.specs.Laws.{RunsAreJoined, StreamsGrow, StreamsShrink};

/// Law: runs that are joined where they touch have the same clusters at the same places.
pub fn runs_are_joined()
    ensures { RunsAreJoined }
{}

/// Law: a stream that takes more runs has their clusters behind its own, which stay.
pub fn streams_grow()
    ensures { StreamsGrow }
{}

/// Law: each cluster of a stream that keeps its first ones is kept at its place or given back.
pub fn streams_shrink()
    ensures { StreamsShrink }
{}
