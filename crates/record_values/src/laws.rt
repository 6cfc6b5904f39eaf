//! The laws of these definitions.
ghost use Rattle.record_values.specs.Laws.{ValuesArePut};

/// Law: a stream that is given a value has it, in one attribute, and the record's other streams
/// stay.
pub fn values_are_put()
    ensures { ValuesArePut }
{}
