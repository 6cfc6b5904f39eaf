ghost use Rattle.plan_growth.specs.Choosing.{ChosenMayBeTaken};
ghost use Rattle.plan_growth.specs.Cutting.{StreamCut};
ghost use Rattle.plan_growth.specs.Growing.{StreamGrown};
ghost use Rattle.plan_growth.specs.Leaving.{ValueMoved};
ghost use Rattle.plan_growth.specs.Sizing.{StreamSized};

/// Law: where a stream takes clusters that are clear, a state becomes one with the stream in them,
/// and it is an edit of a plan.
pub fn stream_grown()
    ensures { StreamGrown }
{}

/// Law: where a stream is cut to a size, a state becomes one with the stream so, of which the front
/// is read; and it is an edit of a plan.
pub fn stream_cut()
    ensures { StreamCut }
{}

/// Law: where a stream gets other sizes in its clusters, and all that comes to be initialised is put
/// whole, a state becomes one with the stream so; and it is an edit of a plan.
pub fn stream_sized()
    ensures { StreamSized }
{}

/// Law: clusters that are chosen from the bits of a bitmap may be taken.
pub fn chosen_may_be_taken()
    ensures { ChosenMayBeTaken }
{}

/// Law: where a value leaves its record for clusters that are clear, a state becomes one with the
/// stream in them, and it is an edit of a plan.
pub fn value_moved()
    ensures { ValueMoved }
{}
