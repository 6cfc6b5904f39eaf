ghost use Rattle.volume_state.specs.Laws.{ReportOfTree, CheckOfState};

/// A law: what a check reports is the tree without the bytes of its nodes and the records of its
/// journal.
pub fn report_of_tree()
    ensures { ReportOfTree }
{}

/// A law: a content stands for one tree at most, and for one just where a check of its volume
/// reports one.
pub fn check_of_state()
    ensures { CheckOfState }
{}
