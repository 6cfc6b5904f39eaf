ghost use Rattle.step_model.specs.ContentLaws.{ContentsLeft};
ghost use Rattle.step_model.specs.Placing.{PlacedOnce};
ghost use Rattle.step_model.specs.PlanLaws.{PlansPlaced};
ghost use Rattle.step_model.specs.SpreadLaws.{PlansSpread};
ghost use Rattle.step_model.specs.StepLaws.{AnswersListed, StepsOfTrees, StepsStay, TurnsOfContents};
ghost use Rattle.step_model.specs.UsedLaws.{NeverFull, UsedBytes};
ghost use Rattle.step_model.specs.Worked.{WorkedAnswers, WorkedClusters, WorkedRecords};

/// Law: streams that grow one after the other take the clusters that they want, each of which was
/// clear before and lies in one of them once.
pub fn placed_once()
    ensures { PlacedOnce }
{}

/// Law: each stream of an operation's plan has its clusters by the one choice, behind the streams
/// before it.
pub fn plans_placed()
    ensures { PlansPlaced }
{}

/// Law: the used bytes of a record that would be are a sum over its attributes, each of which takes
/// its header, its name and its value or mapping pairs.
pub fn used_bytes()
    ensures { UsedBytes }
{}

/// Law: a file with standard information of at most 72 bytes, one name, and unnamed data of few runs
/// whose mapping pairs have the fewest bytes is never too full.
pub fn never_full()
    ensures { NeverFull }
{}

/// Law: each answer of an operation on a tree or its content is in the table of answers.
pub fn answers_listed()
    ensures { AnswersListed }
{}

/// Law: a step leads from a state to a state, and only what is done changes the content.
pub fn steps_stay()
    ensures { StepsStay }
{}

/// Law: the trees of a step are a step of the tree, but where a row of the content refuses; there
/// no row of the tree does.
pub fn steps_of_trees()
    ensures { StepsOfTrees }
{}

/// Law: what an operation takes was no stream's before, and the bodies of a plan leave all others.
pub fn contents_left()
    ensures { ContentsLeft }
{}

/// Law: a plan that puts an entry into a directory's index spreads it as an operation may.
pub fn plans_spread()
    ensures { PlansSpread }
{}

/// Law: a step is what a turn takes; a turn of contents is one of their trees; and turns behind
/// turns are a run.
pub fn turns_of_contents()
    ensures { TurnsOfContents }
{}

/// Worked rows: which clusters two streams take one after the other, and what a cut leaves.
pub fn worked_clusters()
    ensures { WorkedClusters }
{}

/// Worked rows: 744 bytes stand in the record of a file whose name has one unit, and 745 leave it;
/// beside an attribute of 704 bytes no data has room, and a value that is cut stays there.
pub fn worked_records()
    ensures { WorkedRecords }
{}

/// Worked rows: answers that an operation has, and some that it never has.
pub fn worked_answers()
    ensures { WorkedAnswers }
{}
