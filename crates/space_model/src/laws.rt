ghost use Rattle.space_model.specs.Laws.{ChosenAreFree};

/// Law: where so many bits are clear, so many clusters are chosen for a stream, each clear and none
/// twice.
pub fn chosen_are_free()
    ensures { ChosenAreFree }
{}
