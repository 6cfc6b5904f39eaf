ghost use Rattle.volume_shadows.specs.Laws.{LiveByList, LeastIsSaid};

/// Law: the list of a volume's live blocks has exactly these.
pub fn live_by_list()
    ensures { LiveByList }
{}

/// Law: the least that is said of live blocks is said of one of them, and nothing less of any.
pub fn least_is_said()
    ensures { LeastIsSaid }
{}
