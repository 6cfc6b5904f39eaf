ghost use Rattle.plan_table.specs.Growing.{NewNumberIsFirst, TableIsGrown};

/// Law: where the file table takes clusters that are clear, and its bitmap has a bit for each new
/// record, a state becomes one with the longer table, of a tree with the new numbers; and it is an
/// edit of a plan.
pub fn table_is_grown()
    ensures { TableIsGrown }
{}

/// Law: where no number was spare, the lowest that is spare behind a table that grew is the count of
/// records of before, and its sequence 1.
pub fn new_number_is_first()
    ensures { NewNumberIsFirst }
{}
