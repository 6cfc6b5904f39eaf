ghost use Rattle.mount_access.specs.Laws.{ChangeIsTheMount, LookIsTheCheck, JournalIsItsReading, MountsToLook, StandsForItsTree};

/// Law: mounted for a change, a volume is what a mount for the operations of a script answers.
pub fn change_is_the_mount()
    ensures { ChangeIsTheMount }
{}

/// Law: a check refuses just what isn't mounted to look, with the same refusal, and answers the tree
/// that is mounted, without the bytes of its nodes and the records of its journal.
pub fn look_is_the_check()
    ensures { LookIsTheCheck }
{}

/// Law: the reading of a journal refuses just what isn't mounted for its journal, with the same
/// refusal, and answers the records that are mounted.
pub fn journal_is_its_reading()
    ensures { JournalIsItsReading }
{}

/// Law: whatever is mounted is mounted to look too, as the same volume and the same tree.
pub fn mounts_to_look()
    ensures { MountsToLook }
{}

/// Law: an image stands for the tree that is mounted of it.
pub fn stands_for_its_tree()
    ensures { StandsForItsTree }
{}
