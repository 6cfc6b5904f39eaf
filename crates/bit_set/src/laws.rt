//! The laws that make a bitmap a finite set.
ghost use Rattle.bit_set.specs.Sets.{MembersAreSetBits, SameMembersSameBits, SettingUnites, ClearingTakesAway};

/// Law: a number is in the set exactly where its bit is set.
pub fn members_are_set_bits()
    ensures { MembersAreSetBits }
{}

/// Law: bitmaps of as many bits with the same members are the same.
pub fn same_members_same_bits()
    ensures { SameMembersSameBits }
{}

/// Law: to set a run is to unite with its numbers.
pub fn setting_unites()
    ensures { SettingUnites }
{}

/// Law: to clear a run is to take its numbers away.
pub fn clearing_takes_away()
    ensures { ClearingTakesAway }
{}
