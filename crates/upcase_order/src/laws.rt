//! The laws of the order of names.
ghost use Rattle.upcase_order.specs.OrderLaws.{OrderIsTotal, EqualsHaveEqualUnits, SameHaveEqualUpperUnits, SameIsEquivalence, EqualsAreSame, SameStandTogether, StandardTableGives};

/// Law: any two names compare, and comparing goes along.
pub fn order_is_total()
    ensures { OrderIsTotal }
{}

/// Law: two names compare as equal exactly where their units are equal.
pub fn equals_have_equal_units()
    ensures { EqualsHaveEqualUnits }
{}

/// Law: two names are the same exactly where their upper-case units are equal.
pub fn same_have_equal_upper_units()
    ensures { SameHaveEqualUpperUnits }
{}

/// Law: being the same is an equivalence.
pub fn same_is_equivalence()
    ensures { SameIsEquivalence }
{}

/// Law: names that compare as equal are the same.
pub fn equals_are_same()
    ensures { EqualsAreSame }
{}

/// Law: between two names that are the same stand only names that are the same.
pub fn same_stand_together()
    ensures { SameStandTogether }
{}

/// Law: the table of a volume that this project formats gives each unit its upper-case unit.
pub fn standard_table_gives()
    ensures { StandardTableGives }
{}
