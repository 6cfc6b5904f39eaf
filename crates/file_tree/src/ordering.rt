ghost use Rattle.std.specs.Prelude.{◌≡◌, slice_index};
ghost use Rattle.std.specs.Cmp.Lexicographic.{slice_cmp};
ghost use Rattle.std.specs.Ordering.{nat_cmp};
ghost use Rattle.file_tree.specs.Names.{upper_units, name_order, same_name};

use std::cmp::Ordering;

// The upper-case unit of a unit; one past the table has 0.
fn upper_unit(upper: &[u16], unit: u16) -> u16
    ensures { result ≡ slice_index upper.now unit }
{
    match upper.get(unit as usize) {
        Some(unit) => *unit,
        None => 0,
    }
}

// By the upper-case units.
#[tactic(auto, unfolding(crate::specs::Names::upper_units))]
fn compare_upper(upper: &[u16], a: &[u16], b: &[u16]) -> Ordering
    ensures { result ≡ slice_cmp nat_cmp (upper_units upper.now a.now) (upper_units upper.now b.now) }
{
    let mut a = a;
    let mut b = b;
    while let Some((unit, behind)) = a.split_first() {
        let Some((other, rest)) = b.split_first() else {
            return Ordering::Greater;
        };
        let order = upper_unit(upper, *unit).cmp(&upper_unit(upper, *other));
        if order != Ordering::Equal {
            return order;
        }
        a = behind;
        b = rest;
    }
    if b.is_empty() {
        Ordering::Equal
    } else {
        Ordering::Less
    }
}

/// The order of two names: by their upper-case units, and where these are equal by the units
/// themselves. `upper` gives each unit its upper-case unit. It takes time linear in the shorter
/// name.
#[tactic(auto, unfolding(crate::specs::Names::name_order))]
pub fn compare_names(upper: &[u16], a: &[u16], b: &[u16]) -> Ordering
    ensures value { result ≡ name_order upper.now a.now b.now }
{
    compare_upper(upper, a, b).then(a.cmp(b))
}

/// Whether two names are the same: their upper-case units are equal. It takes time linear in the
/// shorter name.
#[tactic(auto, unfolding(crate::specs::Names::same_name))]
pub fn is_same_name(upper: &[u16], a: &[u16], b: &[u16]) -> bool
    ensures value { result ≡ same_name upper.now a.now b.now }
{
    compare_upper(upper, a, b).is_eq()
}
