//! Names in order.
ghost use Rattle.std.specs.Prelude.{◌≡◌};
ghost use Rattle.state_model.specs.file_tree.Names.{comes_before};
ghost use Rattle.state_model.specs.Rules.{is_rising};
ghost use Rattle.record_rules.specs.Rises.{starts_rising};

use state_model::{Link, compare_names};
use std::cmp::Ordering;

fn comes_before(upper: &[u16], a: &Link, b: &Link) -> bool
    ensures { result ≡ comes_before upper.now a.now.name b.now.name }
{
    compare_names(upper, a.name.units(), b.name.units()) == Ordering::Less
}

// Whether the first of these names comes before the second, where there is one.
fn starts_rising(upper: &[u16], first: &Link, behind: &[Link]) -> bool
    ensures { result ≡ starts_rising upper.now first.now behind.now }
{
    match behind.first() {
        Some(next) => comes_before(upper, first, next),
        None => true,
    }
}

/// Whether each name comes before the next, by this table of upper-case units. It takes time linear
/// in the names.
#[tactic(auto, using(crate::proofs::Rises::rising_on), unfolding(state_model::specs::Rules::is_rising))]
pub fn is_rising(upper: &[u16], links: &[Link]) -> bool
    ensures { result ≡ is_rising upper.now links.now }
{
    let mut rest = links;
    while let Some((first, behind)) = rest.split_first() {
        if !starts_rising(upper, first, behind) {
            return false;
        }
        rest = behind;
    }
    true
}
