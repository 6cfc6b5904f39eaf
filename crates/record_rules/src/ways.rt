//! The way up from each directory.
ghost use Rattle.std.specs.Prelude.{◌≡◌, length};
ghost use Rattle.state_model.specs.Rules.{keeps_8};
ghost use Rattle.state_model.specs.Loads.{table_in};

use crate::climbing::Climber;
use crate::fields::is_directory_record;
use file_record::file_at;

/// Whether the way up from the directory with this number reaches the root, if there is one. It
/// takes constant time.
#[tactic(auto, unfolding(state_model::specs::Rules::keeps_8))]
pub fn keeps_way(climber: &Climber, number: u64) -> bool
    ensures { result ≡ keeps_8 (table_in climber.now.records.now) (length climber.now.records.now) number }
{
    match file_at(climber.records, number) {
        Some(file) => !is_directory_record(file) || climber.leads(number),
        None => true,
    }
}
