//! The least number at which a rule is broken.
ghost use Rattle.std.specs.Prelude.{◌≡◌, length};
ghost use Rattle.state_model.specs.Rules.{keeps_1, keeps_2, keeps_8, first_failing};
ghost use Rattle.state_model.specs.Loads.{table_in};
ghost use Rattle.record_rules.specs.Links.{links_in};

use crate::climbing::Climber;
use crate::linking::links_of;
use crate::naming::keeps_names_at;
use crate::references::have_directories;
use crate::ways::keeps_way;
use file_record::FileRec;
use state_model::LinkList;

#[tactic(auto, using(crate::proofs::Links::links_found))]
fn keeps_1(records: &[Option<FileRec>], links: &[LinkList], number: u64) -> bool
    requires { links.now ≡ links_in records.now }
    ensures { result ≡ keeps_1 (table_in records.now) number }
{
    keeps_names_at(records, links_of(links, number), number)
}

#[tactic(auto, using(crate::proofs::Links::links_found), unfolding(state_model::specs::Rules::keeps_2))]
fn keeps_2(records: &[Option<FileRec>], links: &[LinkList], number: u64) -> bool
    requires { links.now ≡ links_in records.now }
    ensures { result ≡ keeps_2 (table_in records.now) number }
{
    have_directories(records, links_of(links, number))
}

/// The least number of a file whose names aren't lawful (rule 1), if there is one: no long name of
/// a user's file or not one of a directory, no standard information of a user's file, a short name
/// without its partner or beside another of its directory (Linux-NTFS documentation, "$FILE_NAME").
/// `records` has the record in use of each number, if there is one, and `links` the names of each
/// file. It takes time linear in the records, and in the names of a file times its short names.
#[tactic(auto, unfolding(state_model::specs::Rules::first_failing))]
pub fn first_misnamed(records: &[Option<FileRec>], links: &[LinkList]) -> Option<u64>
    requires { links.now ≡ links_in records.now }
    ensures value { result ≡ first_failing (keeps_1 (table_in records.now)) (length records.now) }
{
    (0..records.len() as u64).find(|number| !keeps_1(records, links, *number))
}

/// The least number of a file with a name whose reference isn't that of a directory (rule 2), if
/// there is one (Linux-NTFS documentation, "$FILE_NAME"). `records` has the record in use of each
/// number, if there is one, and `links` the names of each file. It takes time linear in the names.
#[tactic(auto, unfolding(state_model::specs::Rules::first_failing))]
pub fn first_misplaced(records: &[Option<FileRec>], links: &[LinkList]) -> Option<u64>
    requires { links.now ≡ links_in records.now }
    ensures value { result ≡ first_failing (keeps_2 (table_in records.now)) (length records.now) }
{
    (0..records.len() as u64).find(|number| !keeps_2(records, links, *number))
}

/// The least number of a directory whose way up doesn't reach the root (rule 8), if there is one.
/// It takes time linear in the records.
#[tactic(auto, unfolding(state_model::specs::Rules::first_failing))]
pub fn first_unrooted(climber: &Climber) -> Option<u64>
    ensures value { result ≡ first_failing (keeps_8 (table_in climber.now.records.now) (length climber.now.records.now)) (length climber.now.records.now) }
{
    (0..climber.records.len() as u64).find(|number| !keeps_way(climber, *number))
}
