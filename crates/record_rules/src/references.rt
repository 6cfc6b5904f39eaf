//! References to files, and whether they are those of directories.
ghost use Rattle.std.specs.Prelude.{◌≡◌};
ghost use Rattle.std.specs.List.{list_all};
ghost use Rattle.state_model.specs.file_tree.declared.link.Link.{Link as the_link};
ghost use Rattle.state_model.specs.Rules.{is_directory_at};
ghost use Rattle.state_model.specs.Loads.{table_in};

use crate::fields::is_directory_record;
use file_record::{FileRec, FileRef, file_at};
use state_model::Link;

// Whether the reference is that of a directory.
#[tactic(auto, unfolding(state_model::specs::Rules::is_directory_at))]
fn is_directory_at(records: &[Option<FileRec>], file: FileRef) -> bool
    ensures { result ≡ is_directory_at (table_in records.now) file }
{
    match file_at(records, file.number) {
        Some(record) => is_directory_record(record) && record.head().seq == file.seq,
        None => false,
    }
}

/// Whether each of these names stands in a directory.
pub fn have_directories(records: &[Option<FileRec>], links: &[Link]) -> bool
    ensures { result ≡ list_all (λ (l : the_link). is_directory_at (table_in records.now) l.parent) links.now }
{
    links
        .iter()
        .all(|link| is_directory_at(records, link.parent))
}
