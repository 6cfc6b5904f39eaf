//! What kind of file a file is, and why it can't be changed.
ghost use Rattle.std.specs.Prelude.{◌≡◌};
ghost use Rattle.state_model.specs.Files.{record_links};
ghost use Rattle.volume_map.specs.Maps.{volume_in};
ghost use Rattle.volume_model.specs.Nodes.{data_flags, has_sparse_run, why_not, is_unread, is_unchanged, kind_in, shows_data};

use crate::names::NamedVolume;
use record_rules::{has_type, is_compressed, is_directory_record, is_encrypted, is_sparse};
use state_model::{Kind, Link, Why};
use volume_map::{ATTRIBUTE_LIST, FileRec, REPARSE_POINT};

/// What a file's data says of it.
#[derive(Clone, Copy)]
pub struct Data {
    /// Its flags.
    pub flags: u16,
    /// It has a sparse run.
    pub has_hole: bool,
}

/// Why a file can't be changed, the first that applies.
#[tactic(auto, unfolding(volume_model::specs::Nodes::why_not, state_model::specs::Files::why_by))]
pub fn why_not(file: &FileRec, about: Data) -> Option<Why>
    requires flags { about.flags ≡ data_flags file.now }
    requires hole { about.has_hole ≡ has_sparse_run file.now }
    ensures { result ≡ why_not file.now }
{
    if has_type(ATTRIBUTE_LIST, file) {
        Some(Why::List)
    } else if has_type(REPARSE_POINT, file) {
        Some(Why::Reparse)
    } else if is_encrypted(about.flags) {
        Some(Why::Encrypted)
    } else if is_compressed(about.flags) {
        Some(Why::Compressed)
    } else if is_sparse(about.flags) || about.has_hole {
        Some(Why::Sparse)
    } else {
        None
    }
}

#[tactic(auto, unfolding(volume_model::specs::Nodes::is_unread))]
fn is_unread(file: &FileRec, about: Data) -> bool
    requires { about.flags ≡ data_flags file.now }
    ensures { result ≡ is_unread file.now }
{
    has_type(REPARSE_POINT, file) || is_encrypted(about.flags) || is_compressed(about.flags)
}

#[tactic(auto, unfolding(volume_model::specs::Nodes::is_unchanged))]
fn is_unchanged(file: &FileRec, about: Data) -> bool
    requires flags { about.flags ≡ data_flags file.now }
    requires hole { about.has_hole ≡ has_sparse_run file.now }
    ensures { result ≡ is_unchanged file.now }
{
    has_type(ATTRIBUTE_LIST, file) || is_sparse(about.flags) || about.has_hole
}

/// What kind of file the file with this number and these names is.
#[tactic(auto, unfolding(volume_model::specs::Nodes::kind_in))]
pub fn kind_in(
    volume: &NamedVolume,
    number: u64,
    file: &FileRec,
    links: &[Link],
    about: Data,
) -> Kind
    requires links { links.now ≡ record_links number file.now }
    requires flags { about.flags ≡ data_flags file.now }
    requires hole { about.has_hole ≡ has_sparse_run file.now }
    ensures { result ≡ kind_in (volume_in volume.now.map.now) number file.now }
{
    if is_directory_record(file) {
        Kind::Directory
    } else if volume.climber().is_system(number, links) {
        Kind::System
    } else if is_unread(file, about) {
        Kind::Opaque
    } else if is_unchanged(file, about) {
        Kind::Fixed
    } else {
        Kind::File
    }
}

/// Whether files of this kind show their data.
pub fn shows_data(kind: Kind) -> bool
    ensures { result ≡ shows_data kind }
{
    matches!(kind, Kind::File | Kind::Fixed | Kind::Opaque)
}
