//! The long names of files.
ghost use Rattle.std.specs.Prelude.{◌≡◌, ◌++◌, [], IfOk, OnOk};
ghost use Rattle.std.specs.List.{cons_option, filter};
ghost use Rattle.file_tree.specs.Trees.{is_long};
ghost use Rattle.state_model.specs.Files.{only_base, form_link, attr_link, record_links, file_links};
ghost use Rattle.volume_links.specs.Names.{long_links};

use file_record::FileRec;
use file_tree::{Link, SHORT};
use host_base::{FileRef, Memory};
use record_model::{Attr, FILE_NAME, OwnForm};
use record_rules::value_link;
use std::alloc::Global;
use volume_map::{is_base_record, reference};

// The link of an attribute, if it is a file name.
#[tactic(auto, unfolding(state_model::specs::Files::attr_link))]
fn attr_link(alloc: Global, child: FileRef, attr: &Attr) -> Result<Option<Link>, Memory>
    ensures { IfOk result (λ link. link ≡ attr_link child attr.now) }
{
    match &attr.form {
        OwnForm::Resident { value, .. } if attr.head.kind == FILE_NAME => {
            value_link(alloc, child, value.as_slice())
        }
        _ => Ok(None),
    }
}

/// Appends the link, if there is one and it is long.
pub fn push_long(links: &mut Vec<Link>, link: Option<Link>) -> Result<(), Memory>
    ensures { OnOk result (links.new.items ≡ links.old.items ++ filter is_long (cons_option link [])) }
{
    match link {
        Some(link) if link.space != SHORT => links.push(link).map_err(|_| Memory),
        _ => Ok(()),
    }
}

/// Appends the long names of a record with this number, as they stand in it. The error is want of
/// memory.
#[tactic(auto, unfolding(state_model::specs::Files::record_links))]
pub fn push_record(
    alloc: Global,
    number: u64,
    file: &FileRec,
    links: &mut Vec<Link>,
) -> Result<(), Memory>
    ensures { OnOk result (links.new.items ≡ links.old.items ++ filter is_long (record_links number file.now)) }
{
    let child = reference(number, file);
    for attr in file.attrs().as_slice() {
        push_long(links, attr_link(alloc, child, attr)?)?;
    }
    Ok(())
}

// Appends those of the file with this number, if there is one.
fn push_file(
    alloc: Global,
    number: u64,
    file: &Option<FileRec>,
    links: &mut Vec<Link>,
) -> Result<(), Memory>
    ensures { OnOk result (links.new.items ≡ links.old.items ++ filter is_long (file_links number (only_base file.now))) }
{
    match file {
        Some(file) if is_base_record(file) => push_record(alloc, number, file, links),
        _ => Ok(()),
    }
}

/// The long names of files, by the files' numbers, and of each file as they stand in its records.
/// Linear in the records. The error is want of memory.
#[tactic(auto, unfolding(crate::specs::Names::long_links))]
pub fn long_links(alloc: Global, files: &[Option<FileRec>]) -> Result<Vec<Link>, Memory>
    ensures { IfOk result (λ links. links.items ≡ long_links files.now) }
{
    let mut links = Vec::new(alloc);
    for (number, file) in files.iter().enumerate() {
        push_file(alloc, number as u64, file, &mut links)?;
    }
    Ok(links)
}
