//! The names of one record.
ghost use Rattle.std.specs.Prelude.{◌≡◌, ◌++◌, [], None, IfOk, IsOk, OnOk, OnErr};
ghost use Rattle.std.specs.List.{cons_option};
ghost use Rattle.state_model.specs.record_model.StdValues.{file_name_of};
ghost use Rattle.state_model.specs.Files.{named, form_link, attr_link, record_links};

use file_record::{FileRec, FileRef, Memory, NamedValue};
use state_model::{Attr, FILE_NAME, FileNameValue, Link, LinkList, OwnForm, ValueFault};
use std::alloc::Global;

/// The name in the bytes of a file-name value (Linux-NTFS documentation, "$FILE_NAME") of the file
/// `child`, or `None` where they aren't such a value. The error is want of memory. It takes time
/// linear in the name.
pub fn value_link(alloc: Global, child: FileRef, value: &[u8]) -> Result<Option<Link>, Memory>
    ensures value { IfOk result (λ link. link ≡ named child (file_name_of value.now)) }
{
    let name = match FileNameValue::read(alloc, value) {
        Ok(name) => name,
        Err(ValueFault::Memory) => return Err(Memory),
        Err(ValueFault::Length { .. }) => return Ok(None),
        Err(ValueFault::Shape) => return Ok(None),
    };
    Ok(Some(Link {
        parent: name.parent,
        name: name.name,
        space: name.space,
        child,
    }))
}

// The link of an attribute, if it is a file name.
#[tactic(auto, unfolding(state_model::specs::Files::attr_link))]
fn attr_link(alloc: Global, child: FileRef, attr: &Attr) -> Result<Option<Link>, Memory>
    ensures { IfOk result (λ link. link ≡ attr_link child attr.now) }
{
    match &attr.form {
        OwnForm::Resident { value, .. } if attr.head.kind == FILE_NAME => {
            value_link(alloc, child, value.as_slice())
        }
        _ => Ok(None),
    }
}

/// Appends the link, if there is one. The error is want of memory, and leaves the list; it never
/// comes where there is no link. It takes constant time, but for the room that a list takes as it
/// grows.
pub fn push_some(links: &mut LinkList, link: Option<Link>) -> Result<(), Memory>
    ensures appended { OnOk result (links.new ≡ links.old ++ cons_option link []) }
    ensures left { OnErr result (links.new ≡ links.old) }
    ensures nothing { link ≡ None → IsOk result }
{
    if let Some(link) = link {
        links.push(link)?;
    }
    Ok(())
}

/// The names of the record with this number, in its order: those of its file-name attributes
/// (Linux-NTFS documentation, "$FILE_NAME"). The error is want of memory. It takes time and memory
/// linear in the record.
#[tactic(auto, using(crate::proofs::Lists::filter_map_more), unfolding(state_model::specs::Files::record_links))]
pub fn record_links(alloc: Global, number: u64, file: &FileRec) -> Result<LinkList, Memory>
    ensures value { IfOk result (λ links. links ≡ record_links number file.now) }
{
    let child = FileRef {
        number,
        seq: file.head().seq,
    };
    let mut links = LinkList::new(alloc);
    for attr in file.attrs().as_slice() {
        push_some(&mut links, attr_link(alloc, child, attr)?)?;
    }
    Ok(links)
}
