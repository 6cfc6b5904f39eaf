//! The text of the long names.
ghost use Rattle.std.specs.Prelude.{◌≡◌, ◌++◌, IfOk, OnOk, OnErr, string_bytes};
ghost use Rattle.image_dump.specs.Texts.{scan_text};

use crate::line::{push_link, push_total};
use crate::order::long_links;
use file_tree::Link;
use host_base::Memory;
use std::alloc::Global;

fn text_of_links(alloc: Global, links: &[Link]) -> Result<String, Memory>
    ensures { IfOk result (λ text. string_bytes text ≡ scan_text links.now) }
{
    let order = long_links(alloc, links)?;
    let mut text = String::new(alloc);
    for link in &order {
        push_link(&mut text, *link)?;
    }
    push_total(&mut text, order.len())?;
    Ok(text)
}

/// Appends a line `N S P Q NAME` for each long link, with child number and sequence, parent number
/// and sequence, by child number, parent number and the raw units of the name (Linux-NTFS
/// documentation, "Attribute - $FILE_NAME"), and then the line `links K` with their number. Links
/// that tie stand as in the list. The error is want of memory, and leaves `out` as it was. It takes
/// time linear in the text, and near linear in the number of links to put them in order.
pub fn scan_text(links: &[Link], out: &mut String) -> Result<(), Memory>
    ensures value { OnOk result
        (string_bytes out.new ≡ string_bytes out.old ++ scan_text links.now) }
    ensures unchanged { OnErr result (string_bytes out.new ≡ string_bytes out.old) }
{
    let text = text_of_links(*out.allocator(), links)?;
    out.push_str(&text)?;
    Ok(())
}
