//! The text of a journal's records.
ghost use Rattle.std.specs.Prelude.{◌≡◌, ◌++◌, IfOk, OnOk, OnErr, string_bytes};
ghost use Rattle.image_dump.specs.Texts.{journal_text};

use crate::line::{push_entry, push_span};
use file_tree::Usn;
use host_base::Memory;
use std::alloc::Global;

fn text_of_entries(alloc: Global, entries: &[Usn], first: u64, next: u64) -> Result<String, Memory>
    ensures { IfOk result (λ text. string_bytes text ≡ journal_text entries.now first next) }
{
    let mut text = String::new(alloc);
    for entry in entries {
        push_entry(&mut text, entry)?;
    }
    push_span(&mut text, first, next)?;
    Ok(text)
}

/// Appends for each record, as they stand, the line `USN N S P Q REASON ATTRS TIME NAME`: where it
/// begins in the journal, child number and sequence, parent number and sequence, reason and file
/// attributes in eight lower-case hexadecimal digits, its time and its name (Microsoft's reference,
/// "USN_RECORD_V2"). Then the line `journal FIRST NEXT`: the bytes where the journal begins, and
/// where its next record goes. The error is want of memory, and leaves `out` as it was. It takes
/// time linear in the text, and memory for two copies of it.
pub fn journal_text(entries: &[Usn], first: u64, next: u64, out: &mut String) -> Result<(), Memory>
    ensures value { OnOk result
        (string_bytes out.new ≡ string_bytes out.old ++ journal_text entries.now first next) }
    ensures unchanged { OnErr result (string_bytes out.new ≡ string_bytes out.old) }
{
    let text = text_of_entries(*out.allocator(), entries, first, next)?;
    out.push_str(&text)?;
    Ok(())
}
