ghost use Rattle.std.specs.Prelude.{◌≡◌, ◌≢◌, ◌+◌, ◌<◌, ◌^◌, ◌++◌, length, OnOk, IfErr};
ghost use Rattle.host_base.specs.Answers.{Gives};
ghost use Rattle.journal_model.specs.UsnRecords.{usn_cause};
ghost use Rattle.journal_model.specs.Pages.{page_records, ends_in_record};
ghost use Rattle.usn_record.specs.Checking.{page_check, listed};

use crate::entry::first_record;
use crate::front::{from_offset, is_whole, own_length};
use crate::judging::checked_length;
use disk_model::all_zeros;
use file_tree::{Usn, UsnList};
use journal_model::UsnFault;
use std::alloc::{AllocError, Global};

// Adds an entry, where there is one.
fn keep(entries: &mut UsnList, entry: Option<Usn>) -> Result<(), AllocError>
    ensures { OnOk result (entries.new ≡ entries.old ++ listed entry) }
{
    if let Some(entry) = entry {
        entries.push(entry)?;
    }
    Ok(())
}

/// Reads the records of a page of the journal (Microsoft's reference, "USN_RECORD_V2") from the
/// offset `at` of the journal on, in the bytes of the page, of which there are 4,096, or fewer
/// where the journal ends inside it; bytes that are given behind these are none of the page.
/// Records of another version than 2 are passed over, and where only zeros are left, the page ends.
/// The offset behind the page is below 2^64.
///
/// The errors are those of `read`, of the first record that is refused. It takes time and memory
/// linear in the page.
pub fn read_page(alloc: Global, page: &[u8], at: u64) -> Result<UsnList, UsnFault>
    requires room { at + length page.now < 2 ^ 64 }
    ensures value { Gives (λ entries. entries) usn_cause result (page_records page.now at) }
{
    let mut entries = UsnList::new(alloc);
    let mut rest = from_offset(page, at);
    let mut place = at;
    while !all_zeros(rest) {
        let (entry, length) = first_record(alloc, rest, place)?;
        keep(&mut entries, entry)?;
        place += u64::from(length);
        rest = rest.split_at(length as usize).1;
    }
    Ok(entries)
}

/// Checks the records of a page as `read_page` reads them, and keeps none of them. The errors are
/// `Cut` and `Shape` alone. It takes no memory, and time linear in the page.
pub fn check_page(page: &[u8], at: u64) -> Result<(), UsnFault>
    requires room { at + length page.now < 2 ^ 64 }
    ensures value { Gives (λ done. done) usn_cause result (page_check page.now at) }
    ensures memory { IfErr result (λ fault. fault ≢ UsnFault.Memory) }
{
    let mut rest = from_offset(page, at);
    let mut place = at;
    while !all_zeros(rest) {
        let length = checked_length(rest, place)?;
        place += u64::from(length);
        rest = rest.split_at(length as usize).1;
    }
    Ok(())
}

/// Whether a record of any version ends where these bytes end, which are records and then zeros, as
/// `check_page` takes them. Else zeros stand there that no record owns, or there are no bytes. It
/// takes no memory, and time linear in such bytes.
pub fn ends_in_record(bytes: &[u8]) -> bool
    ensures { result ≡ ends_in_record (length bytes.now) bytes.now }
{
    let mut rest = bytes;
    for _ in 0..bytes.len() {
        if all_zeros(rest) {
            return false;
        }
        if !is_whole(rest) {
            return false;
        }
        let length = own_length(rest);
        if length == rest.len() {
            return true;
        }
        rest = rest.split_at(length).1;
    }
    false
}
