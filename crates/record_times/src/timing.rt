//! Records whose files changed at a time.
ghost use Rattle.std.specs.Prelude.{◌≡◌, ◌++◌, IfOk};
ghost use Rattle.plan_changes.specs.plan_model.Informed.{is_info};
ghost use Rattle.state_model.specs.Files.{has_type};
ghost use Rattle.plan_changes.specs.record_streams.Fitting.{FitsButRoom};
ghost use Rattle.record_times.specs.Times.{timed_attrs, timed_record};

use crate::copying::push_timed;
use crate::informing::with_info;
use plan_changes::{FileRec, push_copy};
use record_model::{Attr, STANDARD_INFORMATION};
use std::alloc::{AllocError, Global};

fn is_info(attr: &Attr) -> bool
    ensures { result ≡ is_info attr.now }
{
    attr.head.kind == STANDARD_INFORMATION
}

// Whether there is standard information.
#[tactic(auto, unfolding(state_model::specs::Files::has_type))]
fn has_info(file: &FileRec) -> bool
    ensures { result ≡ has_type 0x10 file.now }
{
    file.attrs().as_slice().iter().any(|attr| is_info(attr))
}

// The record with these times in its first standard information.
fn with_times(alloc: Global, stamp: u64, file: &FileRec) -> Result<FileRec, AllocError>
    ensures { IfOk result (λ r. r ≡ record { head = file.now.head; attrs = timed_attrs stamp file.now.attrs }) }
{
    let mut out = FileRec::empty(alloc, file.head());
    let mut is_put = false;
    let attrs = file.attrs().as_slice();
    for attr in attrs {
        if is_put || !is_info(attr) {
            push_copy(alloc, attr, &mut out)?;
        } else {
            push_timed(attr, stamp, &mut out)?;
            is_put = true;
        }
    }
    Ok(out)
}

/// The record of a file or a directory that changed at the stamp, in units of 100 ns since
/// 1601-01-01 (Linux-NTFS documentation, "$STANDARD_INFORMATION"): the times modified and changed of
/// its first standard information are the stamp, and the value's other bytes stay, and so does its
/// length. Where there is none, one of 72 bytes comes in its place by types, zeros but for these
/// times, with the header's next id for an attribute, or the least one that is free where these have
/// come to their end. The record may then use more than 1,024 bytes.
/// [`times_are_set`](crate::times_are_set) says what it stands for. The error is want of memory. It
/// takes time and memory linear in the record, and where ids have come to their end the square of
/// its attributes' number.
pub fn timed_record(alloc: Global, stamp: u64, file: &FileRec) -> Result<FileRec, AllocError>
    requires { FitsButRoom file.now }
    ensures value { IfOk result (λ r. r ≡ timed_record stamp file.now) }
{
    if has_info(file) {
        with_times(alloc, stamp, file)
    } else {
        with_info(alloc, stamp, file)
    }
}
