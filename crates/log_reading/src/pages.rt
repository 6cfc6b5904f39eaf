//! The pages of a log, read through a view.
ghost use Rattle.std.specs.Prelude.{◌≡◌, ◌+◌, ◌*◌, ◌^◌, ◌<◌, ◌++◌, All, OnOk, IfErr, IfSome, length};
ghost use Rattle.disk_model.specs.Sectors.{zero_sector};
ghost use Rattle.block_view.specs.Views.{AsksView};
ghost use Rattle.log_reading.specs.Views.{NeverForeign, recovery_cause};
ghost use Rattle.log_reading.specs.LogPages.{sector_in, log_sector, initialised_bytes, sector_bytes, log_bytes, page_in, IsSmall, IsLogPlace};

use crate::fault::RecoveryFault;
use block_view::View;
use disk_model::{Block, BlockKind, Body};
use log_page::{Extent, LogPlace};
use std::alloc::AllocError;

// The sector with this number of those that the runs name in order.
fn sector_in(runs: &[Extent], n: u64) -> Option<u64>
    requires { All IsSmall runs.now }
    ensures { result ≡ sector_in runs.now n }
{
    let mut left = n;
    for run in runs {
        if left < run.sectors {
            return Some(run.first + left);
        }
        left -= run.sectors;
    }
    None
}

// Where the log's sector with this number lies on the device, if it begins below the initialised
// size and lies there.
fn log_sector(place: &LogPlace, n: u64) -> Option<u64>
    requires place { IsLogPlace place.now }
    requires small { n < 2 ^ 55 }
    ensures { result ≡ log_sector place.now n }
{
    if 512 * n < place.initialised {
        sector_in(place.runs.as_slice(), n).filter(|sector| *sector < place.device)
    } else {
        None
    }
}

fn append(page: &mut Vec<u8>, bytes: &[u8]) -> Result<(), AllocError>
    ensures value { OnOk result (page.new.items ≡ page.old.items ++ bytes.now) }
    ensures size { OnOk result (length page.new.items ≡ length page.old.items + length bytes.now) }
{
    page.extend_from_slice(bytes)?;
    Ok(())
}

#[tactic(auto, unfolding(disk_model::specs::Sectors::zero_sector))]
fn append_zeros(page: &mut Vec<u8>) -> Result<(), AllocError>
    ensures value { OnOk result (page.new.items ≡ page.old.items ++ zero_sector) }
    ensures size { OnOk result (length page.new.items ≡ length page.old.items + 512) }
{
    append(page, &[0; 512])
}

// Puts zeros over the bytes of a sector of which so many are initialised, but for these.
#[tactic(auto, unfolding(crate::specs::LogPages::initialised_bytes))]
fn clear_rest(body: &mut Body, valid: u64)
    requires { length body.old.bytes ≡ 512 }
    ensures value { body.new.bytes ≡ initialised_bytes valid body.old.bytes }
    ensures size { length body.new.bytes ≡ 512 }
{
    if valid < 512 {
        let at = valid as usize;
        body.put(at, &[0; 512][at..]);
    }
}

// Reads a sector of the device of which so many bytes are initialised, in place of what `body`
// held.
pub(crate) fn read_sector<V: View>(
    view: &mut V,
    first: u64,
    valid: u64,
    body: &mut Body,
) -> Result<(), RecoveryFault>
    ensures value { IfSome (V.content view.old) (λ c. OnOk result (body.new.bytes ≡ sector_bytes c valid (Some first))) }
    ensures size { OnOk result (length body.new.bytes ≡ 512) }
    ensures never { IfErr result NeverForeign }
    ensures kept { AsksView V.content V.kept V.faults recovery_cause view.old view.new result }
{
    let kind = BlockKind::Plain;
    view.body(Block { first, kind }, body)?;
    clear_rest(body, valid);
    Ok(())
}

// Appends the bytes of the sector of the log with this number; `body` is room for a body.
fn append_sector<V: View>(
    view: &mut V,
    place: &LogPlace,
    n: u64,
    body: &mut Body,
    page: &mut Vec<u8>,
) -> Result<(), RecoveryFault>
    requires place { IsLogPlace place.now }
    requires small { n < 2 ^ 55 }
    ensures value { IfSome (V.content view.old) (λ c. OnOk result (page.new.items ≡ page.old.items ++ log_bytes c place.now n)) }
    ensures size { OnOk result (length page.new.items ≡ length page.old.items + 512) }
    ensures never { IfErr result NeverForeign }
    ensures kept { AsksView V.content V.kept V.faults recovery_cause view.old view.new result }
{
    match log_sector(place, n) {
        Some(first) => {
            read_sector(view, first, place.initialised.saturating_sub(512 * n), body)?;
            append(page, body.bytes())?;
        }
        None => append_zeros(page)?,
    }
    Ok(())
}

/// Reads the page of the log with this number, in place of what `page` held: at most eight blocks
/// of the view, and 4,096 bytes.
///
/// - [`RecoveryFault::Fault`]: the view failed. The other error is want of memory.
pub fn read_page<V: View>(
    view: &mut V,
    place: &LogPlace,
    n: u64,
    body: &mut Body,
    page: &mut Vec<u8>,
) -> Result<(), RecoveryFault>
    requires place { IsLogPlace place.now }
    requires inside { n < 2 ^ 52 }
    ensures value { IfSome (V.content view.old) (λ c. OnOk result (page.new.items ≡ page_in c place.now n)) }
    ensures size { OnOk result (length page.new.items ≡ 4096) }
    ensures never { IfErr result NeverForeign }
    ensures kept { AsksView V.content V.kept V.faults recovery_cause view.old view.new result }
{
    page.clear();
    for i in 0..8 {
        append_sector(view, place, 8 * n + i, body, page)?;
    }
    Ok(())
}
