//! Recovery by the log of a volume for a mount that writes.
ghost use Rattle.std.specs.Prelude.{◌≡◌, All, IfOk, IfSome};
ghost use Rattle.std.specs.BTreeSet.{contains};
ghost use Rattle.host_base.specs.Answers.{Gives};
ghost use Rattle.log_reading.specs.block_view.Views.{AsksView};
ghost use Rattle.log_reading.specs.Views.{recovery_cause};
ghost use Rattle.log_reading.specs.LogPages.{IsLogPlace};
ghost use Rattle.log_recovery.specs.Places.{key_of, key_order};
ghost use Rattle.log_recovery.specs.Recovering.{IsSized};
ghost use Rattle.log_recovery.specs.Writing.{first_update, unless_foreign, to_write_in, places_where, has_spelled, RecoversToWrite};

use crate::barring::{barred_blocks, first_update};
use crate::found::RecoveredBlock;
use crate::places::Met;
use crate::whole::{Recovered, RecoveredLog, recover_log};
use device_view::has_spelling;
use log_reading::{Block, LogPlace, LogRefusal, RecoveryFault, View};
use std::alloc::{AllocError, Global};

/// What a mount that writes finds by the log of a volume.
#[derive(Debug, Drop)]
pub struct ToWrite {
    /// What recovery finds by the log.
    pub recovered: Recovered,
    /// The blocks that the mount writes out: their places in `recovered.blocks.bodies`, rising. The
    /// others of them are torn on the disk, have the recovered bytes there, and stay torn, since no
    /// bytes of a disk stand for them untorn.
    pub written: Vec<usize>,
}

// The places of the bodies that some bytes of a disk stand for.
fn spelled_places(alloc: Global, bodies: &[RecoveredBlock]) -> Result<Vec<usize>, AllocError>
    requires { All IsSized bodies.now }
    ensures { IfOk result (λ places. places.items ≡ places_where has_spelled 0 bodies.now) }
{
    let mut places = Vec::new(alloc);
    for place in 0..bodies.len() {
        let made = &bodies[place];
        if has_spelling(made.block.kind, made.body.bytes()) {
            places.push(place)?;
        }
    }
    Ok(places)
}

// What a mount finds, where these blocks may not be written out: it is refused with the first
// update of one.
fn unless_met(alloc: Global, found: RecoveredLog, met: &Met) -> Result<ToWrite, RecoveryFault>
    requires { All IsSized found.recovered.blocks.bodies.items }
    ensures answer { Gives (λ mount. mount.recovered) recovery_cause result (unless_foreign (first_update (λ b. contains key_order met.now (key_of b)) found.entries.items) found.recovered) }
    ensures written { IfOk result (λ mount. mount.written.items ≡ places_where has_spelled 0 mount.recovered.blocks.bodies.items) }
{
    if let Some(lsn) = first_update(met, &found.entries) {
        return Err(RecoveryFault::Refused(LogRefusal::ForeignLog { lsn }));
    }
    let written = spelled_places(alloc, &found.recovered.blocks.bodies)?;
    Ok(ToWrite {
        recovered: found.recovered,
        written,
    })
}

/// What recovery finds by the log that lies at this place of the volume that a view shows, for a
/// mount that writes; and which blocks that mount writes out. `kept` are the blocks by which the
/// log is found: of a volume the boot sector's and that of record 2. Nothing is written.
///
/// It writes out what recovery makes, but for a torn block that has the recovered bytes already and
/// whose update sequence array isn't zeros, isn't in shape or lies over the words at 4 and 6: no
/// bytes of a disk stand for these untorn, and the block stays torn.
///
/// The errors are those of [`recover_view`](crate::recover_view), and behind them one cause more of
/// [`LogRefusal::ForeignLog`], which no log of this host has: a block that would be written out
/// has a sector of the log or of the `kept` blocks, so that writing it would change the restart
/// pages, the ring or where the log is found; or no bytes of a disk stand for its recovered body.
/// Then the LSN is that of the first entry in the list that updates such a block.
///
/// Its time is that of `recover_view`, and near-linear in the log's runs and the `kept` blocks. The
/// view is asked once more for each block whose recovered body no bytes of a disk stand for.
pub fn recover_to_write<V: View>(
    alloc: Global,
    view: &mut V,
    place: &LogPlace,
    kept: &[Block],
) -> Result<ToWrite, RecoveryFault>
    requires place { IsLogPlace place.now }
    ensures answer { IfSome (V.content view.old) (λ c. RecoversToWrite c (to_write_in c place.now kept.now) result) }
    ensures written { IfOk result (λ mount. mount.written.items ≡ places_where has_spelled 0 mount.recovered.blocks.bodies.items) }
    ensures sized { IfOk result (λ mount. All IsSized mount.recovered.blocks.bodies.items) }
    ensures kept { AsksView V.content V.kept V.faults recovery_cause view.old view.new result }
{
    let found = recover_log(alloc, view, place)?;
    let met = barred_blocks(alloc, view, place, kept, &found.recovered.blocks.bodies)?;
    unless_met(alloc, found, &met)
}
