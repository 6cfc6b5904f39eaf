//! The log's steps.
ghost use Rattle.std.specs.Prelude.{◌≡◌, ◌<◌, ◌≤◌, None, OnOk, OnErr, IfSome, ◌^◌, is_some, if◌then◌else◌};
ghost use Rattle.txn_log.specs.fixup_record.Protecting.{protected_bytes};
ghost use Rattle.host_base.specs.Causes.{FailsByCause};
ghost use Rattle.txn_log.specs.log_area.Areas.{page_sector, held_page, made_page, IsOldest, lap_at, next_number, restart_sector, sent_word, page_to_send, named_area};
ghost use Rattle.txn_log.specs.log_page.Places.{sequence_bits};
ghost use Rattle.txn_log.specs.log_page.Restarts.{restart_spelling};
ghost use Rattle.txn_log.specs.log_area.Calls.{IsSentOrNot};
ghost use Rattle.txn_log.specs.sector_device.Moments.{moment_after, Syncs};
ghost use Rattle.txn_log.specs.txn_model.Calls.{sealed_facts, noted_facts, written_facts, durable_after, synced_facts};
ghost use Rattle.txn_state.specs.States.{facts_of};

use crate::noting::note;
use crate::state::StoreState;
use host_base::Failed;
use txn_log::{Device, settle};

impl StoreState {
    /// Seals the page of the log that is filled, if it has an entry.
    pub fn seal(&mut self)
        ensures { facts_of self.new ≡ sealed_facts (facts_of self.old) }
    {
        self.log.seal();
    }

    /// Begins a checkpoint: the page that is filled is sealed, the next one is noted, and with it
    /// the blocks that are dirty, dead, or written since the last sync. It takes no memory, and
    /// time linear in the marks.
    pub fn begin_checkpoint(&mut self)
        ensures { facts_of self.new ≡ noted_facts (facts_of self.old) }
    {
        self.log.seal();
        self.noted = Some(self.log.filled_page());
        note(&mut self.marks);
    }

    /// Writes the oldest sealed page of the log that wasn't written, after a read of its place
    /// where it has no check word yet; a call after one that failed behind that writes the same
    /// bytes.
    ///
    /// The error is a failure of the device: then the page is still to be written, and any of its
    /// sectors may stand. At most two calls of the device.
    pub fn write_page<D: Device>(&mut self, device: &mut D) -> Result<(), Failed>
        requires some { self.old.log.done < self.old.log.sealed }
        requires within { self.old.place.device ≤ D.sector_count device.old }
        ensures ok { OnOk result (facts_of self.new ≡ written_facts (facts_of self.old)) }
        ensures err { OnErr result (self.new ≡ record self.old { log = record self.old.log { check = self.new.log.check } }) }
        ensures sent { IsSentOrNot D.gives D.changes_of D.moment_of self.old.log.check self.new.log.check (page_sector self.old.log self.old.log.done) (protected_bytes (made_page (held_page self.old.log self.old.log.done))) result device.old device.new }
        ensures sectors { D.sector_count device.new ≡ D.sector_count device.old }
        ensures cause { FailsByCause (D.fault_count device.old) (D.fault_count device.new) (D.moment_of device.new) result }
    {
        self.log.write_next(device)
    }

    /// Writes the restart page that names this place of the log as the oldest one; its flag says
    /// whether the log is closed. A call after one that failed behind its read writes the same bytes,
    /// and takes the same place and flag.
    ///
    /// The error is a failure of the device: then any sectors of the page may stand. At most two
    /// calls of the device.
    pub fn write_restart<D: Device>(
        &mut self,
        device: &mut D,
        oldest: u64,
        clean: bool,
    ) -> Result<(), Failed>
        requires synced { self.old.log.named ≡ None }
        requires place { IsOldest self.old.log oldest }
        requires lap { lap_at self.old.log (next_number self.old.log 0x58) < 2 ^ sequence_bits self.old.log.pages }
        requires again { IfSome self.old.log.sent (λ s. (s.page.oldest ≡ oldest) × (s.page.clean ≡ clean)) }
        requires within { self.old.place.device ≤ D.sector_count device.old }
        ensures ok { OnOk result (self.new ≡ record self.old { log = named_area oldest self.old.log }) }
        ensures err { OnErr result (self.new ≡ record self.old { log = record self.old.log { sent = self.new.log.sent } }) }
        ensures page { OnErr result (IfSome self.new.log.sent (λ s. s.page ≡ page_to_send self.old.log oldest clean)) }
        ensures sent { IsSentOrNot D.gives D.changes_of D.moment_of (sent_word self.old.log.sent) (sent_word self.new.log.sent) (restart_sector self.old.log) (protected_bytes (restart_spelling (page_to_send self.old.log oldest clean))) result device.old device.new }
        ensures sectors { D.sector_count device.new ≡ D.sector_count device.old }
        ensures cause { FailsByCause (D.fault_count device.old) (D.fault_count device.new) (D.moment_of device.new) result }
    {
        self.log.write_restart(device, oldest, clean)
    }

    // How many commits are known durable once what was written of the log is.
    fn durable_after(&self) -> u64
        ensures { result ≡ durable_after self.now.log self.now.ends self.now.durable }
    {
        let done = self.log.written_pages();
        if self.log.durable_pages() == done {
            return self.durable;
        }
        self.ends[self.log.slot(done.saturating_sub(1))]
    }

    // The page that is noted once what was written of the log is durable.
    fn noted_after(&self) -> Option<u64>
        ensures { result ≡ (if is_some self.now.log.named then None else self.now.noted) }
    {
        match self.log.awaits_sync() {
            true => None,
            false => self.noted,
        }
    }

    /// Makes durable what was written. Dead bodies leave whose rivals' changes are durable by then,
    /// and a checkpoint has ended whose restart page was written. It takes no memory, and time
    /// near-linear in the marks and bodies.
    ///
    /// The error is a failure of the device; then nothing changes. One call of the device.
    pub fn sync<D: Device>(&mut self, device: &mut D) -> Result<(), Failed>
        ensures ok { OnOk result (facts_of self.new ≡ synced_facts (facts_of self.old)) }
        ensures err { OnErr result (self.new ≡ self.old) }
        ensures gives { D.gives device.new ≡ D.gives device.old }
        ensures changes { Syncs (D.moment_of device.old) result (D.changes_of device.old) (D.changes_of device.new) }
        ensures moment { D.moment_of device.new ≡ moment_after (D.moment_of device.old) }
        ensures sectors { D.sector_count device.new ≡ D.sector_count device.old }
        ensures cause { FailsByCause (D.fault_count device.old) (D.fault_count device.new) (D.moment_of device.new) result }
    {
        let durable = self.durable_after();
        let noted = self.noted_after();
        self.log.sync(device)?;
        self.durable = durable;
        self.noted = noted;
        settle(&mut self.bodies, &mut self.marks, self.log.durable_pages());
        Ok(())
    }
}
