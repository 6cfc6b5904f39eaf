//! Restart pages, which name the oldest place.
ghost use Rattle.std.specs.Prelude.{◌≡◌, ◌↔◌, true, false, ◌+◌, ◌<◌, ◌≤◌, ◌^◌, None, OnOk, OnErr, IfSome, length};
ghost use Rattle.disk_model.specs.host_base.Causes.{FailsByCause};
ghost use Rattle.log_reading.specs.fixup_record.Protecting.{protected_bytes};
ghost use Rattle.log_reading.specs.log_page.Places.{sequence_bits, lap_of, is_in_ring};
ghost use Rattle.log_reading.specs.log_page.Restarts.{restart_spelling, FitsRestart};
ghost use Rattle.log_area.specs.Areas.{IsWord, lap_at, next_number, next_lsn, number_of, IsOldest, restart_sector, sent_word, naming_page, page_to_send, named_area};
ghost use Rattle.log_area.specs.Calls.{Sends, IsSentOrNot};

use crate::area::LogArea;
use crate::restart::SentRestart;
use crate::sending::{choose, send};
use disk_model::Failed;
use log_reading::{Restart, is_in_ring, lap_of, offset_of, protect};
use sector_device::Device;

// Writes a restart page as it stands on the disk, protected by this check word.
fn put_restart(page: &Restart, check: u16, out: &mut [u8])
    requires fits { FitsRestart page.now }
    requires size { length out.old ≡ 4096 }
    ensures value { out.new ≡ protected_bytes (restart_spelling page.now) check }
    ensures size { length out.new ≡ 4096 }
{
    page.write(out);
    protect(out, check);
}

impl LogArea {
    // The number of the page in which an LSN of this session lies.
    fn number_of(&self, lsn: u64) -> u64
        requires lap { self.now.lap ≤ lap_of self.now.pages lsn }
        requires inside { is_in_ring self.now.pages lsn ≡ true }
        ensures value { result ≡ number_of self.now lsn }
    {
        let lap = lap_of(self.pages, lsn) - self.lap;
        lap * self.size() + (offset_of(self.pages, lsn) / 4096 - 4)
    }

    /// Whether an LSN may be named the oldest place: it lies in a page from the oldest one up to the
    /// end of the durable ones.
    pub fn may_name(&self, lsn: u64) -> bool
        ensures { (result ≡ true) ↔ IsOldest self.now lsn }
    {
        if !is_in_ring(self.pages, lsn) || lap_of(self.pages, lsn) < self.lap {
            return false;
        }
        let number = self.number_of(lsn);
        self.oldest <= number && number <= self.synced
    }

    /// The restart page that was sent, perhaps in part, and whose write didn't answer `Ok`.
    pub fn sent(&self) -> Option<SentRestart>
        ensures value { result ≡ self.now.sent }
    {
        self.sent
    }

    /// Whether a restart page was written since the last sync that succeeded.
    pub fn awaits_sync(&self) -> bool
        ensures { (result ≡ false) ↔ (self.now.named ≡ None) }
    {
        self.named.is_some()
    }

    /// The open count that the next restart page has; it stays at its type's end.
    pub fn opens(&self) -> u32
        ensures { result ≡ self.now.opens }
    {
        self.opens
    }

    // The check word of the restart page that was sent already.
    fn sent_word(&self) -> Option<u16>
        ensures value { result ≡ sent_word self.now.sent }
        ensures word { IfSome result IsWord }
    {
        match self.sent {
            Some(sent) => Some(sent.check),
            None => None,
        }
    }

    // The LSN of the place where the least entry would go next.
    fn current(&self) -> u64
        requires { lap_at self.now (next_number self.now 0x58) < 2 ^ sequence_bits self.now.pages }
        ensures value { result ≡ next_lsn self.now 0x58 }
    {
        self.next(0x58)
    }

    // The restart page that names this place.
    fn naming_page(&self, oldest: u64, clean: bool) -> Restart
        requires lap { lap_at self.now (next_number self.now 0x58) < 2 ^ sequence_bits self.now.pages }
        ensures value { result ≡ naming_page self.now oldest clean }
    {
        Restart {
            major: 1,
            minor: 1,
            current: self.current(),
            oldest,
            opens: self.opens,
            bytes: 4096 * self.pages,
            used: true,
            clean,
            own: true,
        }
    }

    // The restart page that goes out: the one that was sent already, or else a new one.
    fn page_to_send(&self, oldest: u64, clean: bool) -> Restart
        requires lap { lap_at self.now (next_number self.now 0x58) < 2 ^ sequence_bits self.now.pages }
        ensures value { result ≡ page_to_send self.now oldest clean }
        ensures fits { FitsRestart result }
    {
        match self.sent {
            Some(sent) => sent.page,
            None => self.naming_page(oldest, clean),
        }
    }

    // Where the next restart page begins on the device.
    fn restart_sector(&self) -> u64
        ensures value { result ≡ restart_sector self.now }
        ensures inside { result + 8 ≤ self.now.sectors }
    {
        self.firsts[self.restart as usize]
    }

    // Sends a restart page to its place.
    fn send_restart<D: Device>(
        &mut self,
        device: &mut D,
        page: &Restart,
        check: u16,
    ) -> Result<(), Failed>
        requires fits { FitsRestart page.now }
        requires within { self.old.sectors ≤ D.sector_count device.old }
        ensures sends { Sends D.gives D.changes_of D.moment_of (D.moment_of device.old) (restart_sector self.old) (protected_bytes (restart_spelling page.now) check) result device.old device.new }
        ensures same { self.new ≡ self.old }
        ensures sectors { D.sector_count device.new ≡ D.sector_count device.old }
        ensures cause { FailsByCause (D.fault_count device.old) (D.fault_count device.new) (D.moment_of device.new) result }
    {
        let first = self.restart_sector();
        put_restart(page, check, &mut self.out);
        send(device, first, &self.out)
    }

    /// Writes a restart page that names the oldest place of the log, at the place of the two that
    /// isn't the last one whose write answered Ok; its flag says whether the log is closed. The
    /// ring is free up to that place from the next sync that succeeds on. The place is one at which
    /// entries may begin, on a page from the oldest one up to the end of those that are durable.
    /// A sync succeeded since the last write of a restart page that did. A call after one that
    /// failed behind its read names the same place with the same flag, reads nothing, and writes
    /// the same bytes.
    ///
    /// The error is a failure of the device: then any sectors of the page may stand. At most two
    /// calls of the device.
    pub fn write_restart<D: Device>(
        &mut self,
        device: &mut D,
        oldest: u64,
        clean: bool,
    ) -> Result<(), Failed>
        requires synced { self.old.named ≡ None }
        requires place { IsOldest self.old oldest }
        requires lap { lap_at self.old (next_number self.old 0x58) < 2 ^ sequence_bits self.old.pages }
        requires again { IfSome self.old.sent (λ s. (s.page.oldest ≡ oldest) × (s.page.clean ≡ clean)) }
        requires within { self.old.sectors ≤ D.sector_count device.old }
        ensures ok { OnOk result (self.new ≡ named_area oldest self.old) }
        ensures err { OnErr result (self.new ≡ record self.old { sent = self.new.sent }) }
        ensures page { OnErr result (IfSome self.new.sent (λ s. s.page ≡ page_to_send self.old oldest clean)) }
        ensures sent { IsSentOrNot D.gives D.changes_of D.moment_of (sent_word self.old.sent) (sent_word self.new.sent) (restart_sector self.old) (protected_bytes (restart_spelling (page_to_send self.old oldest clean))) result device.old device.new }
        ensures sectors { D.sector_count device.new ≡ D.sector_count device.old }
        ensures cause { FailsByCause (D.fault_count device.old) (D.fault_count device.new) (D.moment_of device.new) result }
    {
        let number = self.number_of(oldest);
        let page = self.page_to_send(oldest, clean);
        let word = self.sent_word();
        let first = self.restart_sector();
        let check = choose(device, word, first, &mut self.out)?;
        self.sent = Some(SentRestart { page, check });
        self.send_restart(device, &page, check)?;
        self.sent = None;
        self.named = Some(number);
        self.restart = 1 - self.restart;
        self.opens = self.opens.saturating_add(1);
        Ok(())
    }
}
