//! The ring's calls of a device.
ghost use Rattle.std.specs.Prelude.{◌≡◌, ◌+◌, ◌<◌, ◌≤◌, OnOk, OnErr};
ghost use Rattle.disk_model.specs.host_base.Causes.{FailsByCause};
ghost use Rattle.sector_device.specs.Moments.{moment_after, Syncs};
ghost use Rattle.log_area.specs.Areas.{written_area, synced_area, page_sector, held_page, made_page};
ghost use Rattle.log_reading.specs.fixup_record.Protecting.{protected_bytes};
ghost use Rattle.log_area.specs.Calls.{Sends, IsSentOrNot};

use crate::area::LogArea;
use crate::sending::{choose, send};
use disk_model::Failed;
use sector_device::Device;

impl LogArea {
    // Where a page begins on the device.
    fn page_sector(&self, number: u64) -> u64
        ensures value { result ≡ page_sector self.now number }
        ensures inside { result + 8 ≤ self.now.sectors }
    {
        self.firsts[self.slot(number) + 4]
    }

    // Sends the next page to its place.
    fn send_next<D: Device>(&mut self, device: &mut D, check: u16) -> Result<(), Failed>
        requires some { self.old.done < self.old.sealed }
        requires within { self.old.sectors ≤ D.sector_count device.old }
        ensures sends { Sends D.gives D.changes_of D.moment_of (D.moment_of device.old) (page_sector self.old self.old.done) (protected_bytes (made_page (held_page self.old self.old.done)) check) result device.old device.new }
        ensures same { self.new ≡ self.old }
        ensures sectors { D.sector_count device.new ≡ D.sector_count device.old }
        ensures cause { FailsByCause (D.fault_count device.old) (D.fault_count device.new) (D.moment_of device.new) result }
    {
        let slot = self.slot(self.done);
        let first = self.page_sector(self.done);
        self.ring[slot].write(check, &mut self.out);
        send(device, first, &self.out)
    }

    /// Writes the oldest sealed page that wasn't written. Its place is read first, once, and the
    /// check word chosen that no sector there ends with; a call after one that failed behind that
    /// reads nothing, and writes the same bytes.
    ///
    /// The error is a failure of the device: then the page is still to be written, and any of its
    /// sectors may stand. At most two calls of the device.
    pub fn write_next<D: Device>(&mut self, device: &mut D) -> Result<(), Failed>
        requires some { self.old.done < self.old.sealed }
        requires within { self.old.sectors ≤ D.sector_count device.old }
        ensures ok { OnOk result (self.new ≡ written_area self.old) }
        ensures err { OnErr result (self.new ≡ record self.old { check = self.new.check }) }
        ensures sent { IsSentOrNot D.gives D.changes_of D.moment_of self.old.check self.new.check (page_sector self.old self.old.done) (protected_bytes (made_page (held_page self.old self.old.done))) result device.old device.new }
        ensures sectors { D.sector_count device.new ≡ D.sector_count device.old }
        ensures cause { FailsByCause (D.fault_count device.old) (D.fault_count device.new) (D.moment_of device.new) result }
    {
        let slot = self.slot(self.done);
        let first = self.page_sector(self.done);
        let check = choose(device, self.check, first, &mut self.out)?;
        self.check = Some(check);
        self.send_next(device, check)?;
        self.reached = self.ring[slot].end();
        self.done += 1;
        self.check = None;
        Ok(())
    }

    /// Makes durable what was written. Where a restart page was written since the last sync, the
    /// ring is free up to the oldest place that it names.
    ///
    /// The error is a failure of the device; then nothing changes. One call of the device.
    pub fn sync<D: Device>(&mut self, device: &mut D) -> Result<(), Failed>
        ensures ok { OnOk result (self.new ≡ synced_area self.old) }
        ensures err { OnErr result (self.new ≡ self.old) }
        ensures gives { D.gives device.new ≡ D.gives device.old }
        ensures changes { Syncs (D.moment_of device.old) result (D.changes_of device.old) (D.changes_of device.new) }
        ensures moment { D.moment_of device.new ≡ moment_after (D.moment_of device.old) }
        ensures sectors { D.sector_count device.new ≡ D.sector_count device.old }
        ensures cause { FailsByCause (D.fault_count device.old) (D.fault_count device.new) (D.moment_of device.new) result }
    {
        device.sync()?;
        self.synced = self.done;
        self.durable = self.reached;
        if let Some(number) = self.named {
            self.oldest = number;
        }
        self.named = None;
        Ok(())
    }
}
