//! A device of which contracts don't know what stands on it.
use host_base::Failed;
use sector_device::Device;

/// A device whose sectors no contract knows: what a store does on it is told by its rows alone.
#[derive(Drop)]
pub struct BlindDevice<D: Device> {
    pub device: D,
}

impl<D: Device> Device for BlindDevice<D> {
    ghost use Rattle.std.specs.Prelude.{None, []};

    ghost gives = { λ _. None };

    ghost sector_count = { λ d. D.sector_count d.device };

    ghost moment_of = { λ d. D.moment_of d.device };

    ghost fault_count = { λ d. D.fault_count d.device };

    ghost changes_of = { λ d. record { writes = (D.changes_of d.device).writes; syncs = (D.changes_of d.device).syncs; disk = None; past = [] } };

    fn sectors(&self) -> u64 {
        self.device.sectors()
    }

    fn moment(&self) -> u64 {
        self.device.moment()
    }

    fn faults(&self) -> u64 {
        self.device.faults()
    }

    fn read(&mut self, first: u64, out: &mut [u8]) -> Result<(), Failed> {
        self.device.read(first, out)
    }

    fn write(&mut self, first: u64, bytes: &[u8]) -> Result<(), Failed> {
        self.device.write(first, bytes)
    }

    fn sync(&mut self) -> Result<(), Failed> {
        self.device.sync()
    }

    ghost whole = { λ _. tt };

    ghost seen = { λ _. tt };

    ghost values = { λ _. tt };

    ghost beyond = { λ _. tt };

    ghost over = { λ _. tt };

    ghost few = { λ d. D.few d.device };
}
