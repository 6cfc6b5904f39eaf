//! A device that notes its moment, and a gate that tells it.
use host_base::{Failed, Gate};
use sector_device::Device;
use std::sync::Wait;
use std::sync::atomic::{AtomicU64, Ordering};
use std::thread::Threads;

/// A device that notes its moment behind each call, and of which contracts don't know what stands
/// on it.
#[derive(Drop)]
pub struct WatchedDevice<'a, D: Device> {
    pub device: D,
    pub noted: &'a AtomicU64,
}

impl<'a, D: Device> WatchedDevice<'a, D> {
    fn note(&self) {
        self.noted.store(self.device.moment(), Ordering::SeqCst);
    }
}

impl<'a, D: Device> Device for WatchedDevice<'a, D> {
    ghost use Rattle.std.specs.Prelude.{None, []};

    ghost gives = { λ _. None };

    ghost sector_count = { λ d. D.sector_count d.device };

    ghost moment_of = { λ d. D.moment_of d.device };

    ghost fault_count = { λ d. D.fault_count d.device };

    ghost changes_of = { λ d. record { writes = (D.changes_of d.device).writes; syncs = (D.changes_of d.device).syncs; disk = None; past = [] } };

    fn sectors(&self) -> u64 {
        self.device.sectors()
    }

    fn moment(&self) -> u64 {
        self.device.moment()
    }

    fn faults(&self) -> u64 {
        self.device.faults()
    }

    fn read(&mut self, first: u64, out: &mut [u8]) -> Result<(), Failed> {
        let done = self.device.read(first, out);
        self.note();
        done
    }

    fn write(&mut self, first: u64, bytes: &[u8]) -> Result<(), Failed> {
        let done = self.device.write(first, bytes);
        self.note();
        done
    }

    fn sync(&mut self) -> Result<(), Failed> {
        let done = self.device.sync();
        self.note();
        done
    }

    ghost whole = { λ _. tt };

    ghost seen = { λ _. tt };

    ghost values = { λ _. tt };

    ghost beyond = { λ _. tt };

    ghost over = { λ _. tt };

    ghost few = { λ d. D.few d.device };
}

/// A gate that keeps the moment that was noted when the command of this number passed.
#[derive(Drop)]
pub struct MomentGate<'a> {
    pub number: u32,
    pub noted: &'a AtomicU64,
    pub passed: AtomicU64,
}

impl<'a> Gate for MomentGate<'a> {
    fn pass<R: Threads + Wait>(&self, _rt: &R, _client: u32, number: u32) {
        if number == self.number {
            self.passed
                .store(self.noted.load(Ordering::SeqCst), Ordering::SeqCst);
        }
    }
}
