//! What steps of a volume's store leave, one behind the other.
ghost use Rattle.volume_sync.specs.Runs.{TurnsRun, RunsJoin};

use sector_device::Device;

/// Law: a step of a volume's store leaves what steps leave.
pub fn turns_run<D: Device>(_device: &D)
    ensures { TurnsRun D.gives D.sector_count D.moment_of D.changes_of }
{}

/// Law: steps of a volume's store behind steps of it leave what steps leave.
pub fn runs_join<D: Device>(_device: &D)
    ensures { RunsJoin D.gives D.sector_count D.moment_of D.changes_of }
{}
