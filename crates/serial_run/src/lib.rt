//! A run of a script without threads: the turns of its commands, one after the other, on a volume
//! that is asked and that none of them changes.
//!
//! The contract: where the volume's tree is known, the turns are a serial run from it; each command
//! has its turn; and no failure of the device is passed over: the reply of its turn is `fault`.
#![tactic(auto)]

mod running;
mod volume;

pub use host_base::{Gate, Memory};
pub use run_model::Turn;
pub use running::serial_run;
pub use tree_model::{Command, Op, Reply, Script};
pub use volume::AskedVolume;
