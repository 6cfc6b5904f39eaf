//! A store of blocks that runs in memory, for worked rows: its calls are made where their
//! conditions are met, and it is told what recovery makes of images that a crash may leave.
#![tactic(auto)]

mod blind;
mod conditions;
mod counter;
mod devices;
mod images;
mod playing;
mod running;

pub use blind::BlindDevice;
pub use counter::{are_commits, byte_behind, commit_byte, go_on, is_sound};
pub use devices::{IN_X, LOG, R, S0, S1, S2, SECTOR, SECTORS, X, disk, place, plain, spare};
pub use images::{
    Sight, Watch, bytes_at, images_after, left, left_by_seed, recovered, restarts_left,
    times_written,
};
pub use playing::{Differs, Row, Step, first_wrong, make};
pub use running::{Answer, Run};
