//! What the restart pages of a log say.
ghost use Rattle.std.specs.Prelude.{◌≡◌, length};
ghost use Rattle.log_page.specs.Restarts.{restart_of};
ghost use Rattle.log_reading.specs.Fronts.{chosen_in, next_restart, next_opens, is_readable, front_in};

use crate::fault::LogRefusal;
use log_page::{Restart, chosen, is_blank, is_emptied, is_second_chosen};

/// What the restart pages of a log say.
#[derive(Clone, Copy, Debug, PartialEq, Eq)]
pub struct RestartFront {
    /// The chosen restart page; none in an emptied log.
    pub chosen: Option<Restart>,
    /// Where the next restart page goes, 0 or 1.
    pub restart: u32,
    /// Its open count.
    pub opens: u32,
}

#[tactic(auto, unfolding(crate::specs::Fronts::next_restart))]
fn next_restart(first: &[u8], second: &[u8]) -> u32
    requires first { length first.now ≡ 4096 }
    requires second { length second.now ≡ 4096 }
    ensures value { result ≡ next_restart first.now second.now }
{
    let one = Restart::read(first);
    let other = Restart::read(second);
    if chosen(one, other).is_some() {
        if is_second_chosen(one, other) { 0 } else { 1 }
    } else if is_blank(first) && !is_blank(second) {
        1
    } else {
        0
    }
}

fn next_opens(chosen: Option<Restart>) -> u32
    ensures value { result ≡ next_opens chosen }
{
    match chosen {
        Some(restart) => {
            if restart.opens >= 0x8000_0000 {
                0
            } else {
                restart.opens + 1
            }
        }
        None => 0,
    }
}

fn check_readable(chosen: Option<Restart>, first: &[u8], second: &[u8]) -> Result<(), LogRefusal>
    requires first { length first.now ≡ 4096 }
    requires second { length second.now ≡ 4096 }
    ensures value { result ≡ is_readable chosen first.now second.now }
{
    match chosen {
        Some(restart) => {
            if restart.major == 1 {
                Ok(())
            } else {
                let major = restart.major;
                let minor = restart.minor;
                Err(LogRefusal::LogVersion { major, minor })
            }
        }
        None => {
            if is_emptied(first, second) {
                Ok(())
            } else {
                Err(LogRefusal::NoRestart)
            }
        }
    }
}

/// What the first two pages of a log say, as they stand on the disk.
///
/// - [`LogRefusal::LogVersion`]: the chosen page is of another major version than 1.
/// - [`LogRefusal::NoRestart`]: neither page is a whole restart page, and none is all FF.
#[tactic(auto, unfolding(crate::specs::Fronts::front_in))]
pub fn front_of(first: &[u8], second: &[u8]) -> Result<RestartFront, LogRefusal>
    requires first { length first.now ≡ 4096 }
    requires second { length second.now ≡ 4096 }
    ensures value { result ≡ front_in first.now second.now }
{
    let chosen = chosen(Restart::read(first), Restart::read(second));
    check_readable(chosen, first, second)?;
    Ok(RestartFront {
        chosen,
        restart: next_restart(first, second),
        opens: next_opens(chosen),
    })
}
