//! A page that is sent to its place.
ghost use Rattle.std.specs.Prelude.{◌≡◌, ◌+◌, ◌*◌, ◌<◌, ◌≤◌, None, IfOk, IfSome, OnOk, OnErr, IsErr, length};
ghost use Rattle.disk_model.specs.Sectors.{sector_of, raw_from};
ghost use Rattle.disk_model.specs.host_base.Causes.{FailsByCause};
ghost use Rattle.sector_device.specs.Moments.{moment_after};
ghost use Rattle.log_reading.specs.log_page.CheckWords.{IsCheckWord};
ghost use Rattle.log_area.specs.Areas.{IsWord};
ghost use Rattle.log_area.specs.Calls.{IsAsked, IsCheckOf, sending_moment, Sends};

use disk_model::Failed;
use log_reading::pick_check;
use sector_device::Device;

/// Reads the page that stands from this sector on into the room, and picks the check word of one
/// that is written over it: one call. The error is a failure of the device.
pub fn pick<D: Device>(device: &mut D, first: u64, room: &mut [u8]) -> Result<u16, Failed>
    requires room { length room.old ≡ 4096 }
    requires within { first + 8 ≤ D.sector_count device.old }
    ensures above { IfOk result (λ word. 0 < word) }
    ensures below { IfOk result (λ word. word < 0xFFFF) }
    ensures picked { IfOk result (λ word. IfSome (D.gives device.old) (λ disk. IsCheckWord (raw_from (sector_of disk) first 8) word)) }
    ensures asked { IsAsked D.gives D.changes_of D.moment_of device.old device.new }
    ensures sectors { D.sector_count device.new ≡ D.sector_count device.old }
    ensures cause { FailsByCause (D.fault_count device.old) (D.fault_count device.new) (D.moment_of device.new) result }
{
    device.read(first, room)?;
    Ok(pick_check(room))
}

/// The check word of a page that goes to this sector: the one that it has, or the one that is
/// picked.
pub fn choose<D: Device>(
    device: &mut D,
    check: Option<u16>,
    first: u64,
    room: &mut [u8],
) -> Result<u16, Failed>
    requires room { length room.old ≡ 4096 }
    requires within { first + 8 ≤ D.sector_count device.old }
    requires given { IfSome check IsWord }
    ensures chosen { IfOk result (IsCheckOf check (D.gives device.old) first) }
    ensures same { D.gives device.new ≡ D.gives device.old }
    ensures unchanged { D.changes_of device.new ≡ D.changes_of device.old }
    ensures moment { D.moment_of device.new ≡ sending_moment check (D.moment_of device.old) }
    ensures first_time { OnErr result (check ≡ None) }
    ensures sectors { D.sector_count device.new ≡ D.sector_count device.old }
    ensures cause { FailsByCause (D.fault_count device.old) (D.fault_count device.new) (D.moment_of device.new) result }
{
    match check {
        Some(word) => Ok(word),
        None => pick(device, first, room),
    }
}

/// Writes a page from this sector on. The error is a failure of the device.
pub fn send<D: Device>(device: &mut D, first: u64, page: &[u8]) -> Result<(), Failed>
    requires size { length page.now ≡ 4096 }
    requires within { first + 8 ≤ D.sector_count device.old }
    ensures sends { Sends D.gives D.changes_of D.moment_of (D.moment_of device.old) first page.now result device.old device.new }
    ensures sectors { D.sector_count device.new ≡ D.sector_count device.old }
    ensures cause { FailsByCause (D.fault_count device.old) (D.fault_count device.new) (D.moment_of device.new) result }
{
    device.write(first, page)
}
