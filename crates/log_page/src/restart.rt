ghost use Rattle.std.specs.Prelude.{◌≡◌, ◌+◌, ◌*◌, ◌<◌, ◌≤◌, ◌^◌, ◌&&◌, true, length, is_ok};
ghost use Rattle.disk_model.specs.Numbers.{field};
ghost use Rattle.disk_model.specs.Bytes.{zeros};
ghost use Rattle.disk_model.specs.Fixups.{fixup_of, restored};
ghost use Rattle.log_page.specs.Restarts.{area_at, client_count, first_in_use, clients_at, has_area, has_clients, has_list, has_client, has_own_name, is_restart_page, restart_in, oldest_in, is_own, restart_of, is_newer, is_second_chosen, chosen, is_clean, is_emptied, headed, with_area, with_client, restart_front, restart_spelling, FitsRestart};

use crate::fault::PageFault;
use crate::places::digits;
use crate::record::is_blank;
use disk_model::{put_bytes, put_u16, put_u32, put_u64, u16_at, u32_at, u64_at};
use fixup_record::unprotect;

/// The fields of a restart page of the log.
#[derive(Clone, Copy, Debug, PartialEq, Eq)]
pub struct Restart {
    /// The log's version.
    pub major: u16,
    pub minor: u16,
    /// The current LSN: that of the place that is written next.
    pub current: u64,
    /// The LSN of the first client's oldest entry that is still needed; 0 without a client.
    pub oldest: u64,
    /// How many restart pages were written.
    pub opens: u32,
    /// The log's size.
    pub bytes: u64,
    /// A client is in use.
    pub used: bool,
    /// The log was closed.
    pub clean: bool,
    /// The first client has this host's name.
    pub own: bool,
}

const PAGE: usize = 4096;

const NO_CLIENT: u16 = 0xffff;

const OWN_NAME: [u8; 16] = *b"N\0T\0F\0S\0H\0O\0S\0T\0";

// Whether an entry for each client ends in the page.
fn has_clients(page: &[u8], area: usize) -> bool
    requires size { length page.now ≡ 4096 }
    requires place { area ≡ area_at page.now }
    requires inside { area + 0x2C ≤ 4096 }
    ensures value { result ≡ has_clients page.now }
{
    let count = u16_at(page, area + 0x08) as usize;
    let clients = area + u16_at(page, area + 0x16) as usize;
    count == 0 || clients + 0xa0 * count <= PAGE
}

// Whether the list of clients in use is empty or begins at a client.
fn has_list(page: &[u8], area: usize) -> bool
    requires size { length page.now ≡ 4096 }
    requires place { area ≡ area_at page.now }
    requires inside { area + 0x2C ≤ 4096 }
    ensures value { result ≡ has_list page.now }
{
    let first = u16_at(page, area + 0x0c);
    first == NO_CLIENT || first < u16_at(page, area + 0x08)
}

// Whether a page whose update sequence was undone is a restart page.
fn is_restart_page(page: &[u8]) -> bool
    requires size { length page.now ≡ 4096 }
    ensures value { result ≡ is_restart_page page.now }
{
    let area = u16_at(page, 0x18) as usize;
    page.starts_with(b"RSTR")
        && u32_at(page, 0x10) == 4096
        && area + 0x2c <= PAGE
        && has_clients(page, area)
        && has_list(page, area)
}

// Whether the client that stands here has this host's name.
fn has_own_name(page: &[u8], client: usize) -> bool
    requires size { length page.now ≡ 4096 }
    requires place { client ≡ clients_at page.now }
    requires inside { client + 0xA0 ≤ 4096 }
    ensures value { result ≡ has_own_name page.now }
{
    u32_at(page, client + 0x1c) == 16 && page.split_at(client + 0x20).1.starts_with(&OWN_NAME)
}

// The oldest LSN of the first client, and whether its name is this host's.
fn first_client(page: &[u8], client: usize) -> (u64, bool)
    requires size { length page.now ≡ 4096 }
    requires place { client ≡ clients_at page.now }
    requires inside { 0 < client_count page.now → client + 0xA0 * client_count page.now ≤ 4096 }
    requires area { area_at page.now + 0x2C ≤ 4096 }
    ensures oldest { result.0 ≡ oldest_in page.now }
    ensures own { result.1 ≡ is_own page.now }
{
    let area = u16_at(page, 0x18) as usize;
    if u16_at(page, area + 0x08) == 0 {
        return (0, false);
    }
    (u64_at(page, client), has_own_name(page, client))
}

// The fields of a page whose update sequence was undone.
#[tactic(auto, unfolding(crate::specs::Restarts::restart_in))]
fn fields(page: &[u8]) -> Restart
    requires size { length page.now ≡ 4096 }
    requires area { area_at page.now + 0x2C ≤ 4096 }
    requires clients { 0 < client_count page.now → clients_at page.now + 0xA0 * client_count page.now ≤ 4096 }
    ensures value { result ≡ restart_in page.now }
{
    let area = u16_at(page, 0x18) as usize;
    let client = area + u16_at(page, area + 0x16) as usize;
    let (oldest, own) = first_client(page, client);
    Restart {
        major: u16_at(page, 0x1c),
        minor: u16_at(page, 0x1a),
        current: u64_at(page, area),
        oldest,
        opens: u32_at(page, area + 0x28),
        bytes: u64_at(page, area + 0x18),
        used: u16_at(page, area + 0x0c) != NO_CLIENT,
        clean: u16_at(page, area + 0x0e) / 2 % 2 == 1,
        own,
    }
}

// Reads a page in room for it, so that the page stays.
#[tactic(auto, unfolding(crate::specs::Restarts::restart_of, crate::specs::Restarts::is_whole_restart))]
fn read_in(raw: &[u8], page: &mut [u8]) -> Result<Restart, PageFault>
    requires size { length raw.now ≡ 4096 }
    requires room { length page.old ≡ 4096 }
    ensures value { result ≡ restart_of raw.now }
{
    page.copy_from_slice(raw);
    if unprotect(page).is_err() {
        return Err(PageFault::NotWhole);
    }
    if !is_restart_page(page) {
        return Err(PageFault::NotWhole);
    }
    Ok(fields(page))
}

// Puts the fields before the restart area.
fn put_head(out: &mut [u8])
    requires whole { length out.old ≡ 0x110 }
    ensures value { out.new ≡ headed out.old }
{
    put_bytes(out, 0x00, b"RSTR");
    put_u16(out, 0x04, 0x1e);
    put_u16(out, 0x06, 9);
    put_u32(out, 0x10, 0x1000);
    put_u32(out, 0x14, 0x1000);
    put_u16(out, 0x18, 0x30);
    put_u16(out, 0x1a, 1);
    put_u16(out, 0x1c, 1);
}

// Puts the restart area.
fn put_area(restart: &Restart, out: &mut [u8])
    requires whole { length out.old ≡ 0x110 }
    ensures value { out.new ≡ with_area restart.now out.old }
{
    put_u64(out, 0x30, restart.current);
    put_u16(out, 0x38, 1);
    put_u16(out, 0x3a, if restart.used { NO_CLIENT } else { 0 });
    put_u16(out, 0x3c, if restart.used { 0 } else { NO_CLIENT });
    put_u16(out, 0x3e, if restart.clean { 2 } else { 0 });
    put_u32(out, 0x40, 64 - digits(restart.bytes).saturating_sub(3));
    put_u16(out, 0x44, 0xe0);
    put_u16(out, 0x46, 0x40);
    put_u64(out, 0x48, restart.bytes);
    put_u16(out, 0x54, 0x30);
    put_u16(out, 0x56, 0x40);
    put_u32(out, 0x58, restart.opens);
}

// Puts the client.
fn put_client(restart: &Restart, out: &mut [u8])
    requires whole { length out.old ≡ 0x110 }
    ensures value { out.new ≡ with_client restart.now out.old }
{
    put_u64(out, 0x70, restart.oldest);
    put_u64(out, 0x78, restart.oldest);
    put_u16(out, 0x80, NO_CLIENT);
    put_u16(out, 0x82, NO_CLIENT);
    put_u32(out, 0x8c, 16);
    put_bytes(out, 0x90, &OWN_NAME);
}

/// Makes all bytes zeros.
#[tactic(auto, unfolding(disk_model::specs::Bytes::zeros))]
pub fn clear(out: &mut [u8])
    ensures { out.new ≡ zeros (length out.old) }
{
    out.fill(0);
}

// Writes the fields over zeros.
#[tactic(auto, unfolding(crate::specs::Restarts::restart_front))]
fn put_front(restart: &Restart, out: &mut [u8])
    requires whole { length out.old ≡ 0x110 }
    ensures value { out.new ≡ restart_front restart.now }
{
    clear(out);
    put_head(out);
    put_area(restart, out);
    put_client(restart, out);
}

// Whether the second one has the greater current LSN, or then the greater open count.
fn is_newer(first: Restart, second: Restart) -> bool
    ensures value { result ≡ is_newer first second }
{
    first.current < second.current
        || (first.current == second.current && first.opens < second.opens)
}

/// Whether of the log's two restart pages the second one is chosen: it alone is whole, or it has
/// the greater current LSN, or the same one and the greater open count.
pub fn is_second_chosen(
    first: Result<Restart, PageFault>,
    second: Result<Restart, PageFault>,
) -> bool
    ensures value { result ≡ is_second_chosen first second }
{
    match (first, second) {
        (Ok(a), Ok(b)) => is_newer(a, b),
        (Err(_), Ok(_)) => true,
        _ => false,
    }
}

/// The restart page that is chosen of the log's two; none where neither is whole.
pub fn chosen(
    first: Result<Restart, PageFault>,
    second: Result<Restart, PageFault>,
) -> Option<Restart>
    ensures value { result ≡ chosen first second }
{
    if is_second_chosen(first, second) {
        second.ok()
    } else {
        first.ok()
    }
}

/// Whether the log was emptied, by its first two pages as they stand on the disk: neither is a
/// whole restart page, and one of them is all 0xFF.
pub fn is_emptied(first: &[u8], second: &[u8]) -> bool
    requires first { length first.now ≡ 4096 }
    requires second { length second.now ≡ 4096 }
    ensures value { result ≡ is_emptied first.now second.now }
{
    let one = Restart::read(first);
    let other = Restart::read(second);
    chosen(one, other).is_none() && (is_blank(first) || is_blank(second))
}

impl Restart {
    /// The fields of a restart page (Linux-NTFS documentation, "$LogFile"), of whose 4,096 bytes
    /// the update sequence isn't undone yet.
    ///
    /// [`PageFault::NotWhole`]: the bytes don't begin `RSTR`, their update sequence doesn't hold,
    /// the system page size isn't 4,096, the restart area or the entry of a client ends outside the
    /// page, or the list of clients in use neither is empty nor begins at a client. It is the only
    /// error.
    pub fn read(page: &[u8]) -> Result<Restart, PageFault>
        requires { length page.now ≡ 4096 }
        ensures value { result ≡ restart_of page.now }
    {
        read_in(page, &mut [0; PAGE])
    }

    /// Whether nothing has to be recovered: no client is in use, or the log was closed.
    pub fn is_clean(&self) -> bool
        ensures value { result ≡ is_clean self.now }
    {
        !self.used || self.clean
    }

    /// Writes the restart page of a log of this host, 4,096 bytes, before its update sequence is
    /// made (`fixup_record::protect`): version 1.1, the array at 0x1E, the restart area
    /// at 30 and in it one client named `NTFSHOST`, whose restart LSN is its oldest LSN; zeros
    /// where no field is.
    pub fn write(&self, page: &mut [u8])
        requires fits { FitsRestart self.now }
        requires whole { length page.old ≡ 4096 }
        ensures spelled { page.new ≡ restart_spelling self.now }
    {
        let (front, rest) = page.split_at_mut(0x110);
        put_front(self, front);
        clear(rest);
    }
}
