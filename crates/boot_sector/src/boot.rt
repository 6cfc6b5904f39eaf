ghost use Rattle.std.specs.Prelude.{◌≡◌, ◌+◌, ◌^◌, ◌<◌, ◌≤◌, ◌==◌, length, IfOk, OnOk};
ghost use Rattle.disk_model.specs.Numbers.{field};
ghost use Rattle.disk_model.specs.Bytes.{zeros};
ghost use Rattle.boot_sector.specs.BootSectors.{IsClusterSize, IsBootSector, FitsBoot, bytes_said, clusters, is_named, is_marked, signs_of, keeps, sizes_fit, places_fit, fields_of, boot_of, boot_spelling};

use disk_model::{put_bytes, put_u16, put_u64, u8_at, u16_at, u64_at};
use thiserror::Error;

/// The fields of a volume's boot sector.
#[derive(Clone, Copy, Debug, PartialEq, Eq)]
pub struct Boot {
    /// The sectors of a cluster.
    pub per_cluster: u8,
    /// The volume's sectors.
    pub sectors: u64,
    /// The first cluster of `$MFT`.
    pub mft: u64,
    /// The first cluster of `$MFTMirr`.
    pub mirror: u64,
    pub serial: u64,
}

/// Why a boot sector is refused.
#[derive(Clone, Copy, Debug, PartialEq, Eq, Error)]
pub enum BootFault {
    /// Rule 1: the bytes at 0x03 aren't `NTFS` and four spaces; rule 2: those at
    /// 0x1FE aren't 0x55 and 0xAA.
    #[error("not NTFS, by rule {rule}")]
    NotNtfs { rule: u32 },
    /// The field at this offset is out of the profile; its value is the raw unsigned number.
    #[error("the boot field at {field} is {value}")]
    Geometry { field: u32, value: u64 },
    /// The volume has more than 16,777,216 clusters.
    #[error("{clusters} clusters are too many")]
    VolumeLarge { clusters: u64 },
}

const MOST_CLUSTERS: u64 = 16_777_216;

#[tactic(auto, unfolding(crate::specs::BootSectors::is_named))]
fn has_name(bytes: &[u8]) -> bool
    requires { length bytes.now ≡ 512 }
    ensures { result ≡ is_named bytes.now }
{
    bytes.split_at(0x03).1.starts_with(b"NTFS    ")
}

#[tactic(auto, unfolding(crate::specs::BootSectors::is_marked))]
fn has_mark(bytes: &[u8]) -> bool
    requires { length bytes.now ≡ 512 }
    ensures { result ≡ is_marked bytes.now }
{
    bytes.split_at(0x1FE).1.starts_with(&[0x55, 0xAA])
}

#[tactic(auto, unfolding(crate::specs::BootSectors::signs_of))]
fn signs(bytes: &[u8]) -> Result<(), BootFault>
    requires { length bytes.now ≡ 512 }
    ensures { result ≡ signs_of bytes.now }
{
    if !has_name(bytes) {
        return Err(BootFault::NotNtfs { rule: 1 });
    }
    if !has_mark(bytes) {
        return Err(BootFault::NotNtfs { rule: 2 });
    }
    Ok(())
}

fn keep(test: bool, field: u32, value: u64) -> Result<(), BootFault>
    ensures { result ≡ keeps test field value }
{
    if test {
        Ok(())
    } else {
        Err(BootFault::Geometry { field, value })
    }
}

#[tactic(auto, unfolding(crate::specs::BootSectors::sizes_fit))]
fn check_sizes(bytes: &[u8]) -> Result<(), BootFault>
    requires { length bytes.now ≡ 512 }
    ensures answer { result ≡ sizes_fit bytes.now }
    ensures size { OnOk result (IsClusterSize (field 0x0D 1 bytes.now)) }
{
    let sector = u16_at(bytes, 0x0B);
    let per_cluster = u8_at(bytes, 0x0D);
    let sectors = u64_at(bytes, 0x28);
    keep(sector == 512, 0x0B, sector as u64)?;
    keep(
        per_cluster == 1 || per_cluster == 2 || per_cluster == 4 || per_cluster == 8,
        0x0D,
        per_cluster as u64,
    )?;
    keep(per_cluster as u64 <= sectors, 0x28, sectors)
}

/// Whether a raw byte says 2^`power` bytes.
#[tactic(auto, unfolding(crate::specs::BootSectors::bytes_said))]
fn says(per_cluster: u8, raw: u8, power: u8) -> bool
    requires { power < 64 }
    ensures { result ≡ (bytes_said per_cluster raw == 2 ^ power) }
{
    if raw < 0x80 {
        raw as u64 * per_cluster as u64 * 512 == 1u64 << power
    } else {
        0x100 - raw as u16 == power as u16
    }
}

#[tactic(auto, unfolding(crate::specs::BootSectors::places_fit))]
fn check_places(boot: &Boot, bytes: &[u8]) -> Result<(), BootFault>
    requires size { 0 < boot.now.per_cluster }
    requires whole { length bytes.now ≡ 512 }
    ensures { result ≡ places_fit boot.now bytes.now }
{
    let clusters = boot.clusters();
    let record = u8_at(bytes, 0x40);
    let block = u8_at(bytes, 0x44);
    keep(boot.mft < clusters, 0x30, boot.mft)?;
    keep(boot.mirror < clusters, 0x38, boot.mirror)?;
    keep(says(boot.per_cluster, record, 10), 0x40, record as u64)?;
    keep(says(boot.per_cluster, block, 12), 0x44, block as u64)
}

#[tactic(auto, unfolding(crate::specs::BootSectors::fields_of))]
fn fields(bytes: &[u8]) -> Boot
    requires { length bytes.now ≡ 512 }
    ensures value { result ≡ fields_of bytes.now }
    ensures size { result.per_cluster ≡ field 0x0D 1 bytes.now }
{
    Boot {
        per_cluster: u8_at(bytes, 0x0D),
        sectors: u64_at(bytes, 0x28),
        mft: u64_at(bytes, 0x30),
        mirror: u64_at(bytes, 0x38),
        serial: u64_at(bytes, 0x48),
    }
}

#[tactic(auto, unfolding(disk_model::specs::Bytes::zeros))]
fn clear(out: &mut [u8])
    ensures { out.new ≡ zeros (length out.old) }
{
    out.fill(0);
}

/// Tries the fields in the order of the table.
fn checked_fields(bytes: &[u8]) -> Result<Boot, BootFault>
    requires { length bytes.now ≡ 512 }
    ensures { result ≡ boot_of bytes.now }
{
    signs(bytes)?;
    check_sizes(bytes)?;
    let boot = fields(bytes);
    check_places(&boot, bytes)?;
    let clusters = boot.clusters();
    if clusters > MOST_CLUSTERS {
        return Err(BootFault::VolumeLarge { clusters });
    }
    Ok(boot)
}

/// Writes the fields over zeros.
#[tactic(auto, unfolding(crate::specs::BootSectors::boot_spelling))]
fn put_fields(boot: &Boot, out: &mut [u8])
    requires size { IsClusterSize boot.now.per_cluster }
    requires whole { length out.old ≡ 512 }
    ensures { out.new ≡ boot_spelling boot.now }
{
    clear(out);
    put_bytes(out, 0x03, b"NTFS    ");
    put_u16(out, 0x0B, 512);
    put_bytes(out, 0x0D, &[boot.per_cluster]);
    put_u64(out, 0x28, boot.sectors);
    put_u64(out, 0x30, boot.mft);
    put_u64(out, 0x38, boot.mirror);
    put_bytes(out, 0x40, &[0xF6]);
    put_bytes(out, 0x44, &[8 / boot.per_cluster]);
    put_u64(out, 0x48, boot.serial);
    put_bytes(out, 0x1FE, &[0x55, 0xAA]);
}

impl Boot {
    /// The fields that the 512 bytes of a boot sector spell.
    ///
    /// - [`BootFault::NotNtfs`]: rule 1, the bytes at 0x03 aren't `NTFS` and four
    ///   spaces; rule 2, those at 0x1FE aren't 0x55 and 0xAA.
    /// - [`BootFault::Geometry`]: the first of these fields that is out of the profile, by its
    ///   offset and its raw value. At 0x0B stand the bytes of a sector, 512; at 0x0D the sectors of
    ///   a cluster, 1, 2, 4 or 8; at 0x28 the volume's sectors, at least one cluster; at 0x30 and
    ///   0x38 the first clusters of `$MFT` and `$MFTMirr`, below the volume's clusters; at 0x40 and
    ///   0x44 the sizes of a file record, 1,024 bytes, and of an index block, 4,096 bytes, in
    ///   clusters or, where the byte is negative, as the power of 2 with this number of bytes,
    ///   negated.
    /// - [`BootFault::VolumeLarge`]: there are more than 16,777,216 clusters.
    pub fn read(bytes: &[u8]) -> Result<Boot, BootFault>
        requires { length bytes.now ≡ 512 }
        ensures answer { result ≡ boot_of bytes.now }
        ensures spelled { IfOk result (IsBootSector bytes.now) }
    {
        checked_fields(bytes)
    }

    /// The volume's clusters: its sectors by those of a cluster, rounded down.
    pub fn clusters(&self) -> u64
        requires { 0 < self.now.per_cluster }
        ensures { result ≡ clusters self.now }
    {
        self.sectors / self.per_cluster as u64
    }

    /// Writes the fields as the 512 bytes of a boot sector: at 0x40 stands 0xF6, at 0x44
    /// the clusters of 4,096 bytes, and zeros where no field is.
    pub fn write(&self, out: &mut [u8])
        requires fits { FitsBoot self.now }
        requires whole { length out.old ≡ 512 }
        ensures spelled { out.new ≡ boot_spelling self.now }
        ensures table { IsBootSector out.new self.now }
    {
        put_fields(self, out);
    }
}
