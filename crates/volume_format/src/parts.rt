ghost use Rattle.std.specs.Prelude.{◌≡◌, IfOk, length};
ghost use Rattle.volume_format.specs.Layouts.{IsLayout};
ghost use Rattle.volume_format.specs.Images.{record_bits, boot_bytes};
ghost use Rattle.volume_format.specs.Parts.{ArePartsOf};

use crate::indexing::block_bytes;
use crate::layout::Layout;
use crate::records::table_bytes;
use crate::zeros::{push_zeros, zeroed};
use boot_sector::Boot;
use host_base::Memory;
use std::alloc::{AllocError, Global};

/// The regions of a new volume that aren't written in pieces.
#[derive(Drop)]
pub struct Parts {
    /// The file table.
    pub table: Vec<u8>,
    pub mirror: Vec<u8>,
    /// The bitmap of the file table.
    pub record_bits: Vec<u8>,
    /// The root's index block.
    pub block: Vec<u8>,
    /// The boot sector and those behind it.
    pub boot: Vec<u8>,
}

// The bitmap of the file table: the bits of records 0 to 23.
#[tactic(auto, unfolding(crate::specs::Images::record_bits))]
fn record_bits(alloc: Global) -> Result<Vec<u8>, AllocError>
    ensures value { IfOk result (λ bits. bits.items ≡ record_bits) }
    ensures size { IfOk result (λ bits. length bits.items ≡ 4096) }
{
    let mut bits = Vec::new(alloc);
    bits.push(0xff)?;
    bits.push(0xff)?;
    bits.push(0xff)?;
    push_zeros(&mut bits, 4093)?;
    Ok(bits)
}

// The boot sector and the fifteen sectors behind it.
#[tactic(auto, unfolding(crate::specs::Images::boot_bytes))]
fn boot_bytes(alloc: Global, v: Layout, seed: u64) -> Result<Vec<u8>, AllocError>
    requires { IsLayout v }
    ensures value { IfOk result (λ boot. boot.items ≡ boot_bytes v seed) }
    ensures size { IfOk result (λ boot. length boot.items ≡ 8192) }
{
    let boot = Boot {
        per_cluster: 8,
        sectors: v.sectors,
        mft: 4,
        mirror: 2,
        serial: seed,
    };
    let mut bytes = zeroed(alloc, 512)?;
    boot.write(&mut bytes);
    push_zeros(&mut bytes, 7680)?;
    Ok(bytes)
}

/// Makes these regions. The error is want of memory.
pub fn make_parts(alloc: Global, v: Layout, seed: u64, time: u64) -> Result<Parts, Memory>
    requires { IsLayout v }
    ensures { IfOk result (λ parts. ArePartsOf v seed time parts) }
{
    Ok(Parts {
        table: table_bytes(alloc, v, time, 64)?,
        mirror: table_bytes(alloc, v, time, 4)?,
        record_bits: record_bits(alloc)?,
        block: block_bytes(alloc, v, time)?,
        boot: boot_bytes(alloc, v, seed)?,
    })
}
