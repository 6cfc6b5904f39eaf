ghost use Rattle.std.specs.Prelude.{◌≡◌, ◌+◌, ◌*◌, ◌<◌, ◌≤◌, ◌^◌, [], length};
ghost use Rattle.disk_model.specs.Bytes.{up8, zeros, written};
ghost use Rattle.record_model.specs.Attributes.{unit_bytes, filled, held_bytes, front_spelling, sizes_spelling};
ghost use Rattle.file_record.specs.attr_codec.Writing.{resident_attr};

use crate::lengths::up8;
use disk_model::{put_bytes, put_u16, put_u32, put_u64};
use record_model::{Head, Sizes};

// The pieces of an attribute's spelling, each put over the bytes from a place on.

#[tactic(auto, unfolding(disk_model::specs::Bytes::zeros))]
fn clear(bytes: &mut [u8])
    ensures { bytes.new ≡ zeros (length bytes.old) }
{
    bytes.fill(0);
}

// Puts so many zeros.
pub fn put_zeros(out: &mut [u8], at: usize, count: usize)
    requires { at + count ≤ length out.old }
    ensures { out.new ≡ written at (zeros count) out.old }
{
    let end = at + count;
    clear(&mut out[at..end]);
}

// Puts units, low byte first.
fn put_units(out: &mut [u8], at: usize, units: &[u16])
    requires { at + 2 * length units.now ≤ length out.old }
    ensures { out.new ≡ written at (unit_bytes units.now) out.old }
{
    for i in 0..units.len() {
        put_u16(out, at + 2 * i, units[i]);
    }
}

// Puts the name that stands behind a header of so many bytes, and the zeros behind it.
pub fn put_name(out: &mut [u8], at: usize, header: usize, name: &[u16])
    requires header { header ≤ 0x48 }
    requires short { length name.now < 256 }
    requires room { at + up8 (header + 2 * length name.now) ≤ length out.old + header }
    ensures { out.new ≡ written at (filled header (unit_bytes name.now)) out.old }
{
    let end = header + 2 * name.len();
    put_units(out, at, name);
    put_zeros(out, at + 2 * name.len(), up8(end) - end);
}

// Puts a value or mapping pairs, and the zeros behind them.
pub fn put_filled(out: &mut [u8], at: usize, bytes: &[u8])
    requires short { length bytes.now < 2 ^ 31 }
    requires room { at + up8 (length bytes.now) ≤ length out.old }
    ensures { out.new ≡ written at (filled 0 bytes.now) out.old }
{
    put_bytes(out, at, bytes);
    put_zeros(out, at + bytes.len(), up8(bytes.len()) - bytes.len());
}

/// The numbers that begin an attribute.
#[derive(Clone, Copy)]
pub struct Front {
    pub own_length: u32,
    pub mapped: u8,
    pub header: u16,
}

// Puts the fields that every header has, for a name of so many units.
pub fn put_front(out: &mut [u8], at: usize, head: &Head, name: &[u16], front: Front)
    requires short { length name.now < 256 }
    requires room { at + 0x10 ≤ length out.old }
    ensures { out.new ≡ written at (front_spelling (resident_attr head.now name.now [] 0)
        front.own_length front.mapped front.header) out.old }
{
    put_u32(out, at, head.kind);
    put_u32(out, at + 4, front.own_length);
    put_bytes(out, at + 8, &[front.mapped, name.len() as u8]);
    put_u16(out, at + 0x0a, front.header);
    put_u16(out, at + 0x0c, head.flags);
    put_u16(out, at + 0x0e, head.id);
}

// Puts the size of the clusters really held, where there is one.
#[tactic(auto, using(crate::proofs::Pieces::nothing_put))]
fn put_held(out: &mut [u8], at: usize, held: Option<u64>)
    requires { at + length (held_bytes held) ≤ length out.old }
    ensures { out.new ≡ written at (held_bytes held) out.old }
{
    match held {
        Some(held) => put_u64(out, at, held),
        None => {}
    }
}

// Puts the numbers of a mapped attribute, whose pairs begin at this place.
pub fn put_sizes(out: &mut [u8], at: usize, sizes: &Sizes, place: u16)
    requires { at + 0x30 + length (held_bytes sizes.now.held) ≤ length out.old }
    ensures { out.new ≡ written at (sizes_spelling sizes.now place) out.old }
{
    put_u64(out, at, sizes.first);
    put_u64(out, at + 8, sizes.last);
    put_u16(out, at + 0x10, place);
    put_u16(out, at + 0x12, sizes.unit);
    put_zeros(out, at + 0x14, 4);
    put_u64(out, at + 0x18, sizes.allocated);
    put_u64(out, at + 0x20, sizes.real);
    put_u64(out, at + 0x28, sizes.initialised);
    put_held(out, at + 0x30, sizes.held);
}
