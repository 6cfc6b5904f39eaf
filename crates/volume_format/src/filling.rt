ghost use Rattle.std.specs.Prelude.{◌≡◌, ◌<◌, ◌≤◌, ◌^◌, length};
ghost use Rattle.upcase_order.specs.Tables.{standard_upper};
ghost use Rattle.volume_format.specs.Layouts.{IsLayout};
ghost use Rattle.volume_format.specs.Images.{cluster_bit, cluster_bits_byte};
ghost use Rattle.volume_format.specs.Fillings.{upper_case_byte, filling_byte, filling_bytes, IsInside};

use crate::layout::Layout;

/// What a long region is filled with.
#[derive(Clone, Copy, Debug, PartialEq, Eq)]
pub enum Filling {
    /// An empty log.
    Log,
    /// The table of upper-case units.
    UpperCase,
    /// The bitmap of the clusters.
    ClusterBits(Layout),
}

// The upper-case unit of a unit.
fn standard_upper(unit: u16) -> u16
    ensures { result ≡ standard_upper unit }
{
    if unit >= 0x61 && unit <= 0x7A {
        unit - 0x20
    } else {
        unit
    }
}

// A byte of the table of upper-case units.
#[tactic(auto, unfolding(crate::specs::Fillings::upper_case_byte))]
fn upper_case_byte(at: u64) -> u8
    requires { at < 131072 }
    ensures { result ≡ upper_case_byte at }
{
    let upper = standard_upper((at / 2) as u16);
    if at % 2 == 0 {
        (upper % 256) as u8
    } else {
        (upper / 256) as u8
    }
}

// The bit of a cluster.
fn cluster_bit(v: Layout, cluster: u64) -> u8
    requires { IsLayout v }
    ensures value { result ≡ cluster_bit v cluster }
    ensures small { result ≤ 1 }
{
    if cluster < v.used_clusters() || v.clusters <= cluster {
        1
    } else {
        0
    }
}

// The bits of eight clusters.
#[tactic(auto, unfolding(crate::specs::Images::cluster_bits_byte))]
fn cluster_bits_byte(v: Layout, at: u64) -> u8
    requires layout { IsLayout v }
    requires small { at < 2 ^ 32 }
    ensures { result ≡ cluster_bits_byte v at }
{
    cluster_bit(v, 8 * at)
        + 2 * cluster_bit(v, 8 * at + 1)
        + 4 * cluster_bit(v, 8 * at + 2)
        + 8 * cluster_bit(v, 8 * at + 3)
        + 16 * cluster_bit(v, 8 * at + 4)
        + 32 * cluster_bit(v, 8 * at + 5)
        + 64 * cluster_bit(v, 8 * at + 6)
        + 128 * cluster_bit(v, 8 * at + 7)
}

impl Filling {
    // The byte at a place of the region.
    #[tactic(auto, unfolding(crate::specs::Fillings::filling_byte))]
    fn byte(self, at: u64) -> u8
        requires inside { IsInside self at 1 }
        ensures { result ≡ filling_byte self at }
    {
        match self {
            Filling::Log => 0xff,
            Filling::UpperCase => upper_case_byte(at),
            Filling::ClusterBits(v) => cluster_bits_byte(v, at),
        }
    }

    /// Fills a piece of the region, from its byte `at` on.
    pub fn fill(self, at: u64, out: &mut [u8])
        requires inside { IsInside self at (length out.old) }
        ensures { out.new ≡ filling_bytes self at (length out.old) }
    {
        for i in 0..out.len() {
            out[i] = self.byte(at + i as u64);
        }
    }
}
