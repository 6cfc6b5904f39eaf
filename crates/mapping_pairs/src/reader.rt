ghost use Rattle.std.specs.Prelude.{◌≡◌, ◌+◌, ◌<◌, ◌≤◌, ◌^◌, length, OnOk, IfOk, IfSome};
ghost use Rattle.record_model.specs.host_base.Answers.{Gives};
ghost use Rattle.record_model.specs.Pairs.{runs_of, run_at, length_at, lcn_at, signed, pairs_cause, cluster_limit, length_width, delta_width, behind};
ghost use Rattle.mapping_pairs.specs.Reading.{place_of};

use byteorder::{ByteOrder, LittleEndian};
use record_model::{PairsFault, Run, Runs};
use std::alloc::Global;

/// A volume has at most so many clusters.
const CLUSTER_LIMIT: u64 = 1 << 32;

/// Where a header stands, how many clusters the runs before it have, and the LCN that its delta is
/// relative to.
#[derive(Clone, Copy)]
struct Place {
    at: u64,
    clusters: u64,
    lcn: u64,
}

/// Reads mapping pairs (Linux-NTFS documentation, "Data runs"): the runs of a stream, the first of
/// them at virtual cluster `first_vcn`, the others behind it, modulo 2^64. What stands behind the
/// end's zero is free. The time is linear in the input.
///
/// The first fault is answered with the offset of its header, and of a header its first fault in
/// this order: `Header` where the low nibble is 0 or above 8, or the high nibble above 8; `Cut`
/// where the header or its bytes lie past the end; `Range` where the length is below 1, the logical
/// cluster below 0 or at least 2^32, or the sum of the lengths above 2^32. `Memory` is want of
/// memory.
pub fn read(alloc: Global, pairs: &[u8], first_vcn: u64) -> Result<Runs, PairsFault>
    ensures value { Gives (λ runs. runs) pairs_cause result (runs_of first_vcn pairs.now) }
{
    let mut runs = Runs::new(alloc);
    let mut place = Place {
        at: 0,
        clusters: 0,
        lcn: 0,
    };
    let mut rest = pairs;
    while let Some((first, bytes)) = rest.split_first() {
        let header = *first;
        if header == 0 {
            return Ok(runs);
        }
        let run = run_at(first_vcn, &place, header, bytes)?;
        runs.push(run)?;
        place = behind(&place, header, &run);
        rest = bytes.split_at(width(header)).1;
    }
    Err(PairsFault::Cut { at: place.at })
}

/// How many bytes a header gives to the length and the LCN delta together.
fn width(header: u8) -> usize
    ensures { result ≡ length_width header + delta_width header }
{
    usize::from(header % 16) + usize::from(header / 16)
}

/// The place behind a run that had this header.
fn behind(place: &Place, header: u8, run: &Run) -> Place
    requires room { place.now.at + 32 < 2 ^ 64 }
    requires clusters { place.now.clusters + run.now.len ≤ cluster_limit }
    ensures { place_of result ≡ behind (place_of place.now) header run.now }
{
    Place {
        at: place.at + 1 + width(header) as u64,
        clusters: place.clusters + run.len,
        lcn: run.lcn.unwrap_or(place.lcn),
    }
}

/// The signed little-endian number that one to eight bytes spell.
#[tactic(auto, unfolding(record_model::specs::Pairs::signed))]
fn signed(bytes: &[u8]) -> i64
    requires some { 0 < length bytes.now }
    requires few { length bytes.now ≤ 8 }
    ensures { result ≡ signed bytes.now }
{
    LittleEndian::read_int(bytes, bytes.len())
}

/// The length that these bytes give a run at a place, in clusters.
#[tactic(auto, unfolding(record_model::specs::Pairs::length_at))]
fn length_at(place: &Place, bytes: &[u8]) -> Result<u64, PairsFault>
    requires some { 0 < length bytes.now }
    requires few { length bytes.now ≤ 8 }
    requires within { place.now.clusters ≤ cluster_limit }
    ensures value { result ≡ length_at (place_of place.now) bytes.now }
    ensures within { IfOk result (λ len. place.now.clusters + len ≤ cluster_limit) }
{
    let length = signed(bytes);
    if length < 1 || length.unsigned_abs() > CLUSTER_LIMIT - place.clusters {
        return Err(PairsFault::Range { at: place.at });
    }
    Ok(length.unsigned_abs())
}

/// The LCN that these delta bytes give a run at a place, none where there are no bytes.
#[tactic(auto, unfolding(record_model::specs::Pairs::lcn_at))]
fn lcn_at(place: &Place, bytes: &[u8]) -> Result<Option<u64>, PairsFault>
    requires few { length bytes.now ≤ 8 }
    requires within { place.now.lcn < cluster_limit }
    ensures value { result ≡ lcn_at (place_of place.now) bytes.now }
    ensures within { IfOk result (λ lcn. IfSome lcn (λ n. n < cluster_limit)) }
{
    if bytes.is_empty() {
        return Ok(None);
    }
    match place.lcn.checked_add_signed(signed(bytes)) {
        Some(lcn) if lcn < CLUSTER_LIMIT => Ok(Some(lcn)),
        _ => Err(PairsFault::Range { at: place.at }),
    }
}

/// The run of a header at a place, with the bytes behind the header.
#[tactic(auto, unfolding(record_model::specs::Pairs::run_at))]
fn run_at(first_vcn: u64, place: &Place, header: u8, bytes: &[u8]) -> Result<Run, PairsFault>
    requires clusters { place.now.clusters ≤ cluster_limit }
    requires lcn { place.now.lcn < cluster_limit }
    ensures value { result ≡ run_at first_vcn (place_of place.now) header bytes.now }
    ensures inside { OnOk result (length_width header + delta_width header ≤ length bytes.now) }
    ensures clusters { IfOk result (λ run. place.now.clusters + run.len ≤ cluster_limit) }
    ensures lcn { IfOk result (λ run. IfSome run.lcn (λ n. n < cluster_limit)) }
{
    let length_width = usize::from(header % 16);
    let delta_width = usize::from(header / 16);
    let at = place.at;
    if length_width == 0 || length_width > 8 || delta_width > 8 {
        return Err(PairsFault::Header { at });
    }
    if length_width + delta_width > bytes.len() {
        return Err(PairsFault::Cut { at });
    }
    let (length, rest) = bytes.split_at(length_width);
    let len = length_at(place, length)?;
    let lcn = lcn_at(place, rest.split_at(delta_width).0)?;
    Ok(Run {
        vcn: first_vcn.wrapping_add(place.clusters),
        lcn,
        len,
    })
}
