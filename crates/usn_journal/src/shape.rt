//! The shape of the journal's two streams.
ghost use Rattle.std.specs.Prelude.{◌≡◌, ◌≤◌, not, find, Ok, Err, MatchOption, IfSome};
ghost use Rattle.std.specs.List.{list_all};
ghost use Rattle.std.specs.Option.{option_copied};
ghost use Rattle.volume_map.specs.volume_model.Sizes.{is_hole};
ghost use Rattle.volume_state.specs.Journals.{ends_within, run_place, journal_first, has_journal_shape, limits_in, entries_in};

use record_rules::is_sparse;
use volume_map::{ClusterSize, Extents, FixedValue, JournalMax, Run, Stream, is_hole};

// The bytes of a sector.
const SECTOR: u128 = 512;

// The most bytes that are allocated to a journal.
const MOST_ALLOCATED: u64 = 8_796_093_022_208;

// Whether the run isn't sparse, or ends within so many bytes.
fn ends_within(per: ClusterSize, size: u128, run: &Run) -> bool
    ensures { result ≡ ends_within per size run.now }
{
    let (vcn, len, per) = (
        u128::from(run.vcn),
        u128::from(run.len),
        u128::from(per.sectors()),
    );
    !is_hole(run) || (vcn + len) * (SECTOR * per) <= size
}

fn all_end_within(per: ClusterSize, size: u128, runs: &[Run]) -> bool
    ensures { result ≡ list_all (ends_within per size) runs.now }
{
    runs.iter().all(|run| ends_within(per, size, run))
}

// The first run that isn't sparse.
fn first_whole(runs: &[Run]) -> Option<&Run>
    ensures { option_copied result ≡ find (λ r. not (is_hole r)) runs.now }
{
    runs.iter().find(|run| !is_hole(run))
}

fn run_place(per: ClusterSize, size: u64, run: Option<&Run>) -> u128
    ensures { result ≡ run_place per size (option_copied run.entry) }
{
    match run {
        Some(run) => u128::from(run.vcn) * (SECTOR * u128::from(per.sectors())),
        None => u128::from(size),
    }
}

// Where the journal begins: at its first cluster that isn't sparse, or at its end.
#[tactic(auto, unfolding(volume_state::specs::Journals::journal_first))]
fn first_place(per: ClusterSize, extents: &Extents) -> u128
    ensures { result ≡ journal_first per extents.now }
{
    let run = first_whole(extents.runs.as_slice());
    run_place(per, extents.real, run)
}

#[tactic(auto, unfolding(volume_state::specs::Journals::has_journal_shape))]
pub fn has_shape(per: ClusterSize, flags: u16, extents: &Extents) -> bool
    ensures { result ≡ has_journal_shape per flags extents.now }
{
    let runs = extents.runs.as_slice();
    let real = u128::from(extents.real);
    let first = first_place(per, extents);
    is_sparse(flags)
        && extents.initialised == extents.real
        && all_end_within(per, real, runs)
        && all_end_within(per, first, runs)
        && first <= real
        && extents.allocated <= MOST_ALLOCATED
}

/// The limits that `$Max` holds; none where it isn't resident, or is too short.
pub fn limits_of(stream: &Stream) -> Option<JournalMax>
    ensures value { MatchOption result (limits_in stream.now ≡ Err 0) (λ limits. limits_in stream.now ≡ Ok limits) }
{
    match stream {
        Stream::Held(value) => match JournalMax::read(value.as_slice()) {
            Ok(limits) => Some(limits),
            Err(_) => None,
        },
        Stream::Placed(_) => None,
    }
}

/// The clusters of `$J`, which has these flags; none where it is resident, or out of shape. A
/// volume has `per` sectors a cluster. Linear in the runs.
pub fn entries_of(per: ClusterSize, flags: u16, stream: &Stream) -> Option<&Extents>
    ensures value { MatchOption result (entries_in per flags stream.now ≡ Err 0) (λ e. entries_in per flags stream.now ≡ Ok e.now) }
    ensures first { IfSome result (λ e. journal_first per e.now ≤ e.now.real) }
{
    match stream {
        Stream::Placed(extents) if has_shape(per, flags, extents) => Some(extents),
        _ => None,
    }
}

/// Where a journal in shape begins, in bytes.
pub fn first_byte(per: ClusterSize, extents: &Extents) -> u64
    requires inside { journal_first per extents.now ≤ extents.now.real }
    ensures value { result ≡ journal_first per extents.now }
{
    let _real = extents.real;
    first_place(per, extents) as u64
}
