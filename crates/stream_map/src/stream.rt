ghost use Rattle.std.specs.Prelude.{◌≡◌, ◌++◌, IfOk, OnOk, length};
ghost use Rattle.std.specs.List.{flat_map};
ghost use Rattle.record_model.specs.Pairs.{runs_of};
ghost use Rattle.state_model.specs.Streams.{runs_or, form_runs, attribute_runs, joined, stream_of, real_size};
ghost use Rattle.stream_map.specs.Attributes.{behind};
ghost use Rattle.state_model.specs.Loads.{no_extents};

use super::attributes::attributes_of;
use record_model::{Attr, OwnForm, PairsFault, Runs};
use state_model::{Extents, Memory, Stream};
use std::alloc::Global;

/// The runs that mapping pairs spell from this first VCN on (Linux-NTFS documentation, "Data
/// runs"), or none where the pairs are at fault. The error is want of memory; linear in the pairs.
pub fn runs_or(alloc: Global, first: u64, pairs: &[u8]) -> Result<Runs, Memory>
    ensures { IfOk result (λ runs. runs ≡ runs_or (runs_of first pairs.now)) }
{
    match mapping_pairs::read(alloc, pairs, first) {
        Ok(runs) => Ok(runs),
        Err(PairsFault::Memory) => Err(Memory),
        Err(PairsFault::Header { .. }) => Ok(Runs::new(alloc)),
        Err(PairsFault::Cut { .. }) => Ok(Runs::new(alloc)),
        Err(PairsFault::Range { .. }) => Ok(Runs::new(alloc)),
    }
}

/// Puts an attribute's runs behind others: those of its mapping pairs, none where these are at
/// fault or the attribute is resident. The error is want of memory; linear in the pairs.
pub fn push_runs(alloc: Global, out: &mut Runs, form: &OwnForm) -> Result<(), Memory>
    ensures { OnOk result (out.new ≡ out.old ++ form_runs form.now) }
{
    match form {
        OwnForm::Resident { .. } => Ok(()),
        OwnForm::Mapped { sizes, pairs } => {
            let runs = runs_or(alloc, sizes.first, pairs.as_slice())?;
            out.extend(&runs)?;
            Ok(())
        }
    }
}

#[tactic(auto, unfolding(state_model::specs::Streams::attribute_runs))]
fn joined_runs(alloc: Global, attributes: &[&Attr]) -> Result<Runs, Memory>
    ensures { IfOk result (λ runs. runs ≡ flat_map attribute_runs (behind attributes.now)) }
{
    let mut runs = Runs::new(alloc);
    for attribute in attributes {
        push_runs(alloc, &mut runs, &attribute.form)?;
    }
    Ok(runs)
}

fn joined(alloc: Global, attributes: &[&Attr]) -> Result<Option<Stream>, Memory>
    ensures { IfOk result (λ stream. stream ≡ joined (behind attributes.now)) }
{
    let Some((first, _)) = attributes.split_first() else {
        return Ok(None);
    };
    match &first.form {
        OwnForm::Resident { value, .. } => Ok(Some(Stream::Held(value.clone()?))),
        OwnForm::Mapped { sizes, .. } => Ok(Some(Stream::Placed(Extents {
            runs: joined_runs(alloc, attributes)?,
            allocated: sizes.allocated,
            real: sizes.real,
            initialised: sizes.initialised,
        }))),
    }
}

/// The stream with this type and name (in UTF-16 units) among a record's attributes, if there is
/// one (Linux-NTFS documentation, "Attribute Header"): the value of its first attribute, where that
/// is resident, else the runs of all its attributes by rising first VCN, with the sizes of the
/// first. An attribute whose mapping pairs are at fault has no runs. The error is want of memory.
///
/// Linear in the attributes and the runs where the attributes stand by rising first VCN; each
/// attribute that does not takes one pass over the attributes before it.
#[tactic(auto, unfolding(state_model::specs::Streams::stream_of))]
pub fn stream_of(
    alloc: Global,
    kind: u32,
    name: &[u16],
    attrs: &[Attr],
) -> Result<Option<Stream>, Memory>
    ensures value { IfOk result (λ stream. stream ≡ stream_of kind name.now attrs.now) }
{
    let attributes = attributes_of(alloc, kind, name, attrs)?;
    joined(alloc, &attributes)
}

/// No clusters, and no bytes; this takes no memory.
pub fn no_extents(alloc: Global) -> Extents
    ensures value { result ≡ no_extents }
{
    Extents {
        runs: Runs::new(alloc),
        allocated: 0,
        real: 0,
        initialised: 0,
    }
}

/// The real size of a stream in bytes: that of its value, or the one that its first attribute
/// states.
pub fn real_size(stream: &Stream) -> u64
    ensures { result ≡ real_size stream.now }
{
    match stream {
        Stream::Held(value) => value.len() as u64,
        Stream::Placed(extents) => extents.real,
    }
}
