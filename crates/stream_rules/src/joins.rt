//! Attributes that leave no VCN out.
ghost use Rattle.std.specs.Prelude.{◌≡◌, ◌+◌, ◌^◌, ◌≤◌, IfOk};
ghost use Rattle.state_model.specs.Streams.{form_runs, attributes_of};
ghost use Rattle.state_model.specs.Loads.{total_clusters};
ghost use Rattle.stream_map.specs.Attributes.{behind};
ghost use Rattle.volume_model.specs.Sizes.{follow, are_joined};

use host_base::Memory;
use state_model::{Attr, OwnForm, Run};
use std::alloc::Global;
use stream_map::{attributes_of, first_vcn, runs_or};

/// How many clusters runs have, those of sparse ones among them; linear in the runs.
pub fn total_clusters(runs: &[Run]) -> u128
    ensures value { result ≡ total_clusters runs.now }
    ensures most { result + 2 ^ 64 ≤ 2 ^ 128 }
{
    let mut total = 0;
    for run in runs {
        total += u128::from(run.len);
    }
    total
}

// How many clusters an attribute has.
fn form_clusters(alloc: Global, form: &OwnForm) -> Result<u128, Memory>
    ensures value { IfOk result (λ n. n ≡ total_clusters (form_runs form.now)) }
    ensures most { IfOk result (λ n. n + 2 ^ 64 ≤ 2 ^ 128) }
{
    match form {
        OwnForm::Resident { .. } => Ok(0),
        OwnForm::Mapped { sizes, pairs } => {
            let runs = runs_or(alloc, sizes.first, pairs.as_slice())?;
            Ok(total_clusters(runs.as_slice()))
        }
    }
}

// Whether attributes have clusters, at least one each, the first from VCN 0 on, and each other one
// from the end of the one before it.
#[tactic(auto, unfolding(state_model::specs::Streams::attribute_runs))]
fn follow(alloc: Global, attributes: &[&Attr]) -> Result<bool, Memory>
    ensures { IfOk result (λ all. all ≡ follow 0 (behind attributes.now)) }
{
    let mut vcn = 0;
    for attribute in attributes {
        let clusters = form_clusters(alloc, &attribute.form)?;
        if u128::from(first_vcn(attribute)) != vcn || clusters == 0 {
            return Ok(false);
        }
        vcn += clusters;
    }
    Ok(true)
}

fn are_joined(alloc: Global, attributes: &[&Attr]) -> Result<bool, Memory>
    ensures { IfOk result (λ joined. joined ≡ are_joined (behind attributes.now)) }
{
    match attributes {
        [] => Ok(true),
        [attribute] => Ok(first_vcn(attribute) == 0),
        [_, _, ..] => follow(alloc, attributes),
    }
}

/// Whether the stream with this type and name (in UTF-16 units) among attributes is one attribute
/// that begins at VCN 0, or attributes with clusters that have each VCN once (Linux-NTFS
/// documentation, "Attribute Header"). The error is want of memory. Linear in the attributes and
/// the runs where the attributes stand by rising first VCN; each attribute that does not takes one
/// pass over the attributes before it.
pub fn is_joined(alloc: Global, kind: u32, name: &[u16], attrs: &[Attr]) -> Result<bool, Memory>
    ensures { IfOk result (λ joined. joined ≡ are_joined (attributes_of kind name.now attrs.now)) }
{
    let attributes = attributes_of(alloc, kind, name, attrs)?;
    are_joined(alloc, &attributes)
}
