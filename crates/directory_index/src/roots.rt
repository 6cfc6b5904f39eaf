//! The attributes of a directory's index.
ghost use Rattle.std.specs.Prelude.{◌≡◌, IfOk, IfSome, find};
ghost use Rattle.std.specs.Option.{option_copied};
ghost use Rattle.state_model.specs.Indexes.{is_names_root};
ghost use Rattle.volume_model.specs.Indexes.{form_value, root_value, index_stream};

use host_base::{Bytes, Memory};
use index_tree::stream_of;
use record_rules::FileRec;
use state_model::{Attr, INDEX_ALLOCATION, INDEX_ROOT, NAMES_INDEX, OwnForm, Stream};
use std::alloc::Global;

#[tactic(auto, unfolding(state_model::specs::Indexes::is_names_root))]
fn is_names_root(attr: &Attr) -> bool
    ensures { result ≡ is_names_root attr.now }
{
    attr.head.kind == INDEX_ROOT && attr.name.as_slice() == NAMES_INDEX.as_slice()
}

fn names_root(attrs: &[Attr]) -> Option<&Attr>
    ensures { option_copied result ≡ find is_names_root attrs.now }
{
    attrs.iter().find(|attr| is_names_root(attr))
}

// The value that stands in the record itself.
fn form_value(form: &OwnForm) -> Option<&Bytes>
    ensures { option_copied result ≡ form_value form.now }
{
    match form {
        OwnForm::Resident { value, .. } => Some(value),
        OwnForm::Mapped { .. } => None,
    }
}

/// The value of a directory's index root (Linux-NTFS documentation, "$INDEX_ROOT"), if it is
/// resident. It takes time linear in the attributes.
#[tactic(auto, unfolding(volume_model::specs::Indexes::root_value))]
pub fn root_value(file: &FileRec) -> Option<&Bytes>
    ensures { option_copied result ≡ root_value file.now }
{
    match names_root(file.attrs().as_slice()) {
        Some(root) => form_value(&root.form),
        None => None,
    }
}

/// The stream of a directory's index blocks (Linux-NTFS documentation, "$INDEX_ALLOCATION"), if
/// there is one. The error is want of memory. It takes time and memory linear in the attributes and
/// runs where the pieces of the stream stand in order.
#[tactic(auto, unfolding(volume_model::specs::Indexes::index_stream))]
pub fn index_stream(alloc: Global, file: &FileRec) -> Result<Option<Stream>, Memory>
    ensures value { IfOk result (λ stream. stream ≡ index_stream file.now) }
{
    stream_of(
        alloc,
        INDEX_ALLOCATION,
        &NAMES_INDEX,
        file.attrs().as_slice(),
    )
}
