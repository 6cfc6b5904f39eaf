//! The laws of these definitions.
ghost use Rattle.plan_edits.specs.Edits.{ResizedIsEdit, StateHasBitmap};
ghost use Rattle.plan_edits.specs.Moves.{MovedIsEdit};
ghost use Rattle.plan_edits.specs.Puts.{DraftsPutBlocks};
ghost use Rattle.plan_edits.specs.Records.{RecordIsEdit};
ghost use Rattle.plan_edits.specs.Sizes.{SizedIsEdit};
ghost use Rattle.plan_edits.specs.Written.{WrittenIsRead};

/// Law: a record in use that is put as it is written is read as that record.
pub fn written_is_read()
    ensures { WrittenIsRead }
{}

/// Law: what a draft puts are the bodies of one edit, over those that it had.
pub fn drafts_put_blocks()
    ensures { DraftsPutBlocks }
{}

/// Law: a file that a draft has put, of which a stream took clusters or was cut, is the edit of a plan
/// that leads from a state to a state.
pub fn resized_is_edit()
    ensures { ResizedIsEdit }
{}

/// Law: what a state says of the bitmap of clusters, for what is put into it.
pub fn state_has_bitmap()
    ensures { StateHasBitmap }
{}

/// Law: a value that a draft has put, which left its record for clusters, is the edit of a plan that
/// leads from a state to a state.
pub fn moved_is_edit()
    ensures { MovedIsEdit }
{}

/// Law: a record that a draft has put, with its mirror, are the bodies of an edit, and the bits of the
/// clusters stay.
pub fn record_is_edit()
    ensures { RecordIsEdit }
{}

/// Law: a file that a draft has put, of which a stream got other sizes, and bytes of the stream are
/// the edit of a plan that leads from a state to a state, and the stream is read with the bytes.
pub fn sized_is_edit()
    ensures { SizedIsEdit }
{}
