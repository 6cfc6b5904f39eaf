//! Which blocks of a store's contents no rival shadows, whatever a crash leaves.
//!
//! Recovery leaves a block as it is on the disk where its list shadows it: where an update of another
//! kind of block on the same sectors stands behind the block's own last ended update. A block is
//! claimed so many commits back if no list that recovery may read, and that has so many commits
//! behind it, shadows it. So an image that a crash leaves recovers to a content on all that is
//! claimed there.
//!
//! The contract: the laws of these definitions, as functions with no body.
#![tactic(auto)]

mod laws;

pub use laws::{claim_vector, claimed_recovers, claimed_stays, claims_agree, claims_move};
