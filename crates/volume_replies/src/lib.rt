//! What a volume replies to an operation of a script.
//!
//! The contract: the reply is a step of the volume's tree, for which room is made in the log where it
//! needs some; behind this no more pages of it are begun than its ring has; a sync says that all turns
//! before it are durable only once they are; whatever a crash leaves meanwhile could be left before, or
//! mounts as one of the trees that the volume had; and a failure of the device is replied only where it
//! failed, and passed over by no other reply.
#![tactic(auto)]

mod replying;
mod rooming;

pub use replying::reply_to;
pub use rooming::change_with_room;
pub use volume_sync::Volume;
