ghost use Rattle.std.specs.Prelude.{◌≡◌, ◌∷◌, [], OnOk};
ghost use Rattle.index_plan.specs.Room.{EachNodeSized, EachSpotSized, Sized};

use crate::frame::Frame;
use crate::write::Write;
use std::alloc::{AllocError, Global};
use std::marker::Model;

/// The nodes on the way to a key, from the top down, and the chain of nodes that lead to the last
/// keys below it.
#[derive(Debug, Drop)]
pub struct Trail {
    path: Vec<Frame>,
    chain: Vec<Write>,
}

impl Model for Trail {
    ghost use Rattle.index_plan.specs.Plans.{Trail as TrailOf};
    ghost use Rattle.index_plan.specs.Room.{EachNodeSized, EachSpotSized};

    ghost Value = { TrailOf };

    ghost view = { λ t. record { path = t.path.items; chain = t.chain.items } };

    ghost invariant = { λ t. EachSpotSized t.path.items × EachNodeSized t.chain.items };
}

impl Trail {
    /// The trail of a key in the node that is looked through.
    pub fn new(alloc: Global, chain: Vec<Write>) -> Trail
        requires { EachNodeSized chain.items }
        ensures { result ≡ record { path = []; chain = chain.items } }
    {
        Trail {
            path: Vec::new(alloc),
            chain,
        }
    }

    /// One node more, above the others. The error is want of memory. Linear in the nodes.
    pub fn put_above(&mut self, frame: Frame) -> Result<(), AllocError>
        requires { Sized frame.node }
        ensures { OnOk result (self.new ≡ record { path = frame ∷ self.old.path; chain = self.old.chain }) }
    {
        self.path.insert(0, frame)?;
        Ok(())
    }

    /// The nodes on the way, and the chain.
    pub fn into_parts(self) -> (Vec<Frame>, Vec<Write>)
        ensures path { result.0.items ≡ self.path }
        ensures chain { result.1.items ≡ self.chain }
        ensures path_sized { EachSpotSized result.0.items }
        ensures chain_sized { EachNodeSized result.1.items }
    {
        let Trail { path, chain } = self;
        (path, chain)
    }
}
