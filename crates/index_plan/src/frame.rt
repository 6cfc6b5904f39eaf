ghost use Rattle.std.specs.Prelude.{◌≡◌, ◌<◌, length};

use record_model::EntryList;
use std::marker::Model;

/// A node on the way, and the place in it that the way goes through.
#[derive(Debug, Drop)]
pub struct Frame {
    vcn: u64,
    node: EntryList,
    at: usize,
}

impl Model for Frame {
    ghost use Rattle.std.specs.Prelude.{length, ◌<◌};
    ghost use Rattle.index_plan.specs.Plans.{Spot};

    ghost Value = { Spot };

    ghost view = { λ f. record { vcn = f.vcn; node = f.node; at = f.at } };

    ghost invariant = { λ f. f.at < length f.node };
}

impl Frame {
    pub fn new(vcn: u64, node: EntryList, at: usize) -> Frame
        requires { at < length node }
        ensures { result ≡ record { vcn = vcn; node = node; at = at } }
    {
        Frame { vcn, node, at }
    }

    pub fn into_parts(self) -> (u64, EntryList, usize)
        ensures vcn { result.0 ≡ self.vcn }
        ensures node { result.1 ≡ self.node }
        ensures at { result.2 ≡ self.at }
        ensures inside { result.2 < length result.1 }
    {
        let Frame { vcn, node, at } = self;
        (vcn, node, at)
    }
}
