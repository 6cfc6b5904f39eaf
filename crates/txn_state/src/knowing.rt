//! What is always so of a store.
ghost use Rattle.txn_state.specs.States.{facts_of, IsStore};

use crate::state::StoreState;

impl StoreState {
    /// Law: what is always so of a store.
    pub fn known(&self)
        ensures { IsStore (facts_of self.now) }
    {
        let _ = &self.place;
    }
}
