//! A view that is lent to something that takes one by value.
ghost use Rattle.block_view.specs.Borrowed.{BorrowedView};

use block_view::{View, ViewFault};
use disk_model::{Block, Body};

/// A view that is lent: that view, for something that takes one by value. It costs nothing.
#[derive(Drop)]
pub struct LentView<'a, V: View> {
    pub view: &'a mut V,
}

impl<'a, V: View> View for LentView<'a, V> {
    ghost content = { λ lent. V.content lent.view.now };

    ghost faults = { λ lent. V.faults lent.view.now };

    ghost Kept = { BorrowedView V.Kept };

    ghost kept = { λ lent. record { reference = lent.view.ghost_name; content = V.content lent.view.now; kept = V.kept lent.view.now } };

    fn body(&mut self, block: Block, out: &mut Body) -> Result<(), ViewFault> {
        self.view.body(block, out)
    }

    ghost sized = { λ lent. V.sized lent.view.now };
}
