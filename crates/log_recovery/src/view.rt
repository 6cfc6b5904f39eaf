ghost use Rattle.std.specs.Prelude.{◌≡◌, ◌*◌, All, IfErr, IfSome, IsOk, OnOk, length};
ghost use Rattle.host_base.specs.Causes.{HasCause};
ghost use Rattle.log_reading.specs.disk_model.Sectors.{sectors};
ghost use Rattle.std.specs.Option.{option_map, option_copied};
ghost use Rattle.log_reading.specs.block_view.declared.fault.ViewFault.TheVariants.{Fault};
ghost use Rattle.log_reading.specs.block_view.Borrowed.{BorrowedView};
ghost use Rattle.log_recovery.specs.Borrowing.{borrowed_view};
ghost use Rattle.log_recovery.specs.Recovering.{held_body, content_with, IsSized};
ghost use Rattle.log_recovery.specs.Places.{HasPlaces};
ghost use Rattle.log_recovery.specs.Sizes.{sized_with};

use crate::found::{RecoveredBlock, RecoveredBody};
use crate::places::{Places, body_in};
use log_reading::{Block, Body, View, ViewFault};

/// A view with these bodies in place of its own: with those that recovery found, the recovered
/// content of the view.
#[derive(Drop)]
pub struct RecoveredView<'a, V: View> {
    pub view: &'a mut V,
    /// Each has its block's size.
    pub bodies: &'a [RecoveredBlock],
    /// Where they stand, by `places_of`.
    pub places: &'a Places,
    pub ghost sized: { All IsSized bodies.now },
    pub ghost right: { HasPlaces bodies.now places.now },
}

impl<'a, V: View> RecoveredView<'a, V> {
    /// A view with these bodies, which stand at these places by `places_of`.
    pub fn new(view: &'a mut V, bodies: &'a [RecoveredBlock], places: &'a Places) -> Self
        requires sized { All IsSized bodies.now }
        requires right { HasPlaces bodies.now places.now }
        ensures content { ⟦<RecoveredView<'a, V> as View>⟧.content result ≡ option_map (content_with bodies.now) (V.content view.entry.now) }
        ensures faults { ⟦<RecoveredView<'a, V> as View>⟧.faults result ≡ V.faults view.entry.now }
        ensures kept { ⟦<RecoveredView<'a, V> as View>⟧.kept result ≡ borrowed_view V.content V.kept view.entry.ghost_name view.entry.now }
    {
        RecoveredView {
            view,
            bodies,
            places,
        }
    }
}

// The body that is held of a block, with its size.
fn sized_body_in<'a>(
    bodies: &'a [RecoveredBlock],
    places: &Places,
    block: Block,
) -> Option<&'a RecoveredBody>
    requires sized { All IsSized bodies.now }
    requires places { HasPlaces bodies.now places.now }
    ensures value { option_copied result ≡ held_body bodies.now block }
    ensures size { IfSome result (λ body. length body.now.bytes ≡ 512 * sectors block.kind) }
{
    body_in(bodies, places, block)
}

impl<'a, V: View> View for RecoveredView<'a, V> {
    ghost content = { λ o. option_map (content_with o.bodies.now) (V.content o.view.now) };

    ghost faults = { λ o. V.faults o.view.now };

    ghost Kept = { BorrowedView V.Kept };

    ghost kept = { λ o. record { reference = o.view.ghost_name; content = V.content o.view.now; kept = V.kept o.view.now } };

    /// One search among the bodies, or the view's body: of a block that has a body here the view
    /// isn't asked, so that it can't fail.
    fn body(&mut self, block: Block, out: &mut Body) -> Result<(), ViewFault>
        ensures body { OnOk result (IfSome (⟦<RecoveredView<'a, V> as View>⟧.content self.old) (λ c. out.new ≡ c block)) }
        ensures size { OnOk result (length out.new.bytes ≡ 512 * sectors block.kind) }
        ensures fault { IfErr result (λ e. e ≡ Fault) }
        ensures same { ⟦<RecoveredView<'a, V> as View>⟧.content self.new ≡ ⟦<RecoveredView<'a, V> as View>⟧.content self.old }
        ensures kept { ⟦<RecoveredView<'a, V> as View>⟧.kept self.new ≡ ⟦<RecoveredView<'a, V> as View>⟧.kept self.old }
        ensures cause { HasCause (⟦<RecoveredView<'a, V> as View>⟧.faults self.old) (⟦<RecoveredView<'a, V> as View>⟧.faults self.new) result }
        ensures held { IfSome (held_body self.old.bodies.now block) (λ _. IsOk result × (self.new.view.now ≡ self.old.view.now)) }
    {
        match sized_body_in(self.bodies, self.places, block) {
            Some(body) => {
                out.set(body.bytes(), body.torn());
                Ok(())
            }
            None => self.view.body(block, out),
        }
    }

    ghost sized = { λ o. sized_with o.bodies.now o.sized (V.content o.view.now) (V.sized o.view.now) };
}
