ghost use Rattle.plan_bodies.specs.Bodies.{BodiesPut};

/// Law: whole bodies over one content, each of its own block, stand in their blocks; more of them are
/// put into the one list.
pub fn bodies_put()
    ensures { BodiesPut }
{}
