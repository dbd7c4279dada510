//! What every world is.
ghost use Rattle.std.specs.Prelude.{◌≡◌, ℕ, List, Some};
ghost use Rattle.app_model.specs.App.{App};
ghost use Rattle.headline.specs.world_values_laws.Values.{HasValues};
ghost use Rattle.headline.specs.world_model.Headline.{IsTrueWorld, HaveLongAlone, AreAtRest};
ghost use Rattle.headline.specs.world_model.Store.{programs};
ghost use Rattle.headline.specs.world_model.Settle.{settled};
ghost use Rattle.headline.specs.world_model.World.{start};
ghost use Rattle.headline.specs.world_invariant_laws.Links.{IsLinked};
ghost use Rattle.headline.specs.world_invariant_laws.Session.{IsServed};
ghost use Rattle.connection_laws.specs.Connection.{AConnection, as_conn};
ghost use Rattle.world_laws.specs.World.{AWorld, new_world, as_world, connection_of, IsWorld};

/// A new world is that of its application at the beginning.
pub fn worlds_begin()
    ensures is { (app : App) → as_world (new_world app) ≡ start app }
    ensures stays { (app : App) → HasValues (programs app) → IsWorld (new_world app) }
{}

/// The headline holds of a world that is kept, and its clients refused a text for its length alone.
pub fn kept_worlds_are_true()
    ensures true_world { (x : AWorld) → IsWorld x → IsTrueWorld (as_world x) }
    ensures long_alone { (x : AWorld) → IsWorld x → HaveLongAlone (as_world x) }
{}

/// Where it settles, its sessions are at rest.
pub fn settled_worlds_are_at_rest()
    ensures { (x : AWorld) → IsWorld x → AreAtRest (settled (as_world x)) }
{}

/// Each client is linked with its session, which serves it: what beginning a call and learning of a refusal ask for.
pub fn clients_are_served()
    ensures linked { (x : AWorld) → IsWorld x → (name : List ℕ) (c : AConnection) → connection_of x name ≡ Some c → IsLinked x.app x.history (as_conn c) }
    ensures served { (x : AWorld) → IsWorld x → (name : List ℕ) (c : AConnection) → connection_of x name ≡ Some c → IsServed x.app x.history (as_conn c) }
{}
