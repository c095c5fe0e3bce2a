//! Laws of rosters. The functions do nothing: their contracts are the laws.
ghost use Rattle.std.specs.Prelude.{Bool, ℤ};
ghost use Rattle.graph_model.specs.Keep.{keep};
ghost use Rattle.graph_model.specs.Window.{window};
ghost use Rattle.graph_model.specs.World.{World, IsLawful};
ghost use Rattle.graph_model.specs.declared.events.Entity.{Entity};
ghost use Rattle.graph_store.specs.Contents.{Contents};
ghost use Rattle.view_trait.specs.Coverage.{Covers};
ghost use Rattle.view_trait.specs.declared.rosters.Roster.{Roster};
ghost use Rattle.view_trait.specs.declared.rosters.Roster.TheVariants.{All as Whole};

/// The roster of all nodes and edges covers each world.
pub fn whole_roster_covers_each_world()
    ensures { (c : Contents) (w : World) → Covers c w Whole }
{}

/// A roster that covers a world covers each window of it.
pub fn windows_are_covered()
    ensures { (c : Contents) (w : World) (a b : ℤ) (r : Roster)
        → IsLawful w → Covers c w r → Covers c (window w a b) r }
{}

/// A roster that covers a world covers what each keeping view shows of it.
pub fn keeping_views_are_covered()
    ensures { (c : Contents) (w : World) (p : Entity → Bool) (r : Roster)
        → Covers c w r → Covers c (keep p w) r }
{}
