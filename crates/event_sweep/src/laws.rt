//! Laws of sweeps. The functions do nothing: their contracts are the laws.
ghost use Rattle.std.specs.Prelude.{◌≡◌, ℕ, ℤ, List, [], ◌&&◌, false, int_le, int_lt};
ghost use Rattle.std.specs.List.{filter};
ghost use Rattle.graph_model.specs.Window.{window};
ghost use Rattle.graph_model.specs.World.{World, IsLawful, events_of};
ghost use Rattle.graph_model.specs.declared.events.Entity.{Entity};
ghost use Rattle.graph_model.specs.declared.events.Model.TheVariants.{Event as Instants};
ghost use Rattle.event_sweep.specs.Held.{AreHeld, additions_last};
ghost use Rattle.event_sweep.specs.Swept.{is_shown};
ghost use Rattle.event_sweep.specs.declared.held_events.HeldEvent.{HeldEvent};

/// A node or an edge whose events are held under a number has no event in a window that does not
/// show the number.
pub fn what_is_not_shown_has_no_event()
    ensures { (w : World) (a b : ℤ) (held : List HeldEvent) (n : ℕ) (x : Entity)
        → IsLawful w
        → AreHeld held n (events_of w x)
        → is_shown (additions_last w.model) held a b n ≡ false
        → events_of (window w a b) x ≡ [] }
{}

/// In the event model a window has the events from its beginning up to its end.
pub fn event_windows_have_what_is_inside()
    ensures { (w : World) (a b : ℤ)
        → IsLawful w
        → w.model ≡ Instants
        → (window w a b).events ≡ filter (λ x. int_le a x.time && int_lt x.time b) w.events }
{}
