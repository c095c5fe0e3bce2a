//! Laws of windows and of what they carry. The functions do nothing: their contracts are the laws.
ghost use Rattle.graph_model.specs.Compare.{live_events, last_value};
ghost use Rattle.graph_model.specs.Entity.{entity_of, props_of, is_deletion};
ghost use Rattle.graph_model.specs.Interval.{Interval, cut, is_empty};
ghost use Rattle.graph_model.specs.Props.{KeysRise, prop_value};
ghost use Rattle.graph_model.specs.Spell.{spell, IsWindowOf};
ghost use Rattle.graph_model.specs.Window.{window, clip_list, last_props, carried_events};
ghost use Rattle.graph_model.specs.World.{World, IsLawful, events_of};
ghost use Rattle.graph_model.specs.declared.events.Entity.{Entity};
ghost use Rattle.graph_model.specs.declared.events.Event.{Event};
ghost use Rattle.graph_model.specs.declared.events.Model.TheVariants.{Event as Instants, Persistent};
ghost use Rattle.world_laws.specs.CarriedEvent.{carried_event};
ghost use Rattle.std.specs.Int.{int_max, int_min};
ghost use Rattle.std.specs.List.{list_any, AllByRecursion};
ghost use Rattle.std.specs.Prelude.{◌≡◌, ℕ, ℤ, List, [], ◌∷◌, ◌++◌, Bool, true, false, IsTrue, take, length, slice_range, ◌+◌, IsFalse};

/// What a window shows of an entity depends on the events of that entity alone.
pub fn window_clips_each_entity()
    ensures { (w : World) (a b : ℤ) (e : Entity)
        → IsLawful w
        → events_of (window w a b) e ≡ clip_list w.model (cut w.bounds a b) (events_of w e) }
{}

/// A window of a window is one window, with all that it carries.
pub fn window_of_a_window()
    ensures { (w : World) (a b c d : ℤ)
        → IsLawful w
        → window (window w a b) c d ≡ window w (int_max a c) (int_min b d) }
{}

/// A window without a moment shows no event, and carries none.
pub fn empty_windows_have_no_events()
    ensures { (w : World) (a b : ℤ)
        → IsTrue (is_empty (cut w.bounds a b))
        → (window w a b).events ≡ [] }
{}

/// The live events are those after the last deletion: all, where there is none.
pub fn live_events_stand_after_the_last_deletion()
    ensures after { (xs : List Event) (x : Event) (ys : List Event)
        → IsTrue (is_deletion x)
        → IsFalse (list_any is_deletion ys)
        → live_events (xs ++ x ∷ ys) ≡ ys }
    ensures all { (xs : List Event) → IsFalse (list_any is_deletion xs) → live_events xs ≡ xs }
{}

/// An entity is carried where it has early events and the last of them is no deletion: as one
/// update of it at the beginning, of order 0, with the last properties that are live.
pub fn carried_after_an_event_that_is_no_deletion()
    ensures none { (lo : ℤ) → carried_events lo (live_events []) ≡ [] }
    ensures deleted { (lo : ℤ) (xs : List Event) (x : Event)
        → IsTrue (is_deletion x)
        → carried_events lo (live_events (xs ++ x ∷ [])) ≡ [] }
    ensures carried { (e : Entity) (lo : ℤ) (xs : List Event) (x : Event)
        → AllByRecursion (λ y. entity_of y ≡ e) (xs ++ x ∷ [])
        → IsFalse (is_deletion x)
        → carried_events lo (live_events (xs ++ x ∷ [])) ≡ carried_event e lo (live_events (xs ++ x ∷ [])) ∷ [] }
{}

/// For each key, a carried event has the last value that the live events set.
pub fn carried_values_are_the_last()
    ensures { (key : List ℕ) (xs : List Event)
        → AllByRecursion (λ x. KeysRise (props_of x)) xs
        → prop_value key (last_props xs) ≡ last_value key xs }
{}

/// What a window shows of an entity is what a part of its history spells.
pub fn windows_are_parts_of_histories()
    ensures persistent { (h : List Event) (i : Interval) (from to : ℕ) (flag : Bool)
        → IsWindowOf h i from to
        → (flag ≡ false → live_events (take from h) ≡ [])
        → clip_list Persistent i h ≡ spell h from to flag i.lo }
    ensures instants { (h : List Event) (i : Interval) (from to : ℕ)
        → IsWindowOf h i from to
        → clip_list Instants i h ≡ spell h from to false i.lo }
{}

/// A span that is carried after an event that is no deletion spells one update of the entity at the
/// beginning, of order 0 and with the last properties that are live, and then its part of the
/// history.
pub fn carried_span_spells_one_event_first()
    ensures { (e : Entity) (before : List Event) (x : Event) (after : List Event) (to : ℕ) (lo : ℤ)
        → AllByRecursion (λ y. entity_of y ≡ e) (before ++ x ∷ [])
        → IsFalse (is_deletion x)
        → spell (before ++ x ∷ after) (length before + 1) to true lo
        ≡ carried_event e lo (live_events (before ++ x ∷ []))
        ∷ slice_range (before ++ x ∷ after) (length before + 1) to }
{}
