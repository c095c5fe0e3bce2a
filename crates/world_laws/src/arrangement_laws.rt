//! Laws of the order of events and of arranged lists. The functions do nothing: their contracts are
//! the laws.
ghost use Rattle.graph_model.specs.Entity.{entity_of, entity_cmp, is_about, about};
ghost use Rattle.graph_model.specs.Interval.{Interval};
ghost use Rattle.graph_model.specs.Rising.{put_after, Rises, IsInOrder};
ghost use Rattle.graph_model.specs.World.{World, IsLawful, type_cmp, put_type, event_cmp, arrange, events_of, base};
ghost use Rattle.graph_model.specs.declared.events.Entity.{Entity};
ghost use Rattle.graph_model.specs.declared.events.Event.{Event};
ghost use Rattle.graph_model.specs.declared.events.Model.{Model};
ghost use Rattle.world_laws.specs.Acceptance.{ArriveAlike, AreAccepted};
ghost use Rattle.std.specs.Cmp.{IsTotalOrder};
ghost use Rattle.std.specs.List.{filter};
ghost use Rattle.std.specs.List.Sorted.{IsPermutation};
ghost use Rattle.std.specs.Ordering.{is_gt, int_cmp, nat_cmp, is_eq};
ghost use Rattle.std.specs.Prelude.{◌≡◌, ◌≢◌, ℕ, ℤ, List, [], ◌∷◌, ◌++◌, false, ◌≤ℤ◌, if◌then◌else◌};
ghost use Rattle.std.specs.declared.cmp.Ordering.TheVariants.{Equal};

/// The order of events is total and transitive. It looks at the time first, then at the entity, and
/// then at the order; an event of order 0 is not greater than another of its entity and time.
pub fn events_are_in_order()
    ensures total { IsTotalOrder event_cmp }
    ensures time_first { (x y : Event)
        → int_cmp x.time y.time ≢ Equal
        → event_cmp x y ≡ int_cmp x.time y.time }
    ensures entity_next { (x y : Event)
        → int_cmp x.time y.time ≡ Equal
        → entity_cmp (entity_of x) (entity_of y) ≢ Equal
        → event_cmp x y ≡ entity_cmp (entity_of x) (entity_of y) }
    ensures order_last { (x y : Event)
        → int_cmp x.time y.time ≡ Equal
        → entity_cmp (entity_of x) (entity_of y) ≡ Equal
        → event_cmp x y ≡ nat_cmp x.order y.order }
    ensures carried_first { (e : Entity) (x y : Event)
        → entity_of x ≡ e
        → entity_of y ≡ e
        → x.order ≡ 0
        → x.time ≤ℤ y.time
        → is_gt (event_cmp x y) ≡ false }
{}

/// An arranged list has the events that it was made of, each as often.
pub fn arrangement_has_the_same_events()
    ensures { (xs : List Event) → IsPermutation xs (arrange xs) }
{}

/// In an arranged list no event is greater than one after it.
pub fn arrangement_is_in_order()
    ensures { (xs : List Event) → IsInOrder event_cmp (arrange xs) }
{}

/// Of events of one time, one entity and one order, an arranged list has what arrived, in the order
/// of arrival.
pub fn equal_events_stand_as_they_arrived()
    ensures { (x : Event) (xs : List Event)
        → filter (λ y. is_eq (event_cmp x y)) (arrange xs)
        ≡ filter (λ y. is_eq (event_cmp x y)) xs }
{}

/// What is in order stays as it is: an arrangement arranged is the same arrangement.
pub fn arranging_twice_is_arranging_once()
    ensures again { (xs : List Event) → arrange (arrange xs) ≡ arrange xs }
    ensures kept { (xs : List Event) → IsInOrder event_cmp xs → arrange xs ≡ xs }
{}

/// The last event to arrive goes after each that is not greater by time, entity and order.
pub fn late_event_goes_after_its_equals()
    ensures { (xs : List Event) (x : Event)
        → arrange (xs ++ x ∷ []) ≡ put_after event_cmp x (arrange xs) }
{}

/// What arrives is arranged alike, and makes the same base world, where each entity has the same
/// events at each moment and of each order, in the same succession.
pub fn arrival_counts_within_a_moment_alone()
    ensures base { (model : Model) (bounds : Interval) (types : List (List ℕ × List ℕ))
        (xs ys : List Event)
        → ArriveAlike xs ys
        → base model bounds types xs ≡ base model bounds types ys }
    ensures list { (xs ys : List Event) → ArriveAlike xs ys → arrange xs ≡ arrange ys }
{}

/// A lawful world is fixed by its model, its bounds, its types and the events of each entity; its
/// list by the events of each entity alone.
pub fn world_is_fixed_by_its_entities()
    ensures list { (v w : World)
        → IsLawful v
        → IsLawful w
        → ((e : Entity) → events_of v e ≡ events_of w e)
        → v.events ≡ w.events }
    ensures world { (v w : World)
        → IsLawful v
        → IsLawful w
        → v.model ≡ w.model
        → v.bounds ≡ w.bounds
        → v.types ≡ w.types
        → ((e : Entity) → events_of v e ≡ events_of w e)
        → v ≡ w }
{}

/// The base world of events that were accepted is lawful, and a lawful world is the base world of
/// its own events.
pub fn base_worlds_are_lawful()
    ensures lawful { (model : Model) (bounds : Interval) (types : List (List ℕ × List ℕ))
        (xs : List Event)
        → AreAccepted model bounds types xs
        → IsLawful (base model bounds types xs) }
    ensures types { (t : List ℕ × List ℕ) (types : List (List ℕ × List ℕ))
        → Rises type_cmp types
        → Rises type_cmp (put_type t types) }
    ensures itself { (w : World) → IsLawful w → base w.model w.bounds w.types w.events ≡ w }
{}

/// An event that arrives goes into the history of its entity, after each that is not greater, and
/// changes no other history.
pub fn late_event_goes_into_its_history()
    ensures { (e : Entity) (xs : List Event) (x : Event)
        → about e (arrange (xs ++ x ∷ []))
        ≡ (if is_about e x
        then put_after event_cmp x (about e (arrange xs))
        else about e (arrange xs)) }
{}
