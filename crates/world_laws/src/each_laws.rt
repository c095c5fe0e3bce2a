//! Laws of the windows that roll or expand over a world. The functions do nothing: their contracts
//! are the laws.
ghost use Rattle.graph_model.specs.Interval.{earliest, latest};
ghost use Rattle.graph_model.specs.Window.{window};
ghost use Rattle.graph_model.specs.Windows.{step_of, window_count, windows, window_start, window_end, last_time, bounded};
ghost use Rattle.graph_model.specs.World.{World, IsLawful};
ghost use Rattle.graph_model.specs.declared.events.Event.{Event};
ghost use Rattle.graph_model.specs.declared.queries.Each.{Each};
ghost use Rattle.graph_model.specs.declared.queries.Each.TheVariants.{Rolling, Expanding};
ghost use Rattle.std.specs.List.{Contains};
ghost use Rattle.std.specs.Prelude.{◌≡◌, ◌↔◌, ℕ, ℤ, List, [], ◌∷◌, ◌<◌, ◌≤ℤ◌, ◌+ℤ◌, ◌*ℤ◌, pos, length, slice_get, Some, Option, ◌^◌, ◌-ℤ◌, ◌+◌, neg_ℤ, ◌<ℤ◌};
ghost use Rattle.world_laws.specs.Ends.{IsBound, IsWindowInRow};

/// There is a window for each `k` at which the first time and `k` steps are not past the last time.
pub fn windows_are_counted()
    ensures { (each : Each) (first last : ℤ) (k : ℕ)
        → pos 1 ≤ℤ step_of each
        → first ≤ℤ last
        → (k < window_count each first last) ↔ ((first +ℤ (pos k *ℤ step_of each)) ≤ℤ last) }
{}

/// The windows of a world roll or expand from the first event: the `k`-th ends `k + 1` steps after
/// the first time, and begins its width before, or at the first time; both are brought into the
/// range of bounds.
pub fn windows_stand_in_their_places()
    ensures none { (w : World) (each : Each) → w.events ≡ [] → windows w (Some each) ≡ [] }
    ensures counted { (w : World) (each : Each) (x : Event) (xs : List Event)
        → w.events ≡ x ∷ xs
        → length (windows w (Some each)) ≡ window_count each x.time (last_time x.time xs) }
    ensures placed { (w : World) (each : Each) (x : Event) (xs : List Event) (k : ℕ)
        → w.events ≡ x ∷ xs
        → k < window_count each x.time (last_time x.time xs)
        → slice_get (windows w (Some each)) k
        ≡ Some
        (window w (bounded (window_start each x.time k)) (bounded (window_end each x.time k))) }
    ensures ends { (each : Each) (first : ℤ) (k : ℕ)
        → window_end each first k ≡ first +ℤ (pos (k + 1) *ℤ step_of each) }
    ensures rolling { (width step first : ℤ) (k : ℕ)
        → window_start (Rolling width step) first k
        ≡ window_end (Rolling width step) first k -ℤ width }
    ensures expanding { (step first : ℤ) (k : ℕ) → window_start (Expanding step) first k ≡ first }
{}

/// Each window of a lawful world is a lawful world.
pub fn windows_of_lawful_worlds_are_lawful()
    ensures { (w v : World) (each : Option Each)
        → IsLawful w
        → Contains (windows w each) v
        → IsLawful v }
{}

/// The ends of each window of an `each` are ends that a cut may have, and before they are brought
/// into range they fit 64 signed bits.
pub fn ends_of_windows_are_bounds()
    ensures bounded { (t : ℤ) → IsBound (bounded t) }
    ensures kept { (t : ℤ) → IsBound t → bounded t ≡ t }
    ensures early { (t : ℤ) → t ≤ℤ earliest → bounded t ≡ earliest }
    ensures late { (t : ℤ) → latest ≤ℤ t → bounded t ≡ latest }
    ensures begins { (each : Each) (first last : ℤ) (k : ℕ)
        → IsWindowInRow each first last k
        → neg_ℤ (pos (2 ^ 63)) ≤ℤ window_start each first k }
    ensures ends { (each : Each) (first last : ℤ) (k : ℕ)
        → IsWindowInRow each first last k
        → window_end each first k <ℤ pos (2 ^ 63) }
{}
