//! What the definitions say of small graphs. The functions do nothing: their contracts are the
//! facts.
ghost use Rattle.std.specs.Prelude.{codes, ◌≡◌, ◌≢◌, ℕ, ℤ, pos, negsuc, List, [], ◌∷◌, ◌++◌, Some, None, true, false, map};
ghost use Rattle.graph_model.specs.declared.queries.Cmp.TheVariants.{Gt, Ne, Eq};
ghost use Rattle.graph_model.specs.declared.queries.Each.TheVariants.{Rolling, Expanding};
ghost use Rattle.graph_model.specs.declared.queries.Direction.TheVariants.{Outward, Both};
ghost use Rattle.graph_model.specs.declared.events.Model.TheVariants.{Event as Instants, Persistent};
ghost use Rattle.graph_model.specs.Answer.{ExtentRow, DegreeRow, MomentRow, degree_row, edge_kind, history_rows, SpanRow, TypeRow, EventRow, world_rows};
ghost use Rattle.graph_model.specs.Record.{time_text};
ghost use Rattle.std.specs.Fmt.{decimal, signed_decimal};
ghost use Rattle.graph_model.specs.Updates.{updates, named_nodes};
ghost use Rattle.graph_model.specs.Windows.{windows};
ghost use Rattle.graph_model.specs.Journey.{IsReached, IsArrival};
ghost use Rattle.graph_model.specs.declared.events.Model.{Model};
ghost use Rattle.graph_model.specs.Neighbours.{neighbours};
ghost use Rattle.graph_model.specs.Core.{is_core_set, IsInCore, IsCoreNumber};
ghost use Rattle.graph_model.specs.declared.queries.Op.TheVariants.{Window, At, Before, After, Layers, ExcludeLayers, Subgraph, ExcludeNodes, EdgesWhere, NodesWhere, Valid, NodeTypes};
ghost use Rattle.graph_model.specs.declared.events.Entity.TheVariants.{Node, Edge};
ghost use Rattle.graph_model.specs.declared.properties.Value.TheVariants.{Int, Flag, Text};
ghost use Rattle.world_laws.specs.Examples.{a, b, c, d, l, n, w, x, y, z, edge_in_l, added, deleted, two_edges, added_again, added_in, deleted_in, ordered, typed, forgotten, added_with, twice, lasting_value, lasting, falling, seven_moments, extents, between, triangle, chain, mixed, layered, loop, example_base, arrived_late, type_alone, deleted_at_once, valued, falls_late, in_two_layers, nested, three_edges, path, ten_moments, sixty_four};
ghost use Rattle.graph_model.specs.World.{World, IsLawful, events_of, event_cmp};
ghost use Rattle.graph_model.specs.Rising.{put_after};
ghost use Rattle.graph_model.specs.Stack.{apply};
ghost use Rattle.graph_model.specs.Presence.{edges, nodes, alive_at};
ghost use Rattle.graph_model.specs.Compare.{value_of};
ghost use Rattle.graph_model.specs.Searches.{digits, searches, fused_searches, IsWindow, IsNodeFilter, IsNameView};
ghost use Rattle.graph_model.specs.Walk.{Walk, IsDistance, IsLabel, IsOutOf, IsInTo};
ghost use Rattle.graph_model.specs.declared.events.What.TheVariants.{Node as Update};

/// A window includes its beginning and excludes its end.
pub fn window_excludes_its_end()
    ensures bounds { (apply (Window (pos 1) (pos 5) ∷ []) two_edges).bounds
        ≡ record { lo = pos 1; hi = pos 5 } }
    ensures edges { edges (apply (Window (pos 1) (pos 5) ∷ []) two_edges) ≡ edge_in_l a b ∷ [] }
{}

/// A window that ends before it begins is empty, and a window of it is too.
pub fn empty_window_stays_empty()
    ensures bounds { (apply (Window (pos 5) (pos 3) ∷ Window (pos 0) (pos 9) ∷ []) two_edges).bounds
        ≡ record { lo = pos 5; hi = pos 5 } }
    ensures none { (apply (Window (pos 5) (pos 3) ∷ Window (pos 0) (pos 9) ∷ []) two_edges).events
        ≡ [] }
{}

/// What is carried into a window is not carried out of its bounds.
pub fn window_outside_a_window_is_empty()
    ensures bounds { (apply (Window (pos 0) (pos 5) ∷ Window (pos 7) (pos 9) ∷ []) lasting).bounds
        ≡ record { lo = pos 7; hi = pos 7 } }
    ensures none { edges (apply (Window (pos 0) (pos 5) ∷ Window (pos 7) (pos 9) ∷ []) lasting)
        ≡ [] }
{}

/// An edge lasts from its addition until its deletion.
pub fn edge_lasts_until_it_is_deleted()
    ensures before { edges (apply (At (pos 4) ∷ []) added_again) ≡ edge_in_l a b ∷ [] }
    ensures deleted { edges (apply (At (pos 5) ∷ []) added_again) ≡ [] }
    ensures between { edges (apply (Window (pos 5) (pos 9) ∷ []) added_again) ≡ [] }
    ensures again { edges (apply (At (pos 9) ∷ []) added_again) ≡ edge_in_l a b ∷ [] }
{}

/// Events of one time stand by their orders, and what is carried comes before them.
pub fn orders_stand_within_a_time()
    ensures history { events_of ordered (Edge (edge_in_l a b))
        ≡ added 4 a b ∷ added_in 5 1 a b ∷ deleted_in 5 2 a b ∷ [] }
    ensures deleted { alive_at ordered (edge_in_l a b) (pos 5) ≡ false }
    ensures carried { (apply (Window (pos 5) (pos 9) ∷ []) ordered).events
        ≡ added 5 a b ∷ added_in 5 1 a b ∷ deleted_in 5 2 a b ∷ [] }
    ensures text { time_text (added_in 5 1 a b) ≡ signed_decimal (pos 5) ++ codes "@" ++ decimal 1 }
    ensures plain { time_text (added 5 a b) ≡ signed_decimal (pos 5) ++ [] }
{}

/// Types are those of the nodes that events name, and a type makes no node present.
pub fn types_are_of_named_nodes()
    ensures types { typed.types ≡ (a, x) ∷ (b, y) ∷ (c, x) ∷ [] }
    ensures nodes { nodes typed ≡ a ∷ b ∷ c ∷ [] }
    ensures edges { edges (apply (NodeTypes (x ∷ []) ∷ []) typed) ≡ edge_in_l a c ∷ [] }
    ensures rows { world_rows (apply (Window (pos 1) (pos 2) ∷ []) typed)
        ≡ SpanRow (between (pos 1) (pos 2)) ∷ TypeRow a x ∷ TypeRow b y ∷ EventRow (added 1 a b) ∷ [] }
{}

/// Updates are counted in each window, with the events that are carried into it.
pub fn updates_take_in_what_is_carried()
    ensures rolling { map (λ (v : World). updates v a)
        (windows seven_moments (Some (Rolling (pos 3) (pos 2))))
        ≡ 2 ∷ 3 ∷ 3 ∷ 2 ∷ [] }
    ensures carried { map (λ (v : World). updates v b)
        (windows added_again (Some (Rolling (pos 4) (pos 4))))
        ≡ 1 ∷ 2 ∷ 1 ∷ [] }
    ensures looped { updates loop a ≡ 1 }
    ensures names { named_nodes added_again ≡ a ∷ b ∷ [] }
{}

/// Events of one time, one entity and one order stand as they arrived.
pub fn equals_stand_as_they_arrived()
    ensures events { twice.events ≡ added_with 1 a b 7 ∷ added_with 1 a b 3 ∷ [] }
    ensures value { value_of w (events_of twice (Edge (edge_in_l a b))) ≡ Some (Int (pos 3)) }
    ensures late { put_after event_cmp (added_with 1 a b 3) (added_with 1 a b 7 ∷ [])
        ≡ added_with 1 a b 7 ∷ added_with 1 a b 3 ∷ [] }
{}

/// A later value stands over an earlier one, also where both are carried.
pub fn later_values_stand_over_earlier_ones()
    ensures carried { (apply (Window (pos 6) (pos 8) ∷ []) lasting_value).events
        ≡ added_with 6 a b 1 ∷ [] }
    ensures earlier { value_of w
        (events_of (apply (Window (pos 2) (pos 4) ∷ []) lasting_value) (Edge (edge_in_l a b)))
        ≡ Some (Int (pos 9)) }
{}

/// A deletion forgets the values that were set before it.
pub fn deletion_forgets_values()
    ensures carried { (apply (Window (pos 6) (pos 8) ∷ []) forgotten).events ≡ added 6 a b ∷ [] }
    ensures twice { (apply (Window (pos 2) (pos 8) ∷ Window (pos 6) (pos 8) ∷ []) forgotten).events
        ≡ added 6 a b ∷ [] }
    ensures forgotten { value_of w
        (events_of (apply (Window (pos 6) (pos 8) ∷ []) forgotten) (Edge (edge_in_l a b)))
        ≡ None }
    ensures kept { value_of w
        (events_of (apply (Window (pos 2) (pos 3) ∷ []) forgotten) (Edge (edge_in_l a b)))
        ≡ Some (Int (pos 7)) }
{}

/// The numbers of binary digits.
pub fn digits_of_numbers()
    ensures none { digits 0 ≡ 0 }
    ensures seven { digits 7 ≡ 3 }
    ensures eight { digits 8 ≡ 4 }
    ensures million { digits 4194304 ≡ 23 }
{}

/// A filter by value sees the values in its world, so it does not change places with a window.
pub fn value_filter_and_window_do_not_change_places()
    ensures filter_first { edges
        (apply (EdgesWhere w Gt (Int (pos 5)) ∷ Window (pos 0) (pos 3) ∷ []) falling)
        ≡ [] }
    ensures window_first { edges
        (apply (Window (pos 0) (pos 3) ∷ EdgesWhere w Gt (Int (pos 5)) ∷ []) falling)
        ≡ edge_in_l a b ∷ [] }
    ensures unknown_key { edges (apply (EdgesWhere z Ne (Int (pos 5)) ∷ []) falling) ≡ [] }
    ensures differ { apply (EdgesWhere w Gt (Int (pos 5)) ∷ Window (pos 0) (pos 3) ∷ []) falling
        ≢ apply (Window (pos 0) (pos 3) ∷ EdgesWhere w Gt (Int (pos 5)) ∷ []) falling }
{}

/// An edge is valid by its last event in its world, so `valid` does not change places with a
/// window.
pub fn valid_and_window_do_not_change_places()
    ensures valid_first { edges (apply (Valid ∷ Window (pos 0) (pos 5) ∷ []) mixed)
        ≡ edge_in_l b c ∷ [] }
    ensures window_first { edges (apply (Window (pos 0) (pos 5) ∷ Valid ∷ []) mixed)
        ≡ edge_in_l a b ∷ edge_in_l b c ∷ [] }
    ensures differ { apply (Valid ∷ Window (pos 0) (pos 5) ∷ []) mixed
        ≢ apply (Window (pos 0) (pos 5) ∷ Valid ∷ []) mixed }
{}

/// A filter between two windows sees the world of the first alone.
pub fn value_filter_between_two_windows()
    ensures between { edges (apply
        (Window (pos 0) (pos 9) ∷ Layers (l ∷ []) ∷ EdgesWhere w Eq (Int (pos 9))
        ∷ Window (pos 2) (pos 5) ∷ [])
        falls_late)
        ≡ [] }
    ensures last { edges (apply
        (Window (pos 0) (pos 9) ∷ Layers (l ∷ []) ∷ Window (pos 2) (pos 5)
        ∷ EdgesWhere w Eq (Int (pos 9)) ∷ [])
        falls_late)
        ≡ edge_in_l a b ∷ [] }
{}

/// Windows roll or expand from the first event, and the last has the last event.
pub fn windows_cover_the_events()
    ensures overlapping { extents (windows seven_moments (Some (Rolling (pos 3) (pos 2))))
        ≡ (between (negsuc 0) (pos 2), ExtentRow 2 (Some (pos 0, pos 1)))
        ∷ (between (pos 1) (pos 4), ExtentRow 3 (Some (pos 1, pos 3)))
        ∷ (between (pos 3) (pos 6), ExtentRow 3 (Some (pos 3, pos 5)))
        ∷ (between (pos 5) (pos 8), ExtentRow 2 (Some (pos 5, pos 6))) ∷ [] }
    ensures apart { extents (windows seven_moments (Some (Rolling (pos 1) (pos 5))))
        ≡ (between (pos 4) (pos 5), ExtentRow 1 (Some (pos 4, pos 4)))
        ∷ (between (pos 9) (pos 10), ExtentRow 0 None) ∷ [] }
    ensures expanding { extents (windows seven_moments (Some (Expanding (pos 4))))
        ≡ (between (pos 0) (pos 4), ExtentRow 4 (Some (pos 0, pos 3)))
        ∷ (between (pos 0) (pos 8), ExtentRow 7 (Some (pos 0, pos 6))) ∷ [] }
{}

/// A triangle is a set in which each node has two neighbours.
pub fn triangle_is_a_core()
    ensures neighbours { neighbours triangle Both c ≡ a ∷ b ∷ d ∷ [] }
    ensures two { is_core_set triangle 2 (a ∷ b ∷ c ∷ []) ≡ true }
    ensures with_all { is_core_set triangle 1 (a ∷ b ∷ c ∷ d ∷ []) ≡ true }
    ensures no_more { is_core_set triangle 2 (a ∷ b ∷ c ∷ d ∷ []) ≡ false }
{}

/// Views of a graph with a deleted edge and a node with a value.
pub fn views_of_a_mixed_graph()
    ensures edges { edges mixed ≡ edge_in_l a b ∷ edge_in_l b c ∷ [] }
    ensures valid { edges (apply (Valid ∷ []) mixed) ≡ edge_in_l b c ∷ [] }
    ensures nodes_where { nodes (apply (NodesWhere n Ne (Flag false) ∷ []) mixed) ≡ b ∷ [] }
    ensures exclude { edges (apply (ExcludeNodes (c ∷ []) ∷ []) mixed) ≡ edge_in_l a b ∷ [] }
    ensures value { value_of n (events_of mixed (Node b)) ≡ Some (Flag true) }
    ensures alive { alive_at mixed (edge_in_l a b) (pos 4) ≡ true }
    ensures deleted { alive_at mixed (edge_in_l a b) (pos 5) ≡ false }
{}

/// Neighbours are counted once, in however many layers an edge is.
pub fn neighbours_are_counted_once()
    ensures degrees { map (degree_row layered) (nodes layered)
        ≡ DegreeRow a 0 1 1 ∷ DegreeRow b 1 0 1 ∷ [] }
    ensures unknown_layer { nodes (apply (Layers (z ∷ []) ∷ []) layered) ≡ [] }
    ensures other_layer { edges (apply (ExcludeLayers (y ∷ []) ∷ []) layered)
        ≡ record { src = a; dst = b; layer = x } ∷ [] }
    ensures looped { map (degree_row loop) (nodes loop) ≡ DegreeRow a 1 1 1 ∷ DegreeRow b 0 0 0 ∷ [] }
{}

/// A journey takes no two edges at one moment; its first may be at the start.
pub fn journeys_rise_strictly()
    ensures first { (model : Model) → IsArrival (chain model) (a ∷ []) (pos 0) b (pos 1) }
    ensures at_start { (model : Model) → IsArrival (chain model) (a ∷ []) (pos 1) b (pos 1) }
    ensures instants { (m : ℤ) → IsReached (chain Instants) (a ∷ []) (pos 0) c m → ⊥ }
    ensures persistent { IsArrival (chain Persistent) (a ∷ []) (pos 0) c (pos 2) }
{}

/// However late they come, events stand in order of time.
pub fn late_events_stand_in_order_of_time()
    ensures { history_rows edge_kind 0 (events_of arrived_late (Edge (edge_in_l a b)))
        ≡ MomentRow 0 (pos 1) (codes "edge") ∷ MomentRow 1 (pos 3) (codes "edge")
        ∷ MomentRow 2 (pos 5) (codes "edge") ∷ [] }
{}

/// A type makes no node present.
pub fn type_alone_makes_no_node_present()
    ensures types { type_alone.types ≡ [] }
    ensures nodes { nodes type_alone ≡ [] }
{}

/// An edge that is deleted at the moment of its addition is never alive, and its ends are not
/// present by it; nor are those of an edge that is deleted alone.
pub fn deletion_at_the_moment_of_its_edge()
    ensures alone { nodes (example_base Persistent (deleted 1 a b ∷ [])) ≡ [] }
    ensures at_once { map (degree_row deleted_at_once) (nodes deleted_at_once)
        ≡ DegreeRow c 0 1 1 ∷ DegreeRow d 1 0 1 ∷ [] }
{}

/// A node is carried as an update, an edge as an addition, each with its values.
pub fn nodes_and_edges_are_carried()
    ensures { (apply (Window (pos 5) (pos 9) ∷ []) valued).events
        ≡ record { time = pos 5; order = 0; what = Update b ((n, Text d) ∷ []) }
        ∷ added_with 5 a b 3 ∷ [] }
{}

/// Nothing is carried beyond the end of a world.
pub fn nothing_is_carried_beyond_the_end()
    ensures { extents (windows ten_moments (Some (Rolling (pos 1) (pos 20))))
        ≡ (between (pos 20) (pos 20), ExtentRow 0 None) ∷ [] }
{}

/// Sixty-four equal windows are one window, at the cost of one once they are fused.
pub fn sixty_four_windows_are_one()
    ensures alive { alive_at (apply (sixty_four (Window (pos 0) (pos 7))) seven_moments) (edge_in_l a b)
        (pos 3)
        ≡ true }
    ensures searches { searches (sixty_four IsWindow) ≡ record { nodes = 128; edges = 128 } }
    ensures fused { fused_searches (sixty_four IsWindow) ≡ record { nodes = 2; edges = 2 } }
    ensures apart { fused_searches (IsWindow ∷ IsNodeFilter ∷ IsWindow ∷ IsNameView ∷ IsWindow ∷ [])
        ≡ record { nodes = 4; edges = 8 } }
{}

/// Each view stands on what the one before it leaves.
pub fn nested_views_leave_one_neighbour()
    ensures { map (degree_row (nested in_two_layers)) (nodes (nested in_two_layers))
        ≡ DegreeRow b 0 1 1 ∷ DegreeRow c 1 0 1 ∷ [] }
{}

/// A world without events has no node and no window.
pub fn empty_world_has_no_windows()
    ensures nodes { nodes (example_base Instants []) ≡ [] }
    ensures windows { windows (example_base Instants []) (Some (Rolling (pos 10) (pos 10))) ≡ [] }
    ensures itself { windows (example_base Instants []) None ≡ example_base Instants [] ∷ [] }
{}

/// The neighbours of each of three nodes.
pub fn three_edges_have_their_degrees()
    ensures { map (degree_row three_edges) (nodes three_edges)
        ≡ DegreeRow a 0 2 2 ∷ DegreeRow b 1 1 2 ∷ DegreeRow c 2 0 2 ∷ [] }
{}

/// Walks along two edges: distances, labels, components, and three views.
pub fn walks_along_two_edges()
    ensures itself { IsDistance path Outward a a 0 }
    ensures next { IsDistance path Outward a b 1 }
    ensures last { IsDistance path Outward a c 2 }
    ensures back { IsDistance path Both c a 2 }
    ensures against { (n : ℕ) → Walk path Outward c n a → ⊥ }
    ensures label { IsLabel path c a }
    ensures out { IsOutOf path a c }
    ensures into { IsInTo path c a }
    ensures subgraph { nodes (apply (Subgraph (a ∷ b ∷ []) ∷ []) path) ≡ a ∷ b ∷ [] }
    ensures after { edges (apply (After (pos 1) ∷ []) path) ≡ edge_in_l b c ∷ [] }
    ensures before { edges (apply (Before (pos 2) ∷ []) path) ≡ edge_in_l a b ∷ [] }
    ensures history { history_rows (λ x. codes "node") 0 (events_of path (Node a)) ≡ [] }
{}

/// A loop leads a walk nowhere else, and a node of its own is its own label.
pub fn loop_leads_nowhere_else()
    ensures out { (other : List ℕ) → IsOutOf loop a other → ⊥ }
    ensures looped { IsLabel loop a a }
    ensures alone { IsLabel loop b b }
{}

/// Core numbers of a triangle with a tail, and of a loop, which counts nothing.
pub fn core_numbers_of_small_worlds()
    ensures triangle { IsCoreNumber triangle a 2 }
    ensures tail { IsCoreNumber triangle d 1 }
    ensures none { (node : List ℕ) → IsInCore triangle 3 node → ⊥ }
    ensures looped { IsCoreNumber loop a 0 }
    ensures alone { IsCoreNumber loop b 0 }
{}

/// There are lawful worlds in both models, with deletions, values and types.
pub fn small_worlds_are_lawful()
    ensures instants { IsLawful seven_moments }
    ensures persistent { IsLawful forgotten }
    ensures typed { IsLawful typed }
    ensures short { IsLawful ten_moments }
{}
