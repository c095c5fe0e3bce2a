//! Laws of views, and of views over views. The functions do nothing: their contracts are the laws.
ghost use Rattle.graph_model.specs.Entity.{is_about};
ghost use Rattle.graph_model.specs.Keep.{keep, among_types};
ghost use Rattle.graph_model.specs.Range.{op_in_range};
ghost use Rattle.graph_model.specs.Searches.{kind_of_view, IsNameView, IsWindow};
ghost use Rattle.graph_model.specs.Stack.{view, apply};
ghost use Rattle.graph_model.specs.Window.{window};
ghost use Rattle.graph_model.specs.Windows.{windows};
ghost use Rattle.graph_model.specs.World.{World, IsLawful, names_node, types_in, events_of};
ghost use Rattle.graph_model.specs.declared.events.Entity.{Entity};
ghost use Rattle.graph_model.specs.declared.events.Event.{Event};
ghost use Rattle.graph_model.specs.declared.queries.Op.{Op};
ghost use Rattle.graph_model.specs.declared.queries.Op.TheVariants.{NodeTypes};
ghost use Rattle.std.specs.Int.{int_max, int_min};
ghost use Rattle.std.specs.List.{list_any};
ghost use Rattle.std.specs.Prelude.{◌≡◌, ◌≤◌, ℕ, ℤ, List, [], Bool, IsTrue, ◌&&◌, length, Some, if◌then◌else◌};
ghost use Rattle.world_laws.specs.Ends.{window_ends, AreEnds};

/// A keeping view shows all events of an entity that passes, and none of another.
pub fn keeping_view_keeps_whole_entities()
    ensures { (w : World) (p : Entity → Bool) (e : Entity)
        → events_of (keep p w) e ≡ (if p e then events_of w e else []) }
{}

/// A window and a view that looks at the entity alone change places.
pub fn window_and_name_view_change_places()
    ensures { (w : World) (a b : ℤ) (p : Entity → Bool)
        → IsLawful w
        → keep p (window w a b) ≡ window (keep p w) a b }
{}

/// Two views that look at the entity alone change places, and are one view.
pub fn name_views_change_places()
    ensures places { (w : World) (p q : Entity → Bool) → keep q (keep p w) ≡ keep p (keep q w) }
    ensures merged { (w : World) (p q : Entity → Bool)
        → keep q (keep p w) ≡ keep (λ e. p e && q e) w }
{}

/// A window or a keeping view has exactly the types of the nodes that its list names, and its list
/// names no other node than before. So types say the same of each entity with an event.
pub fn types_follow_names()
    ensures window { (w : World) (a b : ℤ)
        → (window w a b).types ≡ types_in (window w a b).events w.types }
    ensures keep { (w : World) (p : Entity → Bool)
        → (keep p w).types ≡ types_in (keep p w).events w.types }
    ensures window_names { (w : World) (a b : ℤ) (node : List ℕ)
        → IsTrue (names_node (window w a b).events node)
        → IsTrue (names_node w.events node) }
    ensures keep_names { (w : World) (p : Entity → Bool) (node : List ℕ)
        → IsTrue (names_node (keep p w).events node)
        → IsTrue (names_node w.events node) }
    ensures same { (xs : List Event) (types : List (List ℕ × List ℕ)) (names : List (List ℕ))
        (e : Entity)
        → IsTrue (list_any (is_about e) xs)
        → among_types (types_in xs types) names e ≡ among_types types names e }
{}

/// The view of node types is a view that looks at the entity alone: it changes places with windows
/// and with other such views, and is one view with these.
pub fn node_types_change_places()
    ensures window { (w : World) (a b : ℤ) (names : List (List ℕ))
        → IsLawful w
        → view (window w a b) (NodeTypes names) ≡ window (view w (NodeTypes names)) a b }
    ensures places { (w : World) (p : Entity → Bool) (names : List (List ℕ))
        → view (keep p w) (NodeTypes names) ≡ keep p (view w (NodeTypes names)) }
    ensures merged { (w : World) (p : Entity → Bool) (names : List (List ℕ))
        → view (keep p w) (NodeTypes names) ≡ keep (λ e. p e && among_types w.types names e) w }
{}

/// A view of a lawful world is a lawful world, with no more events.
pub fn views_are_lawful()
    ensures lawful { (w : World) (op : Op) → IsLawful w → IsLawful (view w op) }
    ensures no_more { (w : World) (op : Op) → length (view w op).events ≤ length w.events }
    ensures stacks { (ops : List Op) (w : World) → IsLawful w → IsLawful (apply ops w) }
    ensures stacks_no_more { (ops : List Op) (w : World)
        → length (apply ops w).events ≤ length w.events }
{}

/// Views between two filters by content are one window and one test of the entity.
pub fn views_join_in_runs()
    ensures windows { (p : Entity → Bool) (w : World) (a b c d : ℤ)
        → IsLawful w
        → window (keep p (window w a b)) c d ≡ keep p (window w (int_max a c) (int_min b d)) }
    ensures tests { (p q : Entity → Bool) (w : World) (a b : ℤ)
        → keep q (keep p (window w a b)) ≡ keep (λ e. p e && q e) (window w a b) }
    ensures types { (w : World) (p : Entity → Bool) (a b : ℤ) (names : List (List ℕ))
        → view (keep p (window w a b)) (NodeTypes names)
        ≡ keep (λ e. p e && among_types w.types names e) (window w a b) }
{}

/// A view that is a window has ends; those of a view in range are ends that a cut may have.
pub fn ends_of_views_are_bounds()
    ensures windows { (op : Op)
        → kind_of_view op ≡ IsWindow
        → (ends : ℤ × ℤ) × (window_ends op ≡ Some ends) }
    ensures shown { (w : World) (op : Op) (ends : ℤ × ℤ)
        → window_ends op ≡ Some ends
        → view w op ≡ window w ends.0 ends.1 }
    ensures in_range { (op : Op) (ends : ℤ × ℤ)
        → IsTrue (op_in_range op)
        → window_ends op ≡ Some ends
        → AreEnds ends }
{}

/// The views by layers, by nodes and by types of nodes change places with windows and with one
/// another.
pub fn name_views_of_queries_change_places()
    ensures window { (w : World) (a b : ℤ) (op : Op)
        → IsLawful w
        → kind_of_view op ≡ IsNameView
        → view (window w a b) op ≡ window (view w op) a b }
    ensures each_other { (w : World) (op next : Op)
        → kind_of_view op ≡ IsNameView
        → kind_of_view next ≡ IsNameView
        → view (view w op) next ≡ view (view w next) op }
{}
