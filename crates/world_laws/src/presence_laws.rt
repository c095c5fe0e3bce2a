//! Laws of what is present. The functions do nothing: their contracts are the laws.
ghost use Rattle.graph_model.specs.Entity.{edge_cmp, same_edge, is_addition};
ghost use Rattle.graph_model.specs.Names.{name_cmp, same_name};
ghost use Rattle.graph_model.specs.Neighbours.{neighbours};
ghost use Rattle.graph_model.specs.Presence.{edge_present, node_present, edges, nodes};
ghost use Rattle.graph_model.specs.Rising.{Rises};
ghost use Rattle.graph_model.specs.Updates.{updates, named_nodes};
ghost use Rattle.graph_model.specs.World.{World, IsLawful, names_node, events_of};
ghost use Rattle.graph_model.specs.declared.events.EdgeName.{EdgeName};
ghost use Rattle.graph_model.specs.declared.events.Entity.TheVariants.{Node, Edge};
ghost use Rattle.graph_model.specs.declared.events.Model.TheVariants.{Event as Instants, Persistent};
ghost use Rattle.graph_model.specs.declared.queries.Direction.{Direction};
ghost use Rattle.graph_model.specs.declared.queries.Direction.TheVariants.{Outward, Inward, Both};
ghost use Rattle.std.specs.List.{list_any};
ghost use Rattle.std.specs.Prelude.{◌||◌, ◌≡◌, ◌≢◌, ◌↔◌, ℕ, List, [], IsTrue, ◌<◌, ◌⊎◌};
ghost use Rattle.world_laws.specs.Contacts.{HasContact, IsEnd};
ghost use Rattle.world_laws.specs.LastAddition.{HasLastAddition};

/// An edge of a lawful world is present exactly where it is alive at some moment.
pub fn present_edges_have_contacts()
    ensures { (w : World) (edge : EdgeName)
        → IsLawful w
        → IsTrue (edge_present w edge) ↔ HasContact w edge }
{}

/// In the persistent model an edge is present exactly where some addition of it is followed by none
/// of its events at the same time.
pub fn lasting_edges_are_present_by_a_last_addition()
    ensures { (w : World) (edge : EdgeName)
        → IsLawful w
        → w.model ≡ Persistent
        → IsTrue (edge_present w edge) ↔ HasLastAddition (events_of w (Edge edge)) }
{}

/// A node of a lawful world is present exactly where it has an event of its own, or is an end of an
/// edge that has a contact.
pub fn nodes_are_present_by_events_and_contacts()
    ensures { (w : World) (node : List ℕ)
        → IsLawful w
        → IsTrue (node_present w node)
        ↔ ((events_of w (Node node) ≢ [])
        ⊎ ((edge : EdgeName) × IsEnd node edge × HasContact w edge)) }
{}

/// The lists of nodes and edges of a world rise, and have exactly the present ones.
pub fn present_nodes_and_edges_are_listed()
    ensures nodes { (w : World) (node : List ℕ)
        → list_any (same_name node) (nodes w) ≡ node_present w node }
    ensures nodes_rise { (w : World) → Rises name_cmp (nodes w) }
    ensures edges { (w : World) (edge : EdgeName)
        → list_any (same_edge edge) (edges w) ≡ edge_present w edge }
    ensures edges_rise { (w : World) → Rises edge_cmp (edges w) }
{}

/// The list of the nodes that events name rises, and these are the nodes with an update.
pub fn named_nodes_are_updated()
    ensures listed { (w : World) (node : List ℕ)
        → list_any (same_name node) (named_nodes w) ≡ names_node w.events node }
    ensures rise { (w : World) → Rises name_cmp (named_nodes w) }
    ensures updated { (w : World) (node : List ℕ)
        → (0 < updates w node) ↔ IsTrue (names_node w.events node) }
{}

/// A neighbour is where a present edge leads to, or comes from; the neighbours both ways are those
/// of either way. They rise, so none is there twice.
pub fn neighbours_are_ends_of_present_edges()
    ensures outward { (w : World) (a b : List ℕ)
        → IsTrue (list_any (same_name b) (neighbours w Outward a))
        ↔ ((edge : EdgeName) × IsTrue (edge_present w edge) × (edge.src ≡ a) × (edge.dst ≡ b)) }
    ensures inward { (w : World) (a b : List ℕ)
        → list_any (same_name b) (neighbours w Inward a)
        ≡ list_any (same_name a) (neighbours w Outward b) }
    ensures both { (w : World) (a b : List ℕ)
        → list_any (same_name b) (neighbours w Both a)
        ≡ (list_any (same_name b) (neighbours w Outward a)
        || list_any (same_name b) (neighbours w Inward a)) }
    ensures rise { (w : World) (d : Direction) (a : List ℕ) → Rises name_cmp (neighbours w d a) }
{}

/// In the event model an edge is present exactly where it has an addition.
pub fn edges_of_moments_are_present_by_an_addition()
    ensures { (w : World) (edge : EdgeName)
        → w.model ≡ Instants
        → IsTrue (edge_present w edge) ↔ IsTrue (list_any is_addition (events_of w (Edge edge))) }
{}
