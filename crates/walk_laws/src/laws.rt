//! The laws.
ghost use Rattle.std.specs.Prelude.{ℕ, List, ◌<◌, length, map, IsPermutation};
ghost use Rattle.graph_model.specs.World.{World};
ghost use Rattle.graph_model.specs.declared.queries.Ask.TheVariants.{Hops, OutComponent, InComponent, Weak};
ghost use Rattle.graph_model.specs.declared.queries.Direction.{Direction};
ghost use Rattle.graph_model.specs.declared.queries.Direction.TheVariants.{Outward, Inward};
ghost use Rattle.graph_model.specs.Answer.{AreTheFacts};
ghost use Rattle.graph_model.specs.Presence.{nodes as present_nodes};
ghost use Rattle.node_visits.specs.declared.visited.Visit.{Visit};
ghost use Rattle.node_visits.specs.Levels.{IsWalking};
ghost use Rattle.node_visits.specs.Visits.{AreVisits};
ghost use Rattle.walk_laws.specs.Components.{others, reached_row};
ghost use Rattle.walk_laws.specs.Distances.{AreDistances, number_row};
ghost use Rattle.walk_laws.specs.Labels.{AreLeastPlaces, label_rows};
ghost use Rattle.walk_laws.specs.Numbers.{AreNumbers, name_of, NamesRise};
ghost use Rattle.walk_laws.specs.Steps.{Next, Far};

/// Where a walk has gone on from each node that it visited, its marks are distances, and it has visited
/// each node to which a walk leads.
pub fn settled_walks_have_distances()
    ensures { (w : World) (nodes : List (List ℕ)) (d : Direction) (start : ℕ) (visits : List Visit)
        → AreNumbers w nodes → AreVisits (length nodes) visits
        → IsWalking (Next w nodes d) (Far w nodes d start) start visits (length visits)
        → AreDistances w nodes d start visits }
{}

/// Distances in the order of the names of their nodes are the answer to the question how far nodes are.
pub fn distances_are_the_facts()
    ensures { (w : World) (nodes : List (List ℕ)) (d : Direction) (start : ℕ)
        → (visits moved : List Visit) → AreDistances w nodes d start visits
        → IsPermutation visits moved → NamesRise nodes moved
        → AreTheFacts w (Hops (name_of nodes start) d) (map (number_row nodes) moved) }
{}

/// The other nodes to which walks lead outward, in the order of their names, are the out-component of
/// the node where these begin; by walks inward they are its in-component.
pub fn other_nodes_are_components()
    ensures outward { (w : World) (nodes : List (List ℕ)) (start : ℕ) (visits : List Visit)
        → AreNumbers w nodes → start < length nodes
        → AreDistances w nodes Outward start visits → NamesRise nodes visits
        → let rows = map (reached_row nodes) (others start visits) in
        AreTheFacts w (OutComponent (name_of nodes start)) rows }
    ensures inward { (w : World) (nodes : List (List ℕ)) (start : ℕ) (visits : List Visit)
        → AreNumbers w nodes → start < length nodes
        → AreDistances w nodes Inward start visits → NamesRise nodes visits
        → let rows = map (reached_row nodes) (others start visits) in
        AreTheFacts w (InComponent (name_of nodes start)) rows }
{}

/// Where each present node is given one that is reached and not behind it by name, and neighbours are
/// given the same, these are the weak labels.
pub fn least_places_are_labels()
    ensures { (w : World) (least : List ℕ) → AreLeastPlaces w least
        → AreTheFacts w Weak (label_rows (present_nodes w) least) }
{}
