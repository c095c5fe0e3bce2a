//! Laws of answers. The functions do nothing: their contracts are the laws.
ghost use Rattle.graph_model.specs.Answer.{Row, IsAnswer, NodeRow, EdgeRow, AliveRow, update_row, extent_row, degree_row, edge_kind, history_rows, value_rows};
ghost use Rattle.graph_model.specs.Compare.{value_of};
ghost use Rattle.graph_model.specs.Core.{IsCoreNumber};
ghost use Rattle.graph_model.specs.Interval.{is_inside};
ghost use Rattle.graph_model.specs.Journey.{IsArrival};
ghost use Rattle.graph_model.specs.Presence.{edges, nodes, alive_at};
ghost use Rattle.graph_model.specs.Updates.{updates, named_nodes};
ghost use Rattle.graph_model.specs.Walk.{IsDistance};
ghost use Rattle.graph_model.specs.World.{World, IsLawful, events_of};
ghost use Rattle.graph_model.specs.declared.events.EdgeName.{EdgeName};
ghost use Rattle.graph_model.specs.declared.events.Entity.TheVariants.{Node, Edge};
ghost use Rattle.graph_model.specs.declared.queries.Ask.{Ask};
ghost use Rattle.graph_model.specs.declared.queries.Ask.TheVariants.{Nodes, Edges, Events, Degree, NodeHistory, EdgeHistory, NodeValue, EdgeValue, EdgeAlive, Updates};
ghost use Rattle.graph_model.specs.declared.queries.Direction.{Direction};
ghost use Rattle.std.specs.Prelude.{codes, map, ◌≡◌, ℕ, ℤ, List, [], ◌∷◌, IsTrue, ◌<◌, ◌≤ℤ◌, length};

/// The answers to the questions that need no walk.
pub fn plain_questions_have_answers()
    ensures nodes { (w : World) → IsAnswer w Nodes (map NodeRow (nodes w)) }
    ensures edges { (w : World) → IsAnswer w Edges (map EdgeRow (edges w)) }
    ensures events { (w : World) → IsAnswer w Events (extent_row w.events ∷ []) }
    ensures degree { (w : World) → IsAnswer w Degree (map (degree_row w) (nodes w)) }
    ensures node_history { (w : World) (node : List ℕ)
        → IsAnswer w (NodeHistory node)
        (history_rows (λ x. codes "node") 0 (events_of w (Node node))) }
    ensures edge_history { (w : World) (edge : EdgeName)
        → IsAnswer w (EdgeHistory edge) (history_rows edge_kind 0 (events_of w (Edge edge))) }
    ensures node_value { (w : World) (node key : List ℕ)
        → IsAnswer w (NodeValue node key) (value_rows (value_of key (events_of w (Node node)))) }
    ensures edge_value { (w : World) (edge : EdgeName) (key : List ℕ)
        → IsAnswer w (EdgeValue edge key) (value_rows (value_of key (events_of w (Edge edge)))) }
    ensures updates { (w : World) → IsAnswer w Updates (map (update_row w) (named_nodes w)) }
    ensures edge_alive { (w : World) (edge : EdgeName) (m : ℤ)
        → IsAnswer w (EdgeAlive edge m) (AliveRow (alive_at w edge m) ∷ []) }
{}

/// A question about a lawful world has exactly one answer.
pub fn every_question_has_one_answer()
    ensures some { (w : World) (ask : Ask) → IsLawful w → (rows : List Row) × IsAnswer w ask rows }
    ensures one { (w : World) (ask : Ask) (xs ys : List Row)
        → IsAnswer w ask xs
        → IsAnswer w ask ys
        → xs ≡ ys }
{}

/// A distance and a core number are less than the number of present nodes. An arrival is inside the
/// bounds, and not before the start.
pub fn answers_lie_within_the_world()
    ensures distance { (w : World) (d : Direction) (a b : List ℕ) (n : ℕ)
        → IsDistance w d a b n
        → n < length (nodes w) }
    ensures core_number { (w : World) (node : List ℕ) (k : ℕ)
        → IsCoreNumber w node k
        → k < length (nodes w) }
    ensures arrival { (w : World) (seeds : List (List ℕ)) (start : ℤ) (node : List ℕ) (m : ℤ)
        → IsLawful w
        → IsArrival w seeds start node m
        → IsTrue (is_inside w.bounds m) }
    ensures started { (w : World) (seeds : List (List ℕ)) (start : ℤ) (node : List ℕ) (m : ℤ)
        → IsArrival w seeds start node m
        → start ≤ℤ m }
{}
