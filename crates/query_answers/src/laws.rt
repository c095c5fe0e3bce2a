//! What some questions cost, in numbers. The function does nothing: its contract is the law.
ghost use Rattle.std.specs.Prelude.{◌≡◌, ◌∷◌, [], ℤ, None, true};
ghost use Rattle.graph_model.specs.declared.events.EdgeName.{EdgeName};
ghost use Rattle.graph_model.specs.declared.queries.Ask.TheVariants.{Degree, EdgeAlive};
ghost use Rattle.graph_model.specs.declared.queries.Op.TheVariants.{Window};
ghost use Rattle.world_laws.specs.Examples.{sixty_four};
ghost use Rattle.query_answers.specs.Cost.{query_steps};

/// Whether an edge of seven events is alive, under 64 windows, is answered in at most 12 readings; the
/// degrees of a graph of two nodes and an edge with 10,000 events, under a window, in at most 90.
pub fn readings_of_two_questions()
    ensures alive { (edge : EdgeName) (a b m : ℤ) → query_steps
        (record { nodes = 2; edges = 1; events = 7; is_known = λ x. true })
        (record { views = sixty_four (Window a b); ask = EdgeAlive edge m; each = None }) ≡ 12 }
    ensures degree { (a b : ℤ) → query_steps
        (record { nodes = 2; edges = 1; events = 10000; is_known = λ x. true })
        (record { views = Window a b ∷ []; ask = Degree; each = None }) ≡ 90 }
{}
