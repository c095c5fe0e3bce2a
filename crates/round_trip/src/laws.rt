//! Laws of worlds that are printed and read again. The functions do nothing: their contracts are the laws.
ghost use Rattle.std.specs.Prelude.{◌≡◌, ◌↔◌, Ok, ℕ, Bool, List, [], ◌∷◌, ◌++◌, length, map, IsTrue, Option};
ghost use Rattle.std.specs.List.{Contains, list_all};
ghost use Rattle.csv.specs.Writing.{default_writer, row_text};
ghost use Rattle.graph_model.specs.Answer.{row_fields, world_rows};
ghost use Rattle.graph_model.specs.Entity.{props_of};
ghost use Rattle.graph_model.specs.Output.{AreBlocks, IsOutput, IsPart, is_clean, is_clean_line, graph_row, world_row};
ghost use Rattle.graph_model.specs.PropertyField.{has_no_colon};
ghost use Rattle.graph_model.specs.QueryLine.{query_of};
ghost use Rattle.graph_model.specs.Range.{op_in_range, query_in_range};
ghost use Rattle.graph_model.specs.Reading.{base_world, reading};
ghost use Rattle.graph_model.specs.RowText.{rows_text, world_text};
ghost use Rattle.graph_model.specs.Script.{QueryRefusal, lines_of};
ghost use Rattle.graph_model.specs.Stack.{apply, view};
ghost use Rattle.graph_model.specs.Windows.{windows};
ghost use Rattle.graph_model.specs.World.{World};
ghost use Rattle.graph_model.specs.declared.events.Event.{Event};
ghost use Rattle.graph_model.specs.declared.properties.Value.{Value};
ghost use Rattle.graph_model.specs.declared.events.Model.{Model};
ghost use Rattle.graph_model.specs.declared.queries.Ask.TheVariants.{Materialise};
ghost use Rattle.graph_model.specs.declared.queries.Each.{Each};
ghost use Rattle.graph_model.specs.declared.queries.Op.{Op};
ghost use Rattle.graph_model.specs.declared.queries.Query.{Query};
ghost use Rattle.round_trip.specs.Printable.{IsPrintable, worlds_left};

/// The text of a world that can be printed, read under its model, has no refused record, and says the world's bounds, types and events. A world is the base world of its text exactly where it can be printed; then no key of an event has a `:`.
pub fn a_printed_world_is_read_back()
    ensures said { (w : World) → IsPrintable w → reading w.model (world_text w) ≡ record { bounds = w.bounds; accepted = w.events; types = w.types; refused = [] } }
    ensures exactly { (w : World) → (base_world w.model (world_text w) ≡ w) ↔ IsPrintable w }
    ensures plain_keys { (w : World) (x : Event) (p : List ℕ × Value) → base_world w.model (world_text w) ≡ w → Contains w.events x → Contains (props_of x) p → IsTrue (has_no_colon p.0) }
{}

/// The base world of an events file, whatever its bytes are, can be printed.
pub fn base_worlds_can_be_printed()
    ensures { (model : Model) (bytes : List ℕ) → IsPrintable (base_world model bytes) }
{}

/// What a view shows of a world that can be printed can be printed, where the view's numbers are in range; and so can what a stack of views shows, and each window.
pub fn views_can_be_printed()
    ensures view { (w : World) (op : Op) → IsTrue (op_in_range op) → IsPrintable w → IsPrintable (view w op) }
    ensures stack { (w : World) (ops : List Op) → IsTrue (list_all op_in_range ops) → IsPrintable w → IsPrintable (apply ops w) }
    ensures windows { (w v : World) (each : Option Each) → IsPrintable w → Contains (windows w each) v → IsPrintable v }
{}

/// Each world that a query leaves of an events file, whatever the file's bytes are, is printed as rows of which none is refused under the same model, and whose base world is that world.
pub fn what_a_query_leaves_is_read_back()
    ensures printable { (model : Model) (bytes : List ℕ) (query : Query) (w : World) → IsTrue (query_in_range query) → Contains (worlds_left model bytes query) w → IsPrintable w }
    ensures unrefused { (model : Model) (bytes : List ℕ) (query : Query) (w : World) → IsTrue (query_in_range query) → Contains (worlds_left model bytes query) w → (reading model (world_text w)).refused ≡ [] }
    ensures again { (model : Model) (bytes : List ℕ) (query : Query) (w : World) → IsTrue (query_in_range query) → Contains (worlds_left model bytes query) w → base_world model (world_text w) ≡ w }
{}

/// So it is of each line of a script that says a query which is answered: the numbers of such a query are in
/// range.
pub fn what_a_line_leaves_is_read_back()
    ensures unrefused { (refuses : World → Query → Option QueryRefusal) (model : Model)
        (bytes line : List ℕ) (query : Query) (w : World)
        → query_of refuses (base_world model bytes) line ≡ Ok query
        → Contains (worlds_left model bytes query) w
        → (reading model (world_text w)).refused ≡ [] }
    ensures again { (refuses : World → Query → Option QueryRefusal) (model : Model)
        (bytes line : List ℕ) (query : Query) (w : World)
        → query_of refuses (base_world model bytes) line ≡ Ok query
        → Contains (worlds_left model bytes query) w
        → base_world model (world_text w) ≡ w }
{}

/// What `materialise` prints of a world, behind the row of the world, is the world's text.
pub fn materialise_prints_the_text_of_a_world()
    ensures part { (w : World) (part : List (List (List ℕ))) → IsPart w Materialise part ↔ (part ≡ world_row w.bounds (length (world_rows w)) ∷ map row_fields (world_rows w)) }
    ensures text { (w : World) (part : List (List (List ℕ))) → IsPart w Materialise part → rows_text part ≡ row_text default_writer (world_row w.bounds (length (world_rows w))) ++ world_text w }
{}

/// For every script, what is written for the text of a world that can be printed has the row of its graph, in
/// which no record is refused, and the blocks of that world; so each question has the rows that it has on the
/// world. Nothing is refused where no line of the script is. So it is of each world that a query leaves of an
/// events file.
pub fn a_printed_world_is_answered_as_the_world()
    ensures printable { (refuses : World → Query → Option QueryRefusal) (w : World)
        (script text : List ℕ) → IsPrintable w
        → IsOutput refuses w.model (world_text w) script text
        ↔ ((blocks : List (List (List ℕ))) × AreBlocks refuses w 1 (lines_of script) blocks
        × (text ≡ rows_text (graph_row w.model w.bounds (length w.events) 0 ∷ blocks))) }
    ensures clean { (refuses : World → Query → Option QueryRefusal) (w : World) (script : List ℕ)
        → IsPrintable w
        → is_clean refuses w.model (world_text w) script
        ≡ list_all (is_clean_line refuses w) (lines_of script) }
    ensures left { (refuses : World → Query → Option QueryRefusal) (model : Model)
        (bytes : List ℕ) (query : Query) (w : World) (script text : List ℕ)
        → IsTrue (query_in_range query) → Contains (worlds_left model bytes query) w
        → IsOutput refuses model (world_text w) script text
        ↔ ((blocks : List (List (List ℕ))) × AreBlocks refuses w 1 (lines_of script) blocks
        × (text ≡ rows_text (graph_row model w.bounds (length w.events) 0 ∷ blocks))) }
{}
