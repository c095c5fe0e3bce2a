//! Laws of what the reader makes of written rows, each the contract of a function that does nothing.
ghost use Rattle.std.specs.Prelude.{◌≡◌, ◌++◌, [], ◌∷◌, Bool, true, false, List, ℕ, Some, Ok, IsTrue, map};
ghost use Rattle.std.specs.List.{AllByRecursion, list_all};
ghost use Rattle.csv.specs.Machine.{next_record};
ghost use Rattle.csv.specs.Reading.{default_config};
ghost use Rattle.csv.specs.Writing.{default_writer, row_text};
ghost use Rattle.csv.specs.declared.parser.State.TheVariants as st;
ghost use Rattle.graph_model.specs.Answer.{row_fields, world_rows};
ghost use Rattle.graph_model.specs.Interval.{Interval};
ghost use Rattle.graph_model.specs.Reading.{records_of};
ghost use Rattle.graph_model.specs.Record.{event_fields, span_fields, type_fields};
ghost use Rattle.graph_model.specs.RowText.{rows_text, world_text};
ghost use Rattle.graph_model.specs.Said.{SaysBounds, SaysEvent, SaysType, row_of};
ghost use Rattle.graph_model.specs.TextForm.{is_name};
ghost use Rattle.graph_model.specs.World.{World};
ghost use Rattle.graph_model.specs.declared.events.Event.{Event};
ghost use Rattle.event_rows.specs.Rows.{begins_plainly, has_field};
ghost use Rattle.event_rows.specs.Sayable.{IsSayable, IsSayableType, are_bounds};

/// The next record of a text that begins with a row is that row, and what stands behind it is left.
pub fn a_row_is_read_back()
    ensures { (fields : List (List ℕ)) (rest : List ℕ) → IsTrue (has_field fields)
        → next_record default_config st.StartRecord [] [] (row_text default_writer fields ++ rest) ≡ Some (fields, st.StartRecord, rest) }
{}

/// The records of a file of rows are the rows, where the first begins with no part of a byte order mark.
pub fn rows_of_a_file_are_its_records()
    ensures { (fields : List (List ℕ)) (rows : List (List (List ℕ))) → IsTrue (begins_plainly fields) → IsTrue (list_all has_field rows)
        → records_of (rows_text (fields ∷ rows)) ≡ fields ∷ rows }
{}

/// The records of the text of a world are its rows: its bounds, its types, and its events.
pub fn rows_of_a_world_are_its_records()
    ensures { (w : World) → records_of (world_text w) ≡ map row_fields (world_rows w) }
{}

/// The fields of an event's row say the event.
pub fn an_event_is_read_back()
    ensures { (first : Bool) (bounds : Interval) (x : Event) → IsSayable bounds x → row_of first bounds (event_fields x) ≡ Ok (SaysEvent x) }
{}

/// The fields of a type's row say the type.
pub fn a_type_is_read_back()
    ensures { (first : Bool) (bounds : Interval) (node name : List ℕ) → IsTrue (is_name node) → IsTrue (is_name name)
        → row_of first bounds (type_fields node name) ≡ Ok (SaysType node name) }
{}

/// The fields of the row of bounds, as the first record, say the bounds.
pub fn a_span_is_read_back()
    ensures { (bounds i : Interval) → IsTrue (are_bounds i) → row_of true bounds (span_fields i) ≡ Ok (SaysBounds i) }
{}

/// The rows of types and events, each in turn, say these types and events.
pub fn rows_say_types_and_events()
    ensures { (bounds : Interval) (types : List (List ℕ × List ℕ)) (events : List Event) → AllByRecursion IsSayableType types → AllByRecursion (IsSayable bounds) events
        → map (row_of false bounds) (map (λ (t : List ℕ × List ℕ). type_fields t.0 t.1) types ++ map event_fields events)
        ≡ map (λ (t : List ℕ × List ℕ). Ok (SaysType t.0 t.1)) types ++ map (λ (x : Event). Ok (SaysEvent x)) events }
{}
