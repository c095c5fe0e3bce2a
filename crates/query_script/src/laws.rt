//! Laws of what lines say, each the contract of a function that does nothing.
ghost use Rattle.std.specs.Prelude.{◌≡◌, ◌↔◌, ◌&&◌, ℕ, List, [], ◌∷◌, false, pos, negsuc, codes, is_some, IsTrue, Some, None, Ok, Err};
ghost use Rattle.std.specs.Str.{is_utf8};
ghost use Rattle.serde_json.specs.Data.{Data};
ghost use Rattle.serde_json.specs.Read.{read};
ghost use Rattle.graph_model.specs.QueryLine.{query_said, reading_said, value_said};
ghost use Rattle.graph_model.specs.Range.{query_in_range};
ghost use Rattle.graph_model.specs.Script.{Json, Number, QueryRefusal, Shape};
ghost use Rattle.graph_model.specs.declared.queries.Ask.TheVariants as ask;
ghost use Rattle.graph_model.specs.declared.queries.Cmp.TheVariants as cmp;
ghost use Rattle.graph_model.specs.declared.queries.Direction.TheVariants as way;
ghost use Rattle.graph_model.specs.declared.queries.Op.TheVariants as view;
ghost use Rattle.graph_model.specs.declared.queries.Query.{Query};
ghost use Rattle.graph_model.specs.declared.properties.Value.TheVariants as value;
ghost use Rattle.query_script.specs.WithOnes.{with_ones};
ghost use Rattle.query_script.specs.Order.{is_refused_by, lies_in_value, value_refused_by};

/// A value is refused for a cause, or for one that is judged before it, exactly where it is no object of the three keys, or one of its
/// parts is refused so, wherever that part stands. So a shape comes before every number, and a number before too many views.
pub fn causes_are_judged_over_the_whole_line()
    ensures { (why : QueryRefusal) (d : Data) → is_refused_by why (value_said d) ≡ value_refused_by why d }
{}

/// The numbers of a value do not decide whether it is refused as shape: with 1 in the place of each it is so in the same cases, and
/// then it is never refused as number.
pub fn any_number_is_of_the_form()
    ensures shape { (d : Data) → is_refused_by Shape (value_said (with_ones d)) ≡ is_refused_by Shape (value_said d) }
    ensures number { (d : Data) → is_refused_by Number (value_said (with_ones d)) ≡ is_refused_by Shape (value_said d) }
{}

/// A value is refused for no other cause than a shape, a number or too many views.
pub fn causes_lie_in_values()
    ensures { (d : Data) (why : QueryRefusal) → value_said d ≡ Err why → IsTrue (lies_in_value why) }
{}

/// A line is refused as no JSON exactly where it is no text that can be read.
pub fn lines_that_cannot_be_read_are_no_json()
    ensures { (line : List ℕ) → (query_said line ≡ Err Json) ↔ ((is_utf8 line && is_some (read line)) ≡ false) }
{}

/// Each number of a query is in the range of its place.
pub fn queries_are_in_range()
    ensures { (line : List ℕ) (query : Query) → query_said line ≡ Ok query → IsTrue (query_in_range query) }
{}

/// Whatever stands behind the key `ask` last is the question; hops without a direction go outward; a text may have a zero byte.
pub fn questions_of_lines()
    ensures degree { reading_said (read (codes "{\"ask\":[\"degree\"]}")) ≡ Ok (record { ask = ask.Degree; views = []; each = None }) }
    ensures repeated { reading_said (read (codes "{\"ask\":[\"core\",1.5],\"ask\":[\"core\",1]}")) ≡ Ok (record { ask = ask.Core 1; views = []; each = None }) }
    ensures outward { reading_said (read (codes "{\"ask\":[\"hops\",\"a\"]}")) ≡ Ok (record { ask = ask.Hops (codes "a") way.Outward; views = []; each = None }) }
    ensures zero { reading_said (read (codes "{\"ask\":[\"hops\",\"\\u0000\"]}")) ≡ Ok (record { ask = ask.Hops (0 ∷ []) way.Outward; views = []; each = None }) }
    ensures least { reading_said (read (codes "{\"ask\":[\"nodes\"],\"views\":[[\"edges_where\",\"w\",\"<\",-9223372036854775808]]}"))
        ≡ Ok (record { ask = ask.Nodes; views = view.EdgesWhere (codes "w") cmp.Lt (value.Int (negsuc 9223372036854775807)) ∷ []; each = None }) }
{}

/// A fraction, a number with an exponent, and `-0` are no whole numbers, nor is one of more than 64 signed bits; but they are numbers.
pub fn numbers_of_lines()
    ensures fraction { reading_said (read (codes "{\"ask\":[\"core\",1.5]}")) ≡ Err Number }
    ensures exponent { reading_said (read (codes "{\"ask\":[\"core\",1e3]}")) ≡ Err Number }
    ensures minus { reading_said (read (codes "{\"ask\":[\"core\",-0]}")) ≡ Err Number }
    ensures large { reading_said (read (codes "{\"ask\":[\"nodes\"],\"views\":[[\"edges_where\",\"w\",\"<\",9223372036854775808]]}")) ≡ Err Number }
    ensures shape { reading_said (read (codes "{\"ask\":[\"core\",1.5],\"views\":[[\"window\",0]]}")) ≡ Err Shape }
{}

/// Null is no list of views and no windows, a question is never missing, and a line that ends too soon is no JSON.
pub fn shapes_of_lines()
    ensures views { reading_said (read (codes "{\"ask\":[\"nodes\"],\"views\":null}")) ≡ Err Shape }
    ensures each { reading_said (read (codes "{\"ask\":[\"nodes\"],\"each\":null}")) ≡ Err Shape }
    ensures ask { reading_said (read (codes "{\"views\":[]}")) ≡ Err Shape }
    ensures ends { reading_said (read (codes "{\"ask\":[\"core\"")) ≡ Err Json }
{}
