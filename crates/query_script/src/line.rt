// A line of a script.
ghost use Rattle.std.specs.Prelude.{◌≡◌, List, Result, map, Ok, Some, IfOk, IfErr, IsTrue, option_map, string_bytes};
ghost use Rattle.std.specs.BTreeMap.{keys};
ghost use Rattle.std.specs.List.{list_all};
ghost use Rattle.serde_json.specs.Find.{as_object};
ghost use Rattle.serde_json.specs.View.{view as data_of};
ghost use Rattle.graph_model.specs.QueryLine.{ask_in, depth_of, each_in, has_query_keys, is_query_key as is_key_of_queries, parts_said, query_from, query_said, value_said, views_in, views_listed};
ghost use Rattle.graph_model.specs.QueryForms.{view_said};
ghost use Rattle.graph_model.specs.QueryOutcome.{all_of, with_last};
ghost use Rattle.graph_model.specs.Range.{query_in_range};
ghost use Rattle.graph_model.specs.Script.{QueryRefusal as Why};
ghost use Rattle.graph_model.specs.declared.queries.Op.{Op as View};
ghost use Rattle.query_script.specs.Refusing.{Gives, Refuses};

use crate::forms::{ask, each, view};
use crate::places::list;
use crate::refusal::{QueryRefusal, both};
use graph_model::{Ask, Each, MOST_VIEWS, Op, OpList, Query};
use serde_json::{Map, Value};
use std::alloc::Global;

// Views, and one more behind them.
fn with_view(
    views: Result<OpList, QueryRefusal>,
    view: Result<Op, QueryRefusal>,
) -> Result<OpList, QueryRefusal>
    ensures { (read : Result (List View) Why) (more : Result View Why)
        → Gives views read → Gives view more → Gives result (with_last read more) }
{
    let (mut views, view) = both(views, view)?;
    views.push(view)?;
    Ok(views)
}

// Whether there are not too many views.
fn depth(items: &[Value]) -> Result<(), QueryRefusal>
    ensures { Gives result (depth_of (map data_of items.now)) }
{
    if items.len() > MOST_VIEWS {
        return Err(QueryRefusal::Depth);
    }
    Ok(())
}

// The views of a list. All are looked at, since one of no form comes before all else.
fn all_views(alloc: Global, items: &[Value]) -> Result<OpList, QueryRefusal>
    ensures { Gives result (all_of view_said (map data_of items.now)) }
{
    let mut views = Ok(OpList::new(alloc));
    for item in items {
        views = with_view(views, view(alloc, item));
    }
    views
}

// The views of a list that is not too long.
fn view_list(alloc: Global, items: &[Value]) -> Result<OpList, QueryRefusal>
    ensures { Gives result (views_listed (Some (map data_of items.now))) }
{
    let (views, ()) = both(all_views(alloc, items), depth(items))?;
    Ok(views)
}

fn views(alloc: Global, value: Option<&Value>) -> Result<OpList, QueryRefusal>
    ensures { Gives result (views_in (option_map (λ v. data_of v.now) value.entry)) }
{
    let Some(value) = value else {
        return Ok(OpList::new(alloc));
    };
    match list(value) {
        Some(items) => view_list(alloc, items),
        None => Err(QueryRefusal::Shape),
    }
}

fn each_if(value: Option<&Value>) -> Result<Option<Each>, QueryRefusal>
    ensures { Gives result (each_in (option_map (λ v. data_of v.now) value.entry)) }
{
    match value {
        Some(value) => Ok(Some(each(value)?)),
        None => Ok(None),
    }
}

fn ask_if(alloc: Global, value: Option<&Value>) -> Result<Ask, QueryRefusal>
    ensures { Gives result (ask_in (option_map (λ v. data_of v.now) value.entry)) }
{
    match value {
        Some(value) => ask(alloc, value),
        None => Err(QueryRefusal::Shape),
    }
}

fn is_query_key(key: &str) -> bool
    ensures { result ≡ is_key_of_queries key.now }
{
    key == "ask" || key == "views" || key == "each"
}

// Whether an object has the keys of a query alone.
fn has_keys(members: &Map<String, Value>) -> bool
    ensures { result ≡ list_all (λ key. is_key_of_queries (string_bytes key)) (keys members.now) }
{
    members.keys().all(|key| is_query_key(key.as_str()))
}

// Whether a value is an object with the keys of a query alone.
fn is_query(value: &Value) -> bool
    ensures { result ≡ has_query_keys (as_object (data_of value.now)) }
{
    match value.as_object() {
        Some(members) => has_keys(members),
        None => false,
    }
}

type Parts = ((Ask, OpList), Option<Each>);

// What stands behind the three keys. All are looked at before one of them is refused.
fn parts(alloc: Global, value: &Value) -> Result<Parts, QueryRefusal>
    ensures { Gives result (parts_said (data_of value.now)) }
{
    let asked = both(
        ask_if(alloc, value.get("ask")),
        views(alloc, value.get("views")),
    );
    both(asked, each_if(value.get("each")))
}

fn query(alloc: Global, value: &Value) -> Result<Query, QueryRefusal>
    ensures { Gives result (value_said (data_of value.now)) }
{
    if !is_query(value) {
        return Err(QueryRefusal::Shape);
    }
    let ((ask, views), each) = parts(alloc, value)?;
    Ok(Query { ask, views, each })
}

fn read(alloc: Global, line: &[u8]) -> Result<Query, QueryRefusal>
    ensures { Gives result (query_said line.now) }
{
    match Value::from_slice(alloc, line) {
        Ok(value) => query(alloc, &value),
        Err(fault) => {
            if fault.is_memory() {
                Err(QueryRefusal::Memory)
            } else {
                Err(QueryRefusal::Json)
            }
        }
    }
}

/// The query that a line of a script says. Repeated keys of an object mean what `serde_json`'s
/// reading holds.
///
/// # Errors
/// The first cause of refusal that holds over the whole line, in the order of `QueryRefusal`;
/// `Memory`, for want of memory, at any line.
pub fn read_query(alloc: Global, line: &[u8]) -> Result<Query, QueryRefusal>
    ensures said { IfOk result (λ query. query_said line.now ≡ Ok query) }
    ensures range { IfOk result (λ query. IsTrue (query_in_range query)) }
    ensures refused { IfErr result (λ e. Refuses e (query_said line.now)) }
{
    read(alloc, line)
}
