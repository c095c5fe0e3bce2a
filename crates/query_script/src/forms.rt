// The forms of views, questions and windows.
ghost use Rattle.std.specs.Prelude.{◌≡◌, ◌≢◌, ◌<◌, length, map, MatchResult, Some};
ghost use Rattle.serde_json.specs.View.{view as data_of};
ghost use Rattle.graph_model.specs.QueryForms.{alone as alone_of, ask_forms, ask_said, by_forms, each_forms, each_said, edge_from, four as four_of, hops as hops_of, one as one_of, rolling as rolling_of, three as three_of, two as two_of, view_forms, view_said};
ghost use Rattle.graph_model.specs.QueryPlaces.{bound as bound_of, comparison as comparison_of, core_number as core_number_of, direction as direction_of, moment as moment_of, name as name_of, names as names_of, place as place_of, step as step_of, value as value_of};
ghost use Rattle.graph_model.specs.QueryOutcome.{both as both_of};
ghost use Rattle.query_script.specs.Refusing.{Gives};
ghost use Rattle.query_script.specs.Tables.{history_forms, keeping_forms};

use crate::places::{
    bound, comparison, core_number, direction, list, moment, name, names, place, step, value, word,
};
use crate::refusal::{QueryRefusal, both};
use graph_model::{self, Ask, Cmp, Direction, Each, EdgeName, Name, NameList, Op};
use serde_json::Value;
use std::alloc::Global;

// What a word means that has nothing behind it.
fn alone<A: Drop>(items: &[Value], meant: A) -> Result<A, QueryRefusal>
    ensures { Gives result (alone_of meant (map data_of items.now)) }
{
    if items.len() != 1 {
        return Err(QueryRefusal::Shape);
    }
    Ok(meant)
}

// The one item behind the word.
fn one(items: &[Value]) -> Result<&Value, QueryRefusal>
    ensures { MatchResult result
        (λ item.
        (length items.now ≡ 2)
        × (place_of 1 (map data_of items.now) ≡ data_of item.now))
        (λ e. (length items.now ≢ 2) × (e ≡ QueryRefusal.Shape)) }
{
    if items.len() != 2 {
        return Err(QueryRefusal::Shape);
    }
    Ok(place(items, 1))
}

fn one_name(alloc: Global, items: &[Value]) -> Result<Name, QueryRefusal>
    ensures { Gives result (one_of name_of (map data_of items.now)) }
{
    name(alloc, one(items)?)
}

fn one_list(alloc: Global, items: &[Value]) -> Result<NameList, QueryRefusal>
    ensures { Gives result (one_of names_of (map data_of items.now)) }
{
    names(alloc, one(items)?)
}

fn one_bound(items: &[Value]) -> Result<i64, QueryRefusal>
    ensures { Gives result (one_of bound_of (map data_of items.now)) }
{
    bound(one(items)?)
}

fn one_moment(items: &[Value]) -> Result<i64, QueryRefusal>
    ensures { Gives result (one_of moment_of (map data_of items.now)) }
{
    moment(one(items)?)
}

fn one_step(items: &[Value]) -> Result<i64, QueryRefusal>
    ensures { Gives result (one_of step_of (map data_of items.now)) }
{
    step(one(items)?)
}

fn one_core_number(items: &[Value]) -> Result<u32, QueryRefusal>
    ensures { Gives result (one_of core_number_of (map data_of items.now)) }
{
    core_number(one(items)?)
}

// The two items behind the word.
fn two(items: &[Value]) -> Result<(&Value, &Value), QueryRefusal>
    ensures { MatchResult result
        (λ found.
        (length items.now ≡ 3)
        × (place_of 1 (map data_of items.now) ≡ data_of found.0.now)
        × (place_of 2 (map data_of items.now) ≡ data_of found.1.now))
        (λ e. (length items.now ≢ 3) × (e ≡ QueryRefusal.Shape)) }
{
    if items.len() != 3 {
        return Err(QueryRefusal::Shape);
    }
    Ok((place(items, 1), place(items, 2)))
}

fn two_bounds(items: &[Value]) -> Result<(i64, i64), QueryRefusal>
    ensures { Gives result (two_of bound_of bound_of (map data_of items.now)) }
{
    let (from, to) = two(items)?;
    both(bound(from), bound(to))
}

fn two_steps(items: &[Value]) -> Result<(i64, i64), QueryRefusal>
    ensures { Gives result (two_of step_of step_of (map data_of items.now)) }
{
    let (width, each) = two(items)?;
    both(step(width), step(each))
}

fn two_names(alloc: Global, items: &[Value]) -> Result<(Name, Name), QueryRefusal>
    ensures { Gives result (two_of name_of name_of (map data_of items.now)) }
{
    let (node, key) = two(items)?;
    both(name(alloc, node), name(alloc, key))
}

fn name_and_direction(alloc: Global, items: &[Value]) -> Result<(Name, Direction), QueryRefusal>
    ensures { Gives result (two_of name_of direction_of (map data_of items.now)) }
{
    let (from, way) = two(items)?;
    both(name(alloc, from), direction(way))
}

fn moment_and_list(alloc: Global, items: &[Value]) -> Result<(i64, NameList), QueryRefusal>
    ensures { Gives result (two_of moment_of names_of (map data_of items.now)) }
{
    let (start, seeds) = two(items)?;
    both(moment(start), names(alloc, seeds))
}

// A key, a comparison and a value.
fn test(alloc: Global, items: &[Value]) -> Result<((Name, Cmp), graph_model::Value), QueryRefusal>
    ensures { Gives result (three_of name_of comparison_of value_of (map data_of items.now)) }
{
    if items.len() != 4 {
        return Err(QueryRefusal::Shape);
    }
    let compared = both(name(alloc, place(items, 1)), comparison(place(items, 2)));
    both(compared, value(alloc, place(items, 3)))
}

type EdgeNames = ((Name, Name), Name);

fn edge(names: EdgeNames) -> EdgeName
    ensures { result ≡ edge_from names }
{
    let ((src, dst), layer) = names;
    EdgeName { src, dst, layer }
}

// The names of an edge in the first three places behind the word.
fn edge_names(alloc: Global, items: &[Value]) -> Result<EdgeNames, QueryRefusal>
    requires { 3 < length items.now }
    ensures { Gives result (both_of
        (both_of
        (name_of (place_of 1 (map data_of items.now)))
        (name_of (place_of 2 (map data_of items.now))))
        (name_of (place_of 3 (map data_of items.now)))) }
{
    let ends = both(name(alloc, place(items, 1)), name(alloc, place(items, 2)));
    both(ends, name(alloc, place(items, 3)))
}

fn three_names(alloc: Global, items: &[Value]) -> Result<EdgeNames, QueryRefusal>
    ensures { Gives result (three_of name_of name_of name_of (map data_of items.now)) }
{
    if items.len() != 4 {
        return Err(QueryRefusal::Shape);
    }
    edge_names(alloc, items)
}

fn four_names(alloc: Global, items: &[Value]) -> Result<(EdgeNames, Name), QueryRefusal>
    ensures { Gives result (four_of name_of name_of name_of name_of (map data_of items.now)) }
{
    if items.len() != 5 {
        return Err(QueryRefusal::Shape);
    }
    both(edge_names(alloc, items), name(alloc, place(items, 4)))
}

fn three_names_and_moment(alloc: Global, items: &[Value]) -> Result<(EdgeNames, i64), QueryRefusal>
    ensures { Gives result (four_of name_of name_of name_of moment_of (map data_of items.now)) }
{
    if items.len() != 5 {
        return Err(QueryRefusal::Shape);
    }
    both(edge_names(alloc, items), moment(place(items, 4)))
}

// The view of the word that keeps a part of the graph.
fn keeping_view_by(alloc: Global, items: &[Value]) -> Result<Op, QueryRefusal>
    ensures { Gives result (by_forms keeping_forms (Some (map data_of items.now))) }
{
    match word(items) {
        "layers" => Ok(Op::Layers(one_list(alloc, items)?)),
        "exclude_layers" => Ok(Op::ExcludeLayers(one_list(alloc, items)?)),
        "subgraph" => Ok(Op::Subgraph(one_list(alloc, items)?)),
        "exclude_nodes" => Ok(Op::ExcludeNodes(one_list(alloc, items)?)),
        "node_types" => Ok(Op::NodeTypes(one_list(alloc, items)?)),
        "edges_where" => {
            let ((key, cmp), value) = test(alloc, items)?;
            Ok(Op::EdgesWhere(key, cmp, value))
        }
        "nodes_where" => {
            let ((key, cmp), value) = test(alloc, items)?;
            Ok(Op::NodesWhere(key, cmp, value))
        }
        "valid" => alone(items, Op::Valid),
        _ => Err(QueryRefusal::Shape),
    }
}

// The view of the word.
fn view_by(alloc: Global, items: &[Value]) -> Result<Op, QueryRefusal>
    ensures { Gives result (by_forms view_forms (Some (map data_of items.now))) }
{
    match word(items) {
        "window" => {
            let (from, to) = two_bounds(items)?;
            Ok(Op::Window(from, to))
        }
        "at" => Ok(Op::At(one_moment(items)?)),
        "before" => Ok(Op::Before(one_bound(items)?)),
        "after" => Ok(Op::After(one_moment(items)?)),
        _ => keeping_view_by(alloc, items),
    }
}

/// The view that a value says.
pub fn view(alloc: Global, value: &Value) -> Result<Op, QueryRefusal>
    ensures { Gives result (view_said (data_of value.now)) }
{
    match list(value) {
        Some(items) => view_by(alloc, items),
        None => Err(QueryRefusal::Shape),
    }
}

// Hops go outward where no direction is given.
fn hops(alloc: Global, items: &[Value]) -> Result<Ask, QueryRefusal>
    ensures { Gives result (hops_of (map data_of items.now)) }
{
    if items.len() == 2 {
        return Ok(Ask::Hops(one_name(alloc, items)?, Direction::Outward));
    }
    let (from, way) = name_and_direction(alloc, items)?;
    Ok(Ask::Hops(from, way))
}

// The question of the word about one node or edge, or for the records.
fn history_ask_by(alloc: Global, items: &[Value]) -> Result<Ask, QueryRefusal>
    ensures { Gives result (by_forms history_forms (Some (map data_of items.now))) }
{
    match word(items) {
        "node_history" => Ok(Ask::NodeHistory(one_name(alloc, items)?)),
        "edge_history" => Ok(Ask::EdgeHistory(edge(three_names(alloc, items)?))),
        "node_value" => {
            let (node, key) = two_names(alloc, items)?;
            Ok(Ask::NodeValue(node, key))
        }
        "edge_value" => {
            let (names, key) = four_names(alloc, items)?;
            Ok(Ask::EdgeValue(edge(names), key))
        }
        "edge_alive" => {
            let (names, at) = three_names_and_moment(alloc, items)?;
            Ok(Ask::EdgeAlive(edge(names), at))
        }
        "materialise" => alone(items, Ask::Materialise),
        _ => Err(QueryRefusal::Shape),
    }
}

// The question of the word.
fn ask_by(alloc: Global, items: &[Value]) -> Result<Ask, QueryRefusal>
    ensures { Gives result (by_forms ask_forms (Some (map data_of items.now))) }
{
    match word(items) {
        "nodes" => alone(items, Ask::Nodes),
        "edges" => alone(items, Ask::Edges),
        "events" => alone(items, Ask::Events),
        "degree" => alone(items, Ask::Degree),
        "hops" => hops(alloc, items),
        "weak" => alone(items, Ask::Weak),
        "out_component" => Ok(Ask::OutComponent(one_name(alloc, items)?)),
        "in_component" => Ok(Ask::InComponent(one_name(alloc, items)?)),
        "core" => Ok(Ask::Core(one_core_number(items)?)),
        "core_numbers" => alone(items, Ask::CoreNumbers),
        "arrival" => {
            let (start, seeds) = moment_and_list(alloc, items)?;
            Ok(Ask::Arrival(start, seeds))
        }
        _ => history_ask_by(alloc, items),
    }
}

/// The question that a value says.
pub fn ask(alloc: Global, value: &Value) -> Result<Ask, QueryRefusal>
    ensures { Gives result (ask_said (data_of value.now)) }
{
    match list(value) {
        Some(items) => ask_by(alloc, items),
        None => Err(QueryRefusal::Shape),
    }
}

// The width is the step too where no step is given.
fn rolling(items: &[Value]) -> Result<Each, QueryRefusal>
    ensures { Gives result (rolling_of (map data_of items.now)) }
{
    if items.len() == 2 {
        let width = one_step(items)?;
        return Ok(Each::Rolling(width, width));
    }
    let (width, step) = two_steps(items)?;
    Ok(Each::Rolling(width, step))
}

// The windows of the word.
fn each_by(items: &[Value]) -> Result<Each, QueryRefusal>
    ensures { Gives result (by_forms each_forms (Some (map data_of items.now))) }
{
    match word(items) {
        "rolling" => rolling(items),
        "expanding" => Ok(Each::Expanding(one_step(items)?)),
        _ => Err(QueryRefusal::Shape),
    }
}

/// The windows that a value says.
pub fn each(value: &Value) -> Result<Each, QueryRefusal>
    ensures { Gives result (each_said (data_of value.now)) }
{
    match list(value) {
        Some(items) => each_by(items),
        None => Err(QueryRefusal::Shape),
    }
}
