// What stands in the places of a form.
ghost use Rattle.std.specs.Prelude.{◌≡◌, ◌<◌, ℕ, List, Result, length, map, option_map};
ghost use Rattle.serde_json.specs.View.{view as data_of};
ghost use Rattle.graph_model.specs.QueryOutcome.{with_last};
ghost use Rattle.graph_model.specs.QueryPlaces.{as_list, bound as bound_of, comparison as comparison_of, core_number as core_number_of, direction as direction_of, moment as moment_of, name as name_of, names as names_of, place as place_of, step as step_of, text_of, value as value_of, whole as whole_of, word_of};
ghost use Rattle.graph_model.specs.Script.{QueryRefusal as Why};
ghost use Rattle.query_script.specs.Refusing.{Gives};

use crate::refusal::{QueryRefusal, both};
use graph_model::{
    self, Bounds, Cmp, Direction, MOST_NODES, Name, NameFault, NameList, Text, TextFault,
};
use serde_json::Value;
use std::alloc::Global;

/// The greatest number of a core.
const MOST_CORE: u64 = MOST_NODES as u64;

/// The item at a place, counted from 0.
pub fn place(items: &[Value], i: usize) -> &Value
    requires { i < length items.now }
    ensures { place_of i (map data_of items.now) ≡ data_of result.now }
{
    &items[i]
}

/// The items of an array.
pub fn list(value: &Value) -> Option<&[Value]>
    ensures { option_map (λ items. map data_of items.now) result ≡ as_list (data_of value.now) }
{
    match value.as_array() {
        Some(items) => Some(items.as_slice()),
        None => None,
    }
}

// The text of a value, or an empty one.
fn text(value: &Value) -> &str
    ensures { result.now ≡ text_of (data_of value.now) }
{
    value.as_str().unwrap_or("")
}

/// The word of a form, or an empty one.
pub fn word(items: &[Value]) -> &str
    ensures { result.now ≡ word_of (map data_of items.now) }
{
    if items.is_empty() {
        return "";
    }
    text(place(items, 0))
}

// A whole number of 64 signed bits.
fn whole(value: &Value) -> Result<i64, QueryRefusal>
    ensures { Gives result (whole_of (data_of value.now)) }
{
    let Some(number) = value.as_number() else {
        return Err(QueryRefusal::Shape);
    };
    match number.as_i64() {
        Some(n) => Ok(n),
        None => Err(QueryRefusal::Number),
    }
}

/// The end of a window.
pub fn bound(value: &Value) -> Result<i64, QueryRefusal>
    ensures { Gives result (bound_of (data_of value.now)) }
{
    let n = whole(value)?;
    if Bounds::EARLIEST <= n && n <= Bounds::LATEST {
        Ok(n)
    } else {
        Err(QueryRefusal::Number)
    }
}

/// A moment.
pub fn moment(value: &Value) -> Result<i64, QueryRefusal>
    ensures { Gives result (moment_of (data_of value.now)) }
{
    let n = whole(value)?;
    if Bounds::EARLIEST <= n && n < Bounds::LATEST {
        Ok(n)
    } else {
        Err(QueryRefusal::Number)
    }
}

/// A width or a step of windows.
pub fn step(value: &Value) -> Result<i64, QueryRefusal>
    ensures { Gives result (step_of (data_of value.now)) }
{
    let n = whole(value)?;
    if 1 <= n && n <= Bounds::LATEST {
        Ok(n)
    } else {
        Err(QueryRefusal::Number)
    }
}

/// The number of a core.
pub fn core_number(value: &Value) -> Result<u32, QueryRefusal>
    ensures { Gives result (core_number_of (data_of value.now)) }
{
    let Some(number) = value.as_number() else {
        return Err(QueryRefusal::Shape);
    };
    match number.as_u64() {
        Some(k) if k <= MOST_CORE => Ok(k as u32),
        _ => Err(QueryRefusal::Number),
    }
}

/// A name.
pub fn name(alloc: Global, value: &Value) -> Result<Name, QueryRefusal>
    ensures { Gives result (name_of (data_of value.now)) }
{
    let Some(text) = value.as_str() else {
        return Err(QueryRefusal::Shape);
    };
    match Name::new(alloc, text) {
        Ok(name) => Ok(name),
        Err(NameFault::Form) => Err(QueryRefusal::Shape),
        Err(NameFault::Memory) => Err(QueryRefusal::Memory),
    }
}

// Names, and one more behind them.
fn with_name(
    names: Result<NameList, QueryRefusal>,
    name: Result<Name, QueryRefusal>,
) -> Result<NameList, QueryRefusal>
    ensures { (read : Result (List (List ℕ)) Why) (more : Result (List ℕ) Why)
        → Gives names read → Gives name more → Gives result (with_last read more) }
{
    let (mut names, name) = both(names, name)?;
    names.push(name)?;
    Ok(names)
}

/// Names. All are looked at, since one that is no name comes before all else.
pub fn names(alloc: Global, value: &Value) -> Result<NameList, QueryRefusal>
    ensures { Gives result (names_of (data_of value.now)) }
{
    let Some(items) = list(value) else {
        return Err(QueryRefusal::Shape);
    };
    let mut names = Ok(NameList::new(alloc));
    for item in items {
        names = with_name(names, name(alloc, item));
    }
    names
}

/// A comparison.
pub fn comparison(value: &Value) -> Result<Cmp, QueryRefusal>
    ensures { Gives result (comparison_of (data_of value.now)) }
{
    match text(value) {
        "==" => Ok(Cmp::Eq),
        "!=" => Ok(Cmp::Ne),
        "<" => Ok(Cmp::Lt),
        "<=" => Ok(Cmp::Le),
        ">" => Ok(Cmp::Gt),
        ">=" => Ok(Cmp::Ge),
        _ => Err(QueryRefusal::Shape),
    }
}

/// A direction.
pub fn direction(value: &Value) -> Result<Direction, QueryRefusal>
    ensures { Gives result (direction_of (data_of value.now)) }
{
    match text(value) {
        "out" => Ok(Direction::Outward),
        "in" => Ok(Direction::Inward),
        "both" => Ok(Direction::Both),
        _ => Err(QueryRefusal::Shape),
    }
}

/// A value of a property.
pub fn value(alloc: Global, value: &Value) -> Result<graph_model::Value, QueryRefusal>
    ensures { Gives result (value_of (data_of value.now)) }
{
    if let Some(flag) = value.as_bool() {
        return Ok(graph_model::Value::Flag(flag));
    }
    if value.is_number() {
        return Ok(graph_model::Value::Int(whole(value)?));
    }
    let Some(text) = value.as_str() else {
        return Err(QueryRefusal::Shape);
    };
    match Text::new(alloc, text) {
        Ok(text) => Ok(graph_model::Value::Text(text)),
        Err(TextFault::Long) => Err(QueryRefusal::Shape),
        Err(TextFault::Memory) => Err(QueryRefusal::Memory),
    }
}
