//! Histories of additions and deletions at chosen times, with what a person says of them.
ghost use Rattle.std.specs.Prelude.{◌≡◌, ◌<◌, ◌≤◌, false, IfOk, IfSome};
ghost use Rattle.graph_model.specs.Interval.{earliest, latest};
ghost use Rattle.time_history.specs.Spans.{IsSpan, IsAllowed, AreWithin};
ghost use Rattle.time_history.specs.Kinds.{is_node, is_delete, NoDeletion};

use graph_model::{Bounds, Model as Lasting, Value};
use std::alloc::{AllocError, Global};
use std::marker::Brand;
use std::process::Abort;
use std::sync::ledger::{Blank, Ledger};
use std::test::Fail;
use time_column::Steps;
use time_history::{History, KeyValues, Kind, Span, Update};

fn kind_of(deletes: bool) -> Kind
    ensures edge { is_node result ≡ false }
    ensures deletes { is_delete result ≡ deletes }
{
    if deletes { Kind::Delete } else { Kind::Add }
}

/// Additions of an edge, of which the one at `deletion` is a deletion instead. The times begin at
/// `start` and go on by `step`, around at `round`. An addition sets key 0 to its time.
fn every<L: Ledger>(
    alloc: Global,
    count: u32,
    times: (u32, u32, u32),
    deletion: u32,
    steps: &mut Steps<L>,
) -> Result<History, AllocError>
    requires few { count ≤ 10 }
    requires start { times.0 < times.2 }
    requires step { times.1 ≤ 100 }
    requires round { times.2 ≤ 100 }
    ensures range { IfOk result (λ history. AreWithin (record { lo = earliest; hi = latest }) history.updates) }
    ensures kinds { IfOk result (λ history. count ≤ deletion → NoDeletion history.updates) }
{
    let (start, step, round) = times;
    let mut history = History::new(alloc);
    let mut time = start;
    for i in 0..count {
        let mut props = KeyValues::new(alloc);
        if i != deletion {
            props.insert(0, Value::Int(time as i64))?;
        }
        let update = Update {
            time: time as i64,
            order: 0,
            arrival: i as u64,
            kind: kind_of(i == deletion),
            props,
        };
        history.put(update, steps)?;
        time = (time + step) % round;
    }
    Ok(history)
}

/// The span of a window of the whole history.
fn clipped<L: Ledger>(
    history: &History,
    model: Lasting,
    window: (i64, i64),
    steps: &mut Steps<L>,
) -> Option<Span>
    requires range { AreWithin (record { lo = earliest; hi = latest }) history.now.updates }
    requires allowed { IsAllowed model history.now.updates }
    ensures { IfSome result (IsSpan history.now.updates) }
{
    let cut = Bounds::new(window.0, window.1)?;
    Some(history.clip(history.whole(), Bounds::whole(), cut, model, steps))
}

fn alive<L: Ledger>(history: &History, model: Lasting, m: i64, steps: &mut Steps<L>) -> bool
    requires range { AreWithin (record { lo = earliest; hi = latest }) history.now.updates }
    requires allowed { IsAllowed model history.now.updates }
{
    history.alive_at(history.whole(), Bounds::whole(), model, m, steps)
}

fn next<L: Ledger>(history: &History, model: Lasting, m: i64, steps: &mut Steps<L>) -> Option<i64>
    requires range { AreWithin (record { lo = earliest; hi = latest }) history.now.updates }
    requires allowed { IsAllowed model history.now.updates }
{
    history.next_contact(history.whole(), Bounds::whole(), model, m, steps)
}

fn number(value: Option<&Value>) -> Option<i64> {
    match value {
        Some(Value::Int(n)) => Some(*n),
        _ => None,
    }
}

fn ends(span: Span) -> (u32, u32, bool) {
    (span.from, span.to, span.carried)
}

fn late_updates<L: Ledger>(
    rt: &impl Abort,
    alloc: Global,
    steps: &mut Steps<L>,
) -> Result<(), Fail> {
    let history = every(alloc, 3, (5, 2, 6), 3, steps)?;
    assert_eq!(rt; history.len(), 3);
    for (i, time) in [(0, 1), (1, 3), (2, 5)] {
        assert_eq!(rt; history.time_at(i, steps), time, "at {i}");
        assert_eq!(rt; history.order_at(i, steps), 0, "at {i}");
    }
    Ok(())
}

fn seven_additions<L: Ledger>(
    rt: &impl Abort,
    alloc: Global,
    steps: &mut Steps<L>,
) -> Result<(), Fail> {
    let model = Lasting::Event;
    let history = every(alloc, 7, (0, 3, 7), 7, steps)?;
    let span = clipped(&history, model, (2, 5), steps).ok_or("no bounds")?;
    assert_eq!(rt; ends(span), (2, 5, false));
    assert_eq!(rt; number(history.value(span, 0)), Some(4));
    let none = clipped(&history, model, (4, 4), steps).ok_or("no bounds")?;
    assert!(rt; none.is_empty());
    assert!(rt; history.last_kind(none).is_none());
    assert!(rt; alive(&history, model, 3, steps));
    assert!(rt; !alive(&history, model, 7, steps));
    assert_eq!(rt; next(&history, model, 3, steps), Some(4));
    assert_eq!(rt; next(&history, model, 6, steps), None);
    Ok(())
}

fn deleted_edge<L: Ledger>(
    rt: &impl Abort,
    alloc: Global,
    steps: &mut Steps<L>,
) -> Result<(), Fail> {
    let model = Lasting::Persistent;
    let history = every(alloc, 3, (1, 4, 100), 1, steps)?;
    for (window, want, value) in [
        ((4, 5), (1, 1, true), Some(1)),
        ((5, 9), (1, 2, true), None),
        ((9, 10), (2, 3, false), Some(9)),
    ] {
        let span = clipped(&history, model, window, steps).ok_or("no bounds")?;
        assert_eq!(rt; ends(span), want);
        assert_eq!(rt; number(history.value(span, 0)), value);
    }
    assert_eq!(rt; next(&history, model, 4, steps), Some(9));
    assert!(rt; history.present(history.whole(), Bounds::whole(), model, steps));
    Ok(())
}

fn updates_by_place<L: Ledger>(
    rt: &impl Abort,
    alloc: Global,
    steps: &mut Steps<L>,
) -> Result<(), Fail> {
    let mut history = every(alloc, 2, (3, 4, 100), 1, steps)?;
    history.reserve()?;
    assert_eq!(rt; history.len(), 2);
    assert!(rt; !history.kind_at(0).is_deletion());
    assert!(rt; history.kind_at(1).is_deletion());
    let values = history.values_at(0);
    assert_eq!(rt; values.len(), 1);
    assert_eq!(rt; values.key_at(0), 0);
    assert_eq!(rt; number(Some(values.value_at(0))), Some(3));
    Ok(())
}

fn all_rows<L: Ledger>(rt: &impl Abort, alloc: Global, blank: Blank) -> Result<(), Fail>
    requires name { blank.name ≡ L.name }
    requires parts { blank.parts ≡ L.parts }
    requires one { blank.parts ≡ 1 }
{
    let mut steps = Steps::<L>::new(blank);
    late_updates(rt, alloc, &mut steps)?;
    seven_additions(rt, alloc, &mut steps)?;
    deleted_edge(rt, alloc, &mut steps)?;
    updates_by_place(rt, alloc, &mut steps)
}

#[test]
fn histories(rt: HostRuntime) -> Result<(), Fail> {
    all_rows::<Brand>(&rt, rt.alloc(), Blank::new(1))
}
