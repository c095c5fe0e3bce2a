//! The events of a view, copied as a list in canonical order.
ghost use Rattle.std.specs.Prelude.{◌≡◌, IfOk, OnOk, map};
ghost use Rattle.std.specs.List.{All};
ghost use Rattle.graph_model.specs.Props.{KeysRise, put_prop};
ghost use Rattle.time_history.specs.Telling.{what_told};
ghost use Rattle.view_lists.specs.Borrowed.{event_borrowed, props_borrowed};
ghost use Rattle.view_trait.specs.Coverage.{Covers};
ghost use Rattle.view_lists.specs.Listing.{entity_named, IsShownEntity, IsPlaced, event_placed};

use graph_model::{EdgeName, Event, EventList, Memory, Name, Props, What};
use std::alloc::{AllocError, Global};
use std::sync::ledger::Ledger;
use time_column::Steps;
use time_history::Kind;
use view_lists::{
    BorrowedEvent, EventPlace, Property, ShownEntity, Subject, borrowed_event, list_places,
};
use view_trait::{Roster, View};

/// The names of an edge.
fn edge_named(src: &Name, dst: &Name, layer: &Name) -> Result<EdgeName, Memory>
    ensures { IfOk result (λ edge.
        edge ≡ record { src = src.now; dst = dst.now; layer = layer.now }) }
{
    Ok(EdgeName {
        src: src.copy()?,
        dst: dst.copy()?,
        layer: layer.copy()?,
    })
}

/// What an update of a node or an edge says.
fn what_of(subject: Subject<'_>, kind: Kind, props: Props) -> Result<What, Memory>
    ensures { IfOk result (λ what. what ≡ what_told (entity_named subject.entry) kind props) }
{
    match subject {
        Subject::Node(_, name) => Ok(What::Node(name.copy()?, props)),
        Subject::Edge(_, src, dst, layer) => {
            let edge = edge_named(src, dst, layer)?;
            if kind.is_deletion() {
                Ok(What::Delete(edge))
            } else {
                Ok(What::Add(edge, props))
            }
        }
    }
}

/// Puts a copy of a property.
fn put_copy(props: &mut Props, property: Property<'_>) -> Result<(), Memory>
    ensures { OnOk result
        (props.new ≡ put_prop (property.entry.key.now, property.entry.value.now) props.old) }
{
    let key = property.key.copy()?;
    let value = property.value.copy()?;
    match props.insert(key, value) {
        Ok(()) => Ok(()),
        Err(_) => Err(AllocError),
    }
}

/// Properties that rise by key, copied.
fn props_copied(alloc: Global, props: &[Property<'_>]) -> Result<Props, Memory>
    requires { KeysRise (props_borrowed props.now) }
    ensures { IfOk result (λ copied. copied ≡ props_borrowed props.now) }
{
    let mut copied = Props::new(alloc);
    let mut i = props.len();
    while i > 0 {
        i -= 1;
        put_copy(&mut copied, props[i])?;
    }
    Ok(copied)
}

/// An event with these properties, copied.
fn event_copied(
    alloc: Global,
    event: BorrowedEvent<'_>,
    props: &[Property<'_>],
) -> Result<Event, Memory>
    requires { KeysRise (props_borrowed props.now) }
    ensures { IfOk result (λ copied.
        copied ≡ event_borrowed event.entry (props_borrowed props.now)) }
{
    let props = props_copied(alloc, props)?;
    let what = what_of(event.subject, event.kind, props)?;
    let (time, order) = (event.time, event.order);
    Ok(Event { time, order, what })
}

/// The event at a place, copied. The nodes and edges are those that the view shows.
pub fn listed_event<'s, V: View, L: Ledger>(
    alloc: Global,
    view: &'s V,
    shown: &[ShownEntity<'s>],
    place: EventPlace,
    steps: &mut Steps<L>,
) -> Result<Event, Memory>
    requires parts { All (IsShownEntity (V.contents view.now) (V.world view.now)) shown.now }
    requires placed { IsPlaced (V.world view.now) shown.now place }
    ensures { IfOk result (λ event. event ≡ event_placed (V.world view.now) shown.now place) }
{
    let mut props = Vec::new(alloc);
    let event = borrowed_event(&mut props, view, shown, place, steps)?;
    event_copied(alloc, event, props.as_slice())
}

/// The events at places, copied. The nodes and edges are those that the view shows.
fn events_at<'s, V: View, L: Ledger>(
    alloc: Global,
    view: &'s V,
    shown: &[ShownEntity<'s>],
    places: &[EventPlace],
    steps: &mut Steps<L>,
) -> Result<EventList, Memory>
    requires parts { All (IsShownEntity (V.contents view.now) (V.world view.now)) shown.now }
    requires placed { All (IsPlaced (V.world view.now) shown.now) places.now }
    ensures { IfOk result (λ events.
        events ≡ map (event_placed (V.world view.now) shown.now) places.now) }
{
    let mut events = EventList::new(alloc);
    let mut props = Vec::new(alloc);
    for place in places {
        let event = borrowed_event(&mut props, view, shown, *place, steps)?;
        events.push(event_copied(alloc, event, props.as_slice())?)?;
    }
    Ok(events)
}

/// The events of a view, in canonical order. They are the same for every roster that covers the
/// view. Each span of the roster is asked once, and names, keys and values are copied once each.
pub fn list_world<V: View, L: Ledger>(
    alloc: Global,
    view: &V,
    roster: Roster<'_>,
    steps: &mut Steps<L>,
) -> Result<EventList, Memory>
    requires covers { Covers (V.contents view.now) (V.world view.now) roster }
    ensures { IfOk result (λ events. events ≡ (V.world view.now).events) }
{
    let listed = list_places(alloc, view, roster, steps)?;
    events_at(
        alloc,
        view,
        listed.shown.as_slice(),
        listed.events.as_slice(),
        steps,
    )
}
