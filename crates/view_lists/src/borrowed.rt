//! The events of a view, borrowed from its store.
ghost use Rattle.std.specs.Prelude.{◌≡◌, ◌∷◌, [], ◌+◌, ◌-◌, ◌<◌, ◌≤◌, ◌==◌, ◌&&◌, false};
ghost use Rattle.std.specs.Prelude.{IfOk, OnOk, length, take, if◌then◌else◌};
ghost use Rattle.std.specs.List.{All, list_any, position_or_len};
ghost use Rattle.std.specs.Ordering.{is_lt};
ghost use Rattle.graph_model.specs.Compare.{live_events};
ghost use Rattle.graph_model.specs.Entity.{update_of};
ghost use Rattle.graph_model.specs.Names.{name_cmp, same_name};
ghost use Rattle.graph_model.specs.Props.{KeysRise, overwrite, put_prop};
ghost use Rattle.graph_model.specs.Window.{last_props};
ghost use Rattle.graph_model.specs.World.{events_of};
ghost use Rattle.time_history.specs.Asked.{AreNamed};
ghost use Rattle.time_history.specs.Telling.{with_key_names, event_told, events_told};
ghost use Rattle.time_history.specs.Updates.{update_at};
ghost use Rattle.graph_store.specs.Contents.{key_names_for};
ghost use Rattle.view_trait.specs.Meaning.{Tells};
ghost use Rattle.view_lists.specs.Borrowed.{event_borrowed, props_borrowed};
ghost use Rattle.view_lists.specs.Listing.{entity_named, IsNumbered, IsShownEntity, IsPlaced};
ghost use Rattle.view_lists.specs.Listing.{event_at, event_placed};
ghost use Rattle.view_lists.specs.Keyed.{key_count};

use crate::listing::{EventPlace, ShownEntity, Subject};
use graph_model::{Memory, Name, Value};
use graph_store::Store;
use std::sync::ledger::Ledger;
use time_column::Steps;
use time_history::{History, KeyValues, Kind, Span};
use view_trait::View;

/// A property of an event, as a store keeps it.
#[derive(Clone, Copy)]
pub struct Property<'s> {
    pub key: &'s Name,
    pub value: &'s Value,
}

/// An event, as a store keeps it, but for its properties. The kind of an update of a node says
/// nothing.
#[derive(Clone, Copy)]
pub struct BorrowedEvent<'s> {
    pub time: i64,
    pub order: u32,
    pub kind: Kind,
    pub subject: Subject<'s>,
}

/// The history of a node or an edge.
pub(crate) fn history_of<'s>(store: &'s Store, subject: Subject<'_>) -> &'s History
    requires { IsNumbered store.now subject }
    ensures tells { Tells store.now (entity_named subject.entry) result.now.updates }
    ensures keys { AreNamed (key_names_for store.now (entity_named subject.entry))
        (key_count store.now (entity_named subject.entry)) result.now.updates }
{
    match subject {
        Subject::Node(node, _) => store.node_history(node),
        Subject::Edge(edge, _, _, _) => store.edge_history(edge),
    }
}

/// The name of the number of a key of nodes, or of edges.
fn key_of<'s>(store: &'s Store, subject: Subject<'_>, key: u32) -> &'s Name
    requires { key < key_count store.now (entity_named subject) }
    ensures { result.now ≡ key_names_for store.now (entity_named subject.entry) key }
{
    match subject {
        Subject::Node(..) => store.node_key_name(key),
        Subject::Edge(..) => store.edge_key_name(key),
    }
}

/// The first place whose key is greater than the given one.
fn place_of(props: &[Property<'_>], key: &Name) -> usize
    ensures { result ≡ position_or_len (λ p. is_lt (name_cmp key.now p.key.now)) props.now }
{
    let mut place = 0;
    for property in props {
        if key.cmp(property.key).is_lt() {
            return place;
        }
        place += 1;
    }
    place
}

/// Puts a value of a key in its place.
fn put_value<'s>(
    props: &mut Vec<Property<'s>>,
    key: &'s Name,
    value: &'s Value,
) -> Result<(), Memory>
    ensures { OnOk result (props_borrowed props.new.items
        ≡ put_prop (key.now, value.now) (props_borrowed props.old.items)) }
{
    let place = place_of(props.as_slice(), key);
    props.insert(place, Property { key, value })?;
    Ok(())
}

/// Makes `props` the values of an update, by the names of their keys.
fn set_values<'s>(
    props: &mut Vec<Property<'s>>,
    store: &'s Store,
    subject: Subject<'_>,
    values: &'s KeyValues,
) -> Result<(), Memory>
    requires { All (λ p. p.0 < key_count store.now (entity_named subject)) values.now }
    ensures { OnOk result (props_borrowed props.new.items
        ≡ with_key_names (key_names_for store.now (entity_named subject.entry)) values.now) }
{
    props.clear();
    let mut i = values.len();
    while i > 0 {
        i -= 1;
        let key = key_of(store, subject, values.key_at(i));
        put_value(props, key, values.value_at(i))?;
    }
    Ok(())
}

/// The event that an update of a node or an edge is, with its properties in `props`.
fn update_event<'s, L: Ledger>(
    props: &mut Vec<Property<'s>>,
    store: &'s Store,
    subject: Subject<'s>,
    history: &'s History,
    i: u32,
    steps: &mut Steps<L>,
) -> Result<BorrowedEvent<'s>, Memory>
    requires place { i < length history.now.updates }
    requires keys { AreNamed (key_names_for store.now (entity_named subject))
        (key_count store.now (entity_named subject)) history.now.updates }
    ensures event { IfOk result (λ event.
        event_borrowed event (props_borrowed props.new.items)
        ≡ event_told (entity_named subject.entry)
        (key_names_for store.now (entity_named subject.entry))
        (update_at history.now.updates i)) }
    ensures rise { OnOk result (KeysRise (props_borrowed props.new.items)) }
{
    let _rise = history.len();
    set_values(props, store, subject, history.values_at(i))?;
    let time = history.time_at(i, steps);
    let order = history.order_at(i, steps);
    let kind = history.kind_at(i);
    Ok(BorrowedEvent {
        time,
        order,
        kind,
        subject,
    })
}

/// How many keys there are of nodes, or of edges.
fn keys_of(store: &Store, subject: Subject<'_>) -> u32
    ensures { result ≡ key_count store.now (entity_named subject.entry) }
{
    match subject {
        Subject::Node(..) => store.node_keys(),
        Subject::Edge(..) => store.edge_keys(),
    }
}

/// Whether properties have a key.
fn has_value(props: &[Property<'_>], key: &Name) -> bool
    ensures { result ≡ list_any (λ p. same_name key.now p.key.now) props.now }
{
    props.iter().any(|property| *key == *property.key)
}

/// Puts a value of a key in its place, where the key has none.
fn put_missing<'s>(
    props: &mut Vec<Property<'s>>,
    key: &'s Name,
    value: &'s Value,
) -> Result<(), Memory>
    ensures { OnOk result (props_borrowed props.new.items
        ≡ overwrite ((key.now, value.now) ∷ []) (props_borrowed props.old.items)) }
{
    if has_value(props.as_slice(), key) {
        return Ok(());
    }
    put_value(props, key, value)
}

/// Puts the values of an update whose keys have none.
fn put_earlier<'s>(
    props: &mut Vec<Property<'s>>,
    store: &'s Store,
    subject: Subject<'_>,
    history: &'s History,
    i: u32,
) -> Result<(), Memory>
    requires place { i < length history.now.updates }
    requires keys { AreNamed (key_names_for store.now (entity_named subject))
        (key_count store.now (entity_named subject)) history.now.updates }
    requires rise { KeysRise (props_borrowed props.old.items) }
    ensures { OnOk result (props_borrowed props.new.items
        ≡ overwrite (with_key_names (key_names_for store.now (entity_named subject.entry))
        (update_at history.now.updates i).props)
        (props_borrowed props.old.items)) }
{
    let values = history.values_at(i);
    let mut j = values.len();
    while j > 0 {
        j -= 1;
        let key = key_of(store, subject, values.key_at(j));
        put_missing(props, key, values.value_at(j))?;
    }
    Ok(())
}

/// Makes `props` the last values that a node or an edge has before a place of its history, after
/// its last deletion. The updates are read once, from the last one back, until every key has a
/// value.
fn set_live<'s>(
    props: &mut Vec<Property<'s>>,
    store: &'s Store,
    subject: Subject<'_>,
    history: &'s History,
    to: u32,
) -> Result<(), Memory>
    requires end { to ≤ length history.now.updates }
    requires tells { Tells store.now (entity_named subject) history.now.updates }
    requires keys { AreNamed (key_names_for store.now (entity_named subject))
        (key_count store.now (entity_named subject)) history.now.updates }
    ensures values { OnOk result (props_borrowed props.new.items
        ≡ last_props (live_events (take to (events_told (entity_named subject.entry)
        (key_names_for store.now (entity_named subject.entry))
        history.now.updates)))) }
    ensures rise { OnOk result (KeysRise (props_borrowed props.new.items)) }
{
    let _lawful = store.events();
    props.clear();
    let keys = keys_of(store, subject) as usize;
    let mut i = to;
    while i > 0 && props.len() < keys {
        i -= 1;
        if history.kind_at(i).is_deletion() {
            return Ok(());
        }
        put_earlier(props, store, subject, history, i)?;
    }
    Ok(())
}

/// The event that stands for those before a place of a history, at the moment `lo`, with its
/// properties in `props`.
fn carried_event<'s>(
    props: &mut Vec<Property<'s>>,
    store: &'s Store,
    subject: Subject<'s>,
    history: &'s History,
    to: u32,
    lo: i64,
) -> Result<BorrowedEvent<'s>, Memory>
    requires end { to ≤ length history.now.updates }
    requires tells { Tells store.now (entity_named subject) history.now.updates }
    requires keys { AreNamed (key_names_for store.now (entity_named subject))
        (key_count store.now (entity_named subject)) history.now.updates }
    ensures event { IfOk result (λ event.
        event_borrowed event (props_borrowed props.new.items)
        ≡ record {
          time = lo;
          order = 0;
          what = update_of (entity_named subject.entry)
              (last_props (live_events (take to (events_told (entity_named subject.entry)
              (key_names_for store.now (entity_named subject.entry))
              history.now.updates))));
        }) }
    ensures rise { OnOk result (KeysRise (props_borrowed props.new.items)) }
{
    set_live(props, store, subject, history, to)?;
    Ok(BorrowedEvent {
        time: lo,
        order: 0,
        kind: Kind::Add,
        subject,
    })
}

/// Whether a place among the events of a span is that of what is carried.
fn is_carried(span: Span, place: u32) -> bool
    ensures { result ≡ (span.carried && place == 0) }
{
    span.carried && place == 0
}

/// The place in a history of an event of a span that is not carried.
fn place_in(span: Span, place: u32) -> u32
    requires order { span.from ≤ span.to }
    requires within { place < span.to - span.from + (if span.carried then 1 else 0) }
    requires own { (span.carried && place == 0) ≡ false }
    ensures value { result ≡ (if span.carried then span.from + (place - 1) else span.from + place) }
    ensures within { result < span.to }
{
    if span.carried {
        span.from + (place - 1)
    } else {
        span.from + place
    }
}

/// The event at a place among those of a node or an edge, with its properties in `props`.
fn shown_event<'s, V: View, L: Ledger>(
    props: &mut Vec<Property<'s>>,
    view: &'s V,
    one: ShownEntity<'s>,
    place: u32,
    steps: &mut Steps<L>,
) -> Result<BorrowedEvent<'s>, Memory>
    requires part { IsShownEntity (V.contents view.now) (V.world view.now) one }
    requires place { place < length (events_of (V.world view.now) (entity_named one.subject)) }
    ensures event { IfOk result (λ event.
        event_borrowed event (props_borrowed props.new.items)
        ≡ event_at (events_of (V.world view.now) (entity_named one.entry.subject)) place) }
    ensures rise { OnOk result (KeysRise (props_borrowed props.new.items)) }
{
    let store = view.store();
    let history = history_of(store, one.subject);
    let span = one.span;
    if is_carried(span, place) {
        let lo = view.bounds().lo();
        return carried_event(props, store, one.subject, history, span.from, lo);
    }
    let i = place_in(span, place);
    update_event(props, store, one.subject, history, i, steps)
}

/// The event at a place, with its properties in `props`, rising by key: what was there is lost. The
/// nodes and edges are those that the view shows. No memory is taken where `props` has room.
pub fn borrowed_event<'s, V: View, L: Ledger>(
    props: &mut Vec<Property<'s>>,
    view: &'s V,
    shown: &[ShownEntity<'s>],
    place: EventPlace,
    steps: &mut Steps<L>,
) -> Result<BorrowedEvent<'s>, Memory>
    requires parts { All (IsShownEntity (V.contents view.now) (V.world view.now)) shown.now }
    requires placed { IsPlaced (V.world view.now) shown.now place }
    ensures event { IfOk result (λ event.
        event_borrowed event (props_borrowed props.new.items)
        ≡ event_placed (V.world view.now) shown.now place) }
    ensures rise { OnOk result (KeysRise (props_borrowed props.new.items)) }
{
    let one = shown[place.shown as usize];
    shown_event(props, view, one, place.place, steps)
}
