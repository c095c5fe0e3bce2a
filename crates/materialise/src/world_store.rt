//! Stores made of worlds.
ghost use Rattle.std.specs.Prelude.{◌≡◌, [], ◌∷◌, ◌++◌, None, IsTrue, IfOk, OnOk};
ghost use Rattle.graph_model.specs.Accepting.{event_refusal, type_refusal};
ghost use Rattle.graph_model.specs.Interval.{is_inside};
ghost use Rattle.graph_model.specs.World.{put_type};
ghost use Rattle.graph_store.specs.Contents.{base_of};
ghost use Rattle.graph_store.specs.declared.judging.StoreRefusal.TheVariants.{Memory as NoMemory};
ghost use Rattle.world_laws.specs.Storable.{IsStorable};

use graph_model::{Bounds, Event, EventList, Memory, Model, Name, TypeList};
use graph_store::{Store, StoreRefusal};
use std::alloc::{AllocError, Global};
use std::sync::ledger::Ledger;
use time_column::Steps;

/// The refusal that is want of memory.
fn only_memory(refusal: StoreRefusal) -> Memory
    requires { refusal ≡ NoMemory }
{
    match refusal {
        StoreRefusal::Memory => AllocError,
        _ => unreachable!(),
    }
}

/// Puts a copy of an event that is not refused.
fn put_event<L: Ledger>(
    store: &mut Store,
    event: &Event,
    steps: &mut Steps<L>,
) -> Result<(), Memory>
    requires inside { IsTrue (is_inside store.old.bounds event.now.time) }
    requires judged { event_refusal store.old.model store.old.accepted store.old.types event.now
        ≡ None }
    ensures events { OnOk result (store.new.accepted ≡ store.old.accepted ++ event.now ∷ []) }
    ensures model { store.new.model ≡ store.old.model }
    ensures bounds { store.new.bounds ≡ store.old.bounds }
    ensures types { store.new.types ≡ store.old.types }
{
    let event = event.copy()?;
    match store.apply(event, steps) {
        Ok(_) => Ok(()),
        Err(refusal) => Err(only_memory(refusal)),
    }
}

/// Gives a node a type that is not refused.
fn put_copied_type(store: &mut Store, node: &Name, kind: &Name) -> Result<(), Memory>
    requires { type_refusal store.old.accepted store.old.types node.now kind.now ≡ None }
    ensures types { OnOk result (store.new.types ≡ put_type (node.now, kind.now) store.old.types) }
    ensures events { store.new.accepted ≡ store.old.accepted }
    ensures model { store.new.model ≡ store.old.model }
    ensures bounds { store.new.bounds ≡ store.old.bounds }
{
    let node = node.copy()?;
    let kind = kind.copy()?;
    match store.set_type(node, kind) {
        Ok(()) => Ok(()),
        Err(refusal) => Err(only_memory(refusal)),
    }
}

/// Puts the events of a world into a store that has no event and no type.
fn put_events<L: Ledger>(
    store: &mut Store,
    list: &EventList,
    steps: &mut Steps<L>,
) -> Result<(), Memory>
    requires events { store.old.accepted ≡ [] }
    requires types { store.old.types ≡ [] }
    requires storable { IsStorable (record {
      model = store.old.model;
      bounds = store.old.bounds;
      events = list.now;
      types = [];
    }) }
    ensures events { OnOk result (store.new.accepted ≡ list.now) }
    ensures model { store.new.model ≡ store.old.model }
    ensures bounds { store.new.bounds ≡ store.old.bounds }
    ensures types { store.new.types ≡ [] }
{
    for i in 0..list.len() {
        put_event(store, list.item(i), steps)?;
    }
    Ok(())
}

/// Puts the types of a world into a store that has its events and no type.
fn put_types(store: &mut Store, types: &TypeList) -> Result<(), Memory>
    requires none { store.old.types ≡ [] }
    requires storable { IsStorable (record {
      model = store.old.model;
      bounds = store.old.bounds;
      events = store.old.accepted;
      types = types.now;
    }) }
    ensures types { OnOk result (store.new.types ≡ types.now) }
    ensures events { store.new.accepted ≡ store.old.accepted }
    ensures model { store.new.model ≡ store.old.model }
    ensures bounds { store.new.bounds ≡ store.old.bounds }
{
    for i in 0..types.len() {
        let (node, kind) = types.item(i);
        put_copied_type(store, node, kind)?;
    }
    Ok(())
}

/// Puts the events and the types of a world into a store that has no event and no type.
fn put_world<L: Ledger>(
    store: &mut Store,
    types: &TypeList,
    list: &EventList,
    steps: &mut Steps<L>,
) -> Result<(), Memory>
    requires events { store.old.accepted ≡ [] }
    requires types { store.old.types ≡ [] }
    requires storable { IsStorable (record {
      model = store.old.model;
      bounds = store.old.bounds;
      events = list.now;
      types = types.now;
    }) }
    ensures { OnOk result (base_of store.new
        ≡ record {
          model = store.old.model;
          bounds = store.old.bounds;
          events = list.now;
          types = types.now;
        }) }
{
    put_events(store, list, steps)?;
    put_types(store, types)?;
    Ok(())
}

/// A store of the events and types of a lawful world within the limits: its base world is that
/// world. Names, keys and values are copied.
pub fn into_store<L: Ledger>(
    alloc: Global,
    model: Model,
    bounds: Bounds,
    types: &TypeList,
    list: &EventList,
    steps: &mut Steps<L>,
) -> Result<Store, Memory>
    requires { IsStorable
        (record { model = model; bounds = bounds; events = list.now; types = types.now }) }
    ensures { IfOk result (λ store.
        base_of store
        ≡ record { model = model; bounds = bounds; events = list.now; types = types.now }) }
{
    let mut store = Store::new(alloc, model, bounds);
    put_world(&mut store, types, list, steps).and(Ok(store))
}
