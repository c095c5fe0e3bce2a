// What an events file says: a store of what is accepted, and the records that are refused.
ghost use Rattle.std.specs.Prelude.{◌≡◌, ◌≤◌, ◌+◌, ◌==◌, [], ◌∷◌, ◌++◌, length, IsTrue, Ok, IfOk, OnOk, OnErr};
ghost use Rattle.csv.specs.Records.{fields_of};
ghost use Rattle.graph_model.specs.Reading.{Refused as IsRefusedFor, judge, judge_said, nothing_read, reading, with_record};
ghost use Rattle.graph_model.specs.Said.{SaysEvent, SaysType};
ghost use Rattle.graph_model.specs.Interval.{is_inside};
ghost use Rattle.graph_model.specs.Searches.{digits};
ghost use Rattle.event_rows.specs.Parsing.{IsAtFront, IsInsideBounds, said_of};
ghost use Rattle.file_reading.specs.Causes.{refusal_of};
ghost use Rattle.file_reading.specs.StoreReading.{IsFresh, reading_of};
ghost use Rattle.graph_store.specs.Indexed.{IsIndexed};
ghost use Rattle.file_reading.specs.Costs.{most_steps, paid_steps};
ghost use Rattle.file_reading.specs.Rows.{IsGiven, IsTimeline, row_of, with_row};
ghost use Rattle.graph_model.specs.declared.events.Model.TheVariants.{Event as Instants};
ghost use Rattle.temporal_reach.specs.Mirrors.{Mirrors};

use crate::causes::{Cause, row_cause, store_cause};
use csv::ByteRecord;
use event_rows::{Parsed, RecordReader, read_row};
use graph_model::{Bounds, Event, Memory, Model, Name};
use graph_store::{Filed, Store};
use lane_scan::Timeline;
use std::alloc::{AllocError, Global};
use std::mem::replace;
use std::sync::ledger::Ledger;
use time_column::Steps;

/// A record that is refused: its number, counted from 1, and the cause.
#[derive(Clone, Copy)]
pub struct RefusedRecord {
    pub number: u64,
    pub cause: Cause,
}

/// The code of the row of an update of a node. Those of layers are below it.
const NODE_CODE: u8 = 64;

/// What a file says: the store of its accepted events and types, and its refused records in order. In
/// the event model the timeline has a row for each accepted event, in their order: an addition under
/// the numbers of its layer and its edge, an update of a node under 64 and the number of the node. In
/// the persistent model it has none.
#[derive(Drop)]
pub struct FileReading {
    pub store: Store,
    pub refused: Vec<RefusedRecord>,
    pub timeline: Timeline,
}

// Notes a refused record.
fn refuse(read: &mut FileReading, number: u64, cause: Cause) -> Result<(), Memory>
    ensures told { OnOk result (reading_of read.new ≡ with_record (reading_of read.old) number (IsRefusedFor (refusal_of cause))) }
    ensures store { read.new.store ≡ read.old.store }
    ensures timeline { read.new.timeline ≡ read.old.timeline }
{
    read.refused.push(RefusedRecord { number, cause })?;
    Ok(())
}

// Adds the row of an event that was accepted.
fn push_row(store: &Store, timeline: &mut Timeline, time: i64, filed: Filed) -> Result<(), Memory>
    requires { IsGiven store.now filed }
    ensures { OnOk result (timeline.new ≡ timeline.old ++ row_of store.now time filed ∷ []) }
{
    let _few = store.layers();
    match filed {
        Filed::Node(node) => timeline.push(time, NODE_CODE, node.0),
        Filed::Edge(edge) => {
            let (_, _, layer) = store.edge_parts(edge);
            timeline.push(time, layer, edge.0)
        }
    }
}

// Adds the row of an event that was accepted, where the model has rows.
fn add_row(read: &mut FileReading, time: i64, filed: Filed) -> Result<(), Memory>
    requires { IsGiven read.old.store filed }
    ensures row { OnOk result (read.new.timeline
        ≡ with_row read.old.store.model read.old.timeline (row_of read.old.store time filed)) }
    ensures told { reading_of read.new ≡ reading_of read.old }
    ensures store { read.new.store ≡ read.old.store }
{
    match read.store.model() {
        Model::Event => push_row(&read.store, &mut read.timeline, time, filed),
        Model::Persistent => Ok(()),
    }
}

// Takes the type of a node.
fn take_type(read: &mut FileReading, number: u64, node: Name, kind: Name) -> Result<(), Memory>
    requires { IsTimeline read.old.store read.old.timeline }
    ensures told { OnOk result (reading_of read.new ≡ with_record (reading_of read.old) number (judge_said read.old.store.model (reading_of read.old) (Ok (SaysType node kind)))) }
    ensures model { read.new.store.model ≡ read.old.store.model }
    ensures rows { OnOk result (IsTimeline read.new.store read.new.timeline) }
{
    let _indexed = read.store.nodes();
    match read.store.set_type(node, kind) {
        Ok(()) => Ok(()),
        Err(refusal) => {
            let cause = store_cause(refusal)?;
            refuse(read, number, cause)
        }
    }
}

// Takes an event.
fn take_event<L: Ledger>(
    read: &mut FileReading,
    number: u64,
    event: Event,
    steps: &mut Steps<L>,
) -> Result<(), Memory>
    requires inside { IsTrue (is_inside read.old.store.bounds event.time) }
    requires rows { IsTimeline read.old.store read.old.timeline }
    ensures told { OnOk result (reading_of read.new ≡ with_record (reading_of read.old) number (judge_said read.old.store.model (reading_of read.old) (Ok (SaysEvent event)))) }
    ensures model { read.new.store.model ≡ read.old.store.model }
    ensures paid { OnOk result (steps.new + paid_steps (length read.old.store.accepted) ≤ steps.old + paid_steps (length read.new.store.accepted)) }
    ensures cost { OnErr result (steps.new ≤ steps.old + (digits (length read.old.store.accepted) + 1)) }
    ensures rows { OnOk result (IsTimeline read.new.store read.new.timeline) }
{
    let time = event.time;
    let _indexed = read.store.nodes();
    match read.store.apply(event, steps) {
        Ok(filed) => add_row(read, time, filed),
        Err(refusal) => {
            let cause = store_cause(refusal)?;
            refuse(read, number, cause)
        }
    }
}

// Takes the bounds of the graph, before any event or type.
fn take_bounds(alloc: Global, read: &mut FileReading, bounds: Bounds)
    requires fresh { IsFresh read.old.store }
    requires rows { IsTimeline read.old.store read.old.timeline }
    ensures told { reading_of read.new ≡ record (reading_of read.old) { bounds = bounds } }
    ensures model { read.new.store.model ≡ read.old.store.model }
    ensures fresh { IsFresh read.new.store }
    ensures rows { IsTimeline read.new.store read.new.timeline }
{
    let fresh = Store::new(alloc, read.store.model(), bounds);
    drop(replace(&mut read.store, fresh));
}

// Takes what a record says.
fn take_said<L: Ledger>(
    alloc: Global,
    read: &mut FileReading,
    number: u64,
    said: Parsed,
    steps: &mut Steps<L>,
) -> Result<(), Memory>
    requires front { IsAtFront (number == 1) said }
    requires inside { IsInsideBounds read.old.store.bounds said }
    requires fresh { number ≡ 1 → IsFresh read.old.store }
    requires rows { IsTimeline read.old.store read.old.timeline }
    ensures told { OnOk result (reading_of read.new ≡ with_record (reading_of read.old) number (judge_said read.old.store.model (reading_of read.old) (Ok (said_of said)))) }
    ensures model { read.new.store.model ≡ read.old.store.model }
    ensures paid { OnOk result (steps.new + paid_steps (length read.old.store.accepted) ≤ steps.old + paid_steps (length read.new.store.accepted)) }
    ensures cost { OnErr result (steps.new ≤ steps.old + (digits (length read.old.store.accepted) + 1)) }
    ensures rows { OnOk result (IsTimeline read.new.store read.new.timeline) }
{
    match said {
        Parsed::Span(bounds) => {
            take_bounds(alloc, read, bounds);
            Ok(())
        }
        Parsed::NodeType(node, kind) => take_type(read, number, node, kind),
        Parsed::Event(event) => take_event(read, number, event, steps),
    }
}

// Takes a record.
fn take_record<L: Ledger>(
    alloc: Global,
    read: &mut FileReading,
    number: u64,
    fields: &ByteRecord,
    steps: &mut Steps<L>,
) -> Result<(), Memory>
    requires fresh { number ≡ 1 → IsFresh read.old.store }
    requires rows { IsTimeline read.old.store read.old.timeline }
    ensures told { OnOk result (reading_of read.new ≡ with_record (reading_of read.old) number (judge read.old.store.model (reading_of read.old) (number == 1) (fields_of fields.now))) }
    ensures model { read.new.store.model ≡ read.old.store.model }
    ensures paid { OnOk result (steps.new + paid_steps (length read.old.store.accepted) ≤ steps.old + paid_steps (length read.new.store.accepted)) }
    ensures cost { OnErr result (steps.new ≤ steps.old + (digits (length read.old.store.accepted) + 1)) }
    ensures rows { OnOk result (IsTimeline read.new.store read.new.timeline) }
{
    match read_row(alloc, fields, read.store.bounds(), number == 1) {
        Ok(said) => take_said(alloc, read, number, said, steps),
        Err(refusal) => {
            let cause = row_cause(refusal)?;
            refuse(read, number, cause)
        }
    }
}

// Takes the records of a file one after another.
fn take_all<L: Ledger>(
    alloc: Global,
    read: &mut FileReading,
    bytes: &[u8],
    steps: &mut Steps<L>,
) -> Result<(), Memory>
    requires nothing { reading_of read.old ≡ nothing_read }
    requires rows { IsTimeline read.old.store read.old.timeline }
    ensures told { OnOk result (reading_of read.new ≡ reading read.old.store.model bytes.now) }
    ensures model { read.new.store.model ≡ read.old.store.model }
    ensures cost { steps.new ≤ steps.old + most_steps (length (reading read.old.store.model bytes.now).accepted) }
    ensures rows { OnOk result (IsTimeline read.new.store read.new.timeline) }
{
    let mut reader = RecordReader::new(alloc, bytes);
    let mut row = ByteRecord::new(alloc);
    let mut number = 1u64;
    while reader.next(&mut row)? {
        take_record(alloc, read, number, &row, steps)?;
        number += 1;
    }
    Ok(())
}

/// Reads the records of a file one after another, each taken as it is read.
///
/// For each accepted event, and for one for which memory was wanting, stored times are read at most as often as the number of events
/// before it has binary digits, and once more.
pub fn read_events<L: Ledger>(
    alloc: Global,
    model: Model,
    bytes: &[u8],
    steps: &mut Steps<L>,
) -> Result<FileReading, Memory>
    ensures told { IfOk result (λ read. reading_of read ≡ reading model bytes.now) }
    ensures model { IfOk result (λ read. read.store.model ≡ model) }
    ensures indexed { IfOk result (λ read. IsIndexed read.store) }
    ensures rows { IfOk result (λ read. IsTimeline read.store read.timeline) }
    ensures mirrors { IfOk result (λ read. model ≡ Instants → Mirrors read.timeline read.store) }
    ensures cost { steps.new ≤ steps.old + most_steps (length (reading model bytes.now).accepted) }
{
    let mut read = FileReading {
        store: Store::new(alloc, model, Bounds::whole()),
        refused: Vec::new(alloc),
        timeline: Timeline::new(alloc),
    };
    let taken = take_all(alloc, &mut read, bytes, steps);
    let _indexed = read.store.nodes();
    let _few = read.store.layers();
    if taken.is_err() {
        drop(read);
        return Err(AllocError);
    }
    Ok(read)
}
