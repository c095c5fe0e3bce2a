// Why records are refused.
ghost use Rattle.std.specs.Prelude.{◌≡◌, ◌≢◌, List, ℕ, Some, Result, Err, IfOk, OnOk};
ghost use Rattle.graph_model.specs.declared.events.Event.{Event};
ghost use Rattle.graph_model.specs.declared.events.Model.{Model};
ghost use Rattle.graph_model.specs.Accepting.{event_refusal, type_refusal};
ghost use Rattle.graph_model.specs.Refusal.{RecordRefusal, record_refusal_name};
ghost use Rattle.graph_model.specs.Said.{Said};
ghost use Rattle.event_rows.specs.Parsing.{Refuses};
ghost use Rattle.graph_store.specs.Contents.{Contents};
ghost use Rattle.graph_store.specs.Refusals.{IsRefusal, IsTypeRefusal};
ghost use Rattle.file_reading.specs.Causes.{refusal_of};

use event_rows::RowRefusal;
use graph_model::Memory;
use graph_store::StoreRefusal;
use std::alloc::AllocError;

/// Why a record is refused, in the order in which records are judged.
#[derive(Clone, Copy)]
pub enum Cause {
    Shape,
    Text,
    Time,
    Outside,
    Name,
    Property,
    Deletion,
    KeyType,
    Retype,
    Limit,
}

/// The word for a cause.
pub fn word(cause: Cause) -> &'static [u8]
    ensures { result.now ≡ record_refusal_name (refusal_of cause) }
{
    match cause {
        Cause::Shape => b"shape",
        Cause::Text => b"text",
        Cause::Time => b"time",
        Cause::Outside => b"outside",
        Cause::Name => b"name",
        Cause::Property => b"property",
        Cause::Deletion => b"deletion",
        Cause::KeyType => b"type",
        Cause::Retype => b"retype",
        Cause::Limit => b"limit",
    }
}

/// The cause for which the fields of a record are refused, unless memory was wanting.
pub fn row_cause(refusal: RowRefusal) -> Result<Cause, Memory>
    ensures { IfOk result (λ cause. (said : Result Said RecordRefusal) → Refuses refusal said → said ≡ Err (refusal_of cause)) }
{
    match refusal {
        RowRefusal::Shape => Ok(Cause::Shape),
        RowRefusal::Text => Ok(Cause::Text),
        RowRefusal::Time => Ok(Cause::Time),
        RowRefusal::Outside => Ok(Cause::Outside),
        RowRefusal::Name => Ok(Cause::Name),
        RowRefusal::Property => Ok(Cause::Property),
        RowRefusal::Memory => Err(AllocError),
    }
}

/// The cause for which a store refuses an event or a type, unless memory was wanting.
pub fn store_cause(refusal: StoreRefusal) -> Result<Cause, Memory>
    ensures event { IfOk result (λ cause. (model : Model) (accepted : List Event) (types : List (List ℕ × List ℕ)) (event : Event)
        → IsRefusal model accepted types event refusal → event_refusal model accepted types event ≡ Some (refusal_of cause)) }
    ensures node_type { IfOk result (λ cause. (c : Contents) (node name : List ℕ)
        → IsTypeRefusal c node name refusal → type_refusal c.accepted c.types node name ≡ Some (refusal_of cause)) }
    ensures judged { OnOk result (refusal ≢ StoreRefusal.Memory) }
{
    match refusal {
        StoreRefusal::Deletion => Ok(Cause::Deletion),
        StoreRefusal::KeyType { .. } => Ok(Cause::KeyType),
        StoreRefusal::Retype { .. } => Ok(Cause::Retype),
        StoreRefusal::Limit(_) => Ok(Cause::Limit),
        StoreRefusal::Memory => Err(AllocError),
    }
}
