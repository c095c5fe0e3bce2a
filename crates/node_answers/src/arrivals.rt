//! The nodes that journeys reach.
ghost use Rattle.std.specs.Prelude.{OnOk};
ghost use Rattle.graph_model.specs.declared.queries.Ask.TheVariants.{Arrival as ArrivalAsk};
ghost use Rattle.answer_parts.specs.WorldPart.{AddsPart};

use crate::store_row::{StoreRow, add_rows};
use event_rows::RowWriter;
use graph_model::{Memory, NameList};
use graph_store::Store;
use itoa::Buffer;
use std::alloc::Global;
use std::sync::ledger::Ledger;
use temporal_reach::{Arrival, Reached, earliest_arrival};
use time_column::Steps;
use view_trait::{View, nodes_of};

const START: &[u8] = b"start";

impl StoreRow for Arrival {
    ghost use Rattle.std.specs.Prelude.{◌<◌, length};
    ghost use Rattle.temporal_reach.specs.Arrivals.{arrival_row};

    ghost as_row = { arrival_row };

    ghost is_known = { λ c arrival. arrival.node.0 < length c.nodes };

    fn add_to(&self, out: &mut RowWriter, store: &Store) -> Result<(), Memory> {
        let name = store.node_name(self.node).as_str().as_bytes();
        match self.reached {
            Reached::Start => out.add_fields(&[name, START]),
            Reached::Moment { moment, by: _ } => {
                out.add_fields(&[name, Buffer::new().format(moment).as_bytes()])
            }
        }
    }
}

/// Adds the part of the world of a view: the nodes that journeys reach which leave one of the seeds at
/// a moment or later, each with the earliest arrival. An unknown name is no seed.
pub fn add_arrivals<V: View, L: Ledger>(
    alloc: Global,
    out: &mut RowWriter,
    view: &V,
    start: i64,
    seeds: &NameList,
    steps: &mut Steps<L>,
) -> Result<(), Memory>
    ensures { OnOk result
        (AddsPart (V.world view.now) (ArrivalAsk start seeds.now) out.old out.new) }
{
    let seeds = nodes_of(alloc, view.store(), seeds)?;
    let rows = earliest_arrival(alloc, view, &seeds, start, steps)?;
    add_rows(out, view.bounds(), view.store(), rows.as_slice())
}
