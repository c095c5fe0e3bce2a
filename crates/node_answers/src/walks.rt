//! The nodes to which walks lead, and the labels of parts.
ghost use Rattle.std.specs.Prelude.{OnOk};
ghost use Rattle.graph_model.specs.declared.queries.Ask.TheVariants.{Hops, InComponent, OutComponent, Weak};
ghost use Rattle.view_trait.specs.Coverage.{Covers};
ghost use Rattle.answer_parts.specs.WorldPart.{AddsPart};

use crate::nodes::add_names;
use crate::store_row::{StoreRow, add_rows};
use answer_parts::add_world;
use event_rows::RowWriter;
use graph_model::{Direction, Memory, Name};
use graph_store::Store;
use itoa::Buffer;
use std::alloc::Global;
use std::sync::ledger::Ledger;
use time_column::Steps;
use view_trait::{Roster, View};
use walk_algorithms::{Hop, Part, hops, in_component, out_component, weak_parts};

impl StoreRow for Hop {
    ghost use Rattle.std.specs.Prelude.{◌<◌, length};
    ghost use Rattle.walk_algorithms.specs.WalkRows.{hop_row_of};

    ghost as_row = { hop_row_of };

    ghost is_known = { λ c hop. hop.node.0 < length c.nodes };

    fn add_to(&self, out: &mut RowWriter, store: &Store) -> Result<(), Memory> {
        out.add_fields(&[
            store.node_name(self.node).as_str().as_bytes(),
            Buffer::new().format(self.hops).as_bytes(),
        ])
    }
}

impl StoreRow for Part {
    ghost use Rattle.std.specs.Prelude.{◌<◌, length};
    ghost use Rattle.walk_algorithms.specs.WalkRows.{part_row_of};

    ghost as_row = { part_row_of };

    ghost is_known = { λ c part. (part.node.0 < length c.nodes) × (part.label.0 < length c.nodes) };

    fn add_to(&self, out: &mut RowWriter, store: &Store) -> Result<(), Memory> {
        out.add_fields(&[
            store.node_name(self.node).as_str().as_bytes(),
            store.node_name(self.label).as_str().as_bytes(),
        ])
    }
}

/// Adds the part of the world of a view: how far the nodes are to which walks lead from a node in a
/// direction. None leads from an unknown one. They are the same for every roster that covers the view.
pub fn add_hops<V: View, L: Ledger>(
    alloc: Global,
    out: &mut RowWriter,
    view: &V,
    roster: Roster<'_>,
    node: &Name,
    direction: Direction,
    steps: &mut Steps<L>,
) -> Result<(), Memory>
    requires covers { Covers (V.contents view.now) (V.world view.now) roster }
    ensures { OnOk result (AddsPart (V.world view.now) (Hops node.now direction) out.old out.new) }
{
    match view.store().node_of(node) {
        Some(n) => {
            let rows = hops(alloc, view, roster, n, direction, steps)?;
            add_rows(out, view.bounds(), view.store(), rows.as_slice())
        }
        None => add_world(out, view.bounds(), 0),
    }
}

/// Adds the part of the world of a view: the other nodes to which walks lead from a node. None leads
/// from an unknown one. They are the same for every roster that covers the view.
pub fn add_out_component<V: View, L: Ledger>(
    alloc: Global,
    out: &mut RowWriter,
    view: &V,
    roster: Roster<'_>,
    node: &Name,
    steps: &mut Steps<L>,
) -> Result<(), Memory>
    requires covers { Covers (V.contents view.now) (V.world view.now) roster }
    ensures { OnOk result (AddsPart (V.world view.now) (OutComponent node.now) out.old out.new) }
{
    match view.store().node_of(node) {
        Some(n) => {
            let rows = out_component(alloc, view, roster, n, steps)?;
            add_names(out, view.bounds(), view.store(), &rows)
        }
        None => add_world(out, view.bounds(), 0),
    }
}

/// Adds the part of the world of a view: the other nodes from which walks lead to a node. None leads
/// to an unknown one. They are the same for every roster that covers the view.
pub fn add_in_component<V: View, L: Ledger>(
    alloc: Global,
    out: &mut RowWriter,
    view: &V,
    roster: Roster<'_>,
    node: &Name,
    steps: &mut Steps<L>,
) -> Result<(), Memory>
    requires covers { Covers (V.contents view.now) (V.world view.now) roster }
    ensures { OnOk result (AddsPart (V.world view.now) (InComponent node.now) out.old out.new) }
{
    match view.store().node_of(node) {
        Some(n) => {
            let rows = in_component(alloc, view, roster, n, steps)?;
            add_names(out, view.bounds(), view.store(), &rows)
        }
        None => add_world(out, view.bounds(), 0),
    }
}

/// Adds the part of the world of a view: the present nodes with their weak labels. They are the same
/// for every roster that covers the view.
pub fn add_weak_labels<V: View, L: Ledger>(
    alloc: Global,
    out: &mut RowWriter,
    view: &V,
    roster: Roster<'_>,
    steps: &mut Steps<L>,
) -> Result<(), Memory>
    requires covers { Covers (V.contents view.now) (V.world view.now) roster }
    ensures { OnOk result (AddsPart (V.world view.now) Weak out.old out.new) }
{
    let rows = weak_parts(alloc, view, roster, steps)?;
    add_rows(out, view.bounds(), view.store(), rows.as_slice())
}
