//! How many steps away the nodes are to which walks lead.
ghost use Rattle.std.specs.Prelude.{◌≡◌, ◌<◌, Some, length, map, slice_get, IfOk};
ghost use Rattle.std.specs.List.{All};
ghost use Rattle.graph_model.specs.declared.queries.Ask.TheVariants.{Hops};
ghost use Rattle.graph_model.specs.Answer.{IsAnswer};
ghost use Rattle.graph_store.specs.Contents.{name_at};
ghost use Rattle.view_trait.specs.Coverage.{Covers};
ghost use Rattle.walk_algorithms.specs.Visits.{hop_of};
ghost use Rattle.walk_algorithms.specs.WalkRows.{hop_row_of};

use crate::by_name::{NamedVisit, sorted_visits};
use crate::source::{is_present, source_on};
use crate::walk::walk_from;
use graph_model::{Direction, Memory};
use graph_store::NodeId;
use std::alloc::Global;
use std::marker::Model;
use std::sync::ledger::Ledger;
use time_column::Steps;
use view_trait::{Roster, View};

/// A node to which a walk leads, and the least number of steps of such a walk.
#[derive(Clone, Copy)]
pub struct Hop {
    pub node: NodeId,
    pub hops: u32,
}

/// Nodes with their distances. A contract sees them as a list.
#[derive(Drop)]
pub struct HopRows {
    rows: Vec<Hop>,
}

impl Model for HopRows {
    ghost use Rattle.std.specs.Prelude.{List};
    ghost use Rattle.walk_algorithms.specs.declared.hop_rows.Hop.{Hop};

    ghost Value = { List Hop };

    ghost view = { λ r. r.rows.items };
}

impl HopRows {
    /// How many nodes there are.
    pub fn len(&self) -> usize
        ensures { result ≡ length self.now }
    {
        self.rows.len()
    }

    /// The node in a place, with its distance.
    pub fn item(&self, i: usize) -> &Hop
        requires { i < length self.now }
        ensures { slice_get self.now i ≡ Some result.now }
    {
        &self.rows[i]
    }

    /// The nodes with their distances, side by side.
    pub fn as_slice(&self) -> &[Hop]
        ensures { result.now ≡ self.now }
    {
        self.rows.as_slice()
    }
}

/// The visited nodes with their marks, in their order.
fn rows_of(alloc: Global, named: &[NamedVisit<'_>]) -> Result<HopRows, Memory>
    ensures { IfOk result (λ rows. rows ≡ map hop_of named.now) }
{
    let mut rows = Vec::with_capacity(alloc, named.len())?;
    for x in named {
        rows.push(Hop {
            node: NodeId(x.visit.node),
            hops: x.visit.mark,
        })?;
    }
    Ok(HopRows { rows })
}

/// The nodes to which walks lead from a node in a direction, with the least number of steps, rising by
/// the bytes of their names. The node itself has 0, and there is none where it is not present. They are
/// the same for every roster that covers the view.
///
/// By a roster of all nodes and edges it asks the view once for the neighbours of each of these nodes,
/// and for those of no other. By one of some, the span of each edge on it is asked once, and the walk
/// is along the links that these give. It takes memory for these nodes and links, and for a flag of
/// each node of the store.
pub fn hops<V: View, L: Ledger>(
    alloc: Global,
    view: &V,
    roster: Roster<'_>,
    start: NodeId,
    direction: Direction,
    steps: &mut Steps<L>,
) -> Result<HopRows, Memory>
    requires covers { Covers (V.contents view.now) (V.world view.now) roster }
    requires start { start.0 < length (V.contents view.now).nodes }
    ensures rows { let c = V.contents view.now in
        let ask = Hops (name_at c.nodes start.0) direction in
        IfOk result (λ rows. IsAnswer (V.world view.now) ask (map (hop_row_of c) rows)) }
    ensures known { let c = V.contents view.now in
        IfOk result (λ rows. All (λ h. h.node.0 < length c.nodes) rows) }
{
    let source = source_on(alloc, view, roster, direction, steps)?;
    if !is_present(view, &source, start, steps) {
        return Ok(HopRows {
            rows: Vec::new(alloc),
        });
    }
    let visited = walk_from(alloc, view, &source, start, direction, steps)?;
    let named = sorted_visits(alloc, view.store(), &visited)?;
    rows_of(alloc, named.as_slice())
}
