//! The sweep.
ghost use Rattle.std.specs.Prelude.{◌≡◌, ℕ, ℤ, ◌≤◌, ◌+◌, ◌*◌, [], length, IfOk, OnOk};
ghost use Rattle.graph_model.specs.Searches.{digits};
ghost use Rattle.graph_model.specs.Window.{window};
ghost use Rattle.graph_model.specs.World.{World, IsLawful};
ghost use Rattle.graph_model.specs.declared.events.Model.TheVariants.{Event as Instants};
ghost use Rattle.graph_store.specs.Contents.{Contents};
ghost use Rattle.view_trait.specs.Coverage.{Covers, node_count_on, edge_count_on};
ghost use Rattle.view_trait.specs.Extent.{span_searches, time_of_first, time_of_last};
ghost use Rattle.window_sweep.specs.WindowSwept.{IsOver, AreOn};

use crate::filling::held_events;
use event_sweep::EventSweep;
use graph_model::{Memory, Model as GraphModel};
use std::alloc::Global;
use std::marker::Model;
use std::sync::ledger::Ledger;
use time_column::Steps;
use view_trait::{EdgeList, NodeList, Roster, View};

/// The events of a view, and the nodes and edges that a window over it shows. Windows whose ends do
/// not fall are swept in the time of the events and of what each of them shows.
#[derive(Drop)]
pub struct WindowSweep {
    nodes: EventSweep,
    edges: EventSweep,
    node_list: NodeList,
    edge_list: EdgeList,
    first: Option<i64>,
    last: Option<i64>,
}

impl Model for WindowSweep {
    ghost use Rattle.window_sweep.specs.WindowSwept.{WindowSwept};

    ghost Value = { WindowSwept };

    ghost view = { λ s. record { nodes = s.nodes; edges = s.edges; node_list = s.node_list; edge_list = s.edge_list; first = s.first; last = s.last } };
}

impl WindowSweep {
    /// A sweep over a view that a roster covers, before its first window. The span of each node and
    /// edge on the roster is asked once, and of each event the time is read once.
    pub fn new<V: View, L: Ledger>(
        alloc: Global,
        view: &V,
        roster: Roster<'_>,
        steps: &mut Steps<L>,
    ) -> Result<WindowSweep, Memory>
        requires covers { Covers (V.contents view.now) (V.world view.now) roster }
        ensures over { IfOk result (λ sweep. IsOver (V.contents view.now) (V.world view.now) sweep) }
        ensures cost { let c = V.contents view.now in
            let searches = span_searches c roster.entry (V.searches view.now) in
            steps.new ≤ steps.old + searches * digits (length c.accepted)
            + length (V.world view.now).events }
    {
        let lasts = matches!(view.store().model(), GraphModel::Persistent);
        let held = held_events(alloc, view, roster, steps)?;
        Ok(WindowSweep {
            nodes: EventSweep::new(alloc, lasts, held.nodes),
            edges: EventSweep::new(alloc, lasts, held.edges),
            node_list: NodeList::new(alloc),
            edge_list: EdgeList::new(alloc),
            first: held.first,
            last: held.last,
        })
    }

    /// The time of the first event of the view. It reads no stored time.
    pub fn first_time(&self) -> Option<i64>
        ensures { (c : Contents) (w : World)
            → IsOver c w self.now → result ≡ time_of_first w.events }
    {
        self.first
    }

    /// The time of the last event of the view. It reads no stored time.
    pub fn last_time(&self) -> Option<i64>
        ensures { (c : Contents) (w : World)
            → IsOver c w self.now → result ≡ time_of_last w.events }
    {
        self.last
    }

    /// Goes to the window from `from` up to but not including `to`. Any window may be gone to. It
    /// reads no stored time.
    pub fn move_to(&mut self, from: i64, to: i64) -> Result<(), Memory>
        ensures over { (c : Contents) (w : World) → IsOver c w self.old → IsOver c w self.new }
        ensures covers { OnOk result ((c : Contents) (w : World)
            → IsLawful w → IsOver c w self.old → AreOn c (window w from to) self.new) }
        ensures few { OnOk result ((c : Contents) (w : World)
            → IsLawful w → w.model ≡ Instants → IsOver c w self.old
            → length self.new.node_list + length self.new.edge_list
            ≤ length (window w from to).events) }
    {
        self.nodes.move_to(from, to)?;
        self.edges.move_to(from, to)?;
        self.node_list.refill(self.nodes.listed())?;
        self.edge_list.refill(self.edges.listed())
    }

    /// The nodes and edges that the window shows.
    pub fn roster(&self) -> Roster<'_>
        ensures covers { (c : Contents) (w : World) → AreOn c w self.now → Covers c w result }
        ensures nodes { (c : Contents) → node_count_on c result ≡ length self.now.node_list }
        ensures edges { (c : Contents) → edge_count_on c result ≡ length self.now.edge_list }
    {
        Roster::Some {
            nodes: &self.node_list,
            edges: &self.edge_list,
        }
    }
}
