//! Runs: views between two filters by content, merged.
ghost use Rattle.std.specs.Prelude.{◌≡◌, ◌∷◌, ◌++◌, ◌&&◌, [], ℕ, None, true, false, IfOk, OnOk};
ghost use Rattle.view_trait.specs.Numbered.{is_listed, keeps_number};
ghost use Rattle.fused_view.specs.Runs.{narrowed, masked, passes, run_views, window_views};
ghost use Rattle.fused_view.specs.Runs.{layer_views, kept_views, dropped_views};
ghost use Rattle.fused_view.specs.Joined.{IsJoined};

use graph_model::Memory;
use std::alloc::Global;
use std::mem::replace;
use view_trait::{NodeList, ReadyOp, ReadyOps, all_nodes, common_nodes};

// The views of a run, merged: one window, one set of layers, one list of the nodes that are kept
// and one of the nodes that are dropped, each where the run has such a view.
#[derive(Drop)]
pub(crate) struct Run {
    pub(crate) window: Option<(i64, i64)>,
    pub(crate) layers: Option<u64>,
    pub(crate) kept: Option<NodeList>,
    pub(crate) dropped: Option<NodeList>,
}

// The moments of a window of a window.
fn narrowed_ends(window: Option<(i64, i64)>, from: i64, to: i64) -> (i64, i64)
    ensures { result ≡ narrowed window (from, to) }
{
    match window {
        None => (from, to),
        Some((first, last)) => (first.max(from), last.min(to)),
    }
}

// The layers that both views keep.
fn masked_layers(layers: Option<u64>, bits: u64) -> u64
    ensures { result ≡ masked layers bits }
{
    match layers {
        None => bits,
        Some(kept) => kept & bits,
    }
}

// The nodes that both views keep.
fn kept_nodes(alloc: Global, kept: &Option<NodeList>, nodes: &NodeList) -> Result<NodeList, Memory>
    ensures { IfOk result (λ both. (n : ℕ) → keeps_number true (is_listed both n)
        ≡ (passes true kept.now n && keeps_number true (is_listed nodes.now n))) }
{
    match kept {
        None => nodes.copy(alloc),
        Some(kept) => common_nodes(alloc, kept, nodes),
    }
}

// The nodes that one of the views drops.
fn dropped_nodes(
    alloc: Global,
    dropped: &Option<NodeList>,
    nodes: &NodeList,
) -> Result<NodeList, Memory>
    ensures { IfOk result (λ either. (n : ℕ) → keeps_number false (is_listed either n)
        ≡ (passes false dropped.now n && keeps_number false (is_listed nodes.now n))) }
{
    match dropped {
        None => nodes.copy(alloc),
        Some(dropped) => all_nodes(alloc, dropped, nodes),
    }
}

// Adds the window of a run, where it has one.
fn push_window(merged: &mut ReadyOps, window: Option<(i64, i64)>) -> Result<(), Memory>
    ensures { OnOk result (merged.new ≡ merged.old ++ window_views window) }
{
    match window {
        None => Ok(()),
        Some((from, to)) => merged.push(ReadyOp::Window(from, to)),
    }
}

// Adds the layers that a run keeps, where it has such a view.
fn push_layers(merged: &mut ReadyOps, layers: Option<u64>) -> Result<(), Memory>
    ensures { OnOk result (merged.new ≡ merged.old ++ layer_views layers) }
{
    match layers {
        None => Ok(()),
        Some(bits) => merged.push(ReadyOp::Layers(bits)),
    }
}

// Adds the nodes that a run keeps, where it has such a view.
fn push_kept(merged: &mut ReadyOps, kept: Option<NodeList>) -> Result<(), Memory>
    ensures { OnOk result (merged.new ≡ merged.old ++ kept_views kept) }
{
    match kept {
        None => Ok(()),
        Some(nodes) => merged.push(ReadyOp::Subgraph(nodes)),
    }
}

// Adds the nodes that a run drops, where it has such a view.
fn push_dropped(merged: &mut ReadyOps, dropped: Option<NodeList>) -> Result<(), Memory>
    ensures { OnOk result (merged.new ≡ merged.old ++ dropped_views dropped) }
{
    match dropped {
        None => Ok(()),
        Some(nodes) => merged.push(ReadyOp::ExcludeNodes(nodes)),
    }
}

impl Run {
    // A run without a view.
    pub(crate) fn new() -> Run
        ensures { result ≡ record { window = None; layers = None; kept = None; dropped = None } }
    {
        Run {
            window: None,
            layers: None,
            kept: None,
            dropped: None,
        }
    }

    // Adds the views of a run that has ended.
    pub(crate) fn close(self, merged: &mut ReadyOps) -> Result<(), Memory>
        ensures { OnOk result (merged.new ≡ merged.old ++ run_views self) }
    {
        let Run {
            window,
            layers,
            kept,
            dropped,
        } = self;
        push_window(merged, window)?;
        push_layers(merged, layers)?;
        push_kept(merged, kept)?;
        push_dropped(merged, dropped)
    }

    // Ends a run at a filter by content, which stands behind it.
    fn end(&mut self, alloc: Global, op: &ReadyOp, merged: &mut ReadyOps) -> Result<(), Memory>
        ensures views { OnOk result
            (merged.new ≡ (merged.old ++ run_views self.old) ++ op.now ∷ []) }
        ensures run { OnOk result
            (self.new ≡ record { window = None; layers = None; kept = None; dropped = None }) }
    {
        replace(self, Run::new()).close(merged)?;
        merged.push(op.copy(alloc)?)
    }

    // Adds a view: to the run, or behind its end where the view is a filter by content.
    pub(crate) fn add(
        &mut self,
        alloc: Global,
        op: &ReadyOp,
        merged: &mut ReadyOps,
    ) -> Result<(), Memory>
        ensures { OnOk result (IsJoined merged.old self.old op.now merged.new self.new) }
    {
        match op {
            ReadyOp::Window(from, to) => {
                self.window = Some(narrowed_ends(self.window, *from, *to));
                Ok(())
            }
            ReadyOp::Layers(bits) => {
                self.layers = Some(masked_layers(self.layers, *bits));
                Ok(())
            }
            ReadyOp::Subgraph(nodes) => {
                self.kept = Some(kept_nodes(alloc, &self.kept, nodes)?);
                Ok(())
            }
            ReadyOp::ExcludeNodes(nodes) => {
                self.dropped = Some(dropped_nodes(alloc, &self.dropped, nodes)?);
                Ok(())
            }
            ReadyOp::EdgesWhere(_, _, _) => self.end(alloc, op, merged),
            ReadyOp::NodesWhere(_, _, _) => self.end(alloc, op, merged),
            ReadyOp::Valid => self.end(alloc, op, merged),
        }
    }
}
