//! What one more view does to the part of a history that stands for an entity, and to bounds.
ghost use Rattle.std.specs.Prelude.{◌≡◌, ◌≤◌, ◌+◌, ◌-◌, ◌*◌, Bool, true, length};
ghost use Rattle.std.specs.List.{list_all};
ghost use Rattle.graph_model.specs.declared.events.Entity.{Entity};
ghost use Rattle.graph_model.specs.World.{World};
ghost use Rattle.graph_model.specs.Keep.{keep};
ghost use Rattle.graph_model.specs.Searches.{digits};
ghost use Rattle.time_history.specs.Spans.{IsSpan, IsTaken, IsAllowed};
ghost use Rattle.graph_store.specs.Contents.{Contents, base_of};
ghost use Rattle.view_trait.specs.Meaning.{IsShown, Tells};
ghost use Rattle.view_trait.specs.Ready.{ready_view, in_range};
ghost use Rattle.stack_view.specs.Below.{below, bounds_with, moments_of, own_searches};
ghost use Rattle.entity_tests.specs.Ready.{keeps_entity};
ghost use Rattle.stack_view.specs.Stands.{StandsFor};

use graph_model::{Bounds, Model};
use graph_store::Store;
use std::sync::ledger::Ledger;
use time_column::Steps;
use time_history::{History, Span};
use view_trait::{ReadyOp, ReadyOps, nothing};
use window_view::window_span;

/// The part of an entity's history that stands for the entity in a world, and the world's bounds.
#[derive(Clone, Copy)]
pub struct BoundedSpan {
    pub span: Span,
    pub bounds: Bounds,
}

impl BoundedSpan {
    /// The same part where the entity is kept, and else one without events.
    pub fn kept(self, keeps: bool) -> BoundedSpan
        ensures { (p : Entity → Bool) (c : Contents) (w : World) (x : Entity) → keeps ≡ p x → StandsFor c w x self → StandsFor c (keep p w) x result }
    {
        if keeps {
            self
        } else {
            BoundedSpan {
                span: nothing(),
                bounds: self.bounds,
            }
        }
    }
}

/// The moments from which and up to which a window goes, where the view is one.
fn moments(op: &ReadyOp) -> Option<(i64, i64)>
    ensures { result ≡ moments_of op.now }
{
    match op {
        ReadyOp::Window(from, to) => Some((*from, *to)),
        _ => None,
    }
}

/// The part that stands for an entity with one more view, where `keeps` says whether the view keeps
/// the entity. Whatever world the part stands for, the result stands for what the view shows of it.
pub fn span_with<L: Ledger>(
    history: &History,
    part: BoundedSpan,
    model: Model,
    op: &ReadyOp,
    keeps: bool,
    steps: &mut Steps<L>,
) -> BoundedSpan
    requires in_range { in_range op.now ≡ true }
    requires span { IsSpan history.now.updates part.span }
    requires taken { IsTaken model part.bounds history.now.updates part.span }
    requires allowed { IsAllowed model history.now.updates }
    ensures stands { (c : Contents) (w : World) (x : Entity) → IsShown c w → w.model ≡ model → Tells c x history.now.updates → keeps ≡ keeps_entity c w op.now x → StandsFor c w x part → StandsFor c (ready_view c w op.now) x result }
    ensures cost { steps.new ≤ steps.old + own_searches op.now * digits (part.span.to - part.span.from) }
{
    match moments(op) {
        Some((from, to)) => BoundedSpan {
            span: window_span(history, part.span, part.bounds, model, from, to, steps),
            bounds: part.bounds.cut(from, to),
        },
        None => part.kept(keeps),
    }
}

/// The bounds with one more view.
fn bounds_with(bounds: Bounds, op: &ReadyOp) -> Bounds
    requires { in_range op.now ≡ true }
    ensures { result ≡ bounds_with bounds op.now }
{
    match op {
        ReadyOp::Window(from, to) => bounds.cut(*from, *to),
        _ => bounds,
    }
}

/// The bounds of what the first `count` views show.
pub fn bounds_below(store: &Store, ops: &ReadyOps, count: usize) -> Bounds
    requires within { count ≤ length ops.now }
    requires in_range { list_all in_range ops.now ≡ true }
    ensures { result ≡ (below store.now ops.now count).bounds }
{
    let mut bounds = store.bounds();
    for i in 0..count {
        bounds = bounds_with(bounds, ops.item(i));
    }
    bounds
}
