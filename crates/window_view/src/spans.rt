//! What a window does to a part of a history.
ghost use Rattle.std.specs.Prelude.{◌≡◌, ◌≤◌, ◌+◌, ◌-◌, ◌*◌, ◌≤ℤ◌};
ghost use Rattle.graph_model.specs.declared.events.Entity.{Entity};
ghost use Rattle.graph_model.specs.Interval.{earliest, latest};
ghost use Rattle.graph_model.specs.World.{World};
ghost use Rattle.graph_model.specs.Window.{window as shown_window};
ghost use Rattle.graph_model.specs.Searches.{digits};
ghost use Rattle.time_history.specs.Spans.{IsSpan, IsTaken, IsAllowed};
ghost use Rattle.graph_store.specs.Contents.{Contents};
ghost use Rattle.view_trait.specs.Meaning.{IsShown, Tells, Shows};

use graph_model::{Bounds, Model};
use std::sync::ledger::Ledger;
use time_column::Steps;
use time_history::{History, Span};

/// The part of an entity's history that the window from `from` up to `to` shows, from the part that
/// stands for the entity in a world with these bounds, whatever that world is.
pub fn window_span<L: Ledger>(
    history: &History,
    span: Span,
    bounds: Bounds,
    model: Model,
    from: i64,
    to: i64,
    steps: &mut Steps<L>,
) -> Span
    requires from_low { earliest ≤ℤ from }
    requires from_high { from ≤ℤ latest }
    requires to_low { earliest ≤ℤ to }
    requires to_high { to ≤ℤ latest }
    requires span { IsSpan history.now.updates span }
    requires taken { IsTaken model bounds history.now.updates span }
    requires allowed { IsAllowed model history.now.updates }
    ensures shows { (c : Contents) (w : World) (x : Entity) → IsShown c w → w.model ≡ model → w.bounds ≡ bounds → Tells c x history.now.updates → Shows c w x span → Shows c (shown_window w from to) x result }
    ensures cost { steps.new ≤ steps.old + 2 * digits (span.to - span.from) }
{
    history.clip(span, bounds, bounds.cut(from, to), model, steps)
}
