//! When edges of a view are alive.
ghost use Rattle.std.specs.Prelude.{◌≡◌, ◌<◌, length};
ghost use Rattle.view_trait.specs.Contacts.{IsContactAfter};
ghost use Rattle.view_trait.specs.Meaning.{edge_named};

use crate::view::View;
use graph_store::EdgeId;
use std::sync::ledger::Ledger;
use time_column::Steps;

/// The least contact of an edge in the view's world that is later than a moment, or `None` exactly
/// where there is none. A contact is a moment at which the edge is alive. It takes no memory. No
/// clause bounds its steps: where edges last, it reads on until an addition outlasts its moment.
pub fn next_contact<V: View, L: Ledger>(
    view: &V,
    e: EdgeId,
    after: i64,
    steps: &mut Steps<L>,
) -> Option<i64>
    requires { e.0 < length (V.contents view.now).edges }
    ensures { let edge = edge_named (V.contents view.now) e.0 in
        IsContactAfter (V.world view.now) edge after result }
{
    let store = view.store();
    let span = view.edge_span(e, steps);
    store
        .edge_history(e)
        .next_contact(span, view.bounds(), store.model(), after, steps)
}
