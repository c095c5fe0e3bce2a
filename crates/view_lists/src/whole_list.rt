//! All that a view shows, listed at once.
ghost use Rattle.std.specs.Prelude.{◌≡◌, IfOk};
ghost use Rattle.view_trait.specs.Coverage.{Covers};
ghost use Rattle.view_lists.specs.Listing.{AreListed};
ghost use Rattle.view_lists.specs.Types.{types_listed};

use crate::listing::{ShownEvents, places_in_order, shown_by_number};
use crate::types::{TypedNode, typed_in_order};
use graph_model::Memory;
use std::alloc::Global;
use std::sync::ledger::Ledger;
use time_column::Steps;
use view_trait::{Roster, View};

/// The types of the nodes that the events of a view name, rising by the node's name, and the places
/// of its events in canonical order.
#[derive(Drop)]
pub struct WholeList<'s> {
    pub types: Vec<TypedNode<'s>>,
    pub listed: ShownEvents<'s>,
}

/// The types and the places of all events of a view. They are the same for every roster that covers
/// the view. Each span of the roster is asked once for both.
pub fn list_whole<'s, V: View, L: Ledger>(
    alloc: Global,
    view: &'s V,
    roster: Roster<'_>,
    steps: &mut Steps<L>,
) -> Result<WholeList<'s>, Memory>
    requires covers { Covers (V.contents view.now) (V.world view.now) roster }
    ensures types { IfOk result (λ whole.
        types_listed whole.types.items ≡ (V.world view.now).types) }
    ensures events { IfOk result (λ whole.
        AreListed (V.contents view.now) (V.world view.now)
        whole.listed.shown.items whole.listed.events.items) }
{
    let shown = shown_by_number(alloc, view, roster, steps)?;
    let types = typed_in_order(alloc, view, shown.as_slice())?;
    let listed = places_in_order(alloc, view, shown, steps)?;
    Ok(WholeList { types, listed })
}
