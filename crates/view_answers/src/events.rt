//! How many events a view shows.
ghost use Rattle.std.specs.Prelude.{◌≡◌, ◌≤◌, ◌+◌, ◌*◌, ◌∷◌, [], ◌++◌, length, OnOk};
ghost use Rattle.graph_model.specs.Answer.{extent_row};
ghost use Rattle.graph_model.specs.RowText.{rows_text};
ghost use Rattle.graph_model.specs.Searches.{digits};
ghost use Rattle.view_trait.specs.Coverage.{Covers, edge_count_on, node_count_on};
ghost use Rattle.view_trait.specs.Extent.{span_searches};
ghost use Rattle.answer_parts.specs.WorldPart.{part_rows};

use crate::answer_rows::add_extent;
use answer_parts::add_world;
use event_rows::RowWriter;
use graph_model::Memory;
use std::sync::ledger::Ledger;
use time_column::Steps;
use view_trait::{Roster, View, extent};

/// Adds the part of the world of a view: how many events it has, and the first and last time. It is the
/// same for every roster that covers the view.
pub fn add_events<V: View, L: Ledger>(
    out: &mut RowWriter,
    view: &V,
    roster: Roster<'_>,
    steps: &mut Steps<L>,
) -> Result<(), Memory>
    requires covers { Covers (V.contents view.now) (V.world view.now) roster }
    ensures rows { let w = V.world view.now in
        OnOk result (out.new ≡ out.old ++ rows_text (part_rows w (extent_row w.events ∷ []))) }
    ensures cost { let c = V.contents view.now in
        let searches = span_searches c roster.entry (V.searches view.now) in
        let readings = 2 * (node_count_on c roster.entry + edge_count_on c roster.entry) in
        steps.new ≤ steps.old + searches * digits (length c.accepted) + readings }
{
    let shown = extent(view, roster, steps);
    add_world(out, view.bounds(), 1)?;
    add_extent(out, shown)
}
