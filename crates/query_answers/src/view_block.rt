// The block of a query about a view.
ghost use Rattle.std.specs.Prelude.{◌≡◌, ◌∷◌, ◌≤◌, ◌+◌, [], length, None, true};
ghost use Rattle.std.specs.Prelude.{IfErr, IsTrue, OnOk};
ghost use Rattle.std.specs.Option.{option_map_or};
ghost use Rattle.graph_model.specs.Limits.{most_windows};
ghost use Rattle.graph_model.specs.Range.{each_in_range};
ghost use Rattle.graph_model.specs.Windows.{windows};
ghost use Rattle.view_trait.specs.declared.rosters.Roster.TheVariants.{All as Whole};
ghost use Rattle.query_answers.specs.Asks.{IsPaid, is_asked};
ghost use Rattle.query_answers.specs.Blocks.{AddsBlock};
ghost use Rattle.query_answers.specs.Cost.{is_counted_each, sweep_steps};
ghost use Rattle.query_answers.specs.Refusing.{AreTooMany};

use crate::answer_fault::AnswerFault;
use crate::block_rows::add_query;
use crate::part::add_part;
use crate::windows_block::add_windows;
use event_rows::RowWriter;
use graph_model::{Ask, Memory, Query};
use std::alloc::Global;
use std::sync::ledger::Ledger;
use time_column::Steps;
use view_trait::{Roster, View};

// Adds the block of a question about the world of a view: its row, and the part of the world.
fn add_world<V: View, L: Ledger>(
    alloc: Global,
    out: &mut RowWriter,
    view: &V,
    ask: &Ask,
    line: u32,
    steps: &mut Steps<L>,
) -> Result<(), Memory>
    requires asked { is_asked ask.now ≡ true }
    ensures block { OnOk result (AddsBlock (V.world view.now ∷ []) line ask.now out.old out.new) }
    ensures cost { let c = V.contents view.now in
        IsPaid c Whole (V.world view.now) (V.searches view.now) ask.now steps.old steps.new }
{
    add_query(out, line, ask, 1)?;
    add_part(alloc, out, view, Roster::All, ask, steps)
}

/// Adds the block of a query about what a view shows: its row, and the part of the view's world, or
/// of each of its windows. Want of memory loses the whole text.
///
/// # Errors
/// `Windows` where there are more than 65,536 windows, or `Memory`.
pub fn add_block<V: View, L: Ledger>(
    alloc: Global,
    out: &mut RowWriter,
    view: &V,
    query: &Query,
    line: u32,
    steps: &mut Steps<L>,
) -> Result<(), AnswerFault>
    requires asked { is_asked query.now.ask ≡ true }
    requires in_range { IsTrue (option_map_or each_in_range query.now.each true) }
    ensures block { let worlds = windows (V.world view.now) query.now.each in
        OnOk result (AddsBlock worlds line query.now.ask out.old out.new) }
    ensures few { OnOk result (length (windows (V.world view.now) query.now.each) ≤ most_windows) }
    ensures fault { let worlds = windows (V.world view.now) query.now.each in
        IfErr result (λ fault. AreTooMany worlds fault) }
    ensures cost { let c = V.contents view.now in query.now.each ≡ None
        → IsPaid c Whole (V.world view.now) (V.searches view.now) query.now.ask steps.old steps.new }
    ensures windows_cost { let w = V.world view.now in
        let worlds = windows w query.now.each in
        IsTrue (is_counted_each w.model query.now)
        → steps.new ≤ steps.old + sweep_steps (V.contents view.now) w (V.searches view.now) worlds }
{
    match query.each {
        None => Ok(add_world(alloc, out, view, &query.ask, line, steps)?),
        Some(each) => add_windows(alloc, out, view, each, &query.ask, line, steps),
    }
}
