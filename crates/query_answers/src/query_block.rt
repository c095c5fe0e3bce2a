//! Answers to queries.
ghost use Rattle.std.specs.Prelude.{◌≡◌, ◌≤◌, ◌<◌, ◌+◌, ℕ, length, IfErr, IsTrue, IsErrOf, OnOk, OnErr};
ghost use Rattle.graph_model.specs.Limits.{most_windows};
ghost use Rattle.graph_model.specs.Range.{query_in_range};
ghost use Rattle.graph_store.specs.Contents.{base_of};
ghost use Rattle.query_answers.specs.Blocks.{AddsAnswer, AddsBlock};
ghost use Rattle.query_answers.specs.Cost.{is_counted_query, is_counted_each, query_steps};
ghost use Rattle.query_answers.specs.Cost.{query_windows_steps, size_of};
ghost use Rattle.query_answers.specs.Refusing.{AreTooMany, asked_worlds};

use crate::answer_fault::AnswerFault;
use crate::block_rows::append_rows;
use crate::view_block::add_block;
use event_rows::RowWriter;
use fused_view::{FusedView, fuse};
use graph_model::Query;
use graph_store::Store;
use std::alloc::Global;
use std::sync::ledger::Ledger;
use time_column::Steps;
use view_trait::ready;

// Adds the block of a query about all that a store has accepted, as its views show it.
fn add_seen_block<L: Ledger>(
    alloc: Global,
    out: &mut RowWriter,
    store: &Store,
    query: &Query,
    line: u32,
    steps: &mut Steps<L>,
) -> Result<(), AnswerFault>
    requires { IsTrue (query_in_range query.now) }
    ensures block { let worlds = asked_worlds (base_of store.now) query.now in
        OnOk result (AddsBlock worlds line query.now.ask out.old out.new) }
    ensures few { OnOk result (length (asked_worlds (base_of store.now) query.now) ≤ most_windows) }
    ensures fault { let worlds = asked_worlds (base_of store.now) query.now in
        IfErr result (λ fault. AreTooMany worlds fault) }
    ensures cost { IsTrue (is_counted_query store.now.model query.now)
        → steps.new ≤ steps.old + query_steps (size_of store.now) query.now }
    ensures windows_cost { let worlds = asked_worlds (base_of store.now) query.now in
        IsTrue (is_counted_each store.now.model query.now)
        → steps.new ≤ steps.old + query_windows_steps (size_of store.now) query.now worlds }
{
    let ops = ready(alloc, store, &query.views)?;
    let fused = fuse(alloc, &ops)?;
    let view = FusedView::new(store, &fused);
    add_block(alloc, out, &view, query, line, steps)
}

/// Appends the block of a query: its row, and the part of each world that it asks about. The names that
/// its views give are looked up once, and its worlds are read in place. Stored times are counted for
/// some questions: none are read for one about an unknown node or edge. In the event model windows that
/// are asked for their nodes, edges, degrees or events cost one listing of the graph, and then what they
/// hold.
///
/// # Errors
/// `Windows` where it asks about more than 65,536 windows, or `Memory`. After either, `out` is as it
/// was.
pub fn answer_query<L: Ledger>(
    alloc: Global,
    store: &Store,
    query: &Query,
    line: u32,
    out: &mut Vec<u8>,
    steps: &mut Steps<L>,
) -> Result<(), AnswerFault>
    requires { IsTrue (query_in_range query.now) }
    ensures block { OnOk result
        (AddsAnswer (base_of store.now) line query.now out.old.items out.new.items) }
    ensures few { OnOk result (length (asked_worlds (base_of store.now) query.now) ≤ most_windows) }
    ensures windows { let worlds = asked_worlds (base_of store.now) query.now in
        (count : ℕ) → IsErrOf result (AnswerFault.Windows count)
        → (count ≡ length worlds) × (most_windows < count) }
    ensures unchanged { OnErr result (out.new.items ≡ out.old.items) }
    ensures cost { IsTrue (is_counted_query store.now.model query.now)
        → steps.new ≤ steps.old + query_steps (size_of store.now) query.now }
    ensures windows_cost { let worlds = asked_worlds (base_of store.now) query.now in
        IsTrue (is_counted_each store.now.model query.now)
        → steps.new ≤ steps.old + query_windows_steps (size_of store.now) query.now worlds }
{
    let mut block = RowWriter::new(alloc);
    add_seen_block(alloc, &mut block, store, query, line, steps)?;
    append_rows(out, block)?;
    Ok(())
}
