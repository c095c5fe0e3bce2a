// The block of a query about the windows of a view.
ghost use Rattle.std.specs.Prelude.{◌≡◌, ◌≤◌, ◌+◌, ◌*◌, length, true, Some, IfErr, IsTrue, OnOk};
ghost use Rattle.graph_model.specs.Limits.{most_windows};
ghost use Rattle.graph_model.specs.Range.{each_in_range};
ghost use Rattle.graph_model.specs.Windows.{windows};
ghost use Rattle.window_ends.specs.Ends.{windows_at};
ghost use Rattle.window_sweep.specs.WindowSwept.{IsOver};
ghost use Rattle.query_answers.specs.Asks.{is_asked, is_swept};
ghost use Rattle.query_answers.specs.Blocks.{AddsBlock, AddsParts};
ghost use Rattle.query_answers.specs.Cost.{event_steps, held_in, is_counted_in_windows, sweep_steps};
ghost use Rattle.query_answers.specs.Refusing.{AreTooMany};

use crate::answer_fault::AnswerFault;
use crate::block_rows::add_query;
use crate::part::add_part;
use event_rows::RowWriter;
use graph_model::{Ask, Each, Memory};
use std::alloc::Global;
use std::sync::ledger::Ledger;
use time_column::Steps;
use view_trait::{Roster, View};
use window_ends::WindowEnds;
use window_iters::{ends_from_to, ends_over};
use window_sweep::WindowSweep;
use window_view::window;

// Whether a roster says where to look for the answer to a question.
fn is_swept(ask: &Ask) -> bool
    ensures { result ≡ is_swept ask.now }
{
    matches!(
        ask,
        Ask::Nodes
            | Ask::Edges
            | Ask::Events
            | Ask::Degree
            | Ask::Weak
            | Ask::Core(_)
            | Ask::CoreNumbers
            | Ask::Materialise
            | Ask::Hops(..)
            | Ask::OutComponent(_)
            | Ask::InComponent(_)
    )
}

// Adds the parts of windows of a view, in order, each answered on its own.
fn add_each<V: View, L: Ledger>(
    alloc: Global,
    out: &mut RowWriter,
    view: &V,
    windows: WindowEnds,
    ask: &Ask,
    steps: &mut Steps<L>,
) -> Result<(), Memory>
    requires asked { is_asked ask.now ≡ true }
    ensures { OnOk result
        (AddsParts (windows_at (V.world view.now) windows) ask.now out.old out.new) }
{
    for ends in windows {
        let seen = window(view, ends.from, ends.to);
        add_part(alloc, out, &seen, Roster::All, ask, steps)?;
    }
    Ok(())
}

// Adds the parts of windows of a view, in order, each by the roster of what the window holds.
fn add_swept<V: View, L: Ledger>(
    alloc: Global,
    out: &mut RowWriter,
    view: &V,
    sweep: &mut WindowSweep,
    windows: WindowEnds,
    ask: &Ask,
    steps: &mut Steps<L>,
) -> Result<(), Memory>
    requires asked { is_asked ask.now ≡ true }
    requires over { IsOver (V.contents view.now) (V.world view.now) sweep.old }
    ensures parts { OnOk result
        (AddsParts (windows_at (V.world view.now) windows) ask.now out.old out.new) }
    ensures cost { let worlds = windows_at (V.world view.now) windows in
        let among = length (V.contents view.now).accepted in
        IsTrue (is_counted_in_windows (V.world view.now).model ask.now)
        → steps.new ≤ steps.old + held_in worlds * event_steps (V.searches view.now) among }
{
    for ends in windows {
        sweep.move_to(ends.from, ends.to)?;
        let seen = window(view, ends.from, ends.to);
        add_part(alloc, out, &seen, sweep.roster(), ask, steps)?;
    }
    Ok(())
}

// Adds the block of a question about windows of a view, each answered on its own.
fn add_each_block<V: View, L: Ledger>(
    alloc: Global,
    out: &mut RowWriter,
    view: &V,
    each: Each,
    ask: &Ask,
    line: u32,
    steps: &mut Steps<L>,
) -> Result<(), AnswerFault>
    requires asked { is_asked ask.now ≡ true }
    requires in_range { IsTrue (each_in_range each) }
    ensures block { let worlds = windows (V.world view.now) (Some each) in
        OnOk result (AddsBlock worlds line ask.now out.old out.new) }
    ensures few { OnOk result (length (windows (V.world view.now) (Some each)) ≤ most_windows) }
    ensures fault { let worlds = windows (V.world view.now) (Some each) in
        IfErr result (λ fault. AreTooMany worlds fault) }
{
    let windows = ends_over(view, each, steps)?;
    add_query(out, line, ask, windows.len())?;
    add_each(alloc, out, view, windows, ask, steps)?;
    Ok(())
}

// Adds the block of a question about windows of a view that a sweep is over: the sweep knows the
// first and the last time, and each window is answered in the time of what it holds.
fn add_swept_block<V: View, L: Ledger>(
    alloc: Global,
    out: &mut RowWriter,
    view: &V,
    sweep: &mut WindowSweep,
    each: Each,
    ask: &Ask,
    line: u32,
    steps: &mut Steps<L>,
) -> Result<(), AnswerFault>
    requires asked { is_asked ask.now ≡ true }
    requires in_range { IsTrue (each_in_range each) }
    requires over { IsOver (V.contents view.now) (V.world view.now) sweep.old }
    ensures block { let worlds = windows (V.world view.now) (Some each) in
        OnOk result (AddsBlock worlds line ask.now out.old out.new) }
    ensures few { OnOk result (length (windows (V.world view.now) (Some each)) ≤ most_windows) }
    ensures fault { let worlds = windows (V.world view.now) (Some each) in
        IfErr result (λ fault. AreTooMany worlds fault) }
    ensures cost { let worlds = windows (V.world view.now) (Some each) in
        let among = length (V.contents view.now).accepted in
        IsTrue (is_counted_in_windows (V.world view.now).model ask.now)
        → steps.new ≤ steps.old + held_in worlds * event_steps (V.searches view.now) among }
{
    let windows = ends_from_to(view, each, sweep.first_time(), sweep.last_time())?;
    add_query(out, line, ask, windows.len())?;
    add_swept(alloc, out, view, sweep, windows, ask, steps)?;
    Ok(())
}

/// Adds the block of a question about the windows of a view: its row, and the part of each window.
/// Where a roster says where to look for the answer, the view's events are listed once, and each
/// window is answered in the time of what it holds.
///
/// # Errors
/// `Windows` where there are more than 65,536 windows, or `Memory`.
pub fn add_windows<V: View, L: Ledger>(
    alloc: Global,
    out: &mut RowWriter,
    view: &V,
    each: Each,
    ask: &Ask,
    line: u32,
    steps: &mut Steps<L>,
) -> Result<(), AnswerFault>
    requires asked { is_asked ask.now ≡ true }
    requires in_range { IsTrue (each_in_range each) }
    ensures block { let worlds = windows (V.world view.now) (Some each) in
        OnOk result (AddsBlock worlds line ask.now out.old out.new) }
    ensures few { OnOk result (length (windows (V.world view.now) (Some each)) ≤ most_windows) }
    ensures fault { let worlds = windows (V.world view.now) (Some each) in
        IfErr result (λ fault. AreTooMany worlds fault) }
    ensures cost { let w = V.world view.now in
        let worlds = windows w (Some each) in
        IsTrue (is_counted_in_windows w.model ask.now)
        → steps.new ≤ steps.old + sweep_steps (V.contents view.now) w (V.searches view.now) worlds }
{
    if is_swept(ask) {
        let mut sweep = WindowSweep::new(alloc, view, Roster::All, steps)?;
        let added = add_swept_block(alloc, out, view, &mut sweep, each, ask, line, steps);
        drop(sweep);
        return added;
    }
    add_each_block(alloc, out, view, each, ask, line, steps)
}
