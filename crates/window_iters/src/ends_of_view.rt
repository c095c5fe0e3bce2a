//! Where the windows of a view begin and end.
ghost use Rattle.std.specs.Prelude.{◌≡◌, ◌≤◌, ◌<◌, ◌+◌, IfOk, IfErr, IsTrue, Some, length};
ghost use Rattle.graph_model.specs.Limits.{most_windows};
ghost use Rattle.graph_model.specs.Range.{each_in_range};
ghost use Rattle.graph_model.specs.Windows.{windows};
ghost use Rattle.view_trait.specs.Extent.{time_of_first, time_of_last};
ghost use Rattle.window_ends.specs.Ends.{windows_at};
ghost use Rattle.window_iters.specs.Windows.{extent_steps};

use graph_model::Each;
use std::sync::ledger::Ledger;
use time_column::Steps;
use view_trait::{Roster, View, extent};
use window_ends::{TooMany, WindowEnds, ends_between};

/// The ends of the windows of a view of which the first and the last time are known, in order: none
/// where there is no such time. It reads no stored time, and takes no memory.
///
/// # Errors
/// `TooMany` where there are more than 65,536 windows.
pub fn ends_from_to<V: View>(
    view: &V,
    each: Each,
    first: Option<i64>,
    last: Option<i64>,
) -> Result<WindowEnds, TooMany>
    requires in_range { IsTrue (each_in_range each) }
    requires first { first ≡ time_of_first (V.world view.now).events }
    requires last { last ≡ time_of_last (V.world view.now).events }
    ensures windows { let w = V.world view.now in
        IfOk result (λ ends. windows_at w ends ≡ windows w (Some each)) }
    ensures few { IfOk result (λ ends. length ends ≤ most_windows) }
    ensures count { let w = V.world view.now in
        IfErr result (λ many. many.count ≡ length (windows w (Some each))) }
    ensures many { IfErr result (λ many. most_windows < many.count) }
{
    let bounds = view.bounds();
    let _lo = bounds.lo();
    let _hi = bounds.hi();
    match (first, last) {
        (Some(first), Some(last)) => ends_between(each, first, last),
        _ => Ok(WindowEnds::none()),
    }
}

/// The ends of the windows of a view, in order: none where it shows no event. It asks for each span
/// once, reads at most two times in each, and takes no memory.
///
/// # Errors
/// `TooMany` where there are more than 65,536 windows.
pub fn ends_over<V: View, L: Ledger>(
    view: &V,
    each: Each,
    steps: &mut Steps<L>,
) -> Result<WindowEnds, TooMany>
    requires { IsTrue (each_in_range each) }
    ensures windows { let w = V.world view.now in
        IfOk result (λ ends. windows_at w ends ≡ windows w (Some each)) }
    ensures few { IfOk result (λ ends. length ends ≤ most_windows) }
    ensures count { let w = V.world view.now in
        IfErr result (λ many. many.count ≡ length (windows w (Some each))) }
    ensures many { IfErr result (λ many. most_windows < many.count) }
    ensures cost { steps.new ≤ steps.old + extent_steps (V.contents view.now) (V.searches view.now) }
{
    let extent = extent(view, Roster::All, steps);
    ends_from_to(view, each, extent.first, extent.last)
}
