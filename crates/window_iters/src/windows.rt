//! Windows that roll, and windows that expand.
ghost use Rattle.std.specs.Prelude.{◌≡◌, ◌≤◌, ◌<◌, ◌+◌, ◌≤ℤ◌, pos, IfOk, IfErr, Some, length};
ghost use Rattle.graph_model.specs.Interval.{latest};
ghost use Rattle.graph_model.specs.Limits.{most_windows};
ghost use Rattle.graph_model.specs.Windows.{windows};
ghost use Rattle.graph_model.specs.declared.queries.Each.TheVariants.{Rolling, Expanding};
ghost use Rattle.window_ends.specs.Ends.{windows_at};
ghost use Rattle.window_iters.specs.Windows.{extent_steps};

use crate::ends_of_view::ends_over;
use graph_model::Each;
use std::marker::Model;
use std::sync::ledger::Ledger;
use time_column::Steps;
use view_trait::View;
use window_ends::{TooMany, WindowEnds};
use window_view::{WindowView, window};

/// The windows over a view that are yet to come, in order. A contract sees the view, and where they
/// begin and end.
pub struct WindowsOver<'v, V> {
    view: &'v V,
    ends: WindowEnds,
}

/// Windows of one width, each a step after the one before it.
pub type RollingWindows<'v, V> = WindowsOver<'v, V>;

/// Windows that all begin at the first event, each a step longer than the one before it.
pub type ExpandingWindows<'v, V> = WindowsOver<'v, V>;

impl<'v, V> Model for WindowsOver<'v, V> {
    ghost use Rattle.window_iters.specs.Windows.{WindowsLeft};

    ghost Value = { WindowsLeft V };

    ghost view = { λ w. record { view = w.view.now; ends = w.ends } };
}

impl<V> Drop for WindowsOver<'_, V> {
    fn drop(self) {
        let WindowsOver { view: _, ends: _ } = self;
    }
}

/// The windows of a width that move by a step over a view, each from 1 to 2^62. It asks for each span
/// of the view once, reads at most two times in each, and takes no memory.
///
/// # Errors
/// `TooMany` where there are more than 65,536 windows.
pub fn rolling<'v, V: View, L: Ledger>(
    view: &'v V,
    width: i64,
    step: i64,
    steps: &mut Steps<L>,
) -> Result<RollingWindows<'v, V>, TooMany>
    requires width_low { pos 1 ≤ℤ width }
    requires width_high { width ≤ℤ latest }
    requires step_low { pos 1 ≤ℤ step }
    requires step_high { step ≤ℤ latest }
    ensures view { IfOk result (λ left. left.view ≡ view.now) }
    ensures windows { let w = V.world view.now in
        IfOk result (λ left. windows_at w left.ends ≡ windows w (Some (Rolling width step))) }
    ensures few { IfOk result (λ left. length left.ends ≤ most_windows) }
    ensures count { let w = V.world view.now in
        IfErr result (λ many. many.count ≡ length (windows w (Some (Rolling width step)))) }
    ensures many { IfErr result (λ many. most_windows < many.count) }
    ensures cost { steps.new ≤ steps.old + extent_steps (V.contents view.now) (V.searches view.now) }
{
    let ends = ends_over(view, Each::Rolling(width, step), steps)?;
    Ok(WindowsOver { view, ends })
}

/// The windows that begin at the first event of a view, each longer by a step from 1 to 2^62. It asks
/// for each span of the view once, reads at most two times in each, and takes no memory.
///
/// # Errors
/// `TooMany` where there are more than 65,536 windows.
pub fn expanding<'v, V: View, L: Ledger>(
    view: &'v V,
    step: i64,
    steps: &mut Steps<L>,
) -> Result<ExpandingWindows<'v, V>, TooMany>
    requires step_low { pos 1 ≤ℤ step }
    requires step_high { step ≤ℤ latest }
    ensures view { IfOk result (λ left. left.view ≡ view.now) }
    ensures windows { let w = V.world view.now in
        IfOk result (λ left. windows_at w left.ends ≡ windows w (Some (Expanding step))) }
    ensures few { IfOk result (λ left. length left.ends ≤ most_windows) }
    ensures count { let w = V.world view.now in
        IfErr result (λ many. many.count ≡ length (windows w (Some (Expanding step)))) }
    ensures many { IfErr result (λ many. most_windows < many.count) }
    ensures cost { steps.new ≤ steps.old + extent_steps (V.contents view.now) (V.searches view.now) }
{
    let ends = ends_over(view, Each::Expanding(step), steps)?;
    Ok(WindowsOver { view, ends })
}

impl<V> WindowsOver<'_, V> {
    /// How many windows are yet to come.
    pub fn len(&self) -> u32
        ensures { result ≡ length self.now.ends }
    {
        self.ends.len()
    }
}

impl<'v, V> Iterator for WindowsOver<'v, V> {
    ghost use Rattle.std.specs.Iterator.{item_count};
    ghost use Rattle.window_iters.specs.Windows.{IsNextWindow, WindowsLeft};

    type Item = WindowView<&'v V>;

    ghost next_gives = { IsNextWindow };

    ghost remaining = { item_count (λ left. left.ends) };

    fn next(&mut self) -> Option<WindowView<&'v V>> {
        let ends = self.ends.next()?;
        Some(window(self.view, ends.from, ends.to))
    }
}
