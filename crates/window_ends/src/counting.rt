//! How many windows there are, and the ends of all of them.
ghost use Rattle.std.specs.Prelude.{◌≡◌, ◌≤◌, ◌<◌, ◌≤ℤ◌, ◌<ℤ◌, IfOk, IfErr, IsTrue, length};
ghost use Rattle.graph_model.specs.Interval.{earliest, latest};
ghost use Rattle.graph_model.specs.Limits.{most_windows};
ghost use Rattle.graph_model.specs.Range.{each_in_range};
ghost use Rattle.graph_model.specs.Windows.{window_count as count_of_windows};
ghost use Rattle.window_ends.specs.Ends.{all_ends};

use crate::ends::step_of;
use crate::ends_left::WindowEnds;
use graph_model::Each;

/// How many windows an `each` may have.
pub const MOST_WINDOWS: u32 = 65_536;

/// An `each` would have this many windows, which are more than [`MOST_WINDOWS`].
#[derive(Clone, Copy, Debug, PartialEq, Eq, Drop)]
pub struct TooMany {
    pub count: u64,
}

/// How many windows there are of events from a first time to a last.
fn window_count(each: Each, first: i64, last: i64) -> u64
    requires in_range { IsTrue (each_in_range each) }
    requires begins { earliest ≤ℤ first }
    requires order { first ≤ℤ last }
    requires ends { last <ℤ latest }
    ensures { result ≡ count_of_windows each first last }
{
    (last - first).unsigned_abs() / step_of(each).unsigned_abs() + 1
}

/// The ends of all windows, in order, of events from a first time to a last: moments from -2^62 to
/// 2^62 - 1.
///
/// # Errors
/// `TooMany` where there are more than 65,536 windows.
pub fn ends_between(each: Each, first: i64, last: i64) -> Result<WindowEnds, TooMany>
    requires in_range { IsTrue (each_in_range each) }
    requires begins { earliest ≤ℤ first }
    requires order { first ≤ℤ last }
    requires ends { last <ℤ latest }
    ensures ends { IfOk result (λ ends. ends ≡ all_ends each first last) }
    ensures few { IfOk result (λ ends. length ends ≤ most_windows) }
    ensures count { IfErr result (λ many. many.count ≡ count_of_windows each first last) }
    ensures many { IfErr result (λ many. most_windows < many.count) }
{
    let count = window_count(each, first, last);
    if count > MOST_WINDOWS as u64 {
        return Err(TooMany { count });
    }
    Ok(WindowEnds::all(each, first, count as u32))
}
