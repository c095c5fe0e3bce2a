//! Where a window begins and ends, by its place among all windows of an `each`.
ghost use Rattle.std.specs.Prelude.{◌≡◌, ℕ, ◌≤ℤ◌, ◌<ℤ◌, ◌+ℤ◌, ◌*ℤ◌, pos, IsTrue};
ghost use Rattle.graph_model.specs.Interval.{earliest, latest};
ghost use Rattle.graph_model.specs.Range.{each_in_range};
ghost use Rattle.graph_model.specs.Windows.{step_of as step_of_each, bounded, window_start, window_end};
ghost use Rattle.window_ends.specs.Ends.{ends_at as ends_of_place, AreBounds};

use graph_model::{Bounds, Each};

/// The moment at which a window begins, and the one before which it ends, each from -2^62 to 2^62.
#[derive(Clone, Copy, Debug, PartialEq, Eq, Drop)]
pub struct Ends {
    pub from: i64,
    pub to: i64,
}

/// How far each window is from the one before it.
pub(crate) fn step_of(each: Each) -> i64
    requires { IsTrue (each_in_range each) }
    ensures value { result ≡ step_of_each each }
    ensures low { pos 1 ≤ℤ result }
    ensures high { result ≤ℤ latest }
{
    match each {
        Each::Rolling(_, step) => step,
        Each::Expanding(step) => step,
    }
}

/// A moment, brought between the earliest bound and the latest.
fn into_bounds(t: i64) -> i64
    ensures value { result ≡ bounded t }
    ensures low { earliest ≤ℤ result }
    ensures high { result ≤ℤ latest }
{
    Bounds::EARLIEST.max(t.min(Bounds::LATEST))
}

/// The moment that windows have reached after `k` steps.
fn reached(each: Each, first: i64, k: u32) -> i64
    requires in_range { IsTrue (each_in_range each) }
    requires begins { earliest ≤ℤ first }
    requires reached { (first +ℤ (pos k *ℤ step_of_each each)) <ℤ latest }
    ensures value { result ≡ first +ℤ (pos k *ℤ step_of_each each) }
    ensures low { first ≤ℤ result }
{
    first + k as i64 * step_of(each)
}

/// The moment before which the window at a place ends. It is less than 2^63, since what is reached
/// is less than 2^62, and a step is no more than that.
fn end_of(each: Each, first: i64, k: u32) -> i64
    requires in_range { IsTrue (each_in_range each) }
    requires begins { earliest ≤ℤ first }
    requires reached { (first +ℤ (pos k *ℤ step_of_each each)) <ℤ latest }
    ensures value { result ≡ window_end each first k }
    ensures low { first ≤ℤ result }
{
    reached(each, first, k) + step_of(each)
}

/// The moment at which a window begins that ends before another.
fn start_of(each: Each, first: i64, end: i64) -> i64
    requires in_range { IsTrue (each_in_range each) }
    requires begins { earliest ≤ℤ first }
    requires end { first ≤ℤ end }
    ensures { (k : ℕ) → end ≡ window_end each first k → result ≡ window_start each first k }
{
    match each {
        Each::Rolling(width, _) => end - width,
        Each::Expanding(_) => first,
    }
}

/// The ends of the window at a place, of events that begin at a first time.
pub(crate) fn ends_at(each: Each, first: i64, k: u32) -> Ends
    requires in_range { IsTrue (each_in_range each) }
    requires begins { earliest ≤ℤ first }
    requires reached { (first +ℤ (pos k *ℤ step_of_each each)) <ℤ latest }
    ensures ends { result ≡ ends_of_place each first k }
    ensures bounds { AreBounds result }
{
    let end = end_of(each, first, k);
    let start = start_of(each, first, end);
    let from = into_bounds(start);
    let to = into_bounds(end);
    Ends { from, to }
}
