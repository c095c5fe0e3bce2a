//! A binary search for the end of the stamps that pass a test.
ghost use Rattle.std.specs.Prelude.{◌≡◌, ℕ, ◌+◌, ◌-◌, ◌<◌, ◌≤◌, length, true, false};
ghost use Rattle.time_column.specs.Stamp.{stamp_at, IsRising};
ghost use Rattle.graph_model.specs.Searches.{digits};
ghost use Rattle.time_history.specs.Probe.{passes};

use std::sync::ledger::Ledger;
use time_column::{Near, Steps, TimeColumn};

/// A test of a stamp. If one passes, so do those before it.
#[derive(Clone, Copy, Drop)]
pub enum Probe {
    /// The time is earlier than this.
    Earlier(i64),
    /// The time and the order are not greater than these.
    NotAfter(i64, u32),
}

/// Whether the stamp at a place passes.
pub fn test<T: Copy, B: Drop, L: Ledger>(
    column: &TimeColumn<T, B>,
    i: usize,
    near: Near,
    probe: Probe,
    steps: &mut Steps<L>,
) -> bool
    requires { i < length column.now.stamps }
    ensures value { result ≡ passes probe (stamp_at column.now.stamps i) }
    ensures cost { steps.new ≡ steps.old + 1 }
{
    match probe {
        Probe::Earlier(time) => column.earlier_than(i, near, time, steps),
        Probe::NotAfter(time, order) => column.not_after(i, near, time, order, steps),
    }
}

/// The first place from `from` up to `to` whose stamp does not pass, or `to`.
pub fn first_after<T: Copy, B: Drop, L: Ledger>(
    column: &TimeColumn<T, B>,
    from: usize,
    to: usize,
    probe: Probe,
    steps: &mut Steps<L>,
) -> usize
    requires order { from ≤ to }
    requires within { to ≤ length column.now.stamps }
    requires rising { IsRising column.now.stamps }
    ensures from { from ≤ result }
    ensures to { result ≤ to }
    ensures before { (k : ℕ) → from ≤ k → k < result
        → passes probe (stamp_at column.now.stamps k) ≡ true }
    ensures after { (k : ℕ) → result ≤ k → k < to
        → passes probe (stamp_at column.now.stamps k) ≡ false }
    ensures cost { steps.new ≤ steps.old + digits (to - from) }
{
    let mut low = from;
    let mut high = to;
    let mut near = column.near(from, to);
    while low < high {
        let mid = column.middle(low, high, &mut near);
        if test(column, mid, near, probe, steps) {
            low = mid + 1;
            near.go_after();
        } else {
            high = mid;
            near.go_before();
        }
    }
    low
}

/// The first place whose stamp does not pass, or the length. The last stamp is tried first.
pub fn last_place<T: Copy, B: Drop, L: Ledger>(
    column: &TimeColumn<T, B>,
    probe: Probe,
    steps: &mut Steps<L>,
) -> usize
    ensures within { result ≤ length column.now.stamps }
    ensures before { (k : ℕ) → k < result → passes probe (stamp_at column.now.stamps k) ≡ true }
    ensures after { (k : ℕ) → result ≤ k → k < length column.now.stamps
        → passes probe (stamp_at column.now.stamps k) ≡ false }
    ensures cost { steps.new ≤ steps.old + (digits (length column.now.stamps) + 1) }
    ensures cost_at_end { ((k : ℕ) → k < length column.now.stamps
        → passes probe (stamp_at column.now.stamps k) ≡ true) → steps.new ≤ steps.old + 1 }
{
    let len = column.len();
    if len == 0 {
        return 0;
    }
    if test(column, len - 1, Near::default(), probe, steps) {
        return len;
    }
    first_after(column, 0, len - 1, probe, steps)
}
