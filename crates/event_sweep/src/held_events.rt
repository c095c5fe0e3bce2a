//! Events in the order of time, the places at which those from a moment on begin, and what is
//! carried over the events before a place.
ghost use Rattle.std.specs.Prelude.{◌≡◌, ℕ, ◌≤◌, ◌+◌, ◌==◌, ◌||◌, ◌&&◌, not, Bool, length, IsTrue, OnOk, OnErr, slice_range, if◌then◌else◌};
ghost use Rattle.event_sweep.specs.Numbers.{is_listed};
ghost use Rattle.event_sweep.specs.Swept.{TimesRise, AreEarlier, IsMark, IsPassed, has_event};

use crate::number_set::NumberSet;
use graph_model::Memory;

/// When an event is, the number of what it is about, and whether it is a deletion.
#[derive(Clone, Copy, Drop)]
pub struct HeldEvent {
    pub time: i64,
    pub number: u32,
    pub deletes: bool,
}

/// The first place, not before a mark, whose event is not earlier than a moment.
fn forward(held: &[HeldEvent], mark: usize, t: i64) -> usize
    requires within { mark ≤ length held.now }
    requires earlier { AreEarlier held.now mark t }
    requires rise { TimesRise held.now }
    ensures { IsMark held.now result t }
{
    let mut at = mark;
    while at < held.len() && held[at].time < t {
        at += 1;
    }
    at
}

/// Whether a mark stands at most where the events from a moment on begin.
fn is_before(held: &[HeldEvent], mark: usize, t: i64) -> bool
    requires { TimesRise held.now }
    ensures within { IsTrue result → mark ≤ length held.now }
    ensures earlier { IsTrue result → AreEarlier held.now mark t }
{
    mark == 0 || mark <= held.len() && held[mark - 1].time < t
}

/// The place at which the events from a moment on begin. It is looked for from a mark on, and from
/// the beginning only where the mark stands too far.
pub(crate) fn mark_from(held: &[HeldEvent], mark: usize, t: i64) -> usize
    requires { TimesRise held.now }
    ensures { IsMark held.now result t }
{
    if is_before(held, mark, t) {
        forward(held, mark, t)
    } else {
        forward(held, 0, t)
    }
}

/// Adds the number of an event to those that are carried, or takes it away, as the event says.
fn carry(carried: &mut NumberSet, carries: bool, x: HeldEvent) -> Result<(), Memory>
    ensures ok { OnOk result ((n : ℕ) → is_listed carried.new n
        ≡ (if carries && (x.number == n) then not x.deletes else is_listed carried.old n)) }
    ensures err { OnErr result (carried.new ≡ carried.old) }
{
    if !carries {
        return Ok(());
    }
    if x.deletes {
        carried.remove(x.number);
        Ok(())
    } else {
        carried.insert(x.number)
    }
}

/// Lets a mark that stands too far begin anew, with nothing carried.
fn start_over(held: &[HeldEvent], mark: usize, carried: &mut NumberSet, t: i64) -> usize
    requires rise { TimesRise held.now }
    ensures earlier { AreEarlier held.now result t }
    ensures passed { (carries : Bool)
        → IsPassed carries held.now mark carried.old
        → IsPassed carries held.now result carried.new }
{
    if is_before(held, mark, t) {
        mark
    } else {
        carried.clear();
        0
    }
}

/// Passes the events that are earlier than a moment.
pub(crate) fn pass(
    held: &[HeldEvent],
    carries: bool,
    mark: &mut usize,
    carried: &mut NumberSet,
    t: i64,
) -> Result<(), Memory>
    requires rise { TimesRise held.now }
    requires passed { IsPassed carries held.now mark.old carried.old }
    ensures passed { IsPassed carries held.now mark.new carried.new }
    ensures ok { OnOk result (IsMark held.now mark.new t) }
{
    *mark = start_over(held, *mark, carried, t);
    while *mark < held.len() && held[*mark].time < t {
        carry(carried, carries, held[*mark])?;
        *mark += 1;
    }
    Ok(())
}

/// Adds the numbers of events.
fn add_numbers(held: &[HeldEvent], listed: &mut NumberSet) -> Result<(), Memory>
    ensures ok { OnOk result ((n : ℕ)
        → is_listed listed.new n ≡ (has_event held.now n || is_listed listed.old n)) }
    ensures few { length listed.new ≤ length listed.old + length held.now }
{
    for x in held {
        listed.insert(x.number)?;
    }
    Ok(())
}

/// Adds numbers.
fn add_all(numbers: &[u32], listed: &mut NumberSet) -> Result<(), Memory>
    ensures ok { OnOk result ((n : ℕ)
        → is_listed listed.new n ≡ (is_listed numbers.now n || is_listed listed.old n)) }
    ensures few { length listed.new ≤ length listed.old + length numbers.now }
{
    for n in numbers {
        listed.insert(*n)?;
    }
    Ok(())
}

/// Lists the numbers of the events from one place up to another, and those that are carried there.
pub(crate) fn list_between(
    held: &[HeldEvent],
    first: usize,
    last: usize,
    carried: &[u32],
    listed: &mut NumberSet,
) -> Result<(), Memory>
    requires { last ≤ length held.now }
    ensures ok { OnOk result ((n : ℕ) → is_listed listed.new n
        ≡ (has_event (slice_range held.now first last) n || is_listed carried.now n)) }
    ensures few { length listed.new ≤ length carried.now + length (slice_range held.now first last) }
{
    listed.clear();
    add_all(carried, listed)?;
    if first < last {
        add_numbers(&held[first..last], listed)?;
    }
    Ok(())
}
