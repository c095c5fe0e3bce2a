//! Columns that are read a chunk at a time.
ghost use Rattle.std.specs.Prelude.{◌≡◌, ℤ, ◌+◌, ◌<◌, ◌^◌, ◌++◌, List, ◌∷◌, [], length, OnOk, IfOk};
ghost use Rattle.std.specs.Prelude.{Some};
ghost use Rattle.std.specs.List.{All};
ghost use Rattle.view_trait.specs.Extent.{earlier_of, later_of};
ghost use Rattle.lane_scan.specs.Rows.{extent_of_times};
ghost use Rattle.lane_scan.specs.Marks.{marked, marks, rows_of, AreColumns};

use crate::Memory;
use crate::hits::Hit;
use crate::selection::select;
use std::alloc::Global;
use view_trait::WorldExtent;

/// How many rows are marked at once.
const CHUNK: usize = 1024;

/// The earlier of a time, where it is there, and another.
fn earlier(first: Option<i64>, time: i64) -> Option<i64>
    ensures { result ≡ earlier_of first (Some time) }
{
    match first {
        Some(first) => Some(first.min(time)),
        None => Some(time),
    }
}

/// The later of a time, where it is there, and another.
fn later(last: Option<i64>, time: i64) -> Option<i64>
    ensures { result ≡ later_of last (Some time) }
{
    match last {
        Some(last) => Some(last.max(time)),
        None => Some(time),
    }
}

/// One more time among those of an extent.
fn with_time(extent: WorldExtent, time: i64) -> WorldExtent
    requires { extent.events + 1 < 2 ^ 64 }
    ensures events { result.events ≡ extent.events + 1 }
    ensures extent { (before : List ℤ) → extent ≡ extent_of_times before
        → result ≡ extent_of_times (before ++ time ∷ []) }
{
    WorldExtent {
        events: extent.events + 1,
        first: earlier(extent.first, time),
        last: later(extent.last, time),
    }
}

/// Those times that are marked, among those of an extent. A chunk without a mark is passed over.
fn with_marked(extent: WorldExtent, times: &[i64], marks: &[u8]) -> WorldExtent
    requires len { length marks.now ≡ length times.now }
    requires few { extent.events + length times.now < 2 ^ 64 }
    ensures { (before : List ℤ) → extent ≡ extent_of_times before
        → result ≡ extent_of_times (before ++ marked times.now marks.now) }
{
    if !marks.contains(&1) {
        return extent;
    }
    let mut all = extent;
    for (i, mark) in marks.iter().enumerate() {
        if *mark == 1 {
            all = with_time(all, times[i]);
        }
    }
    all
}

/// Adds the rows of these columns that are marked. Where memory is wanting, some may have been
/// added. A chunk without a mark is passed over.
fn gather(
    rows: &mut Vec<Hit>,
    times: &[i64],
    codes: &[u8],
    numbers: &[u32],
    marks: &[u8],
) -> Result<(), Memory>
    requires codes { length codes.now ≡ length times.now }
    requires numbers { length numbers.now ≡ length times.now }
    requires marks { length marks.now ≡ length times.now }
    ensures { let all = rows_of times.now codes.now numbers.now in
        OnOk result (rows.new.items ≡ rows.old.items ++ marked all marks.now) }
{
    if !marks.contains(&1) {
        return Ok(());
    }
    for (i, mark) in marks.iter().enumerate() {
        if *mark == 1 {
            rows.push(Hit {
                time: times[i],
                code: codes[i],
                number: numbers[i],
            })?;
        }
    }
    Ok(())
}

/// How many rows are selected, and the least and the greatest of their times.
pub(crate) fn count_columns(
    times: &[i64],
    codes: &[u8],
    lo: i64,
    hi: i64,
    mask: u128,
) -> WorldExtent
    requires len { length codes.now ≡ length times.now }
    requires small { All (λ c. c < 128) codes.now }
    ensures { result ≡ extent_of_times (marked times.now (marks lo hi mask times.now codes.now)) }
{
    let mut marks = [0; CHUNK];
    let mut extent = WorldExtent {
        events: 0,
        first: None,
        last: None,
    };
    let mut at = 0;
    while at < times.len() {
        let end = at + CHUNK.min(times.len() - at);
        let chunk = &mut marks[..end - at];
        select(&times[at..end], &codes[at..end], lo, hi, mask, chunk);
        extent = with_marked(extent, &times[at..end], chunk);
        at = end;
    }
    extent
}

/// The rows that are selected, in their order.
pub(crate) fn gather_columns(
    alloc: Global,
    times: &[i64],
    codes: &[u8],
    numbers: &[u32],
    lo: i64,
    hi: i64,
    mask: u128,
) -> Result<Vec<Hit>, Memory>
    requires codes { length codes.now ≡ length times.now }
    requires numbers { length numbers.now ≡ length times.now }
    requires small { All (λ c. c < 128) codes.now }
    ensures { let all = rows_of times.now codes.now numbers.now in
        IfOk result (λ rows. rows.items ≡ marked all (marks lo hi mask times.now codes.now)) }
{
    let mut marks = [0; CHUNK];
    let mut rows = Vec::new(alloc);
    let mut at = 0;
    while at < times.len() {
        let end = at + CHUNK.min(times.len() - at);
        let chunk = &mut marks[..end - at];
        select(&times[at..end], &codes[at..end], lo, hi, mask, chunk);
        gather(
            &mut rows,
            &times[at..end],
            &codes[at..end],
            &numbers[at..end],
            chunk,
        )?;
        at = end;
    }
    Ok(rows)
}
