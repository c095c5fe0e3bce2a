//! Rows that are marked, at each length up to 70, and the rows of a timeline, counted and listed.
ghost use Rattle.std.specs.Prelude.{◌≡◌, ◌<◌, ◌≤◌, length};
ghost use Rattle.std.specs.List.{All};

use lane_scan::{Timeline, select};
use std::alloc::Global;
use std::marker::Brand;
use std::process::Abort;
use std::sync::ledger::{Blank, Ledger};
use std::test::Fail;
use time_column::Steps;

/// The codes 0, 29, 58 and so on, around at 128.
fn many_codes() -> [u8; 70]
    ensures { All (λ c. c < 128) result }
{
    let mut codes = [0; 70];
    for i in 0..70 {
        codes[i] = (i * 29 % 128) as u8;
    }
    codes
}

/// The times 0, 5, 10, 4 and so on, around at 11.
fn many_times() -> [i64; 70] {
    let mut times = [0; 70];
    let mut time = 0;
    for i in 0..70 {
        times[i] = time as i64;
        time = (time + 5u32) % 11;
    }
    times
}

fn passes(time: i64, code: u8, mask: u128) -> bool
    requires { code < 128 }
{
    (2..8).contains(&time) && (mask >> code) & 1 == 1
}

/// The rows up to each length are marked as a plain filter marks them, one after another.
fn marks_up_to(rt: &impl Abort, times: &[i64], codes: &[u8], mask: u128) -> Result<(), Fail>
    requires codes { length codes.now ≡ length times.now }
    requires long { length times.now ≤ 70 }
    requires small { All (λ c. c < 128) codes.now }
{
    let mut marks = [2; 70];
    let len = times.len();
    select(times, codes, 2, 8, mask, &mut marks[..len]);
    for i in 0..len {
        let marked = marks[i] == 1;
        assert_eq!(rt;
            marked,
            passes(times[i], codes[i], mask),
            "row {i} of {len}"
        );
    }
    Ok(())
}

#[test]
fn rows_are_marked_at_every_length(rt: HostRuntime) -> Result<(), Fail> {
    let codes = many_codes();
    let times = many_times();
    let mask = 0xF0F0_1234_5678_9ABC_0F0F_FEDC_BA98_7655;
    for len in 0..71 {
        marks_up_to(&rt, &times[..len], &codes[..len], mask)?;
    }
    Ok(())
}

const TIMES: [i64; 4] = [5, 1, 3, 3];

const CODES: [u8; 4] = [0, 1, 0, 64];

const MASK: u128 = 1 | 1 << 64;

#[test]
fn rows_of_two_codes_in_a_window(rt: HostRuntime) -> Result<(), Fail> {
    let mut marks = [2; 4];
    select(&TIMES, &CODES, 1, 5, MASK, &mut marks);
    assert_eq!(rt; marks, [0, 0, 1, 1]);
    Ok(())
}

/// The rows of `TIMES` and `CODES`, with the numbers 0, 1, 2 and 3.
fn four_rows(alloc: Global) -> Result<Timeline, Fail> {
    let mut rows = Timeline::new(alloc);
    rows.push(5, 0, 0)?;
    rows.push(1, 1, 1)?;
    rows.push(3, 0, 2)?;
    rows.push(3, 64, 3)?;
    Ok(rows)
}

fn rows_are_counted<L: Ledger>(rt: &impl Abort, alloc: Global, blank: Blank) -> Result<(), Fail>
    requires name { blank.name ≡ L.name }
    requires parts { blank.parts ≡ L.parts }
    requires one { blank.parts ≡ 1 }
{
    let mut steps = Steps::<L>::new(blank);
    let rows = four_rows(alloc)?;
    assert_eq!(rt; rows.len(), 4);
    let extent = rows.count(1, 6, MASK, &mut steps);
    assert_eq!(rt;
        (extent.events, extent.first, extent.last),
        (3, Some(3), Some(5))
    );
    let none = rows.count(6, 9, MASK, &mut steps);
    assert_eq!(rt; (none.events, none.first, none.last), (0, None, None));
    let hits = rows.hits(alloc, 1, 5, MASK, &mut steps)?;
    assert_eq!(rt; hits.len(), 2);
    for (i, hit) in hits.as_slice().iter().enumerate() {
        assert_eq!(rt; (hit.time, hit.number), (3, i as u32 + 2));
    }
    Ok(())
}

#[test]
fn rows_of_a_timeline(rt: HostRuntime) -> Result<(), Fail> {
    rows_are_counted::<Brand>(&rt, rt.alloc(), Blank::new(1))
}
