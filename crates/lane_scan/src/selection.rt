//! Which rows a question selects.
ghost use Rattle.std.specs.Prelude.{◌≡◌, ◌+◌, ◌<◌, ◌≤◌, ℕ, length, map, take, drop, slice_index};
ghost use Rattle.std.specs.List.{All};
ghost use Rattle.view_trait.specs.Numbered.{has_bit};
ghost use Rattle.lane_scan.specs.Rows.{passes};
ghost use Rattle.lane_scan.specs.Marks.{mark, marks, time_mark, code_mark};

use std::simd::prelude::*;

/// How many rows are marked at once, one in each lane.
const LANES: usize = 8;

/// How many codes there are.
const CODES: usize = 128;

/// Whether the bit of a code is in the mask.
fn is_kept(code: u8, mask: u128) -> bool
    requires { code < 128 }
    ensures { result ≡ has_bit mask code }
{
    (mask >> code) & 1 == 1
}

/// Whether a time is from `lo` up to `hi`, and the bit of a code is in the mask.
fn passes(time: i64, code: u8, lo: i64, hi: i64, mask: u128) -> bool
    requires { code < 128 }
    ensures { result ≡ passes lo hi mask time code }
{
    (lo <= time) & (time < hi) & is_kept(code, mask)
}

/// 1 where it is so, and 0 where not.
fn mark(time: i64, code: u8, lo: i64, hi: i64, mask: u128) -> u8
    requires { code < 128 }
    ensures { result ≡ mark lo hi mask time code }
{
    if passes(time, code, lo, hi, mask) {
        1
    } else {
        0
    }
}

/// 1 for a code whose bit is in the mask, and 0 for another.
fn code_mark(code: u8, mask: u128) -> u8
    requires { code < 128 }
    ensures { result ≡ code_mark mask code }
{
    if is_kept(code, mask) { 1 } else { 0 }
}

/// The mark of each code.
fn code_marks(mask: u128) -> [u8; CODES]
    ensures { (c : ℕ) → c < CODES → slice_index result c ≡ code_mark mask c }
{
    let mut kept = [0; CODES];
    for code in 0..128_u8 {
        kept[code as usize] = code_mark(code, mask);
    }
    kept
}

/// 1 for each time from `lo` up to `hi`, and 0 for each other, of as many as there are lanes, from a
/// place on.
#[inline(always)]
fn time_lanes(times: &[i64], at: usize, lo: i64, hi: i64) -> u8x8
    requires { at + LANES ≤ length times.now }
    ensures { result ≡ map (time_mark lo hi) (take LANES (drop at times.now)) }
{
    let mut chunk = [0; LANES];
    for i in 0..LANES {
        chunk[i] = times[at + i];
    }
    let lanes = i64x8::from_array(chunk);
    let inside = lanes.simd_ge(i64x8::splat(lo)) & lanes.simd_lt(i64x8::splat(hi));
    inside.cast::<i8>().select(u8x8::splat(1), u8x8::splat(0))
}

/// The marks of as many codes as there are lanes, from a place on, which stand in a table.
#[inline(always)]
fn code_lanes(codes: &[u8], at: usize, table: &[u8; CODES]) -> u8x8
    requires room { at + LANES ≤ length codes.now }
    requires small { All (λ c. c < CODES) codes.now }
    ensures { result ≡ map (slice_index table.now) (take LANES (drop at codes.now)) }
{
    let mut lanes = [0; LANES];
    for i in 0..LANES {
        lanes[i] = table[codes[at + i] as usize];
    }
    u8x8::from_array(lanes)
}

/// Writes 1 for each row whose time is from `lo` up to `hi` and whose code's bit is in the mask, and 0
/// for each other row. Whole chunks of rows are marked by lanes, and the rest one after another. It
/// takes no memory.
pub fn select(times: &[i64], codes: &[u8], lo: i64, hi: i64, mask: u128, out: &mut [u8])
    requires codes { length codes.now ≡ length times.now }
    requires out { length out.old ≡ length times.now }
    requires small { All (λ c. c < 128) codes.now }
    ensures { out.new ≡ marks lo hi mask times.now codes.now }
{
    let table = code_marks(mask);
    let mut at = 0;
    while times.len() - at >= LANES {
        let chunk = time_lanes(times, at, lo, hi) & code_lanes(codes, at, &table);
        chunk.copy_to_slice(&mut out[at..]);
        at += LANES;
    }
    for i in at..times.len() {
        out[i] = mark(times[i], codes[i], lo, hi, mask);
    }
}
