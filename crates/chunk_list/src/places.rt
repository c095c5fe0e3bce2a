//! The first places of parts.
ghost use Rattle.std.specs.Prelude.{◌≡◌, ℕ, ◌+◌, ◌-◌, ◌*◌, ◌/◌, ◌<◌, ◌≤◌, ◌∷◌, [], length, slice_index, vec_len, OnOk, OnErr, IsOk, IfOk};
ghost use Rattle.std.specs.List.{insert};
ghost use Rattle.std.specs.Vec.{vec_capacity};

use std::alloc::{AllocError, Global};
use std::marker::Model;

/// How many numbers a group has.
const GROUP: usize = 64;

/// Adds one to each number.
fn increment(numbers: &mut [usize])
    requires fits { (k : ℕ) → k < length numbers.old → slice_index numbers.old k < usize.MAX }
    ensures moved { (k : ℕ) → k < length numbers.old → slice_index numbers.new k ≡ slice_index numbers.old k + 1 }
{
    for number in numbers.iter_mut() {
        *number += 1;
    }
}

/// Adds one to each number from one place up to another.
fn shift(numbers: &mut [usize], from: usize, to: usize)
    requires order { from ≤ to }
    requires end { to ≤ length numbers.old }
    requires fits { (k : ℕ) → from ≤ k → k < to → slice_index numbers.old k < usize.MAX }
    ensures before { (k : ℕ) → k < from → slice_index numbers.new k ≡ slice_index numbers.old k }
    ensures moved { (k : ℕ) → from ≤ k → k < to → slice_index numbers.new k ≡ slice_index numbers.old k + 1 }
    ensures after { (k : ℕ) → to ≤ k → slice_index numbers.new k ≡ slice_index numbers.old k }
{
    increment(&mut numbers[from..to]);
}

/// The last place from one up to another whose number is at most `i`, where the first is and the next
/// is greater.
fn last_at_most(numbers: &[usize], from: usize, to: usize, i: usize) -> usize
    requires some { from < to }
    requires end { to ≤ length numbers.now }
    requires first { slice_index numbers.now from ≤ i }
    ensures from { from ≤ result }
    ensures to { result < to }
    ensures here { slice_index numbers.now result ≤ i }
    ensures next { result + 1 < to → i < slice_index numbers.now (result + 1) }
{
    let mut low = from;
    let mut high = to;
    if numbers[high - 1] <= i {
        return high - 1;
    }
    while low + 1 < high {
        let mid = low + (high - low) / 2;
        if numbers[mid] <= i {
            low = mid;
        } else {
            high = mid;
        }
    }
    low
}

/// Adds to each number from a place on that of its group.
fn join_groups(groups: &[usize], own: &mut [usize], from: usize)
    requires from { from ≤ length own.old }
    requires covered { length own.old ≤ 64 * length groups.now }
    requires fits { (k : ℕ) → from ≤ k → k < length own.old → slice_index groups.now (k / 64) + slice_index own.old k ≤ usize.MAX }
    ensures kept { (k : ℕ) → k < from → slice_index own.new k ≡ slice_index own.old k }
    ensures sums { (k : ℕ) → from ≤ k → k < length own.old → slice_index own.new k ≡ slice_index groups.now (k / 64) + slice_index own.old k }
{
    for k in from..own.len() {
        own[k] += groups[k / GROUP];
    }
}

/// Begins a group with a number, where the groups so far are full.
fn begin_group(groups: &mut Vec<usize>, k: usize, number: usize)
    requires covered { k ≤ 64 * vec_len groups.old }
    requires begun { (g : ℕ) → g < vec_len groups.old → 64 * g < k }
    requires room { k < 64 * vec_capacity groups.old }
    ensures covered { k < 64 * vec_len groups.new }
    ensures begun { (g : ℕ) → g < vec_len groups.new → 64 * g ≤ k }
    ensures kept { (g : ℕ) → g < vec_len groups.old → slice_index groups.new.items g ≡ slice_index groups.old.items g }
    ensures new { (g : ℕ) → vec_len groups.old ≤ g → g < vec_len groups.new → slice_index groups.new.items g ≡ number }
    ensures place { (g : ℕ) → vec_len groups.old ≤ g → g < vec_len groups.new → 64 * g ≡ k }
    ensures len { vec_len groups.old ≤ vec_len groups.new }
    ensures capacity { vec_capacity groups.old ≤ vec_capacity groups.new }
{
    if k % GROUP == 0 {
        let _ = groups.push(number);
    }
}

/// Takes from each number, from a group on, the first of its group, which is the group's.
fn part_groups(groups: &mut Vec<usize>, own: &mut [usize], from: usize)
    requires groups { from ≤ vec_len groups.old }
    requires from { 64 * from ≤ length own.old }
    requires room { length own.old ≤ 64 * vec_capacity groups.old }
    requires rise { (j k : ℕ) → 64 * from ≤ j → j ≤ k → k < length own.old → slice_index own.old j ≤ slice_index own.old k }
    ensures covered { length own.old ≤ 64 * vec_len groups.new }
    ensures begun { (g : ℕ) → g < vec_len groups.new → 64 * g < length own.old }
    ensures groups { (g : ℕ) → g < from → slice_index groups.new.items g ≡ slice_index groups.old.items g }
    ensures kept { (k : ℕ) → k < 64 * from → slice_index own.new k ≡ slice_index own.old k }
    ensures first { (g : ℕ) → from ≤ g → g < vec_len groups.new → slice_index groups.new.items g ≡ slice_index own.old (64 * g) }
    ensures sums { (k : ℕ) → 64 * from ≤ k → k < length own.old → slice_index groups.new.items (k / 64) + slice_index own.new k ≡ slice_index own.old k }
{
    groups.truncate(from);
    for k in from * GROUP..own.len() {
        begin_group(groups, k, own[k]);
        own[k] -= groups[k / GROUP];
    }
}

/// The first group that begins at a place or after it.
fn next_group(from: usize) -> usize
    ensures from { from ≤ 64 * result }
    ensures next { 64 * result < from + 64 }
{
    if from % GROUP == 0 {
        from / GROUP
    } else {
        from / GROUP + 1
    }
}

/// Where the groups before one end.
fn group_end(group: usize, groups: usize, len: usize) -> usize
    requires { group < groups → 64 * group < len }
    ensures inside { group < groups → result ≡ 64 * group }
    ensures last { groups ≤ group → result ≡ len }
{
    if group < groups { group * GROUP } else { len }
}

/// Numbers that never fall. To add one to all from a place on costs little.
#[derive(Drop)]
pub(crate) struct Places {
    groups: Vec<usize>,
    own: Vec<usize>,
}

impl Model for Places {
    ghost use Rattle.std.specs.Prelude.{ℕ, ◌-◌, min, vec_len};
    ghost use Rattle.std.specs.Coded.{coded_ℕ};
    ghost use Rattle.std.specs.Vec.{vec_capacity};
    ghost use Rattle.chunk_list.specs.Spaced.{Spaced, spaced_code};
    ghost use Rattle.chunk_list.specs.Groups.{sums_of, AreGrouped};

    ghost Value = { Spaced ℕ };

    ghost coded = { spaced_code coded_ℕ };

    ghost view = { λ a. record {
      items = sums_of 0 a.groups.items a.own.items;
      spare = min (vec_capacity a.groups - vec_len a.groups) (vec_capacity a.own - vec_len a.own);
    } };

    ghost invariant = { λ a. AreGrouped a.groups.items a.own.items };
}

impl Places {
    /// One place, the first.
    pub(crate) fn new(alloc: Global) -> Result<Places, AllocError>
        ensures items { IfOk result (λ places. places.items ≡ 0 ∷ []) }
        ensures room { IfOk result (λ places. 0 < places.spare) }
    {
        let mut groups = Vec::with_capacity(alloc, 4)?;
        let mut own = Vec::with_capacity(alloc, 4)?;
        groups.push(0)?;
        own.push(0)?;
        Ok(Places { groups, own })
    }

    /// The number at a place.
    pub(crate) fn get(&self, k: usize) -> usize
        requires { k < length self.now.items }
        ensures { result ≡ slice_index self.now.items k }
    {
        self.groups[k / GROUP] + self.own[k]
    }

    /// The last place whose number is at most `i`.
    pub(crate) fn last_at_most(&self, i: usize) -> usize
        requires some { 0 < length self.now.items }
        requires first { slice_index self.now.items 0 ≤ i }
        ensures within { result < length self.now.items }
        ensures here { slice_index self.now.items result ≤ i }
        ensures next { result + 1 < length self.now.items → i < slice_index self.now.items (result + 1) }
    {
        let group = last_at_most(self.groups.as_slice(), 0, self.groups.len(), i);
        let from = group * GROUP;
        let left = self.own.len() - from;
        let to = from + left.min(GROUP);
        last_at_most(self.own.as_slice(), from, to, i - self.groups[group])
    }

    /// The last place from one to another whose number is at most `i`, or the first of them where that is
    /// greater.
    pub(crate) fn last_within(&self, from: usize, to: usize, i: usize) -> usize
        requires order { from ≤ to }
        requires within { to < length self.now.items }
        ensures from { from ≤ result }
        ensures to { result ≤ to }
        ensures here { slice_index self.now.items from ≤ i → slice_index self.now.items result ≤ i }
        ensures next { result < to → i < slice_index self.now.items (result + 1) }
    {
        let mut low = from;
        let mut high = to;
        while low < high {
            let mid = high - (high - low) / 2;
            if self.get(mid) <= i {
                low = mid;
            } else {
                high = mid - 1;
            }
        }
        low
    }

    /// Adds one to each number from a place on.
    pub(crate) fn shift(&mut self, from: usize)
        requires from { from ≤ length self.old.items }
        requires fits { (k : ℕ) → from ≤ k → k < length self.old.items → slice_index self.old.items k < usize.MAX }
        ensures len { length self.new.items ≡ length self.old.items }
        ensures kept { (k : ℕ) → k < from → slice_index self.new.items k ≡ slice_index self.old.items k }
        ensures moved { (k : ℕ) → from ≤ k → k < length self.old.items → slice_index self.new.items k ≡ slice_index self.old.items k + 1 }
        ensures spare { self.new.spare ≡ self.old.spare }
    {
        let groups = self.groups.len();
        let group = next_group(from).min(groups);
        let end = group_end(group, groups, self.own.len());
        shift(self.own.as_mut_slice(), from, end);
        shift(self.groups.as_mut_slice(), group, groups);
    }

    /// Makes room for one more.
    pub(crate) fn reserve(&mut self) -> Result<(), AllocError>
        ensures items { self.new.items ≡ self.old.items }
        ensures room { OnOk result (0 < self.new.spare) }
        ensures spare { self.old.spare ≤ self.new.spare }
        ensures free { 0 < self.old.spare → IsOk result }
        ensures err { OnErr result (self.new ≡ self.old) }
    {
        self.groups.reserve(1)?;
        self.own.reserve(1)
    }

    /// Puts a number before the one at a place, where there is room for it. The groups before its own
    /// stay as they are.
    pub(crate) fn insert(&mut self, k: usize, number: usize)
        requires some { 0 < k }
        requires place { k ≤ length self.old.items }
        requires room { 0 < self.old.spare }
        requires rise { (i j : ℕ) → i ≤ j → j < length self.old.items → slice_index self.old.items i ≤ slice_index self.old.items j }
        requires before { slice_index self.old.items (k - 1) ≤ number }
        requires after { (j : ℕ) → k ≤ j → j < length self.old.items → number ≤ slice_index self.old.items j }
        ensures items { self.new.items ≡ insert self.old.items k number }
    {
        let group = k / GROUP;
        join_groups(
            self.groups.as_slice(),
            self.own.as_mut_slice(),
            group * GROUP,
        );
        let _ = self.own.insert(k, number);
        part_groups(&mut self.groups, self.own.as_mut_slice(), group);
    }
}
