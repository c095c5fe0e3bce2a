//! A long list, in parts.
ghost use Rattle.std.specs.Prelude.{◌≡◌, ℕ, ◌+◌, ◌<◌, ◌≤◌, [], length, take, drop, vec_len, slice_index, slice_index_or, OnOk, OnErr, IsOk, IfOk};
ghost use Rattle.std.specs.List.{insert};
ghost use Rattle.std.specs.Vec.{vec_capacity};
ghost use Rattle.chunk_list.specs.Parts.{joined, part_at, starts};
ghost use Rattle.chunk_list.specs.Middle.{IsMiddle};
ghost use Rattle.std.specs.Map.{keys_of};

use crate::columns::Columns;
use crate::near::{Near, exact_middle, is_middle};
use crate::part::{MOST, Part};
use crate::places::Places;
use std::alloc::{AllocError, Global};
use std::marker::Model;

/// The part of a place, which may be the one at hand.
#[inline(always)]
fn part_of<K: Copy, V: Copy>(firsts: &Places, parts: &[Part<K, V>], i: usize, hand: usize) -> usize
    requires firsts { firsts.now.items ≡ starts 0 parts.now }
    requires some { 0 < length parts.now }
    requires place { i < length (joined parts.now) }
    ensures within { result < length parts.now }
    ensures low { slice_index firsts.now.items result ≤ i }
    ensures high { i < slice_index firsts.now.items result + length (part_at parts.now result) }
{
    if hand < parts.len() {
        let first = firsts.get(hand);
        if first <= i && i - first < parts[hand].len() {
            return hand;
        }
    }
    firsts.last_at_most(i)
}

/// Puts an item in a part that is not full.
fn put_in<K: Copy, V: Copy>(
    firsts: &mut Places,
    parts: &mut Vec<Part<K, V>>,
    at: usize,
    i: usize,
    item: (K, V),
)
    requires firsts { firsts.old.items ≡ starts 0 parts.old.items }
    requires part { at < vec_len parts.old }
    requires low { slice_index firsts.old.items at ≤ i }
    requires high { i ≤ slice_index firsts.old.items at + length (part_at parts.old.items at) }
    requires room { length (part_at parts.old.items at) < MOST }
    requires fits { length (joined parts.old.items) < usize.MAX }
    ensures firsts { firsts.new.items ≡ starts 0 parts.new.items }
    ensures items { joined parts.new.items ≡ insert (joined parts.old.items) i item }
    ensures len { vec_len parts.new ≡ vec_len parts.old }
    ensures firsts_spare { firsts.new.spare ≡ firsts.old.spare }
    ensures parts_capacity { vec_capacity parts.new ≡ vec_capacity parts.old }
{
    let offset = i - firsts.get(at);
    let part = &mut parts[at];
    part.put(offset, item);
    firsts.shift(at + 1);
}

/// Splits a part, whose upper items go to a fresh one.
fn split<K: Copy, V: Copy>(
    firsts: &mut Places,
    parts: &mut Vec<Part<K, V>>,
    mut fresh: Part<K, V>,
    at: usize,
    cut: usize,
)
    requires firsts { firsts.old.items ≡ starts 0 parts.old.items }
    requires part { at < vec_len parts.old }
    requires cut { cut ≤ length (part_at parts.old.items at) }
    requires fresh { fresh ≡ [] }
    requires firsts_room { 0 < firsts.old.spare }
    requires parts_room { vec_len parts.old < vec_capacity parts.old }
    requires fits { length (joined parts.old.items) < usize.MAX }
    ensures firsts { firsts.new.items ≡ starts 0 parts.new.items }
    ensures items { joined parts.new.items ≡ joined parts.old.items }
    ensures len { vec_len parts.new ≡ vec_len parts.old + 1 }
    ensures lower { part_at parts.new.items at ≡ take cut (part_at parts.old.items at) }
    ensures upper { part_at parts.new.items (at + 1) ≡ drop cut (part_at parts.old.items at) }
    ensures first { slice_index firsts.new.items at ≡ slice_index firsts.old.items at }
    ensures next { slice_index firsts.new.items (at + 1) ≡ slice_index firsts.old.items at + cut }
{
    let first = firsts.get(at);
    let part = &mut parts[at];
    part.split(cut, &mut fresh);
    let _ = parts.insert(at + 1, fresh);
    firsts.insert(at + 1, first + cut);
}

/// Puts an item in a part that is full, by splitting it in the middle. What comes before the first item of
/// all goes to a part of its own, as does what comes after the last item of the part, so that a list that
/// grows at its front or at its end has full parts.
fn put_in_full<K: Copy, V: Copy>(
    firsts: &mut Places,
    parts: &mut Vec<Part<K, V>>,
    fresh: Part<K, V>,
    at: usize,
    i: usize,
    item: (K, V),
)
    requires firsts { firsts.old.items ≡ starts 0 parts.old.items }
    requires part { at < vec_len parts.old }
    requires low { slice_index firsts.old.items at ≤ i }
    requires high { i ≤ slice_index firsts.old.items at + length (part_at parts.old.items at) }
    requires full { length (part_at parts.old.items at) ≡ MOST }
    requires fresh { fresh ≡ [] }
    requires firsts_room { 0 < firsts.old.spare }
    requires parts_room { vec_len parts.old < vec_capacity parts.old }
    requires fits { length (joined parts.old.items) < usize.MAX }
    ensures firsts { firsts.new.items ≡ starts 0 parts.new.items }
    ensures items { joined parts.new.items ≡ insert (joined parts.old.items) i item }
    ensures len { vec_len parts.old ≤ vec_len parts.new }
{
    if i == 0 {
        split(firsts, parts, fresh, at, 0);
        put_in(firsts, parts, at, i, item);
        return;
    }
    let offset = i - firsts.get(at);
    if offset == MOST {
        split(firsts, parts, fresh, at, MOST);
        put_in(firsts, parts, at + 1, i, item);
        return;
    }
    split(firsts, parts, fresh, at, MOST / 2);
    if offset < MOST / 2 {
        put_in(firsts, parts, at, i, item);
    } else {
        put_in(firsts, parts, at + 1, i, item);
    }
}

/// The items in parts, the first place of each part, and a part at hand for the next that is split.
#[derive(Drop)]
pub(crate) struct Parts<K: Copy, V: Copy> {
    firsts: Places,
    parts: Vec<Part<K, V>>,
    len: usize,
    fresh: Option<Part<K, V>>,
    alloc: Global,
}

impl<K: Copy, V: Copy> Model for Parts<K, V> {
    ghost use Rattle.std.specs.Prelude.{◌-◌, min, vec_len};
    ghost use Rattle.std.specs.Vec.{vec_capacity};
    ghost use Rattle.std.specs.Coded.{coded×};
    ghost use Rattle.chunk_list.specs.Spaced.{Spaced, spaced_code};
    ghost use Rattle.chunk_list.specs.Parts.{joined, IsSound, at_hand};

    ghost Value = { Spaced (K × V) };

    ghost coded = { spaced_code (coded× K.code V.code) };

    ghost view = { λ a. record {
      items = joined a.parts.items;
      spare = min (at_hand a.fresh) (min (18446744073709551615 - a.len) (min a.firsts.spare (vec_capacity a.parts - vec_len a.parts)));
    } };

    ghost invariant = { λ a. IsSound a.firsts.items a.parts.items a.len a.fresh };
}

impl<K: Copy, V: Copy> Parts<K, V> {
    /// One part.
    pub(crate) fn new(alloc: Global, items: &Columns<K, V>) -> Result<Parts<K, V>, AllocError>
        requires { length items.now.items ≤ MOST }
        ensures items { IfOk result (λ parts. parts.items ≡ items.now.items) }
        ensures room { IfOk result (λ parts. 0 < parts.spare) }
    {
        let firsts = Places::new(alloc)?;
        let mut parts = Vec::with_capacity(alloc, 4)?;
        let fresh = Some(Part::new(alloc)?);
        let len = items.len();
        parts.push(Part::copied(alloc, items)?)?;
        Ok(Parts {
            firsts,
            parts,
            len,
            fresh,
            alloc,
        })
    }

    pub(crate) fn len(&self) -> usize
        ensures { result ≡ length self.now.items }
    {
        self.len
    }

    /// The item at a place, which is looked for first where a search stands.
    pub(crate) fn get(&self, i: usize, near: Near) -> (K, V)
        requires { i < length self.now.items }
        ensures { result ≡ slice_index_or self.now.items i result }
    {
        let at = part_of(&self.firsts, self.parts.as_slice(), i, near.part());
        self.parts[at].get(i - self.firsts.get(at))
    }

    /// The key at a place, which is looked for first where a search stands.
    #[inline(always)]
    pub(crate) fn key(&self, i: usize, near: Near) -> K
        requires { i < length self.now.items }
        ensures { result ≡ slice_index_or (keys_of self.now.items) i result }
    {
        let at = part_of(&self.firsts, self.parts.as_slice(), i, near.part());
        self.parts[at].key(i - self.firsts.get(at))
    }

    /// Where a search from one place up to another begins.
    pub(crate) fn near(&self, from: usize, to: usize) -> Near
        requires { from < to }
    {
        let low = self.firsts.last_at_most(from);
        Near::new(low, self.firsts.last_at_most(to - 1))
    }

    /// A place in the middle. Where the first place of a part will do, no part need be looked for.
    pub(crate) fn middle(&self, from: usize, to: usize, near: &mut Near) -> usize
        requires { from < to }
        ensures { IsMiddle from to result }
    {
        let (low, high) = near.parts();
        let last = high.min(self.parts.len() - 1);
        if low >= last {
            near.look(last, false);
            return exact_middle(from, to);
        }
        let at = low + (last - low + 1) / 2;
        let place = self.firsts.get(at);
        if is_middle(from, place, to) {
            near.look(at, true);
            return place;
        }
        let place = exact_middle(from, to);
        near.look(self.firsts.last_within(low, last, place), false);
        place
    }

    /// Makes room for one more item.
    pub(crate) fn reserve(&mut self) -> Result<(), AllocError>
        ensures items { self.new.items ≡ self.old.items }
        ensures room { OnOk result (0 < self.new.spare) }
        ensures spare { self.old.spare ≤ self.new.spare }
        ensures free { 0 < self.old.spare → IsOk result }
        ensures err { OnErr result (self.new ≡ self.old) }
    {
        if self.len == usize::MAX {
            return Err(AllocError);
        }
        self.firsts.reserve()?;
        self.parts.reserve(1)?;
        if self.fresh.is_none() {
            self.fresh = Some(Part::new(self.alloc)?);
        }
        Ok(())
    }

    /// Puts an item before the one at a place, where there is room for one more.
    pub(crate) fn put(&mut self, i: usize, item: (K, V))
        requires place { i ≤ length self.old.items }
        requires room { 0 < self.old.spare }
        ensures items { self.new.items ≡ insert self.old.items i item }
        ensures spare { self.old.spare ≤ self.new.spare + 1 }
    {
        let at = self.firsts.last_at_most(i);
        if self.parts[at].len() < MOST {
            self.len += 1;
            put_in(&mut self.firsts, &mut self.parts, at, i, item);
            return;
        }
        if let Some(fresh) = self.fresh.take() {
            self.len += 1;
            put_in_full(&mut self.firsts, &mut self.parts, fresh, at, i, item);
        }
    }
}
