//! A long list, in which what stands beside the keys is never moved.
ghost use Rattle.std.specs.Prelude.{◌≡◌, ◌+◌, ◌<◌, ◌≤◌, length, slice_index_or, IfOk, OnOk, OnErr, IsOk};
ghost use Rattle.std.specs.List.{insert};
ghost use Rattle.chunk_list.specs.Middle.{IsMiddle};
ghost use Rattle.std.specs.Map.{keys_of};
ghost use Rattle.chunk_list.specs.Besides.{besides_of};

use crate::columns::Columns;
use crate::near::Near;
use crate::part::MOST;
use crate::parts::Parts;
use std::alloc::{AllocError, Global};
use std::marker::Model;

/// How many places a `u32` tells apart.
const PLACES: usize = 4_294_967_296;

/// The keys in parts, each with the place of what stands beside it. What stands beside the keys lies in
/// the order in which it came, and is never moved.
#[derive(Drop)]
pub(crate) struct Long<K: Copy, V> {
    parts: Parts<K, u32>,
    besides: Vec<V>,
}

impl<K: Copy, V> Model for Long<K, V> {
    ghost use Rattle.std.specs.Prelude.{◌-◌, min, length};
    ghost use Rattle.std.specs.Vec.{vec_len, vec_capacity};
    ghost use Rattle.std.specs.Coded.{coded×};
    ghost use Rattle.chunk_list.specs.Spaced.{Spaced, spaced_code};
    ghost use Rattle.chunk_list.specs.Long.{looked_up, AreBelow};

    ghost Value = { Spaced (K × V) };

    ghost coded = { spaced_code (coded× K.code V.code) };

    ghost view = { λ a. record {
      items = looked_up a.besides.items a.parts.items;
      spare = min a.parts.spare (min (vec_capacity a.besides) 4294967296 - vec_len a.besides);
    } };

    ghost invariant = { λ a. AreBelow (length a.besides.items) a.parts.items };
}

impl<K: Copy, V: Drop> Long<K, V> {
    /// The items of columns, which have none then.
    pub(crate) fn new(alloc: Global, columns: &mut Columns<K, V>) -> Result<Long<K, V>, AllocError>
        requires { length columns.old.items ≤ MOST }
        ensures items { IfOk result (λ long. long.items ≡ columns.old.items) }
        ensures room { IfOk result (λ long. 0 < long.spare) }
        ensures err { OnErr result (columns.new ≡ columns.old) }
    {
        let mut places = Columns::new(alloc, MOST)?;
        for i in 0..columns.len() {
            places.put(i, (columns.key(i), i as u32));
        }
        let parts = Parts::new(alloc, &places)?;
        let mut besides = Vec::with_capacity(alloc, 2 * MOST)?;
        columns.give_besides(&mut besides);
        Ok(Long { parts, besides })
    }

    pub(crate) fn len(&self) -> usize
        ensures { result ≡ length self.now.items }
    {
        self.parts.len()
    }

    /// What stands beside the key at a place, which is looked for first where a search stands.
    pub(crate) fn beside(&self, i: usize, near: Near) -> &V
        requires { i < length self.now.items }
        ensures { result.now ≡ slice_index_or (besides_of self.now.items) i result.now }
    {
        let (_, place) = self.parts.get(i, near);
        &self.besides[place as usize]
    }

    /// The key at a place, which is looked for first where a search stands.
    #[inline(always)]
    pub(crate) fn key(&self, i: usize, near: Near) -> K
        requires { i < length self.now.items }
        ensures { result ≡ slice_index_or (keys_of self.now.items) i result }
    {
        self.parts.key(i, near)
    }

    /// Where a search from one place up to another begins.
    pub(crate) fn near(&self, from: usize, to: usize) -> Near
        requires { from < to }
    {
        self.parts.near(from, to)
    }

    /// A place in the middle.
    pub(crate) fn middle(&self, from: usize, to: usize, near: &mut Near) -> usize
        requires { from < to }
        ensures { IsMiddle from to result }
    {
        self.parts.middle(from, to, near)
    }

    /// Makes room for one more item.
    pub(crate) fn reserve(&mut self) -> Result<(), AllocError>
        ensures items { self.new.items ≡ self.old.items }
        ensures room { OnOk result (0 < self.new.spare) }
        ensures spare { self.old.spare ≤ self.new.spare }
        ensures free { 0 < self.old.spare → IsOk result }
        ensures err { OnErr result (self.new ≡ self.old) }
    {
        if self.besides.len() >= PLACES {
            return Err(AllocError);
        }
        self.parts.reserve()?;
        self.besides.reserve(1)
    }

    /// Puts an item before the one at a place, where there is room for one more.
    pub(crate) fn put(&mut self, i: usize, item: (K, V))
        requires place { i ≤ length self.old.items }
        requires room { 0 < self.old.spare }
        ensures items { self.new.items ≡ insert self.old.items i item }
        ensures spare { self.old.spare ≤ self.new.spare + 1 }
    {
        let (key, beside) = item;
        let place = self.besides.len() as u32;
        let _ = self.besides.push(beside);
        self.parts.put(i, (key, place));
    }
}
