//! A few items in one block.
ghost use Rattle.std.specs.Prelude.{◌≡◌, ◌+◌, ◌<◌, ◌≤◌, [], ◌∷◌, length, slice_index_or, OnOk, OnErr, IsOk};
ghost use Rattle.std.specs.Vec.{vec_capacity};
ghost use Rattle.std.specs.List.{insert};
ghost use Rattle.std.specs.Map.{keys_of};
ghost use Rattle.chunk_list.specs.Besides.{besides_of};

use crate::columns::reserve_block;
use std::alloc::AllocError;
use std::marker::Model;

/// How many items lie whole in one block, at most.
pub(crate) const FEW: usize = 8;

/// At least one item, each a key and what stands beside it, whole in one block of memory. The last key lies
/// here too, so that it is read without the block. A contract sees the items, and for how many more the
/// block has room.
#[derive(Drop)]
pub(crate) struct Few<K: Copy, V> {
    items: Vec<(K, V)>,
    last: K,
}

impl<K: Copy, V> Model for Few<K, V> {
    ghost use Rattle.std.specs.Prelude.{◌-◌};
    ghost use Rattle.std.specs.Coded.{coded×};
    ghost use Rattle.std.specs.Vec.{vec_len, vec_capacity};
    ghost use Rattle.chunk_list.specs.Spaced.{Spaced, spaced_code};
    ghost use Rattle.chunk_list.specs.Few.{IsLastKey};

    ghost Value = { Spaced (K × V) };

    ghost coded = { spaced_code (coded× K.code V.code) };

    ghost view = { λ f. record { items = f.items.items; spare = vec_capacity f.items - vec_len f.items } };

    ghost invariant = { λ f. IsLastKey f.items.items f.last };
}

impl<K: Copy, V: Drop> Few<K, V> {
    /// One item, in an empty block that has room for another.
    pub(crate) fn new(mut block: Vec<(K, V)>, first: (K, V)) -> Few<K, V>
        requires empty { block.items ≡ [] }
        requires room { 1 < vec_capacity block }
        ensures items { result.items ≡ first ∷ [] }
        ensures room { 0 < result.spare }
    {
        let last = first.0;
        block.push_reserved(first);
        Few { items: block, last }
    }

    pub(crate) fn len(&self) -> usize
        ensures { result ≡ length self.now.items }
    {
        self.items.len()
    }

    /// The items.
    pub(crate) fn into_items(self) -> Vec<(K, V)>
        ensures { result.items ≡ self.items }
    {
        self.items
    }

    /// What stands beside the key at a place.
    pub(crate) fn beside(&self, i: usize) -> &V
        requires { i < length self.now.items }
        ensures { result.now ≡ slice_index_or (besides_of self.now.items) i result.now }
    {
        &self.items[i].1
    }

    /// The key at a place.
    #[inline(always)]
    pub(crate) fn key(&self, i: usize) -> K
        requires { i < length self.now.items }
        ensures { result ≡ slice_index_or (keys_of self.now.items) i result }
    {
        let len = self.items.len();
        if i + 1 == len {
            return self.last;
        }
        self.items[i].0
    }

    /// Makes room for one more item, and for as many again as there are, but for no more than `FEW` in all.
    pub(crate) fn reserve(&mut self) -> Result<(), AllocError>
        requires { length self.old.items < FEW }
        ensures items { self.new.items ≡ self.old.items }
        ensures room { OnOk result (0 < self.new.spare) }
        ensures spare { self.old.spare ≤ self.new.spare }
        ensures free { 0 < self.old.spare → IsOk result }
        ensures err { OnErr result (self.new ≡ self.old) }
    {
        let room = (2 * self.items.len()).min(FEW);
        reserve_block(&mut self.items, room)
    }

    /// Puts an item before the one at a place, where there is room for it.
    pub(crate) fn put(&mut self, i: usize, item: (K, V))
        requires place { i ≤ length self.old.items }
        requires room { 0 < self.old.spare }
        ensures items { self.new.items ≡ insert self.old.items i item }
        ensures spare { self.old.spare ≤ self.new.spare + 1 }
    {
        if i < self.items.len() {
            let _ = self.items.insert(i, item);
            return;
        }
        self.last = item.0;
        self.items.push_reserved(item);
    }
}
