//! Items in two columns.
ghost use Rattle.std.specs.Prelude.{◌≡◌, ◌+◌, ◌-◌, ◌<◌, ◌≤◌, ◌++◌, [], length, take, drop, slice_index_or, vec_len, IfOk, OnOk, OnErr, IsOk};
ghost use Rattle.std.specs.Vec.{vec_capacity};
ghost use Rattle.std.specs.List.{insert};
ghost use Rattle.std.specs.Map.{keys_of};
ghost use Rattle.chunk_list.specs.Besides.{besides_of};

use std::alloc::{AllocError, Global};
use std::marker::Model;

/// Where there is no room for one more item, moves the items to a block with room for so many in all: a
/// new block, since a block that is to grow in place reads the memory behind it, which is mostly cold.
pub(crate) fn reserve_block<T: Drop>(items: &mut Vec<T>, room: usize) -> Result<(), AllocError>
    requires { vec_len items.old < room }
    ensures items { items.new.items ≡ items.old.items }
    ensures len { vec_len items.new ≡ vec_len items.old }
    ensures room { OnOk result (vec_len items.new < vec_capacity items.new) }
    ensures capacity { vec_capacity items.old ≤ vec_capacity items.new }
    ensures free { vec_len items.old < vec_capacity items.old → IsOk result }
    ensures err { OnErr result (vec_capacity items.new ≡ vec_capacity items.old) }
{
    if items.len() < items.capacity() {
        return Ok(());
    }
    let mut larger = Vec::with_capacity(*items.allocator(), room)?;
    let _ = larger.append(items);
    *items = larger;
    Ok(())
}

/// Appends the items of a slice from a place on, where there is room for them.
fn append_from<T: Copy>(items: &mut Vec<T>, other: &[T], from: usize)
    requires place { from ≤ length other.now }
    requires room { vec_len items.old + (length other.now - from) ≤ vec_capacity items.old }
    ensures items { items.new.items ≡ items.old.items ++ drop from other.now }
    ensures len { vec_len items.new ≡ vec_len items.old + (length other.now - from) }
    ensures capacity { vec_capacity items.old ≤ vec_capacity items.new }
{
    let _ = items.extend_from_slice(&other[from..]);
}

/// Items, each a key and what stands beside it. The keys lie in one block of memory and what stands
/// beside them in another. A contract sees the items, and for how many more both blocks have room.
#[derive(Drop)]
pub(crate) struct Columns<K: Copy, V> {
    keys: Vec<K>,
    besides: Vec<V>,
}

impl<K: Copy, V> Model for Columns<K, V> {
    ghost use Rattle.std.specs.Prelude.{◌≡◌, ◌-◌, min, length};
    ghost use Rattle.std.specs.Coded.{coded×};
    ghost use Rattle.std.specs.List.{zip};
    ghost use Rattle.std.specs.Vec.{vec_len, vec_capacity};
    ghost use Rattle.chunk_list.specs.Spaced.{Spaced, spaced_code};

    ghost Value = { Spaced (K × V) };

    ghost coded = { spaced_code (coded× K.code V.code) };

    ghost view = { λ c. record {
      items = zip c.keys.items c.besides.items;
      spare = min (vec_capacity c.keys - vec_len c.keys) (vec_capacity c.besides - vec_len c.besides);
    } };

    ghost invariant = { λ c. vec_len c.besides ≡ vec_len c.keys };
}

impl<K: Copy, V: Drop> Columns<K, V> {
    /// No item, with room for so many.
    pub(crate) fn new(alloc: Global, room: usize) -> Result<Columns<K, V>, AllocError>
        ensures items { IfOk result (λ columns. columns.items ≡ []) }
        ensures room { IfOk result (λ columns. columns.spare ≡ room) }
    {
        let keys = Vec::with_capacity(alloc, room)?;
        let besides = Vec::with_capacity(alloc, room)?;
        Ok(Columns { keys, besides })
    }

    pub(crate) fn len(&self) -> usize
        ensures { result ≡ length self.now.items }
    {
        self.keys.len()
    }

    /// The key at a place.
    pub(crate) fn key(&self, i: usize) -> K
        requires { i < length self.now.items }
        ensures { result ≡ slice_index_or (keys_of self.now.items) i result }
    {
        self.keys[i]
    }

    /// What stands beside the key at a place.
    pub(crate) fn beside(&self, i: usize) -> &V
        requires { i < length self.now.items }
        ensures { result.now ≡ slice_index_or (besides_of self.now.items) i result.now }
    {
        &self.besides[i]
    }

    /// Makes room for one more item, and for half as many again, but for no more than `most` in all.
    pub(crate) fn reserve(&mut self, most: usize) -> Result<(), AllocError>
        requires { length self.old.items < most }
        ensures items { self.new.items ≡ self.old.items }
        ensures room { OnOk result (0 < self.new.spare) }
        ensures spare { self.old.spare ≤ self.new.spare }
        ensures free { 0 < self.old.spare → IsOk result }
        ensures err { OnErr result (self.new ≡ self.old) }
    {
        let len = self.keys.len();
        let room = (len + len / 2 + 1).min(most);
        reserve_block(&mut self.keys, room)?;
        reserve_block(&mut self.besides, room)
    }

    /// Puts an item before the one at a place, where there is room for it.
    pub(crate) fn put(&mut self, i: usize, item: (K, V))
        requires place { i ≤ length self.old.items }
        requires room { 0 < self.old.spare }
        ensures items { self.new.items ≡ insert self.old.items i item }
        ensures spare { self.old.spare ≤ self.new.spare + 1 }
    {
        let (key, beside) = item;
        let _ = self.keys.insert(i, key);
        let _ = self.besides.insert(i, beside);
    }

    /// Moves what stands beside the keys to the end of a list, which has room for it. No item is left.
    pub(crate) fn give_besides(&mut self, besides: &mut Vec<V>)
        requires { vec_len besides.old + length self.old.items ≤ vec_capacity besides.old }
        ensures besides { besides.new.items ≡ besides.old.items ++ besides_of self.old.items }
        ensures capacity { vec_capacity besides.old ≤ vec_capacity besides.new }
        ensures items { self.new.items ≡ [] }
    {
        self.keys.truncate(0);
        let _ = besides.append(&mut self.besides);
    }
}

impl<K: Copy, V: Copy> Columns<K, V> {
    /// The item at a place.
    pub(crate) fn get(&self, i: usize) -> (K, V)
        requires { i < length self.now.items }
        ensures { result ≡ slice_index_or self.now.items i result }
    {
        (self.keys[i], self.besides[i])
    }

    /// Appends the items of another list from a place on, where there is room for them.
    pub(crate) fn append(&mut self, other: &Columns<K, V>, from: usize)
        requires place { from ≤ length other.now.items }
        requires room { length other.now.items - from ≤ self.old.spare }
        ensures items { self.new.items ≡ self.old.items ++ drop from other.now.items }
        ensures spare { self.old.spare ≤ self.new.spare + (length other.now.items - from) }
    {
        append_from(&mut self.keys, other.keys.as_slice(), from);
        append_from(&mut self.besides, other.besides.as_slice(), from);
    }

    /// Leaves the items before a place alone.
    pub(crate) fn truncate(&mut self, to: usize)
        requires { to ≤ length self.old.items }
        ensures items { self.new.items ≡ take to self.old.items }
        ensures spare { self.old.spare + (length self.old.items - to) ≤ self.new.spare }
    {
        self.keys.truncate(to);
        self.besides.truncate(to);
    }
}
