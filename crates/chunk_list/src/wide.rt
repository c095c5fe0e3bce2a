//! A list of more than a few items.
ghost use Rattle.std.specs.Prelude.{◌≡◌, ◌+◌, ◌<◌, ◌≤◌, ◌++◌, [], length, slice_index_or, IfOk, OnOk, OnErr, IsOk};
ghost use Rattle.std.specs.List.{insert};
ghost use Rattle.std.specs.Map.{keys_of};
ghost use Rattle.chunk_list.specs.Besides.{besides_of};
ghost use Rattle.chunk_list.specs.Middle.{IsMiddle};

use crate::columns::Columns;
use crate::few::FEW;
use crate::long::Long;
use crate::near::{Near, exact_middle};
use crate::part::MOST;
use std::alloc::{AllocError, Global};
use std::marker::Model;

/// How the items lie in memory.
#[derive(Drop)]
enum Rows<K: Copy, V> {
    /// At most as many as a part takes, the keys in one block and what stands beside them in another.
    Flat(Columns<K, V>),
    /// The keys in parts, and what stands beside them in the order in which it came.
    Long(Long<K, V>),
}

/// Items, each a key and what stands beside it, whose keys lie side by side. A contract sees the items,
/// and for how many more there is room.
#[derive(Drop)]
pub(crate) struct Wide<K: Copy, V> {
    rows: Rows<K, V>,
}

impl<K: Copy, V> Model for Wide<K, V> {
    ghost use Rattle.std.specs.Coded.{coded×};
    ghost use Rattle.chunk_list.specs.Spaced.{Spaced, spaced_code};
    ghost use Rattle.chunk_list.specs.Wide.{rows_view, IsFlat};

    ghost Value = { Spaced (K × V) };

    ghost coded = { spaced_code (coded× K.code V.code) };

    ghost view = { λ w. rows_view w.rows };

    ghost invariant = { λ w. IsFlat w.rows };
}

impl<K: Copy, V: Drop> Wide<K, V> {
    /// No item, with room for those of a block of few and half as many again.
    pub(crate) fn new(alloc: Global) -> Result<Wide<K, V>, AllocError>
        ensures items { IfOk result (λ wide. wide.items ≡ []) }
        ensures room { IfOk result (λ wide. FEW < wide.spare) }
    {
        let columns = Columns::new(alloc, FEW + FEW / 2)?;
        Ok(Wide {
            rows: Rows::Flat(columns),
        })
    }

    pub(crate) fn len(&self) -> usize
        ensures { result ≡ length self.now.items }
    {
        match &self.rows {
            Rows::Flat(columns) => columns.len(),
            Rows::Long(long) => long.len(),
        }
    }

    /// What stands beside the key at a place, which is looked for first where a search stands.
    pub(crate) fn beside(&self, i: usize, near: Near) -> &V
        requires { i < length self.now.items }
        ensures { result.now ≡ slice_index_or (besides_of self.now.items) i result.now }
    {
        match &self.rows {
            Rows::Flat(columns) => columns.beside(i),
            Rows::Long(long) => long.beside(i, near),
        }
    }

    /// The key at a place, which is looked for first where a search stands.
    #[inline(always)]
    pub(crate) fn key(&self, i: usize, near: Near) -> K
        requires { i < length self.now.items }
        ensures { result ≡ slice_index_or (keys_of self.now.items) i result }
    {
        match &self.rows {
            Rows::Flat(columns) => columns.key(i),
            Rows::Long(long) => long.key(i, near),
        }
    }

    /// Where a search from one place up to another begins.
    pub(crate) fn near(&self, from: usize, to: usize) -> Near {
        match &self.rows {
            Rows::Long(long) if from < to => long.near(from, to),
            _ => Near::default(),
        }
    }

    /// A place from one up to another, so that both sides of it are shorter.
    pub(crate) fn middle(&self, from: usize, to: usize, near: &mut Near) -> usize
        requires { from < to }
        ensures { IsMiddle from to result }
    {
        match &self.rows {
            Rows::Flat(_) => exact_middle(from, to),
            Rows::Long(long) => long.middle(from, to, near),
        }
    }

    /// Makes room for one more item.
    pub(crate) fn reserve(&mut self, alloc: Global) -> Result<(), AllocError>
        ensures items { self.new.items ≡ self.old.items }
        ensures room { OnOk result (0 < self.new.spare) }
        ensures spare { self.old.spare ≤ self.new.spare }
        ensures free { 0 < self.old.spare → IsOk result }
        ensures err { OnErr result (self.new ≡ self.old) }
    {
        match &mut self.rows {
            Rows::Long(long) => long.reserve(),
            Rows::Flat(columns) if columns.len() < MOST => columns.reserve(MOST),
            Rows::Flat(columns) => {
                let long = Long::new(alloc, columns)?;
                self.rows = Rows::Long(long);
                Ok(())
            }
        }
    }

    /// Puts an item before the one at a place, where there is room for one more.
    pub(crate) fn put(&mut self, i: usize, item: (K, V))
        requires place { i ≤ length self.old.items }
        requires room { 0 < self.old.spare }
        ensures items { self.new.items ≡ insert self.old.items i item }
        ensures spare { self.old.spare ≤ self.new.spare + 1 }
    {
        match &mut self.rows {
            Rows::Flat(columns) => columns.put(i, item),
            Rows::Long(long) => long.put(i, item),
        }
    }

    /// Adds items at the end, where there is room for them and for one more.
    pub(crate) fn fill(&mut self, items: Vec<(K, V)>)
        requires { length items.items < self.old.spare }
        ensures items { self.new.items ≡ self.old.items ++ items.items }
        ensures room { 0 < self.new.spare }
    {
        for item in items {
            self.put(self.len(), item);
        }
    }
}
