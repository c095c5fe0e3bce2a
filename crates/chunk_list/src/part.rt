//! A part of a long list.
ghost use Rattle.std.specs.Prelude.{◌≡◌, ◌<◌, ◌≤◌, [], length, take, drop, slice_index_or, IfOk};
ghost use Rattle.std.specs.List.{insert};
ghost use Rattle.std.specs.Map.{keys_of};

use crate::columns::Columns;
use std::alloc::{AllocError, Global};
use std::marker::Model;

/// How many items a part takes.
pub(crate) const MOST: usize = 256;

/// At most `MOST` items, with room for as many.
#[derive(Drop)]
pub(crate) struct Part<K: Copy, V: Copy> {
    columns: Columns<K, V>,
}

impl<K: Copy, V: Copy> Model for Part<K, V> {
    ghost use Rattle.std.specs.Prelude.{◌≤◌, ◌+◌, List, length};

    ghost Value = { List (K × V) };

    ghost view = { λ p. p.columns.items };

    ghost invariant = { λ p. (length p.columns.items ≤ 256) × (256 ≤ length p.columns.items + p.columns.spare) };
}

impl<K: Copy, V: Copy> Part<K, V> {
    /// A part with no item.
    pub(crate) fn new(alloc: Global) -> Result<Part<K, V>, AllocError>
        ensures { IfOk result (λ part. part ≡ []) }
    {
        let columns = Columns::new(alloc, MOST)?;
        Ok(Part { columns })
    }

    /// A part with these items.
    pub(crate) fn copied(alloc: Global, items: &Columns<K, V>) -> Result<Part<K, V>, AllocError>
        requires { length items.now.items ≤ MOST }
        ensures { IfOk result (λ part. part ≡ items.now.items) }
    {
        let mut columns = Columns::new(alloc, MOST)?;
        columns.append(items, 0);
        Ok(Part { columns })
    }

    pub(crate) fn len(&self) -> usize
        ensures len { result ≡ length self.now }
        ensures most { length self.now ≤ MOST }
    {
        self.columns.len()
    }

    /// The item at a place.
    pub(crate) fn get(&self, i: usize) -> (K, V)
        requires { i < length self.now }
        ensures { result ≡ slice_index_or self.now i result }
    {
        self.columns.get(i)
    }

    /// The key at a place.
    pub(crate) fn key(&self, i: usize) -> K
        requires { i < length self.now }
        ensures { result ≡ slice_index_or (keys_of self.now) i result }
    {
        self.columns.key(i)
    }

    /// Puts an item before the one at a place.
    pub(crate) fn put(&mut self, i: usize, item: (K, V))
        requires place { i ≤ length self.old }
        requires room { length self.old < MOST }
        ensures { self.new ≡ insert self.old i item }
    {
        self.columns.put(i, item);
    }

    /// Moves the items from a place on to an empty part.
    pub(crate) fn split(&mut self, at: usize, upper: &mut Part<K, V>)
        requires place { at ≤ length self.old }
        requires empty { upper.old ≡ [] }
        ensures lower { self.new ≡ take at self.old }
        ensures upper { upper.new ≡ drop at self.old }
    {
        upper.columns.append(&self.columns, at);
        self.columns.truncate(at);
    }
}
