//! The list.
ghost use Rattle.std.specs.Prelude.{◌≡◌, ◌+◌, ◌<◌, ◌≤◌, [], length, slice_index_or, OnOk, OnErr, IsOk};
ghost use Rattle.std.specs.List.{insert};
ghost use Rattle.chunk_list.specs.Middle.{IsMiddle};
ghost use Rattle.std.specs.Map.{keys_of};
ghost use Rattle.chunk_list.specs.Besides.{besides_of};

use crate::few::{FEW, Few};
use crate::near::{Near, exact_middle};
use crate::wide::Wide;
use std::alloc::{AllocError, Global};
use std::marker::Model;
use std::mem::replace;

/// How the items lie in memory.
#[derive(Drop)]
enum Form<K: Copy, V> {
    Empty,
    One((K, V)),
    /// At most `FEW`.
    Few(Few<K, V>),
    Wide(Box<Wide<K, V>>),
}

/// A list of items, each a key and what stands beside it, that takes insertions at any place. A contract
/// sees its items, and how many more it takes without memory. One item takes no memory of its own, and up
/// to 8 lie whole in one block, while their last key lies in the list itself too. The keys of a longer list
/// lie side by side, and what stands beside them lies apart. The keys of more than 256 items lie in parts of
/// at most 256, and a part that is full is split in two: each key lies there with the place of what stands
/// beside it, which lies in the order in which it came, so that an insertion moves keys and places alone.
/// There is no room for more than 4 294 967 296 items.
#[derive(Drop)]
pub struct ChunkList<K: Copy, V> {
    form: Form<K, V>,
    alloc: Global,
}

impl<K: Copy, V> Model for ChunkList<K, V> {
    ghost use Rattle.std.specs.Coded.{coded×};
    ghost use Rattle.chunk_list.specs.Spaced.{Spaced, spaced_code};
    ghost use Rattle.chunk_list.specs.Form.{form_view, IsShort};

    ghost Value = { Spaced (K × V) };

    ghost coded = { spaced_code (coded× K.code V.code) };

    ghost view = { λ a. form_view a.form };

    ghost invariant = { λ a. IsShort a.form };
}

ghost use Rattle.chunk_list.specs.Form.{form_view, IsFull, IsShort};

/// Moves the items of a form that takes no more to the next one, which has room for more.
fn widen<K: Copy, V: Drop>(alloc: Global, form: &mut Form<K, V>) -> Result<(), AllocError>
    requires { IsFull form.old }
    ensures items { (form_view form.new).items ≡ (form_view form.old).items }
    ensures room { OnOk result (0 < (form_view form.new).spare) }
    ensures short { IsShort form.new }
    ensures err { OnErr result (form.new ≡ form.old) }
{
    if let Form::One(_) = form {
        let block = Vec::with_capacity(alloc, 2)?;
        if let Form::One(first) = replace(form, Form::Empty) {
            *form = Form::Few(Few::new(block, first));
        }
        return Ok(());
    }
    let mut wide = Box::new(alloc, Wide::new(alloc)?)?;
    if let Form::Few(few) = replace(form, Form::Empty) {
        wide.fill(few.into_items());
        *form = Form::Wide(wide);
    }
    Ok(())
}

impl<K: Copy, V: Drop> ChunkList<K, V> {
    /// No item. The first takes no memory.
    pub fn new(alloc: Global) -> ChunkList<K, V>
        ensures items { result.items ≡ [] }
        ensures spare { result.spare ≡ 1 }
    {
        ChunkList {
            form: Form::Empty,
            alloc,
        }
    }

    pub fn len(&self) -> usize
        ensures { result ≡ length self.now.items }
    {
        match &self.form {
            Form::Empty => 0,
            Form::One(_) => 1,
            Form::Few(few) => few.len(),
            Form::Wide(wide) => wide.len(),
        }
    }

    /// What stands beside the key at a place, which is looked for first where a search stands.
    pub fn beside(&self, i: usize, near: Near) -> &V
        requires { i < length self.now.items }
        ensures { result.now ≡ slice_index_or (besides_of self.now.items) i result.now }
    {
        match &self.form {
            Form::Empty => unreachable!(),
            Form::One(item) => &item.1,
            Form::Few(few) => few.beside(i),
            Form::Wide(wide) => wide.beside(i, near),
        }
    }

    /// The key at a place, which is looked for first where a search stands.
    #[inline(always)]
    pub fn key(&self, i: usize, near: Near) -> K
        requires { i < length self.now.items }
        ensures { result ≡ slice_index_or (keys_of self.now.items) i result }
    {
        match &self.form {
            Form::Empty => unreachable!(),
            Form::One(item) => item.0,
            Form::Few(few) => few.key(i),
            Form::Wide(wide) => wide.key(i, near),
        }
    }

    /// Where a search from one place up to another begins.
    pub fn near(&self, from: usize, to: usize) -> Near {
        match &self.form {
            Form::Wide(wide) => wide.near(from, to),
            _ => Near::default(),
        }
    }

    /// A place from one up to another, so that both sides of it are shorter: the search looks there next.
    pub fn middle(&self, from: usize, to: usize, near: &mut Near) -> usize
        requires { from < to }
        ensures { IsMiddle from to result }
    {
        match &self.form {
            Form::Wide(wide) => wide.middle(from, to, near),
            _ => exact_middle(from, to),
        }
    }

    /// Makes room for one more item.
    pub fn reserve(&mut self) -> Result<(), AllocError>
        ensures items { self.new.items ≡ self.old.items }
        ensures room { OnOk result (0 < self.new.spare) }
        ensures spare { self.old.spare ≤ self.new.spare }
        ensures free { 0 < self.old.spare → IsOk result }
        ensures err { OnErr result (self.new ≡ self.old) }
    {
        let alloc = self.alloc;
        match &mut self.form {
            Form::Empty => Ok(()),
            Form::Few(few) if few.len() < FEW => few.reserve(),
            Form::Wide(wide) => wide.reserve(alloc),
            form => widen(alloc, form),
        }
    }

    /// Puts an item before the one at a place, where there is room for one more.
    pub fn put(&mut self, i: usize, item: (K, V))
        requires place { i ≤ length self.old.items }
        requires room { 0 < self.old.spare }
        ensures items { self.new.items ≡ insert self.old.items i item }
        ensures spare { self.old.spare ≤ self.new.spare + 1 }
    {
        match &mut self.form {
            Form::Few(few) => few.put(i, item),
            Form::Wide(wide) => wide.put(i, item),
            form => *form = Form::One(item),
        }
    }
}
