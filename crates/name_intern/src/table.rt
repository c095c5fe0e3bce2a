//! A table of names.
ghost use Rattle.std.specs.Prelude.{◌≡◌, ◌<◌, ◌≤◌, ◌+◌, ◌↔◌, [], ◌∷◌, ◌++◌, Some, None, length, take, slice_get, OnOk, OnErr, IfOk, IsSome, IsOk, IsErrOf};
ghost use Rattle.std.specs.List.{IsDistinct};
ghost use Rattle.graph_model.specs.Names.{same_name};
ghost use Rattle.name_intern.specs.NameIndex.{place_of};

use graph_model::{Memory, Name};
use indexmap::IndexSet;
use std::alloc::Global;
use std::marker::Model;

/// Distinct names in the order in which they were first seen, at most so many. The place of a name in this order is its number.
///
/// A contract sees the limit, the list of the names, and how many more names fit with no memory.
#[derive(Drop)]
pub struct NameTable {
    limit: u32,
    names: IndexSet<Name>,
}

impl Model for NameTable {
    ghost use Rattle.std.specs.Prelude.{◌≤◌, ◌<◌, ◌^◌};
    ghost use Rattle.indexmap.specs.IndexSet.{index_set_len, spare};
    ghost use Rattle.name_intern.specs.NameIndex.{NameIndex};

    ghost Value = { NameIndex };

    ghost view = { λ t. record { limit = t.limit; names = t.names.keys; spare = spare t.names } };

    ghost invariant = { λ t. (index_set_len t.names ≤ t.limit) × (t.limit < 2 ^ 32) };
}

/// Why a name has no number.
#[derive(Debug, Drop)]
pub enum InternFault {
    /// The name is new, and the table holds as many names as it may.
    Full,
    Memory,
}

impl NameTable {
    /// A table of no name, for at most `limit` names. It takes no memory.
    pub fn new(alloc: Global, limit: u32) -> NameTable
        ensures limit { result.limit ≡ limit }
        ensures names { result.names ≡ [] }
    {
        NameTable {
            limit,
            names: IndexSet::new(alloc),
        }
    }

    /// How many names there are.
    pub fn len(&self) -> u32
        ensures len { result ≡ length self.now.names }
        ensures limit { result ≤ self.now.limit }
        ensures distinct { IsDistinct same_name self.now.names }
    {
        self.names.len() as u32
    }

    /// The number of a name, if it is there.
    pub fn find(&self, name: &Name) -> Option<u32>
        ensures { result ≡ place_of name.now self.now.names }
    {
        match self.names.get_index_of(name) {
            Some(place) => Some(place as u32),
            None => None,
        }
    }

    /// The name of a number.
    pub fn name_of(&self, id: u32) -> &Name
        requires { id < length self.now.names }
        ensures { slice_get self.now.names id ≡ Some result.now }
    {
        &self.names[id as usize]
    }

    /// Makes room for this many more names, so that none of them wants memory when it is interned.
    pub fn reserve(&mut self, additional: u32) -> Result<(), Memory>
        ensures limit { self.new.limit ≡ self.old.limit }
        ensures names { self.new.names ≡ self.old.names }
        ensures spare { self.old.spare ≤ self.new.spare }
        ensures ok { OnOk result (additional ≤ self.new.spare) }
        ensures succeeds { additional ≤ self.old.spare → IsOk result }
    {
        self.names.reserve(additional as usize)
    }

    /// The number of a name, which is added at the end where it is new.
    ///
    /// A name that is there is found without memory. A new one is `Full` exactly where the table holds as many names as it may, and
    /// wants no memory while there is room, as after `reserve`.
    pub fn intern(&mut self, name: Name) -> Result<u32, InternFault>
        ensures limit { self.new.limit ≡ self.old.limit }
        ensures place { IfOk result (λ id. place_of name self.new.names ≡ Some id) }
        ensures known { IsSome (place_of name self.old.names) → IsOk result × (self.new ≡ self.old) }
        ensures new { place_of name self.old.names ≡ None → IfOk result (λ id. (id ≡ length self.old.names) × (self.new.names ≡ self.old.names ++ name ∷ [])) }

        // Each name uses at most one place of the room.
        ensures spare { self.old.spare ≤ self.new.spare + 1 }

        ensures full { IsErrOf result InternFault.Full ↔ ((place_of name self.old.names ≡ None) × (length self.old.names ≡ self.old.limit)) }
        ensures memory { IsErrOf result InternFault.Memory → self.old.spare ≡ 0 }
        ensures err_names { OnErr result (self.new.names ≡ self.old.names) }
        ensures err_spare { OnErr result (self.old.spare ≤ self.new.spare) }
    {
        if let Some(place) = self.names.get_index_of(&name) {
            return Ok(place as u32);
        }
        if self.names.len() >= self.limit as usize {
            return Err(InternFault::Full);
        }
        match self.names.insert_full(name) {
            Ok((place, _)) => Ok(place as u32),
            Err(_) => Err(InternFault::Memory),
        }
    }

    /// Keeps the first `len` names. It takes no memory.
    pub fn cut(&mut self, len: u32)
        requires { len ≤ length self.old.names }
        ensures limit { self.new.limit ≡ self.old.limit }
        ensures names { self.new.names ≡ take len self.old.names }
        ensures spare { self.old.spare ≤ self.new.spare }
    {
        self.names.truncate(len as usize);
    }
}
