//! The keys of properties, numbered, each with the type that it keeps.
ghost use Rattle.std.specs.Prelude.{◌≡◌, ℕ, ◌+◌, ◌^◌, ◌<◌, ◌≤◌, [], ◌∷◌, ◌++◌, Some, map, length, take, slice_get, position, OnOk, OnErr, IfOk, OnSome, IfSome, IfNone, is_some, true, false};
ghost use Rattle.std.specs.List.{IsDistinct};
ghost use Rattle.graph_model.specs.Names.{same_name};
ghost use Rattle.graph_model.specs.ValueKind.{same_value_type, value_type};
ghost use Rattle.graph_store.specs.Keys.{type_in, clashes, IsClash, with_key, with_keys, key_name, prop_at, AreNumbered};

use crate::numbered::{Numbered, key_values, put};
use graph_model::{Memory, Name, Props, Value, ValueType};
use indexmap::IndexMap;
use property_values::type_of;
use smallvec::SmallVec;
use std::alloc::Global;
use std::marker::Model;
use time_history::KeyValues;

/// Distinct keys in the order in which they were first seen, each with the type of its values. The
/// place of a key in this order is its number.
#[derive(Drop)]
pub struct KeyTable {
    types: IndexMap<Name, ValueType>,
}

impl Model for KeyTable {
    ghost use Rattle.std.specs.Prelude.{ℕ, List};
    ghost use Rattle.graph_model.specs.declared.properties.ValueType.{ValueType};

    ghost Value = { List (List ℕ × ValueType) };

    ghost view = { λ t. t.types.entries };
}

fn same_type(a: ValueType, b: ValueType) -> bool
    ensures { result ≡ same_value_type a b }
{
    match (a, b) {
        (ValueType::Int, ValueType::Int) => true,
        (ValueType::Flag, ValueType::Flag) => true,
        (ValueType::Text, ValueType::Text) => true,
        _ => false,
    }
}

impl KeyTable {
    /// No key. It takes no memory.
    pub fn new(alloc: Global) -> KeyTable
        ensures { result ≡ [] }
    {
        KeyTable {
            types: IndexMap::new(alloc),
        }
    }

    /// How many keys there are.
    pub fn len(&self) -> u32
        requires { length self.now < 2 ^ 32 }
        ensures len { result ≡ length self.now }
        ensures distinct { IsDistinct same_name (map (λ p. p.0) self.now) }
    {
        self.types.len() as u32
    }

    /// How many keys there are, however many.
    pub fn count(&self) -> usize
        ensures { result ≡ length self.now }
    {
        self.types.len()
    }

    /// The name of a key's number.
    pub fn name_of(&self, key: u32) -> &Name
        requires { key < length self.now }
        ensures { slice_get (map (λ p. p.0) self.now) key ≡ Some result.now }
    {
        self.types.get_index(key as usize).unwrap().0
    }

    /// The type that a key keeps.
    pub fn type_of(&self, key: &Name) -> Option<ValueType>
        ensures { result ≡ type_in self.now key.now }
    {
        self.types.get(key).copied()
    }

    /// The number of a key.
    pub fn find(&self, key: &Name) -> Option<usize>
        ensures { result ≡ position (same_name key.now) (map (λ p. p.0) self.now) }
    {
        self.types.get_index_of(key)
    }

    /// The type that a key keeps and the type of a value, where they differ.
    fn clash_of(&self, key: &Name, value: &Value) -> Option<(ValueType, ValueType)>
        ensures none { IfNone result (clashes self.now (key.now, value.now) ≡ false) }
        ensures some { OnSome result (clashes self.now (key.now, value.now) ≡ true) }
        ensures kept { IfSome result (λ r. type_in self.now key.now ≡ Some r.0) }
        ensures given { IfSome result (λ r. value_type value.now ≡ r.1) }
    {
        let kept = self.type_of(key)?;
        let given = type_of(value);
        if same_type(kept, given) {
            None
        } else {
            Some((kept, given))
        }
    }

    /// The types of the first property whose key keeps another type than its value has: the type
    /// that is kept, and the one that is given.
    pub fn clash(&self, props: &Props) -> Option<(ValueType, ValueType)>
        ensures { IsClash self.now props.now result }
    {
        for i in 0..props.len() {
            let clash = self.clash_of(props.key_at(i), props.value_at(i));
            if clash.is_some() {
                return clash;
            }
        }
        None
    }

    /// Whether a key is there.
    pub fn has(&self, key: &Name) -> bool
        ensures { result ≡ is_some (type_in self.now key.now) }
    {
        self.type_of(key).is_some()
    }

    /// How many keys of properties are new.
    pub fn count_new(&self, props: &Props) -> usize
        ensures count { length self.now + result ≡ length (with_keys self.now props.now) }
        ensures few { result ≤ length props.now }
    {
        let mut count = 0;
        for i in 0..props.len() {
            if !self.has(props.key_at(i)) {
                count += 1;
            }
        }
        count
    }

    /// How many keys there would be with those of properties.
    pub fn count_with(&self, props: &Props) -> usize
        requires { length self.now < 2 ^ 32 }
        ensures { result ≡ length (with_keys self.now props.now) }
    {
        let _most = props.len();
        self.types.len() + self.count_new(props)
    }

    /// Adds a key with the type of a value at the end, unless it is there.
    fn add_key(&mut self, key: &Name, value: &Value) -> Result<(), Memory>
        ensures ok { OnOk result (self.new ≡ with_key self.old (key.now, value.now)) }
        ensures err { OnErr result (self.new ≡ self.old) }
    {
        if self.has(key) {
            return Ok(());
        }
        let key = key.copy()?;
        self.types.insert(key, type_of(value))?;
        Ok(())
    }

    /// Adds the keys of properties that are new at the end.
    pub fn add(&mut self, props: &Props) -> Result<(), Memory>
        ensures ok { OnOk result (self.new ≡ with_keys self.old props.now) }
        ensures err { OnErr result (self.new ≡ self.old) }
    {
        let known = self.types.len();
        for i in 0..props.len() {
            if let Err(memory) = self.add_key(props.key_at(i), props.value_at(i)) {
                self.types.truncate(known);
                return Err(memory);
            }
        }
        Ok(())
    }

    /// The number of a key that is there.
    fn number_of(&self, key: &Name) -> u32
        requires few { length self.now < 2 ^ 32 }
        requires known { is_some (type_in self.now key.now) ≡ true }
        ensures within { result < length self.now }
        ensures name { key_name self.now result ≡ key.now }
    {
        self.types.get_index_of(key).unwrap() as u32
    }

    /// The values of properties, by the numbers of their keys, which are all there.
    pub fn number(&self, alloc: Global, props: &Props) -> Result<KeyValues, Memory>
        requires few { length self.now < 2 ^ 32 }
        requires known { (i : ℕ) → i < length props.now
            → is_some (type_in self.now (prop_at props.now i).0) ≡ true }
        ensures { IfOk result (AreNumbered self.now props.now) }
    {
        let mut numbered = SmallVec::new(alloc);
        for i in 0..props.len() {
            let key = self.number_of(props.key_at(i));
            let value = props.value_at(i).copy()?;
            put(&mut numbered, Numbered { key, value })?;
        }
        key_values(alloc, numbered)
    }

    /// Keeps the first `len` keys. It takes no memory.
    pub fn cut(&mut self, len: usize)
        requires { len ≤ length self.old }
        ensures { self.new ≡ take len self.old }
    {
        self.types.truncate(len);
    }
}
