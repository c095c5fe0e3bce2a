//! Values and properties.
ghost use Rattle.std.specs.Prelude.{◌≡◌, ℕ, ◌<◌, ◌≤◌, ◌↔◌, List, [], ◌∷◌, length, map, true, false, IsTrue, IsFalse, Some, IfOk, OnOk, OnErr, IsErrOf, slice_get};
ghost use Rattle.std.specs.Prelude.{not};
ghost use Rattle.std.specs.List.{position_or_len, list_any};
ghost use Rattle.std.specs.Ordering.{is_lt};
ghost use Rattle.graph_model.specs.Names.{name_cmp, same_name};
ghost use Rattle.graph_model.specs.Props.{put_prop};
ghost use Rattle.graph_model.specs.Pairs.{pairs};

use crate::limits::MOST_PROPERTIES;
use crate::names::{Name, Text};
use std::alloc::{AllocError, Global};

/// The value of a property.
#[derive(Drop)]
pub enum Value {
    /// A whole number of 64 signed bits.
    Int(i64),
    /// True or false.
    Flag(bool),
    /// A text.
    Text(Text),
}

impl Value {
    /// An equal value.
    pub fn copy(&self) -> Result<Value, AllocError>
        ensures { IfOk result (λ value. value ≡ self.now) }
    {
        match self {
            Value::Int(n) => Ok(Value::Int(*n)),
            Value::Flag(b) => Ok(Value::Flag(*b)),
            Value::Text(t) => Ok(Value::Text(t.copy()?)),
        }
    }
}

/// The type of a value.
#[derive(Clone, Copy, PartialEq, Eq, Drop)]
pub enum ValueType {
    Int,
    Flag,
    Text,
}

#[derive(Drop)]
struct Prop {
    key: Name,
    value: Value,
}

/// The properties of one event: at most 256. A contract sees the pairs of key and value, rising by
/// key.
#[derive(Drop)]
pub struct Props {
    items: Vec<Prop>,
}

impl std::marker::Model for Props {
    ghost use Rattle.std.specs.Prelude.{ℕ, List, ◌≤◌, ◌<◌, length, map};
    ghost use Rattle.std.specs.Vec.{vec_len};
    ghost use Rattle.graph_model.specs.declared.properties.Value.{Value as GraphValue};
    ghost use Rattle.graph_model.specs.Limits.{most_properties};
    ghost use Rattle.graph_model.specs.Props.{KeysRise};

    ghost Value = { List (List ℕ × GraphValue) };

    ghost view = { λ a. map (λ p. (p.key, p.value)) a.items.items };

    ghost invariant = { λ a. (vec_len a.items ≤ most_properties)
        × KeysRise (map (λ p. (p.key, p.value)) a.items.items) };
}

impl Props {
    ghost use Rattle.std.specs.Prelude.{◌≡◌, ◌≤◌, ◌<◌, ◌↔◌, List, [], length, map, IsTrue, IsFalse, Some, IfOk, IfErr, OnOk, OnErr, slice_get};
    ghost use Rattle.graph_model.specs.Props.{put_prop, has_key, KeysRise};
    ghost use Rattle.graph_model.specs.PutFault.{IsPutFault};
    ghost use Rattle.graph_model.specs.Limits.{most_properties};

    /// No property. It takes no memory.
    pub fn new(alloc: Global) -> Props
        ensures { result ≡ [] }
    {
        Props {
            items: Vec::new(alloc),
        }
    }

    /// How many properties there are: at most 256.
    pub fn len(&self) -> usize
        ensures len { result ≡ length self.now }
        ensures most { length self.now ≤ most_properties }
        ensures rise { KeysRise self.now }
    {
        self.items.len()
    }

    /// The key at a place, counted from 0.
    pub fn key_at(&self, i: usize) -> &Name
        requires { i < length self.now }
        ensures { slice_get (map (λ p. p.0) self.now) i ≡ Some result.now }
    {
        &self.items[i].key
    }

    /// The value at a place, counted from 0.
    pub fn value_at(&self, i: usize) -> &Value
        requires { i < length self.now }
        ensures { slice_get (map (λ p. p.1) self.now) i ≡ Some result.now }
    {
        &self.items[i].value
    }

    /// Whether there is a property of this key.
    pub fn has(&self, key: &Name) -> bool
        ensures { result ≡ has_key key.now self.now }
    {
        has_item(self.items.as_slice(), key)
    }

    /// Puts a property in its place. After a fault the properties are as they were.
    pub fn insert(&mut self, key: Name, value: Value) -> Result<(), PropsFault>
        ensures ok { OnOk result (self.new ≡ put_prop (key, value) self.old) }
        ensures free { OnOk result (IsFalse (has_key key self.old)) }
        ensures room { OnOk result (length self.old < most_properties) }
        ensures cause { IfErr result (IsPutFault key self.old) }
        ensures err { OnErr result (self.new ≡ self.old) }
    {
        if self.has(&key) {
            return Err(PropsFault::Repeated);
        }
        if self.items.len() == MOST_PROPERTIES {
            return Err(PropsFault::Full);
        }
        put_item(&mut self.items, Prop { key, value })?;
        Ok(())
    }

    /// Equal properties.
    pub fn copy(&self) -> Result<Props, AllocError>
        ensures { IfOk result (λ props. props ≡ self.now) }
    {
        let mut items = Vec::new(*self.items.allocator());
        for item in &self.items {
            items.push(Prop {
                key: item.key.copy()?,
                value: item.value.copy()?,
            })?;
        }
        Ok(Props { items })
    }
}

/// Why a property was not put.
#[derive(Drop)]
pub enum PropsFault {
    /// There is a property of this key.
    Repeated,
    /// There is none, and 256 are held.
    Full,
    /// Memory was wanting.
    Memory,
}

impl From<AllocError> for PropsFault {
    ghost use Rattle.std.specs.Prelude.{◌≡◌};
    ghost use Rattle.graph_model.specs.declared.properties.PropsFault.TheVariants.{Memory};

    ghost from_gives = { λ _ fault. fault ≡ Memory };

    fn from(_: AllocError) -> PropsFault {
        PropsFault::Memory
    }
}

/// Puts an item in its place.
fn put_item(items: &mut Vec<Prop>, item: Prop) -> Result<(), AllocError>
    ensures ok { OnOk result
        (pairs items.new.items ≡ put_prop (item.key, item.value) (pairs items.old.items)) }
    ensures err { OnErr result (items.new.items ≡ items.old.items) }
{
    let place = place_of(items.as_slice(), &item.key);
    items.insert(place, item)?;
    Ok(())
}

/// Whether an item has this key.
fn has_item(items: &[Prop], key: &Name) -> bool
    ensures { result ≡ list_any (λ p. same_name key.now p.key) items.now }
{
    items.iter().any(|p| *key == p.key)
}

/// The first place whose key is greater than the given one.
fn place_of(items: &[Prop], key: &Name) -> usize
    ensures { result ≡ position_or_len (λ p. is_lt (name_cmp key.now p.key)) items.now }
{
    let mut place = 0;
    for item in items {
        if key.cmp(&item.key).is_lt() {
            return place;
        }
        place += 1;
    }
    place
}
