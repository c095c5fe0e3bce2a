//! Updates of a node or an edge.
ghost use Rattle.std.specs.Prelude.{◌≡◌, ℕ, ◌<◌, [], ◌∷◌, ◌++◌, length, map, OnOk, OnErr, Some, slice_get};
ghost use Rattle.std.specs.List.{All};
ghost use Rattle.std.specs.Option.{option_copied};

use graph_model::Value;
use std::alloc::{AllocError, Global};
use std::marker::Model;
use std::mem::replace;
use std::slice::from_ref;

/// What an update does: it updates a node, or adds or deletes an edge.
#[derive(Clone, Copy, Default, Drop)]
pub enum Kind {
    #[default]
    Node,
    Add,
    Delete,
}

impl Kind {
    ghost use Rattle.time_history.specs.Kinds.{is_delete};

    /// Whether it deletes an edge.
    pub fn is_deletion(self) -> bool
        ensures { result ≡ is_delete self }
    {
        matches!(self, Kind::Delete)
    }
}

/// A value of a key.
#[derive(Drop)]
struct KeyValue {
    key: u32,
    value: Value,
}

ghost use Rattle.time_history.specs.KeyValues.{value_at_key};
ghost use Rattle.time_history.specs.Pairs.{pairs_of};

fn find_key(items: &[KeyValue], key: u32) -> Option<&Value>
    ensures { option_copied result ≡ value_at_key key (pairs_of items.now) }
{
    for item in items {
        if item.key == key {
            return Some(&item.value);
        }
    }
    None
}

/// How the pairs lie in memory.
#[derive(Drop)]
enum Form {
    Nothing,
    One(KeyValue),
    Many(Vec<KeyValue>),
}

/// Values by the numbers of their keys, which rise. A contract sees the pairs. One value takes no
/// memory of its own.
#[derive(Drop)]
pub struct KeyValues {
    form: Form,
    alloc: Global,
}

impl Model for KeyValues {
    ghost use Rattle.std.specs.Prelude.{ℕ, List};
    ghost use Rattle.graph_model.specs.declared.properties.Value.{Value as GraphValue};
    ghost use Rattle.time_history.specs.KeyValues.{KeyNumbersRise};
    ghost use Rattle.time_history.specs.Pairs.{pairs_in};

    ghost Value = { List (ℕ × GraphValue) };

    ghost view = { λ a. pairs_in a.form };

    ghost invariant = { λ a. KeyNumbersRise (pairs_in a.form) };
}

impl KeyValues {
    ghost use Rattle.time_history.specs.KeyValues.{KeyNumbersRise, value_at_key};
    ghost use Rattle.time_history.specs.Pairs.{pairs_of};

    /// No value.
    pub fn new(alloc: Global) -> KeyValues
        ensures { result ≡ [] }
    {
        KeyValues {
            form: Form::Nothing,
            alloc,
        }
    }

    /// Adds a pair at the end.
    pub fn insert(&mut self, key: u32, value: Value) -> Result<(), AllocError>
        requires { All (λ p. p.0 < key) self.old }
        ensures ok { OnOk result (self.new ≡ self.old ++ (key, value) ∷ []) }
        ensures err { OnErr result (self.new ≡ self.old) }
    {
        let pair = KeyValue { key, value };
        match &mut self.form {
            Form::Nothing => {
                self.form = Form::One(pair);
                Ok(())
            }
            Form::One(_) => {
                let mut items = Vec::with_capacity(self.alloc, 2)?;
                if let Form::One(first) = replace(&mut self.form, Form::Nothing) {
                    items.push_reserved(first);
                }
                items.push_reserved(pair);
                self.form = Form::Many(items);
                Ok(())
            }
            Form::Many(items) => {
                items.push(pair)?;
                Ok(())
            }
        }
    }

    /// The pairs, side by side.
    fn items(&self) -> &[KeyValue]
        ensures pairs { pairs_of result.now ≡ self.now }
        ensures rise { KeyNumbersRise self.now }
    {
        match &self.form {
            Form::Nothing => &[],
            Form::One(only) => from_ref(only),
            Form::Many(items) => items.as_slice(),
        }
    }

    pub fn len(&self) -> usize
        ensures len { result ≡ length self.now }
        ensures rise { KeyNumbersRise self.now }
    {
        self.items().len()
    }

    pub fn key_at(&self, i: usize) -> u32
        requires { i < length self.now }
        ensures { slice_get (map (λ p. p.0) self.now) i ≡ Some result }
    {
        self.items()[i].key
    }

    pub fn value_at(&self, i: usize) -> &Value
        requires { i < length self.now }
        ensures { slice_get (map (λ p. p.1) self.now) i ≡ Some result.now }
    {
        &self.items()[i].value
    }

    /// The value of a key.
    pub(crate) fn find(&self, key: u32) -> Option<&Value>
        ensures { option_copied result ≡ value_at_key key self.now }
    {
        find_key(self.items(), key)
    }
}

/// An update of a node or an edge. Among updates of one time the order comes first, and then the
/// number of the arrival.
#[derive(Drop)]
pub struct Update {
    pub time: i64,
    pub order: u32,
    pub arrival: u64,
    pub kind: Kind,
    pub props: KeyValues,
}
