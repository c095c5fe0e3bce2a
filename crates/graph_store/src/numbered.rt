//! Values, put in the order of the numbers of their keys.
ghost use Rattle.std.specs.Prelude.{◌≡◌, OnOk, OnErr, IfOk, nat_lt};
ghost use Rattle.std.specs.List.{position_or_len};
ghost use Rattle.time_history.specs.KeyValues.{KeyNumbersRise};
ghost use Rattle.graph_store.specs.Numbered.{pairs_in, put_number};

use graph_model::{Memory, Value};
use smallvec::SmallVec;
use std::alloc::Global;
use time_history::KeyValues;

/// A value by the number of its key.
#[derive(Drop)]
pub struct Numbered {
    pub key: u32,
    pub value: Value,
}

/// What stands at a place that is not used.
impl Default for Numbered {
    fn default() -> Numbered {
        Numbered {
            key: 0,
            value: Value::Int(0),
        }
    }
}

/// The first place whose key is greater than the given one.
fn place_of(items: &[Numbered], key: u32) -> usize
    ensures { result ≡ position_or_len (λ p. nat_lt key p.key) items.now }
{
    let mut place = 0;
    for item in items {
        if key < item.key {
            return place;
        }
        place += 1;
    }
    place
}

/// Puts a value before the first of a greater key.
pub fn put(items: &mut SmallVec<Numbered, 4>, item: Numbered) -> Result<(), Memory>
    ensures ok { OnOk result (pairs_in items.new.items
        ≡ put_number (item.key, item.value) (pairs_in items.old.items)) }
    ensures err { OnErr result (items.new.items ≡ items.old.items) }
{
    let place = place_of(items.as_slice(), item.key);
    items.insert(place, item)?;
    Ok(())
}

/// Values whose keys rise, as the values of an update.
pub fn key_values(alloc: Global, numbered: SmallVec<Numbered, 4>) -> Result<KeyValues, Memory>
    requires { KeyNumbersRise (pairs_in numbered.items) }
    ensures { IfOk result (λ values. values ≡ pairs_in numbered.items) }
{
    let mut values = KeyValues::new(alloc);
    for item in numbered {
        values.insert(item.key, item.value)?;
    }
    Ok(values)
}
