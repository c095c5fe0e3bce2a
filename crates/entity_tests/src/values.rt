//! Values in parts of histories, compared.
ghost use Rattle.std.specs.Prelude.{◌≡◌, ℕ, ℤ, List, length};
ghost use Rattle.graph_model.specs.declared.properties.ValueType.{ValueType as KeyType};
ghost use Rattle.graph_model.specs.declared.events.Entity.{Entity};
ghost use Rattle.time_history.specs.Telling.{Fits};
ghost use Rattle.time_history.specs.Spans.{IsSpan, spelled};
ghost use Rattle.time_history.specs.Asked.{AreNamed};
ghost use Rattle.graph_store.specs.Keys.{key_name};
ghost use Rattle.std.specs.Option.{option_copied};
ghost use Rattle.graph_model.specs.Compare.{holds as value_holds};
ghost use Rattle.view_trait.specs.Filtered.{key_holds};

use graph_model::{Cmp, Value};
use property_values::compare;
use time_history::{History, Span};

/// Whether a value is there and compares true.
fn holds(found: Option<&Value>, cmp: Cmp, value: &Value) -> bool
    ensures { result ≡ value_holds (option_copied found.entry) cmp value.now }
{
    match found {
        Some(found) => compare(found, cmp, value),
        None => false,
    }
}

/// Whether the value of a key in a part of a history compares true, where `keys` is the number of
/// keys. A missing value compares false, and so does every value of a key that is not there.
pub fn key_compares(
    history: &History,
    span: Span,
    keys: u32,
    key: Option<u32>,
    cmp: Cmp,
    value: &Value,
) -> bool
    requires { IsSpan history.now.updates span }
    ensures { (entity : Entity) (table : List (List ℕ × KeyType)) (lo : ℤ) → Fits entity history.now.updates → length table ≡ keys → AreNamed (key_name table) (length table) history.now.updates → result ≡ key_holds table key cmp value.now (spelled entity (key_name table) history.now.updates span lo) }
{
    let Some(key) = key else {
        return false;
    };
    key < keys && holds(history.value(span, key), cmp, value)
}
