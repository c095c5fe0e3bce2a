//! Values: their types, how they compare, and their texts.
ghost use Rattle.std.specs.Prelude.{◌≡◌, ◌++◌, OnOk, OnErr};
ghost use Rattle.graph_model.specs.Compare.{compares, meets as order_meets};
ghost use Rattle.graph_model.specs.Record.{value_text};
ghost use Rattle.graph_model.specs.ValueKind.{value_type};

use graph_model::{Cmp, Memory, Value, ValueType};
use itoa::Buffer;
use std::cmp::Ordering;

/// The type of a value.
pub fn type_of(value: &Value) -> ValueType
    ensures { result ≡ value_type value.now }
{
    match value {
        Value::Int(_) => ValueType::Int,
        Value::Flag(_) => ValueType::Flag,
        Value::Text(_) => ValueType::Text,
    }
}

/// Whether the left value compares so to the right one: whole numbers by size, false before true, and texts by their bytes.
///
/// Values of two types compare to nothing, so `Ne` is false of them too.
pub fn compare(left: &Value, cmp: Cmp, right: &Value) -> bool
    ensures { result ≡ compares left.now cmp right.now }
{
    match (left, right) {
        (Value::Int(a), Value::Int(b)) => meets(cmp, a.cmp(b)),
        (Value::Flag(a), Value::Flag(b)) => meets(cmp, a.cmp(b)),
        (Value::Text(a), Value::Text(b)) => meets(cmp, a.as_str().cmp(b.as_str())),
        _ => false,
    }
}

/// Whether an order is the one that is asked for.
fn meets(cmp: Cmp, order: Ordering) -> bool
    ensures { result ≡ order_meets cmp order }
{
    match cmp {
        Cmp::Eq => order.is_eq(),
        Cmp::Ne => order.is_ne(),
        Cmp::Lt => order.is_lt(),
        Cmp::Le => order.is_le(),
        Cmp::Gt => order.is_gt(),
        Cmp::Ge => order.is_ge(),
    }
}

/// Adds the text of a value at the end: `i=`, `b=` or `s=`, and the number, the flag or the text.
///
/// Want of memory leaves `out` as it was.
pub fn print_value(value: &Value, out: &mut Vec<u8>) -> Result<(), Memory>
    ensures ok { OnOk result (out.new.items ≡ out.old.items ++ value_text value.now) }
    ensures err { OnErr result (out.new.items ≡ out.old.items) }
{
    match value {
        Value::Int(n) => add_both(out, b"i=", Buffer::new().format(*n).as_bytes()),
        Value::Flag(true) => add_both(out, b"b=", b"true"),
        Value::Flag(false) => add_both(out, b"b=", b"false"),
        Value::Text(text) => add_both(out, b"s=", text.as_str().as_bytes()),
    }
}

/// Adds two pieces at the end, or neither.
fn add_both(out: &mut Vec<u8>, kind: &[u8], text: &[u8]) -> Result<(), Memory>
    ensures ok { OnOk result (out.new.items ≡ out.old.items ++ (kind.now ++ text.now)) }
    ensures err { OnErr result (out.new.items ≡ out.old.items) }
{
    let len = out.len();
    out.extend_from_slice(kind)?;
    if let Err(fault) = out.extend_from_slice(text) {
        out.truncate(len);
        return Err(fault);
    }
    Ok(())
}
