//! What is read, compared and printed, at worked values.
use graph_model::{Cmp, Value};
use property_values::{PropFault, compare, print_value, read_property, read_whole, type_of};
use std::alloc::{AllocError, Global};
use std::test::Fail;

#[test]
fn whole_numbers(rt: HostRuntime) {
    for (text, want) in [
        ("0", Some(0)),
        ("-0", Some(0)),
        ("007", Some(7)),
        ("-007", Some(-7)),
        ("0000000000000000001", Some(1)),
        ("00000000000000000001", None),
        ("9223372036854775807", Some(i64::MAX)),
        ("9223372036854775808", None),
        ("-9223372036854775808", Some(i64::MIN)),
        ("-9223372036854775809", None),
        ("9999999999999999999", None),
        ("", None),
        ("-", None),
        ("--1", None),
        ("+1", None),
        (" 1", None),
        ("1 ", None),
        ("1.0", None),
        ("0x1", None),
        ("1e3", None),
        ("٣", None),
    ] {
        assert!(rt; read_whole(text) == want, "at {text}");
    }
}

/// A property that is read of a field and printed again, or nothing where the field is none.
fn printed(alloc: Global, field: &str) -> Result<Vec<u8>, AllocError> {
    match read_property(alloc, field) {
        Ok((key, value)) => {
            let mut text = Vec::from_slice(alloc, key.as_str().as_bytes())?;
            text.push(b':')?;
            print_value(&value, &mut text)?;
            Ok(text)
        }
        Err(PropFault::Form) => Ok(Vec::new(alloc)),
        Err(PropFault::Memory) => Err(AllocError),
    }
}

#[test]
fn properties_are_read_and_printed(rt: HostRuntime) -> Result<(), Fail> {
    for (field, want) in [
        ("w:i=5", "w:i=5"),
        ("w:i=-007", "w:i=-7"),
        ("w:b=true", "w:b=true"),
        ("w:b=false", "w:b=false"),
        ("w:s=", "w:s="),
        ("w:s=a:b", "w:s=a:b"),
        ("a=b c:s= i=5 ", "a=b c:s= i=5 "),
        ("é:s=ü", "é:s=ü"),
        ("w::i=5", ""),
        (":i=5", ""),
        ("w", ""),
        ("w:", ""),
        ("w:i=", ""),
        ("w:i=five", ""),
        ("w:i=9223372036854775808", ""),
        ("w:b=True", ""),
        ("w:f=1.5", ""),
        ("w:I=5", ""),
    ] {
        let text = printed(rt.alloc(), field)?;
        assert!(rt; text.as_slice() == want.as_bytes(), "at {field}");
    }
    Ok(())
}

/// A field of a key and a text of so many bytes.
fn field_of(alloc: Global, key: usize, text: usize) -> Result<String, AllocError> {
    let mut field = String::new(alloc);
    for _ in 0..key {
        field.push('k')?;
    }
    field.push_str(":s=")?;
    for _ in 0..text {
        field.push('t')?;
    }
    Ok(field)
}

#[test]
fn longest_properties(rt: HostRuntime) -> Result<(), Fail> {
    for (key, text, want) in [
        (256, 0, true),
        (257, 0, false),
        (1, 4096, true),
        (1, 4097, false),
    ] {
        let field = field_of(rt.alloc(), key, text)?;
        assert!(rt; read_property(rt.alloc(), field.as_str()).is_ok() == want);
    }
    Ok(())
}

/// Whether one value is equal to another, and whether it differs, is less, at most as large, greater
/// and at least as large.
fn compared(first: &Value, second: &Value) -> [bool; 6] {
    [
        compare(first, Cmp::Eq, second),
        compare(first, Cmp::Ne, second),
        compare(first, Cmp::Lt, second),
        compare(first, Cmp::Le, second),
        compare(first, Cmp::Gt, second),
        compare(first, Cmp::Ge, second),
    ]
}

#[test]
fn comparisons(rt: HostRuntime) -> Result<(), Fail> {
    let less = [false, true, true, true, false, false];
    let equal = [true, false, false, true, false, true];
    let greater = [false, true, false, false, true, true];
    for (left, right, want) in [
        ("w:i=-1", "w:i=0", less),
        ("w:i=10", "w:i=9", greater),
        ("w:i=7", "w:i=007", equal),
        ("w:b=false", "w:b=true", less),
        ("w:s=10", "w:s=9", less),
        ("w:s=a", "w:s=Z", greater),
        ("w:s=a", "w:s=aa", less),
        ("w:i=1", "w:s=1", [false; 6]),
        ("w:b=true", "w:i=1", [false; 6]),
    ] {
        let (_, first) = read_property(rt.alloc(), left)?;
        let (_, second) = read_property(rt.alloc(), right)?;
        assert!(rt; compared(&first, &second) == want, "at {left} and {right}");
        assert!(rt; (type_of(&first) == type_of(&second)) == (want != [false; 6]));
    }
    Ok(())
}
