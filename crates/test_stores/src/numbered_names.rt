//! Names numbered, found, refused at the limit and cut back.
use crate::names::name;
use graph_model::Name;
use name_intern::{InternFault, NameTable};
use std::alloc::Global;
use std::test::Fail;

fn layer(alloc: Global, i: u32) -> Result<Name, Fail> {
    let text = format!(in alloc; "l{i}")?;
    name(alloc, text.as_str())
}

#[test]
fn the_sixty_fifth_layer_finds_no_place(rt: HostRuntime) -> Result<(), Fail> {
    let mut layers = NameTable::new(rt.alloc(), 64);
    for i in 0..64u32 {
        let id = layers.intern(layer(rt.alloc(), i)?).ok();
        assert_eq!(rt; id, Some(i));
    }
    let fault = layers.intern(layer(rt.alloc(), 64)?).err();
    assert!(rt; matches!(fault, Some(InternFault::Full)));
    assert_eq!(rt; layers.intern(layer(rt.alloc(), 63)?).ok(), Some(63));
    assert_eq!(rt; layers.find(&layer(rt.alloc(), 64)?), None);
    assert!(rt; layers.len() > 1);
    assert_eq!(rt; layers.name_of(1).as_str(), "l1");
    layers.cut(1);
    layers.reserve(2)?;
    assert_eq!(rt; layers.find(&layer(rt.alloc(), 1)?), None);
    assert_eq!(rt; layers.intern(layer(rt.alloc(), 63)?).ok(), Some(1));
    assert_eq!(rt; layers.len(), 2);
    Ok(())
}
