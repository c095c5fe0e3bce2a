// The public types, each call that takes memory once: two events, a node with a quoted name and an edge that leads to it.
use graph_model::{
    EdgeName, Event, EventList, Name, NameList, Op, OpList, Props, Text, TypeList, Value, What,
};
use std::alloc::Global;
use std::test::Fail;

/// A name that is too long to lie in the value itself.
const LONG: &str = "a node of a long name that lies in memory of its own";

fn name(alloc: Global, text: &str) -> Result<Name, Fail> {
    Ok(Name::new(alloc, text).ok().ok_or("no name")?)
}

fn props(alloc: Global, key: &str, value: Value) -> Result<Props, Fail> {
    let mut props = Props::new(alloc);
    props
        .insert(name(alloc, key)?, value)
        .ok()
        .ok_or("no room")?;
    Ok(props)
}

fn events(alloc: Global) -> Result<EventList, Fail> {
    let text = Text::new(alloc, "hi").ok().ok_or("no text")?;
    let mut events = EventList::new(alloc);
    events.push(Event {
        time: 3,
        order: 0,
        what: What::Node(
            name(alloc, "x, \"y\"")?,
            props(alloc, "k", Value::Text(text))?,
        ),
    })?;
    let edge = EdgeName {
        src: name(alloc, LONG)?,
        dst: name(alloc, "x, \"y\"")?,
        layer: name(alloc, "l")?,
    };
    events.push(Event {
        time: 4,
        order: 0,
        what: What::Add(edge, props(alloc, "w", Value::Int(3))?),
    })?;
    Ok(events)
}

#[test]
fn events_are_made_and_copied(rt: HostRuntime) -> Result<(), Fail> {
    let alloc = rt.alloc();
    let events = events(alloc)?;
    assert_eq!(rt; events.len(), 2);
    let node = events.item(0).copy()?;
    assert_eq!(rt; node.time, 3);
    let What::Node(named, props) = &node.what else {
        return Err(Fail::from("no node"));
    };
    assert_eq!(rt; named.as_str(), "x, \"y\"");
    assert_eq!(rt; props.len(), 1);
    assert_eq!(rt; props.key_at(0).as_str(), "k");
    assert!(rt; matches!(props.value_at(0), Value::Text(text) if text.as_str() == "hi"));
    let edge = events.item(1).copy()?;
    assert!(rt;
        matches!(&edge.what, What::Add(edge, _) if edge.dst == *named && edge.src < *named && edge.src.as_str() == LONG)
    );
    Ok(())
}

#[test]
fn lists_hold_what_was_pushed(rt: HostRuntime) -> Result<(), Fail> {
    let alloc = rt.alloc();
    let mut layers = NameList::new(alloc);
    layers.push(name(alloc, "x")?)?;
    assert_eq!(rt; layers.len(), 1);
    assert_eq!(rt; layers.item(0).as_str(), "x");
    let mut views = OpList::new(alloc);
    views.push(Op::Window(2, 9))?;
    views.push(Op::Layers(layers))?;
    assert_eq!(rt; views.len(), 2);
    assert!(rt; matches!(views.item(0), Op::Window(2, 9)));
    let mut types = TypeList::new(alloc);
    types.push((name(alloc, "a")?, name(alloc, "person")?))?;
    assert_eq!(rt; types.len(), 1);
    assert_eq!(rt; types.item(0).1.as_str(), "person");
    Ok(())
}
