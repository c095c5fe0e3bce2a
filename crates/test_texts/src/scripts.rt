//! Lines of scripts, and what they are refused for.
use query_script::{QueryRefusal, read_query};
use std::alloc::{AllocError, Global};
use std::test::Fail;

/// The cause for which a line is refused, or `query`.
fn told(alloc: Global, line: &[u8]) -> &'static str {
    match read_query(alloc, line) {
        Ok(_) => "query",
        Err(QueryRefusal::Json) => "json",
        Err(QueryRefusal::Shape) => "shape",
        Err(QueryRefusal::Number) => "number",
        Err(QueryRefusal::Depth) => "depth",
        Err(QueryRefusal::Memory) => "out of memory",
    }
}

/// Each line with its cause.
#[test]
fn lines_are_refused_for_their_first_cause(rt: HostRuntime) -> Result<(), Fail> {
    for (line, cause) in [
        ("{\"ask\":", "json"),
        ("{\"ask\":[\"nodes\"],\"views\":[[\"at\",1.0]]}", "number"),
        ("{\"ask\":[\"nodes\"],\"x\":1}", "shape"),
        (
            "{\"views\":[[\"before\",65536]],\"each\":[\"rolling\",1,1],\"ask\":[\"events\"]}",
            "query",
        ),
        ("{\"each\":[\"rolling\",1,1],\"ask\":[\"events\"]}", "query"),
        ("{\"ask\":[\"degree\"]} x", "json"),
        ("[\"degree\"]", "shape"),
        ("{\"ask\":[\"updates\"]}", "shape"),
        (
            "{\"ask\":[\"core\",1.5],\"views\":[[\"window\",0]]}",
            "shape",
        ),
        ("{\"ask\":[\"core\",1048576]}", "query"),
        ("{\"ask\":[\"core\",1048577]}", "number"),
        (
            "{\"ask\":[\"nodes\"],\"views\":[[\"window\",-4611686018427387904,4611686018427387904]]}",
            "query",
        ),
        (
            "{\"ask\":[\"nodes\"],\"views\":[[\"at\",4611686018427387904]]}",
            "number",
        ),
        ("{\"ask\":[\"nodes\"],\"each\":[\"rolling\",0]}", "number"),
        ("{\"ask\":[\"hops\",\"a\",\"up\"]}", "shape"),
        (
            " {\"ask\":[\"nodes\"],\"views\":[[\"node_types\",[]],[\"valid\"]]}\r",
            "query",
        ),
    ] {
        assert!(rt; told(rt.alloc(), line.as_bytes()) == cause, "at {line}");
    }
    assert!(rt; told(rt.alloc(), b"{\"ask\":[\"hops\",\"\xff\"]}") == "json");
    Ok(())
}

/// A line for nodes under so many views.
fn line_of(alloc: Global, views: u8) -> Result<String, AllocError> {
    let mut line = String::from_str(alloc, "{\"views\":[")?;
    for number in 0..views {
        if number > 0 {
            line.push(',')?;
        }
        line.push_str("[\"valid\"]")?;
    }
    line.push_str("],\"ask\":[\"nodes\"]}")?;
    Ok(line)
}

/// There may be 64 views, and not one more; and a name of 256 bytes.
#[test]
fn lines_at_their_limits(rt: HostRuntime) -> Result<(), Fail> {
    for (views, cause) in [(0, "query"), (64, "query"), (65, "depth")] {
        let line = line_of(rt.alloc(), views)?;
        assert!(rt;
            told(rt.alloc(), line.as_bytes()) == cause,
            "at {views} views"
        );
    }
    for (bytes, cause) in [(0, "shape"), (256, "query"), (257, "shape")] {
        let mut line = String::from_str(
            rt.alloc(),
            "{\"ask\":[\"weak\"],\"views\":[[\"layers\",[\"",
        )?;
        for _ in 0..bytes {
            line.push('n')?;
        }
        line.push_str("\"]]]}")?;
        assert!(rt;
            told(rt.alloc(), line.as_bytes()) == cause,
            "at {bytes} bytes"
        );
    }
    Ok(())
}

/// The texts of the errors.
#[test]
fn refusals_have_their_names(rt: HostRuntime) -> Result<(), Fail> {
    for (refusal, text) in [
        (QueryRefusal::Json, "json"),
        (QueryRefusal::Shape, "shape"),
        (QueryRefusal::Number, "number"),
        (QueryRefusal::Depth, "depth"),
        (QueryRefusal::Memory, "out of memory"),
    ] {
        assert!(rt; refusal.to_string(rt.alloc())?.as_str() == text);
    }
    Ok(())
}
