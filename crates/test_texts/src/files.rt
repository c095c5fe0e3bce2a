//! Files and sinks, in memory and real, read and written whole.
use outside_io::{
    Calls, Failed, FileInputs, FileItem, Files, Inputs, Memory, MemoryInputs, MemorySink, Output,
    ReadFault, Sink, StreamSink, read_all, write_all,
};
use std::alloc::Global;
use std::fs;
use std::test::Fail;

const TEXT: &[u8] = b"twenty-five bytes of text";

/// Two files of one name, and one of another.
fn files(alloc: Global) -> Result<Files, Memory> {
    let mut files = Files::new(alloc);
    files.push(FileItem::new(alloc, "text", TEXT)?)?;
    files.push(FileItem::new(alloc, "empty", b"")?)?;
    files.push(FileItem::new(alloc, "text", b"other")?)?;
    Ok(files)
}

/// A list of one call.
fn calls(alloc: Global, call: u64) -> Result<Calls, Memory> {
    let mut calls = Calls::new(alloc);
    calls.push(call)?;
    Ok(calls)
}

/// What was read, in a word: the text, or why it was not read.
fn told(read: Result<Vec<u8>, ReadFault>) -> &'static str {
    match read {
        Ok(bytes) => {
            if bytes.as_slice() == TEXT {
                "text"
            } else {
                "another text"
            }
        }
        Err(ReadFault::Input) => "input",
        Err(ReadFault::TooLong) => "too long",
        Err(ReadFault::Memory) => "memory",
    }
}

/// Reads a file of those in memory, ten bytes at a time, where one call fails.
fn read(alloc: Global, fails: u64, name: &str, max: usize) -> Result<&'static str, Memory> {
    let mut inputs = MemoryInputs::new(files(alloc)?, calls(alloc, fails)?, 10);
    Ok(told(read_all(alloc, &mut inputs, name, max)))
}

/// The text takes a `begin` and four reads. Call 0 is never made.
#[test]
fn files_in_memory_are_read_whole(rt: HostRuntime) -> Result<(), Fail> {
    for (fails, name, max, want) in [
        (0, "text", 25, "text"),
        (0, "text", 24, "too long"),
        (0, "empty", 0, "another text"),
        (0, "absent", 25, "input"),
        (1, "text", 25, "input"),
        (5, "text", 25, "input"),
        (6, "text", 25, "text"),
    ] {
        let got = read(rt.alloc(), fails, name, max)?;
        assert!(rt; got == want, "{name}");
    }
    let listed = files(rt.alloc())?;
    assert!(rt; listed.len() == 3);
    let _first = listed.item(0);
    Ok(())
}

/// Writes the text sixteen bytes at a time, where one call fails, and says how many were written.
fn written(alloc: Global, fails: u64) -> Result<(bool, usize), Memory> {
    let mut sink = MemorySink::new(alloc, calls(alloc, fails)?, 16);
    let is_whole = write_all(&mut sink, TEXT).is_ok();
    Ok((is_whole, sink.written().len()))
}

/// The text takes two writes.
#[test]
fn texts_are_written_whole_into_memory(rt: HostRuntime) -> Result<(), Fail> {
    for (fails, want) in [(1, (false, 0)), (2, (false, 16)), (3, (true, 25))] {
        assert!(rt; written(rt.alloc(), fails)? == want);
    }
    let listed = calls(rt.alloc(), 7)?;
    assert!(rt; listed.len() == 1);
    assert!(rt; *listed.item(0) == 7);
    Ok(())
}

/// A path with the most bytes that may be read of it. A folder can be opened, and not read.
#[test]
fn real_files_are_read_whole(rt: HostRuntime) -> Result<(), Fail> {
    let path = "test_texts_file";
    fs::write(&rt, path, TEXT)?;
    let mut inputs = FileInputs::new(&rt);
    let mut room = [0; 4];
    assert!(rt; inputs.read(&mut room) == Ok(0), "no file is begun");
    for (name, max, want) in [
        (path, 25, "text"),
        (path, 25, "text"),
        (path, 24, "too long"),
        ("test_texts_no_such_file", 25, "input"),
        (".", 25, "input"),
    ] {
        let got = told(read_all(rt.alloc(), &mut inputs, name, max));
        assert!(rt; got == want, "{name}");
    }
    fs::remove_file(&rt, path)?;
    Ok(())
}

/// A `Vec` takes all; a slice takes what it has room for, and then no byte.
#[test]
fn texts_are_written_to_writers(rt: HostRuntime) -> Result<(), Fail> {
    let mut text = Vec::new(rt.alloc());
    assert!(rt; write_all(&mut StreamSink::new(&mut text), TEXT) == Ok(()));
    assert!(rt; text.as_slice() == TEXT);

    let mut room = [0; 16];
    let mut sink = StreamSink::new(room.as_mut_slice());
    assert!(rt; write_all(&mut sink, TEXT) == Err(Output));
    assert!(rt; sink.write(b"") == Ok(0));
    assert!(rt; sink.write(b"more") == Err(Failed));
    assert!(rt; room == *b"twenty-five byte");
    Ok(())
}
