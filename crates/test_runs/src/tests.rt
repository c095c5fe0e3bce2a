// Whole runs over memory: three edges and a question for their degrees, and an edge that is deleted as it is added.
ghost use Rattle.std.specs.Prelude.{◌≡◌, ◌<◌};

use command_words::{generated, generator_script};
use graph_model::Words;
use outside_io::{Calls, FileItem, Files, MemoryInputs, MemorySink};
use query_run::{Status, Which, run};
use std::alloc::{AllocError, Global};
use std::marker::Brand;
use std::sync::ledger::{Blank, Ledger};
use std::test::Fail;
use time_column::Steps;

const EVENTS: &[u8] = b"edge,1,a,b,l\nedge,2,b,c,l\nedge,3,a,c,l\n";

const SCRIPT: &[u8] = b"{\"ask\":[\"degree\"]}\n";

const OUTPUT: &[u8] =
    b"graph,event,-4611686018427387904,4611686018427387904,3,0\nquery,1,degree,1\nworld,-4611686018427387904,4611686018427387904,3\na,0,2,2\nb,1,1,2\nc,2,0,2\n";

// Two edges, of which one is deleted at the moment of its addition.
const DELETED: &[u8] = b"edge,1,a,b,l\ndelete,1,a,b,l\nedge,2,c,d,l\n";

const LASTING: &[u8] =
    b"graph,persistent,-4611686018427387904,4611686018427387904,3,0\nquery,1,degree,1\nworld,-4611686018427387904,4611686018427387904,2\nc,0,1,1\nd,1,0,1\n";

fn words(alloc: Global, model: &str, events: &str) -> Result<Words, AllocError> {
    let mut words = Words::new(alloc);
    for word in ["--script", "s", "--model", model, "--events", events] {
        words.push(word)?;
    }
    Ok(words)
}

fn failing(alloc: Global, call: u64) -> Result<Calls, AllocError> {
    let mut calls = Calls::new(alloc);
    calls.push(call)?;
    Ok(calls)
}

fn files(alloc: Global) -> Result<Files, AllocError> {
    let mut files = Files::new(alloc);
    files.push(FileItem::new(alloc, "e", EVENTS)?)?;
    files.push(FileItem::new(alloc, "d", DELETED)?)?;
    files.push(FileItem::new(alloc, "s", SCRIPT)?)?;
    Ok(files)
}

fn run_once<L: Ledger>(
    alloc: Global,
    words: &Words,
    inputs: &mut MemoryInputs,
    sink: &mut MemorySink,
    blank: Blank,
) -> Status
    requires name { blank.name ≡ L.name }
    requires parts { blank.parts ≡ L.parts }
    requires one { blank.parts ≡ 1 }
{
    run(alloc, words, inputs, sink, &mut Steps::<L>::new(blank))
}

// What a run says and writes, where the sink takes sixteen bytes at a time.
fn outcome_of(
    alloc: Global,
    words: &Words,
    inputs: &mut MemoryInputs,
    write_fails: u64,
) -> Result<(Status, Vec<u8>), AllocError> {
    let mut sink = MemorySink::new(alloc, failing(alloc, write_fails)?, 16);
    let status = run_once::<Brand>(alloc, words, inputs, &mut sink, Blank::new(1));
    Ok((status, Vec::from_slice(alloc, sink.written())?))
}

// The same on two files, where the inputs give ten bytes at a time, and call 0 is none.
fn outcome(
    alloc: Global,
    model: &str,
    events: &str,
    read_fails: u64,
    write_fails: u64,
) -> Result<(Status, Vec<u8>), AllocError> {
    let mut inputs = MemoryInputs::new(files(alloc)?, failing(alloc, read_fails)?, 10);
    outcome_of(
        alloc,
        &words(alloc, model, events)?,
        &mut inputs,
        write_fails,
    )
}

// The same on a hundred generated records, with inputs whose first call fails.
fn generated_outcome(
    alloc: Global,
    model: &str,
    write_fails: u64,
) -> Result<(Status, Vec<u8>), AllocError> {
    let mut words = Words::new(alloc);
    for word in ["--generate", "100", "--model", model] {
        words.push(word)?;
    }
    let mut inputs = MemoryInputs::new(Files::new(alloc), failing(alloc, 1)?, 10);
    outcome_of(alloc, &words, &mut inputs, write_fails)
}

// The same on files with the generator's bytes.
fn read_outcome(alloc: Global, model: &str) -> Result<(Status, Vec<u8>), AllocError> {
    let mut files = Files::new(alloc);
    let events = generated(alloc, 100)?;
    files.push(FileItem::new(alloc, "e", events.as_slice())?)?;
    files.push(FileItem::new(alloc, "s", generator_script().as_bytes())?)?;
    let mut inputs = MemoryInputs::new(files, failing(alloc, 0)?, 1_000);
    outcome_of(alloc, &words(alloc, model, "e")?, &mut inputs, 0)
}

// A run on generated records begins no file, and writes what the same records in a file give.
#[test]
fn generated_records_are_answered_as_if_read(rt: HostRuntime) -> Result<(), Fail> {
    for model in ["event", "persistent"] {
        let (said, text) = generated_outcome(rt.alloc(), model, 0)?;
        let (read_said, read_text) = read_outcome(rt.alloc(), model)?;
        assert_eq!(rt; said, read_said);
        assert_eq!(rt; text.as_slice(), read_text.as_slice());
        let (fault, front) = generated_outcome(rt.alloc(), model, 3)?;
        assert_eq!(rt; fault, Status::OutputFault);
        assert_eq!(rt; Some(front.as_slice()), text.as_slice().get(..32));
    }
    Ok(())
}

// The events file takes a `begin` and five reads, the script a `begin` and three; the output takes ten writes.
#[test]
fn faults_at_each_call(rt: HostRuntime) -> Result<(), Fail> {
    for (events, read_fails, write_fails, status, written) in [
        ("e", 0, 0, Status::Done, OUTPUT.len()),
        ("x", 0, 0, Status::InputFault(Which::Events), 0),
        ("-e", 0, 0, Status::Usage, 0),
        ("e", 3, 0, Status::InputFault(Which::Events), 0),
        ("e", 0, 3, Status::OutputFault, 32),
    ] {
        let (said, text) = outcome(rt.alloc(), "event", events, read_fails, write_fails)?;
        assert_eq!(rt; said, status);
        assert_eq!(rt; Some(text.as_slice()), OUTPUT.get(..written));
    }
    for call in 1u64..12 {
        let (said, text) = outcome(rt.alloc(), "event", "e", call, 0)?;
        let status = match call {
            1..=6 => Status::InputFault(Which::Events),
            7..=10 => Status::InputFault(Which::Script),
            _ => Status::Done,
        };
        assert_eq!(rt; said, status, "failing input call {call}");
        assert_eq!(rt; text.is_empty(), call <= 10);
    }
    for call in 1usize..12 {
        let (said, text) = outcome(rt.alloc(), "event", "e", 0, call as u64)?;
        let status = if call <= 10 {
            Status::OutputFault
        } else {
            Status::Done
        };
        assert_eq!(rt; said, status, "failing write {call}");
        let front = if call <= 10 {
            16 * (call - 1)
        } else {
            OUTPUT.len()
        };
        assert_eq!(rt; Some(text.as_slice()), OUTPUT.get(..front));
    }
    Ok(())
}

#[test]
fn deleted_edge_is_not_present(rt: HostRuntime) -> Result<(), Fail> {
    let (said, text) = outcome(rt.alloc(), "persistent", "d", 0, 0)?;
    assert_eq!(rt; said, Status::Done);
    assert_eq!(rt; text.as_slice(), LASTING);
    Ok(())
}

#[test]
fn each_status_ends_with_its_number_and_line(rt: HostRuntime) -> Result<(), Fail> {
    for (status, number, line) in [
        (Status::Done, 0, ""),
        (Status::DoneWithRefusals, 1, ""),
        (
            Status::Usage,
            2,
            "usage: query_cli --model event|persistent --events PATH --script PATH",
        ),
        (Status::Memory, 3, "out of memory"),
        (
            Status::InputFault(Which::Events),
            4,
            "cannot read the events file",
        ),
        (
            Status::InputFault(Which::Script),
            4,
            "cannot read the script",
        ),
        (Status::OutputFault, 5, "cannot write the output"),
        (
            Status::TooLong(Which::Events),
            6,
            "the events file is too long",
        ),
        (Status::TooLong(Which::Script), 6, "the script is too long"),
    ] {
        assert_eq!(rt; status.exit_number(), number);
        assert_eq!(rt; status.fault_line().unwrap_or(""), line);
    }
    Ok(())
}
