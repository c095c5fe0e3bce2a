// From bytes to bytes.
ghost use Rattle.std.specs.Prelude.{◌≡◌, ◌⊎◌, ◌↔◌, ◌<◌, ◌+◌, ◌%◌, ◌^◌, [], None};
ghost use Rattle.command_words.specs.Command.{command};
ghost use Rattle.graph_model.specs.Limits.{most_events_bytes, most_script_bytes};
ghost use Rattle.outside_io.specs.Outside.{Rises};
ghost use Rattle.query_run.specs.Runs.{HasEvents, HasRead, IsAmiss, IsAnswered, IsCounted, IsTooLong, MayHaveWritten, Misses, Writes, begun_by};

use crate::file_output::write_output;
use command_words::{Command, generated, generator_script, read_words};
use graph_model::{MOST_EVENTS_BYTES, MOST_SCRIPT_BYTES, Words};
use outside_io::{Inputs, ReadFault, Sink, read_all};
use std::alloc::Global;
use std::sync::ledger::Ledger;
use time_column::Steps;

/// One of the two files.
#[derive(Clone, Copy, Debug, PartialEq, Eq)]
pub enum Which {
    Events,
    Script,
}

/// How a run ended.
#[derive(Clone, Copy, Debug, PartialEq, Eq)]
pub enum Status {
    /// The whole output was written, and no record and no query was refused.
    Done,
    /// The whole output was written, and some record or query was refused.
    DoneWithRefusals,
    /// The words are no command.
    Usage,
    /// Memory was wanting.
    Memory,
    /// A file cannot be read.
    InputFault(Which),
    /// The output cannot be written.
    OutputFault,
    /// A file has more bytes than it may have.
    TooLong(Which),
}

/// Carries out the command that the words after the program's name are: reads the events file to its end, then the
/// script to its end, and only then writes the output. Where the words ask for generated records, no file is begun, and
/// the output is that for the generator's events file and script. Nothing is written at any status but `Done`,
/// `DoneWithRefusals` and `OutputFault`; what was written at an `OutputFault` is a front of the output.
pub fn run<I: Inputs, O: Sink, L: Ledger>(
    alloc: Global,
    words: &Words,
    inputs: &mut I,
    sink: &mut O,
    steps: &mut Steps<L>,
) -> Status
    ensures usage { (result ≡ Status.Usage) ↔ (command words.now ≡ None) }

    // The whole output, some front of it, or nothing, by the status.
    ensures writes { Writes result (command words.now) (I.files inputs.old)
        (O.written sink.old) (O.written sink.new) }

    ensures events_fault { result ≡ Status.InputFault Which.Events
        → (I.begun inputs.new ≡ (I.begun inputs.old + 1) % 2 ^ 64)
        × (Rises (I.faults_before inputs.new) (I.faults inputs.new)
        ⊎ Misses (command words.now) (I.files inputs.old) Which.Events) }
    ensures script_fault { result ≡ Status.InputFault Which.Script
        → (I.begun inputs.new ≡ (I.begun inputs.old + 2) % 2 ^ 64)
        × (Rises (I.faults_before inputs.new) (I.faults inputs.new)
        ⊎ Misses (command words.now) (I.files inputs.old) Which.Script) }
    ensures output_fault { result ≡ Status.OutputFault
        → Rises (O.faults sink.old) (O.faults sink.new) }

    ensures events_long { (result ≡ Status.TooLong Which.Events)
        ↔ ((I.begun inputs.new ≡ (I.begun inputs.old + 1) % 2 ^ 64)
        × (most_events_bytes < I.given inputs.new)) }
    ensures script_long { (result ≡ Status.TooLong Which.Script)
        ↔ ((I.begun inputs.new ≡ (I.begun inputs.old + 2) % 2 ^ 64)
        × (most_script_bytes < I.given inputs.new)) }
    ensures long_events { result ≡ Status.TooLong Which.Events
        → IsTooLong (command words.now) (I.files inputs.old) Which.Events }
    ensures long_script { result ≡ Status.TooLong Which.Script
        → IsTooLong (command words.now) (I.files inputs.old) Which.Script }

    // What comes of the script comes only behind the whole events file.
    ensures script_fault_after { result ≡ Status.InputFault Which.Script
        → HasEvents (command words.now) (I.files inputs.old) }
    ensures script_long_after { result ≡ Status.TooLong Which.Script
        → HasEvents (command words.now) (I.files inputs.old) }

    // Where the words begin no file, the inputs are left alone.
    ensures untouched { begun_by (command words.now) ≡ [] → inputs.new ≡ inputs.old }

    // An output, or a front of it, stands on both files, read to their ends, or on none.
    ensures to_the_ends { MayHaveWritten result
        → HasRead (command words.now) (I.begun inputs.old) (I.begun inputs.new)
        (I.had_left inputs.new) (I.left inputs.new) }

    // Where the words are a command, no file that it begins is missing or over its limit, and no count of
    // faults rose, the answer is there, or memory was wanting.
    ensures complete { IsAnswered result
        ⊎ ((command words.now ≡ None)
        ⊎ (Rises (O.faults sink.old) (O.faults sink.new)
        ⊎ IsAmiss (command words.now) (I.files inputs.old)
        (I.faults_before inputs.new) (I.faults inputs.new)
        (I.begun inputs.old) (I.begun inputs.new) (I.given inputs.new))) }

    // Stored times are read no more often than the events and the queries ask for, where each answered
    // query is counted, and never where the words are no command. For a question about a node or an edge
    // that no accepted event or type names, none are read.
    ensures steps { IsCounted (command words.now) (I.files inputs.old) steps.old steps.new }
{
    let Some(command) = read_words(words) else {
        return Status::Usage;
    };
    match command {
        Command::Files {
            model,
            events,
            script,
        } => {
            let events = match read_all(alloc, inputs, events, MOST_EVENTS_BYTES) {
                Ok(bytes) => bytes,
                Err(ReadFault::Input) => return Status::InputFault(Which::Events),
                Err(ReadFault::TooLong) => return Status::TooLong(Which::Events),
                Err(ReadFault::Memory) => return Status::Memory,
            };
            let script = match read_all(alloc, inputs, script, MOST_SCRIPT_BYTES) {
                Ok(bytes) => bytes,
                Err(ReadFault::Input) => return Status::InputFault(Which::Script),
                Err(ReadFault::TooLong) => return Status::TooLong(Which::Script),
                Err(ReadFault::Memory) => return Status::Memory,
            };
            write_output(
                alloc,
                model,
                events.as_slice(),
                script.as_slice(),
                sink,
                steps,
            )
        }
        Command::Generate { model, count } => {
            let Ok(events) = generated(alloc, count) else {
                return Status::Memory;
            };
            let script = generator_script().as_bytes();
            write_output(alloc, model, events.as_slice(), script, sink, steps)
        }
    }
}
