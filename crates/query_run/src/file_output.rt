// The whole output for an events file and a script.
ghost use Rattle.std.specs.Prelude.{◌≡◌, ◌⊎◌, ◌<◌, ◌≤◌, ◌+◌, ◌++◌, ◌==◌, ◌&&◌, map, length, IsTrue, IfOk, OnOk};
ghost use Rattle.std.specs.List.{list_all};
ghost use Rattle.graph_model.specs.RowText.{rows_text};
ghost use Rattle.graph_model.specs.Script.{lines_of};
ghost use Rattle.graph_model.specs.Output.{IsOutput, is_clean, is_clean_line, refused_row};
ghost use Rattle.graph_store.specs.Contents.{base_of};
ghost use Rattle.query_answers.specs.Cost.{size_of};
ghost use Rattle.query_answers.specs.Refusing.{asked_refusal};
ghost use Rattle.query_run.specs.Blocks.{IsText};
ghost use Rattle.query_run.specs.Cost.{counted_steps, is_counted_line, is_counted_script, lines_steps};
ghost use Rattle.file_reading.specs.StoreReading.{refused_of, reading_of};
ghost use Rattle.outside_io.specs.Outside.{Rises};
ghost use Rattle.query_run.specs.Runs.{IsAnswered, WritesAnswer};

use crate::line_blocks::add_lines;
use crate::output_rows::{add_graph, add_refused};
use crate::top::Status;
use event_rows::RowWriter;
use file_reading::{FileReading, RefusedRecord, read_events};
use graph_model::{Memory, Model};
use outside_io::{Output, Sink, write_all};
use std::alloc::Global;
use std::mem::forget;
use std::sync::ledger::Ledger;
use time_column::Steps;

// Adds the rows of refused records.
fn add_all_refused(out: &mut RowWriter, refused: &[RefusedRecord]) -> Result<(), Memory>
    ensures { OnOk result
        (out.new ≡ out.old ++ rows_text (map (λ r. refused_row (refused_of r)) refused.now)) }
{
    for refusal in refused {
        add_refused(out, *refusal)?;
    }
    Ok(())
}

// An output, and whether no record and no query was refused.
#[derive(Drop)]
struct Answer {
    text: Vec<u8>,
    clean: bool,
}

// The output for what was read of an events file, and a script.
fn answer_read<L: Ledger>(
    alloc: Global,
    read: &FileReading,
    script: &[u8],
    steps: &mut Steps<L>,
) -> Result<Answer, Memory>
    requires short { length script.now < u32.MAX }
    ensures text { IfOk result (λ answer. IsText read.now script.now answer.text.items) }
    ensures clean { IfOk result (λ answer. answer.clean
        ≡ ((length (reading_of read.now).refused == 0)
        && list_all (is_clean_line asked_refusal (base_of read.now.store)) (lines_of script.now))) }
    ensures cost { let w = base_of read.now.store in let lines = lines_of script.now in
        IsTrue (list_all (is_counted_line w) lines)
        → steps.new ≤ steps.old + lines_steps w (size_of read.now.store) lines }
{
    let mut head = RowWriter::new(alloc);
    add_all_refused(&mut head, read.refused.as_slice())?;
    add_graph(
        &mut head,
        read.store.model(),
        read.store.bounds(),
        read.store.events(),
        read.refused.len(),
    )?;
    let mut text = head.into_text()?;
    let lines_clean = add_lines(alloc, &mut text, &read.store, script, steps)?;
    let clean = read.refused.is_empty() && lines_clean;
    Ok(Answer { text, clean })
}

// The output for an events file and a script, under a model.
#[tactic(auto, unfolding(graph_model::specs::Output::IsOutput, graph_model::specs::Output::is_clean))]
fn answer_files<L: Ledger>(
    alloc: Global,
    model: Model,
    events: &[u8],
    script: &[u8],
    steps: &mut Steps<L>,
) -> Result<Answer, Memory>
    requires short { length script.now < u32.MAX }
    ensures text { IfOk result (λ answer.
        IsOutput asked_refusal model events.now script.now answer.text.items) }
    ensures clean { IfOk result (λ answer.
        answer.clean ≡ is_clean asked_refusal model events.now script.now) }
    ensures cost { IsTrue (is_counted_script model events.now script.now)
        → steps.new ≤ steps.old + counted_steps model events.now script.now }
{
    let read = read_events(alloc, model, events, steps)?;
    let answer = answer_read(alloc, &read, script, steps);
    // A run ends with its answer, and the system takes the memory of the process back at once: the store is not
    // given back block by block.
    forget(read);
    answer
}

/// Writes the output for an events file and a script, under a model.
///
/// The status says whether all of it was written, and whether something was refused, or that memory was wanting, and then
/// nothing was written, or that the sink failed, and then a front of it was.
pub fn write_output<O: Sink, L: Ledger>(
    alloc: Global,
    model: Model,
    events: &[u8],
    script: &[u8],
    sink: &mut O,
    steps: &mut Steps<L>,
) -> Status
    requires short { length script.now < u32.MAX }
    ensures writes { WritesAnswer result model events.now script.now
        (O.written sink.old) (O.written sink.new) }
    ensures fault { result ≡ Status.OutputFault → Rises (O.faults sink.old) (O.faults sink.new) }
    ensures complete { IsAnswered result ⊎ Rises (O.faults sink.old) (O.faults sink.new) }
    ensures cost { IsTrue (is_counted_script model events.now script.now)
        → steps.new ≤ steps.old + counted_steps model events.now script.now }
{
    let Ok(answer) = answer_files(alloc, model, events, script, steps) else {
        return Status::Memory;
    };
    match write_all(sink, answer.text.as_slice()) {
        Ok(()) if answer.clean => Status::Done,
        Ok(()) => Status::DoneWithRefusals,
        Err(Output) => Status::OutputFault,
    }
}
