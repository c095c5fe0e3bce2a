// The blocks of the lines of a script.
ghost use Rattle.std.specs.Prelude.{◌≡◌, ◌<◌, ◌≤◌, ◌+◌, ◌++◌, length, is_ok, false, IsTrue, Ok, IfOk, OnOk};
ghost use Rattle.std.specs.List.{list_all};
ghost use Rattle.csv.specs.Writing.{default_writer, row_text};
ghost use Rattle.graph_model.specs.QueryLine.{asked_of};
ghost use Rattle.graph_model.specs.Range.{query_in_range};
ghost use Rattle.graph_model.specs.Script.{lines_of};
ghost use Rattle.graph_model.specs.Output.{is_clean_line, refused_query_row};
ghost use Rattle.graph_store.specs.Contents.{base_of};
ghost use Rattle.query_answers.specs.Cost.{size_of};
ghost use Rattle.query_answers.specs.Refusing.{asked_refusal};
ghost use Rattle.query_run.specs.Blocks.{AddsLine, AddsLines, AddsQuery};
ghost use Rattle.query_run.specs.Causes.{query_refusal_of};
ghost use Rattle.query_run.specs.Cost.{is_counted_line, is_counted_said, line_steps, lines_steps, said_steps};

use crate::lines::{first_line, has_only_spaces};
use crate::output_rows::add_refused_query;
use crate::query_causes::{QueryCause, line_cause};
use event_rows::RowWriter;
use graph_model::{Memory, Query};
use graph_store::Store;
use query_answers::{AnswerFault, answer_query, append_rows};
use query_script::read_query;
use std::alloc::{AllocError, Global};
use std::sync::ledger::Ledger;
use time_column::Steps;

// Appends the block of a refused query.
fn refuse_query(
    alloc: Global,
    out: &mut Vec<u8>,
    number: u32,
    cause: QueryCause,
) -> Result<(), Memory>
    ensures { OnOk result (out.new.items
        ≡ out.old.items ++ row_text default_writer (refused_query_row number (query_refusal_of cause))) }
{
    let mut row = RowWriter::new(alloc);
    add_refused_query(&mut row, number, cause)?;
    append_rows(out, row)
}

// Appends the block of a query, and says whether it was answered.
fn add_answer<L: Ledger>(
    alloc: Global,
    out: &mut Vec<u8>,
    store: &Store,
    number: u32,
    query: &Query,
    steps: &mut Steps<L>,
) -> Result<bool, Memory>
    requires { IsTrue (query_in_range query.now) }
    ensures block { let w = base_of store.now in
        OnOk result (AddsQuery w number (asked_of asked_refusal w (Ok query.now)) out.old.items out.new.items) }
    ensures clean { IfOk result (λ clean.
        clean ≡ is_ok (asked_of asked_refusal (base_of store.now) (Ok query.now))) }
    ensures cost { let said = asked_of asked_refusal (base_of store.now) (Ok query.now) in
        IsTrue (is_counted_said store.now.model false said)
        → steps.new ≤ steps.old + said_steps (size_of store.now) false said }
{
    match answer_query(alloc, store, query, number, out, steps) {
        Ok(()) => Ok(true),
        Err(AnswerFault::Windows { count: _ }) => {
            refuse_query(alloc, out, number, QueryCause::Windows)?;
            Ok(false)
        }
        Err(AnswerFault::Memory) => Err(AllocError),
    }
}

// Appends the block of a line, and says whether its query was not refused.
fn add_line<L: Ledger>(
    alloc: Global,
    out: &mut Vec<u8>,
    store: &Store,
    number: u32,
    line: &[u8],
    steps: &mut Steps<L>,
) -> Result<bool, Memory>
    ensures block { OnOk result
        (AddsLine (base_of store.now) number line.now out.old.items out.new.items) }
    ensures clean { IfOk result (λ clean.
        clean ≡ is_clean_line asked_refusal (base_of store.now) line.now) }
    ensures cost { let w = base_of store.now in IsTrue (is_counted_line w line.now)
        → steps.new ≤ steps.old + line_steps w (size_of store.now) line.now }
{
    if has_only_spaces(line) {
        return Ok(true);
    }
    match read_query(alloc, line) {
        Ok(query) => add_answer(alloc, out, store, number, &query, steps),
        Err(refusal) => {
            refuse_query(alloc, out, number, line_cause(refusal)?)?;
            Ok(false)
        }
    }
}

/// Appends the blocks of a script, and says whether no query was refused.
pub fn add_lines<L: Ledger>(
    alloc: Global,
    out: &mut Vec<u8>,
    store: &Store,
    script: &[u8],
    steps: &mut Steps<L>,
) -> Result<bool, Memory>
    requires short { length script.now < u32.MAX }
    ensures blocks { OnOk result
        (AddsLines (base_of store.now) 1 (lines_of script.now) out.old.items out.new.items) }
    ensures clean { IfOk result (λ clean.
        clean ≡ list_all (is_clean_line asked_refusal (base_of store.now)) (lines_of script.now)) }
    ensures cost { let w = base_of store.now in let lines = lines_of script.now in
        IsTrue (list_all (is_counted_line w) lines)
        → steps.new ≤ steps.old + lines_steps w (size_of store.now) lines }
{
    let mut rest = script;
    let mut number = 1u32;
    let mut clean = true;
    while !rest.is_empty() {
        let (line, behind) = first_line(rest);
        let line_clean = add_line(alloc, out, store, number, line, steps)?;
        clean = clean && line_clean;
        rest = behind;
        number += 1;
    }
    Ok(clean)
}
