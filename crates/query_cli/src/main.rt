//! Answers a query over an events file: the words name the files, and the output goes to standard output.
#![tactic(auto)]

ghost use Rattle.std.specs.Prelude.{◌≡◌};

use graph_model::Words;
use outside_io::{FileInputs, StreamSink};
use query_run::{Status, run};
use std::alloc::Global;
use std::marker::Brand;
use std::process::ExitCode;
use std::rt::{Env, Files};
use std::sync::ledger::{Blank, Ledger};
use std::{env, io};
use time_column::Steps;

// The words after the program's name.
fn command_line(rt: &(impl Env + AllocGlobal), alloc: Global) -> io::Result<Words> {
    let mut words = Words::new(alloc);
    for word in env::args(rt)?.skip(1) {
        words.push(word.as_str())?;
    }
    Ok(words)
}

// A run over real files, with a count of steps that nobody reads.
fn run_files<L: Ledger, R: Files + Print>(
    alloc: Global,
    rt: &R,
    words: &Words,
    blank: Blank,
) -> Status
    requires name { blank.name ≡ L.name }
    requires parts { blank.parts ≡ L.parts }
    requires one { blank.parts ≡ 1 }
{
    let mut steps = Steps::<L>::new(blank);
    let mut inputs = FileInputs::new(rt);
    let mut sink = StreamSink::new(io::writer(rt));
    run(alloc, words, &mut inputs, &mut sink, &mut steps)
}

fn main(rt: HostRuntime) -> ExitCode {
    let alloc = rt.alloc();
    let status = match command_line(&rt, alloc) {
        Ok(words) => run_files::<Brand, HostRuntime>(alloc, &rt, &words, Blank::new(1)),
        Err(_) => Status::Memory,
    };
    if let Some(line) = status.fault_line() {
        let _ = rt.eprintln(line);
    }
    ExitCode::from(status.exit_number())
}
