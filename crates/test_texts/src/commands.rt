//! Words of command lines, as they are read and as a command of `clap` with the same options reads them, and what the
//! generator makes.
use clap::{Arg, ArgAction, Error};
use command_words::{Command, generated, generator_script, read_words};
use graph_model::{Model, Words};
use std::alloc::{AllocError, Global};
use std::test::Fail;

/// The words that name a model.
static MODELS: [&str; 2] = ["event", "persistent"];

/// The words of a list, behind one another.
fn words_of(alloc: Global, list: &[&str]) -> Result<Words, AllocError> {
    let mut words = Words::new(alloc);
    for word in list {
        words.push(word)?;
    }
    Ok(words)
}

/// Whether a command of `clap` takes words: one with three options that are required, of which one names a model.
fn clap_takes<'a>(alloc: Global, words: &'a [&'a str]) -> Result<bool, Error> {
    let model = Arg::new(alloc, "model")
        .long("model")
        .required(true)
        .action(ArgAction::Set)
        .value_parser(MODELS.as_slice());
    let events = Arg::new(alloc, "events")
        .long("events")
        .required(true)
        .action(ArgAction::Set);
    let script = Arg::new(alloc, "script")
        .long("script")
        .required(true)
        .action(ArgAction::Set);
    let command = clap::Command::new(alloc, "query_cli")
        .no_binary_name(true)
        .arg(model)?
        .arg(events)?
        .arg(script)?;
    Ok(command.try_get_matches_from(words).is_ok())
}

/// The words of a command for files, and those that are another model, no script, and a model that is named twice.
#[test]
fn words_are_taken_as_clap_takes_them(rt: HostRuntime) -> Result<(), Fail> {
    let good = ["--model", "event", "--events", "e", "--script", "s"];
    let other_model = [
        "--model",
        "static",
        "--events",
        "events.csv",
        "--script",
        "script.jsonl",
    ];
    let no_script = ["--model", "event", "--events", "events.csv"];
    let twice = [
        "--model",
        "event",
        "--model",
        "persistent",
        "--events",
        "events.csv",
        "--script",
        "script.jsonl",
    ];
    for (list, is_good) in [
        (good.as_slice(), true),
        (other_model.as_slice(), false),
        (no_script.as_slice(), false),
        (twice.as_slice(), false),
    ] {
        let words = words_of(rt.alloc(), list)?;
        assert_eq!(rt; read_words(&words).is_some(), is_good);
        assert_eq!(rt; clap_takes(rt.alloc(), list)?, is_good);
    }
    Ok(())
}

/// What words say: the word of a model, and how many records, none for files. `None` where they are no command.
fn told(words: &Words) -> Option<(&'static str, u32)> {
    let (model, count) = match read_words(words)? {
        Command::Files { model, .. } => (model, 0),
        Command::Generate { model, count } => (model, count),
    };
    match model {
        Model::Event => Some(("event", count)),
        Model::Persistent => Some(("persistent", count)),
    }
}

/// Options in any order, each once; a number of records from 1 to 1,000,000; and no other words.
#[test]
fn words_say_a_command(rt: HostRuntime) -> Result<(), Fail> {
    for (list, said) in [
        (
            ["--generate", "007", "--model", "persistent"],
            Some(("persistent", 7)),
        ),
        (
            ["--model", "event", "--generate", "1000000"],
            Some(("event", 1_000_000)),
        ),
        (["--model", "event", "--generate", "1000001"], None),
        (["--model", "event", "--generate", "0"], None),
        (["--model", "event", "--generate", "-1"], None),
        (["--model", "event", "--generate", "+1"], None),
        (["--model", "event", "--model", "event"], None),
        (["--generate", "1", "--generate", "1"], None),
        (["--model", "event", "--live", "e"], None),
    ] {
        let words = words_of(rt.alloc(), list.as_slice())?;
        assert_eq!(rt; told(&words), said);
    }
    let reversed = ["--script", "s", "--events", "e", "--model", "event"];
    let words = words_of(rt.alloc(), reversed.as_slice())?;
    match read_words(&words) {
        Some(Command::Files { events, script, .. }) => assert_eq!(rt; (events, script), ("e", "s")),
        _ => assert!(rt; false, "the words are a command for files"),
    }
    Ok(())
}

/// The first two records, as worked by hand, and the lines of the script.
#[test]
fn generator_makes_its_file(rt: HostRuntime) -> Result<(), Fail> {
    let two = generated(rt.alloc(), 2)?;
    assert_eq!(rt;
        two.as_slice(),
        b"edge,-13,n838,n758,l0,w:i=5\nedge,-26,n515,n51,l1,w:i=6\n".as_slice()
    );
    assert_eq!(rt; generator_script().lines().count(), 4);
    assert_eq!(rt;
        generator_script().lines().next(),
        Some("{\"ask\":[\"events\"]}")
    );
    Ok(())
}
