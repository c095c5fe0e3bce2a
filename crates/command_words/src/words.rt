// The words of a command line.
ghost use Rattle.std.specs.Prelude.{◌≡◌, ◌≤◌, None, IfSome, MatchOption, Some};
ghost use Rattle.command_words.specs.Command.{is_path, model_of, option_value};
ghost use Rattle.command_words.specs.Command.{IsInRange, command, command_said, count_of, files_command, generate_command, most_generated};

use crate::generator::MOST_GENERATED;
use graph_model::{Model, Words};
use property_values::read_whole;

/// What the program is asked to do, under a model.
#[derive(Clone, Copy)]
pub enum Command<'w> {
    /// To answer a script on an events file, by the paths of both.
    Files {
        model: Model,
        events: &'w str,
        script: &'w str,
    },
    /// To answer the generator's script on its events file of so many records, from 1 to 1,000,000.
    Generate {
        model: Model,
        count: u32,
    },
}

/// The command that the words after the program's name are, or `None` where they are none. It takes no memory.
///
/// Each option is one word, and its value is the word behind it. The options stand in any order, each once, and no
/// other word is there: `--model`, `--events` and `--script`, or `--model` and `--generate`. A model is `event` or
/// `persistent`, a path is not empty and does not begin with `-`, and a number of records is a whole number from 1 to
/// 1,000,000.
pub fn read_words(words: &Words) -> Option<Command<'_>>
    ensures said { MatchOption result (command words.now ≡ None)
        (λ c. command words.now ≡ Some (command_said c)) }
    ensures in_range { IfSome result IsInRange }
{
    match words.len() {
        6 => files(words),
        4 => generate(words),
        _ => None,
    }
}

// The command that six words are.
fn files(words: &Words) -> Option<Command<'_>>
    ensures said { MatchOption result (files_command words.now ≡ None)
        (λ c. files_command words.now ≡ Some (command_said c)) }
    ensures in_range { IfSome result IsInRange }
{
    let events = value(words, "--events");
    let script = value(words, "--script");
    if !is_a_path(events) || !is_a_path(script) {
        return None;
    }
    let model = model(value(words, "--model"))?;
    Some(Command::Files {
        model,
        events,
        script,
    })
}

// The command that four words are.
fn generate(words: &Words) -> Option<Command<'_>>
    ensures said { MatchOption result (generate_command words.now ≡ None)
        (λ c. generate_command words.now ≡ Some (command_said c)) }
    ensures in_range { IfSome result IsInRange }
{
    let model = model(value(words, "--model"))?;
    let count = count(value(words, "--generate"))?;
    Some(Command::Generate { model, count })
}

// The word behind an option, or an empty one.
fn value<'w>(words: &'w Words, option: &str) -> &'w str
    ensures { result.now ≡ option_value words.now option.now }
{
    for i in 0..words.len() / 2 {
        if words.item(2 * i) == option {
            return words.item(2 * i + 1);
        }
    }
    ""
}

fn is_a_path(word: &str) -> bool
    ensures { result ≡ is_path word.now }
{
    match word.as_bytes() {
        [] => false,
        [first, ..] => *first != b'-',
    }
}

// The model that a word names.
fn model(word: &str) -> Option<Model>
    ensures { result ≡ model_of word.now }
{
    if word == "event" {
        return Some(Model::Event);
    }
    if word == "persistent" {
        return Some(Model::Persistent);
    }
    None
}

// How many records a word asks for.
fn count(word: &str) -> Option<u32>
    ensures said { result ≡ count_of word.now }
    ensures in_range { IfSome result (λ n. (1 ≤ n) × (n ≤ most_generated)) }
{
    let number = read_whole(word)?;
    if number < 1 || number > i64::from(MOST_GENERATED) {
        return None;
    }
    Some(number as u32)
}
