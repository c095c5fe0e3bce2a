//! Laws of commands. The functions do nothing: their contracts are the laws.
ghost use Rattle.std.specs.Prelude.{◌≡◌, ◌↔◌, ℕ, List, Some};
ghost use Rattle.graph_model.specs.declared.events.Model.{Model};
ghost use Rattle.command_words.specs.Command.{Files, Generate, command};
ghost use Rattle.command_words.specs.CommandForms.{AsksForRecords, NamesFiles};

/// Words are the command to answer a script on an events file exactly where they are six, of which three are the
/// options at even places, each with its value behind it: the word of a model and two paths. So each option stands
/// once, and no other word is there.
pub fn commands_name_their_files()
    ensures { (words : List (List ℕ)) (model : Model) (events script : List ℕ)
        → (command words ≡ Some (Files model events script)) ↔ NamesFiles words model events script }
{}

/// Words are the command to answer the generator's script on its file exactly where they are four, of which two are the
/// options at even places, each with its value behind it: the word of a model and a whole number from 1 to 1,000,000.
pub fn commands_ask_for_records()
    ensures { (words : List (List ℕ)) (model : Model) (count : ℕ)
        → (command words ≡ Some (Generate model count)) ↔ AsksForRecords words model count }
{}
