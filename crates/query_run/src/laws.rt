//! Laws of the output. The functions do nothing: their contracts are the laws.
ghost use Rattle.std.specs.Prelude.{◌≡◌, ℕ, List, Option, Some};
ghost use Rattle.command_words.specs.Command.{Files};
ghost use Rattle.graph_model.specs.declared.events.Model.{Model};
ghost use Rattle.graph_model.specs.declared.queries.Query.{Query};
ghost use Rattle.graph_model.specs.Output.{IsOutput, is_clean};
ghost use Rattle.graph_model.specs.Script.{QueryRefusal};
ghost use Rattle.graph_model.specs.World.{World};
ghost use Rattle.outside_io.specs.Outside.{bytes_of};
ghost use Rattle.query_run.specs.Arrival.{SayAlike};
ghost use Rattle.query_run.specs.Runs.{Writes};
ghost use Rattle.query_run.specs.declared.top.Status.{Status};

/// There is exactly one output for an events file and a script, whatever queries are refused.
pub fn outputs_are_one()
    ensures some { (refuses : World → Query → Option QueryRefusal) (model : Model)
        (events script : List ℕ)
        → (text : List ℕ) × IsOutput refuses model events script text }
    ensures one { (refuses : World → Query → Option QueryRefusal) (model : Model)
        (events script text other : List ℕ)
        → IsOutput refuses model events script text → IsOutput refuses model events script other
        → text ≡ other }
{}

/// Events files that say the same but for the order of arrival have the same outputs for every script, whatever queries
/// are refused. So what is written of the one, at any status, is what is written of the other.
pub fn order_of_arrival_leaves_the_output()
    ensures output { (refuses : World → Query → Option QueryRefusal) (model : Model)
        (one other script text : List ℕ)
        → SayAlike model one other
        → IsOutput refuses model one script text
        → IsOutput refuses model other script text }
    ensures clean { (refuses : World → Query → Option QueryRefusal) (model : Model)
        (one other script : List ℕ)
        → SayAlike model one other
        → is_clean refuses model one script ≡ is_clean refuses model other script }
    ensures writes { (status : Status) (model : Model) (e s f t one other script : List ℕ)
        (files others : List (List ℕ × List ℕ)) (old new : Option (List ℕ))
        → bytes_of files e ≡ Some one
        → bytes_of others f ≡ Some other
        → bytes_of files s ≡ Some script
        → bytes_of others t ≡ Some script
        → SayAlike model one other
        → Writes status (Some (Files model e s)) (Some files) old new
        → Writes status (Some (Files model f t)) (Some others) old new }
{}
