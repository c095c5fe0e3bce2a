// Why queries are refused.
ghost use Rattle.std.specs.Prelude.{◌≡◌, Result, Err, IfOk};
ghost use Rattle.graph_model.specs.declared.queries.Query.{Query};
ghost use Rattle.graph_model.specs.Script.{QueryRefusal as Why, query_refusal_name};
ghost use Rattle.query_script.specs.Refusing.{Refuses};
ghost use Rattle.query_run.specs.Causes.{query_refusal_of};

use graph_model::Memory;
use query_script::QueryRefusal;
use std::alloc::AllocError;

/// Why a query is refused, in the order in which lines are judged.
#[derive(Clone, Copy)]
pub enum QueryCause {
    Json,
    Shape,
    Number,
    Depth,
    Windows,
}

/// The word for a cause.
pub fn query_word(cause: QueryCause) -> &'static [u8]
    ensures { result.now ≡ query_refusal_name (query_refusal_of cause) }
{
    match cause {
        QueryCause::Json => b"json",
        QueryCause::Shape => b"shape",
        QueryCause::Number => b"number",
        QueryCause::Depth => b"depth",
        QueryCause::Windows => b"windows",
    }
}

/// The cause for which a line is no query, unless memory was wanting.
pub fn line_cause(refusal: QueryRefusal) -> Result<QueryCause, Memory>
    ensures { IfOk result (λ cause. (said : Result Query Why) → Refuses refusal said → said ≡ Err (query_refusal_of cause)) }
{
    match refusal {
        QueryRefusal::Json => Ok(QueryCause::Json),
        QueryRefusal::Shape => Ok(QueryCause::Shape),
        QueryRefusal::Number => Ok(QueryCause::Number),
        QueryRefusal::Depth => Ok(QueryCause::Depth),
        QueryRefusal::Memory => Err(AllocError),
    }
}
