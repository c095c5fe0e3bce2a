//! Why a line is refused.
ghost use Rattle.std.specs.Prelude.{◌≡◌, Result};
ghost use Rattle.graph_model.specs.QueryOutcome.{both as both_of};
ghost use Rattle.graph_model.specs.Script.{QueryRefusal as Why};
ghost use Rattle.query_script.specs.Refusing.{Gives, StandsForBoth};

use std::alloc::AllocError;
use thiserror::Error;

/// Why a line is no query: the first of these that holds, over the whole line.
#[derive(Clone, Copy, Debug, PartialEq, Eq, Drop, Error)]
pub enum QueryRefusal {
    /// The line is not one JSON value, as `serde_json` reads it, or is not UTF-8.
    #[error("json")]
    Json,
    /// The value is not an object, it has another key than `ask`, `views` and `each`, `ask` is
    /// missing, or one of the three is of no form, whatever numbers stand in it.
    #[error("shape")]
    Shape,
    /// A number is not held as a whole number of 64 signed bits, or is outside the range of its
    /// place.
    #[error("number")]
    Number,
    /// There are more than 64 views.
    #[error("depth")]
    Depth,
    /// Memory was wanting.
    #[error("out of memory")]
    Memory,
}

impl From<AllocError> for QueryRefusal {
    ghost use Rattle.std.specs.Prelude.{◌≡◌};
    ghost use Rattle.query_script.specs.declared.refusal.QueryRefusal.TheVariants.{Memory};

    ghost from_gives = { λ _ refusal. refusal ≡ Memory };

    fn from(_: AllocError) -> QueryRefusal {
        QueryRefusal::Memory
    }
}

// Of two refusals the one that is judged first, and want of memory before all: what would have been
// read is not known then.
fn first(refusal: QueryRefusal, other: QueryRefusal) -> QueryRefusal
    ensures { StandsForBoth result refusal other }
{
    match (refusal, other) {
        (QueryRefusal::Memory, _) | (_, QueryRefusal::Memory) => QueryRefusal::Memory,
        (QueryRefusal::Json, _) | (_, QueryRefusal::Json) => QueryRefusal::Json,
        (QueryRefusal::Shape, _) | (_, QueryRefusal::Shape) => QueryRefusal::Shape,
        (QueryRefusal::Number, _) | (_, QueryRefusal::Number) => QueryRefusal::Number,
        (QueryRefusal::Depth, QueryRefusal::Depth) => QueryRefusal::Depth,
    }
}

/// Both values, or the refusal that comes first.
pub fn both<A: Drop, B: Drop>(
    a: Result<A, QueryRefusal>,
    b: Result<B, QueryRefusal>,
) -> Result<(A, B), QueryRefusal>
    ensures { (x : Result A Why) (y : Result B Why) → Gives a x → Gives b y → Gives result (both_of x y) }
{
    match (a, b) {
        (Ok(a), Ok(b)) => Ok((a, b)),
        (Ok(_), Err(refusal)) => Err(refusal),
        (Err(refusal), Ok(_)) => Err(refusal),
        (Err(refusal), Err(other)) => Err(first(refusal, other)),
    }
}
