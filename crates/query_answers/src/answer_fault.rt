//! Why queries are not answered.
use std::alloc::AllocError;
use window_ends::TooMany;

/// Why a query is not answered.
#[derive(Clone, Copy, Debug, PartialEq, Eq, Drop)]
pub enum AnswerFault {
    /// It asks about this many windows, which are more than 65,536.
    Windows { count: u64 },
    /// Memory was wanting.
    Memory,
}

impl From<AllocError> for AnswerFault {
    ghost use Rattle.std.specs.Prelude.{◌≡◌};
    ghost use Rattle.query_answers.specs.declared.answer_fault.AnswerFault.TheVariants.{Memory};

    ghost from_gives = { λ _ fault. fault ≡ Memory };

    fn from(_: AllocError) -> AnswerFault {
        AnswerFault::Memory
    }
}

impl From<TooMany> for AnswerFault {
    ghost use Rattle.std.specs.Prelude.{◌≡◌};
    ghost use Rattle.query_answers.specs.declared.answer_fault.AnswerFault.TheVariants.{Windows};

    ghost from_gives = { λ many fault. fault ≡ Windows many.count };

    fn from(many: TooMany) -> AnswerFault {
        AnswerFault::Windows { count: many.count }
    }
}
