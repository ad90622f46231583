//! Why a question has no answer.
ghost use Rattle.std.specs.Prelude.{◌≡◌};
ghost use Rattle.camp_questions.specs.declared.faults.Unanswered.TheVariants as fault;

use camp_repo::Refusal;
use std::alloc::AllocError;
use thiserror::Error;

/// Why a question has no answer: it is refused, or memory ran out.
#[derive(Clone, Copy, PartialEq, Eq, Debug, Error)]
pub enum Unanswered {
    /// A refusal of the same kind as those of calls. A call about the same names may get another refusal.
    #[error("refused")]
    Refused(Refusal),
    #[error("out of memory")]
    Memory,
}

impl From<AllocError> for Unanswered {
    ghost from_gives = { λ _ result. result ≡ fault.Memory };

    fn from(_error: AllocError) -> Unanswered {
        Unanswered::Memory
    }
}

impl From<Refusal> for Unanswered {
    ghost from_gives = { λ refusal result. result ≡ fault.Refused refusal };

    fn from(refusal: Refusal) -> Unanswered {
        Unanswered::Refused(refusal)
    }
}
