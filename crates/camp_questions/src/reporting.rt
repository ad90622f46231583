//! The result of a question whose answer was computed.
ghost use Rattle.camp_questions.specs.Inside.Reporting.{IsReported};

use crate::Unanswered;
use std::alloc::AllocError;

/// Returns the computed answer, or out of memory.
pub(crate) fn answer_or_memory<T>(made: Result<T, AllocError>) -> Result<T, Unanswered>
    ensures { IsReported made result }
{
    Ok(made?)
}
