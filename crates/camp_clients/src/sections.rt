//! Running one section, and gathering the results of threads.
ghost use Rattle.std.specs.Prelude.{◌≡◌, ◌+◌, ◌≤◌, false, length, count_by, IfOk, MatchResult};
ghost use Rattle.camp_object.specs.declared.faults.Fault.TheVariants as fault;
ghost use Rattle.camp_object.specs.Histories.{IsBeginning, own};
ghost use Rattle.camp_object.specs.Objects.{begun};
ghost use Rattle.camp_clients.specs.Answers.{SectionStep, HasMemory};
ghost use Rattle.camp_clients.specs.Gathering.{AreSeparated, Gathers};
ghost use Rattle.camp_clients.specs.Sections.{Section};

use crate::faults::LockFault;
use camp_object::{Desk, Fault, Object};
use std::alloc::{AllocError, Global};

/// The replies to a section of calls, in order.
pub type Answers<State> = Vec<Result<<State as Object>::Reply, Fault>>;

/// Executes the calls of a section in order. The section ends with an error if memory runs out, also if a reply says
/// so.
pub fn ask_all<State: Object, D: Desk<State>>(
    alloc: Global,
    desk: &mut D,
    calls: &[State::Call],
) -> Result<Answers<State>, AllocError>
    requires { let caller = D.caller desk.old in
        caller.alone ≡ false →
        length (own caller.seat (D.seen desk.old)) + count_by State.object.is_writing calls.now ≤ caller.per_seat }
    ensures keeps { D.keeps desk.old desk.new }
    ensures caller { D.caller desk.new ≡ D.caller desk.old }
    ensures first { D.first desk.new ≡ D.first desk.old }
    ensures grows { IsBeginning (D.seen desk.old) (D.seen desk.new) }
    ensures section { IfOk result (λ answers.
        Section (SectionStep (begun State.object (D.first desk.old)) (D.caller desk.old)) (D.seen desk.old) calls.now answers.items (D.seen desk.new)) }
{
    let mut answers = Vec::with_capacity(alloc, calls.len())?;
    for call in calls {
        answers.push_reserved(unless_memory(desk.ask(call))?);
    }
    Ok(answers)
}

/// Returns the reply, or an error if the reply is out of memory.
pub(crate) fn unless_memory<Reply>(
    answer: Result<Reply, Fault>,
) -> Result<Result<Reply, Fault>, AllocError>
    ensures { MatchResult result (λ other. (other ≡ answer) × HasMemory answer) (λ _. answer ≡ Err fault.Memory) }
{
    match answer {
        Err(Fault::Memory) => Err(AllocError),
        other => Ok(other),
    }
}

/// Appends the results of threads to earlier values, or returns the first fault of a thread.
pub(crate) fn gather<X: Drop>(
    first: Vec<X>,
    made: Vec<Result<X, LockFault>>,
) -> Result<Vec<X>, LockFault>
    ensures { IfOk result (λ all. Gathers first.items made.items all.items) }
{
    let mut all = first;
    all.reserve(made.len())?;
    for own in made {
        all.push_reserved(own?);
    }
    Ok(all)
}

/// Separates the results of threads into seats and replies; the replies come after those of the first section. Returns
/// out of memory if a thread did.
pub(crate) fn separate_seats<Seat: Drop, X: Drop>(
    alloc: Global,
    opening: X,
    made: Vec<Result<(Seat, X), AllocError>>,
) -> Result<(Vec<Seat>, Vec<X>), AllocError>
    ensures { IfOk result (λ all. AreSeparated opening made.items all.0.items all.1.items) }
{
    let mut seats = Vec::with_capacity(alloc, made.len())?;
    let mut all = Vec::with_capacity(alloc, made.len() + 1)?;
    all.push_reserved(opening);
    for one in made {
        let (seat, answers) = one?;
        seats.push_reserved(seat);
        all.push_reserved(answers);
    }
    Ok((seats, all))
}
