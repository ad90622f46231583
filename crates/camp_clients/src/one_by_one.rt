//! Running sections of calls one after the other.
ghost use Rattle.std.specs.Prelude.{◌≡◌, ◌≤◌, [], length, IfOk};
ghost use Rattle.camp_clients.specs.Answers.{SaysAlone};
ghost use Rattle.camp_clients.specs.Runs.{OneByOne, lists_of};
ghost use Rattle.camp_clients.specs.Sections.{most_run_sections, Section};
ghost use Rattle.camp_object.specs.Objects.{IsFirst, begun};

use crate::first_states::initial;
use crate::sections::{Answers, ask_all};
use camp_object::{Book, BookDesk, Desk, Object};
use std::alloc::{AllocError, Global};

/// The results of sections over one book: the replies to each, and the book.
#[derive(Drop)]
pub struct BookRun<State: Object> {
    pub answers: Vec<Answers<State>>,
    pub book: Book<State>,
}

/// Runs sections of calls one after the other, section k at seat k of a new book.
pub fn serial<State: Object>(
    alloc: Global,
    sections: &[Vec<State::Call>],
) -> Result<BookRun<State>, AllocError>
    requires { length sections.now ≤ most_run_sections }
    ensures serial { IfOk result (λ run.
        OneByOne State.object 0 [] (lists_of sections.now) (lists_of run.answers.items) run.book.calls) }
{
    serial_from(alloc, initial(alloc)?, sections)
}

/// Runs sections of calls one after the other, section k at seat k of a book that begins with a state.
pub fn serial_from<State: Object>(
    alloc: Global,
    first: State,
    sections: &[Vec<State::Call>],
) -> Result<BookRun<State>, AllocError>
    requires few { length sections.now ≤ most_run_sections }
    requires is_first { IsFirst State.object first }
    ensures begins { IfOk result (λ run. run.book.first ≡ first) }
    ensures serial { IfOk result (λ run.
        OneByOne (begun State.object first) 0 [] (lists_of sections.now) (lists_of run.answers.items) run.book.calls) }
{
    let mut book = Book::begun(alloc, first);
    let mut answers = Vec::with_capacity(alloc, sections.len())?;
    for (seat, calls) in sections.iter().enumerate() {
        answers.push_reserved(at_seat::<State>(alloc, &mut book, seat as u32, calls)?);
    }
    Ok(BookRun { answers, book })
}

/// Runs a section of calls at a seat of a book that nobody else writes.
pub(crate) fn at_seat<State: Object>(
    alloc: Global,
    book: &mut Book<State>,
    seat: u32,
    calls: &[State::Call],
) -> Result<Answers<State>, AllocError>
    ensures first { book.new.first ≡ book.old.first }
    ensures section { IfOk result (λ answers.
        Section (SaysAlone (begun State.object book.old.first) seat) book.old.calls calls.now answers.items book.new.calls) }
{
    let mut desk = BookDesk::new(book, seat);
    at_desk(alloc, &mut desk, calls)
}

/// Runs a section of calls at the desk of a book. It is a function of its own for the prover only: it states the
/// clauses of any desk for this one.
fn at_desk<'a, State: Object>(
    alloc: Global,
    desk: &mut BookDesk<'a, State>,
    calls: &[State::Call],
) -> Result<Answers<State>, AllocError>
    ensures keeps { ⟦<BookDesk<'a, State> as Desk<State>>⟧.keeps desk.old desk.new }
    ensures first { ⟦<BookDesk<'a, State> as Desk<State>>⟧.first desk.new ≡ ⟦<BookDesk<'a, State> as Desk<State>>⟧.first desk.old }
    ensures section { let at = ⟦<BookDesk<'a, State> as Desk<State>>⟧ in
        IfOk result (λ answers.
        Section (SaysAlone (begun State.object (at.first desk.old)) (at.caller desk.old).seat) (at.seen desk.old) calls.now answers.items (at.seen desk.new)) }
{
    ask_all(alloc, desk, calls)
}
