//! Running sections of calls in threads under a lock.
ghost use Rattle.std.specs.Prelude.{◌≡◌, ℕ, ◌+◌, ◌<◌, ◌≤◌, length, IfOk, slice_index_or};
ghost use Rattle.std.specs.List.{AllZip};
ghost use Rattle.std.specs.Thread.{IsSync};
ghost use Rattle.camp_clients.specs.Answers.{HasMemory};
ghost use Rattle.camp_clients.specs.Runs.{IsLocked, SaysSomewhere, lists_of, section_of};
ghost use Rattle.camp_clients.specs.Sections.{most_run_sections};
ghost use Rattle.camp_object.specs.Objects.{IsFirst, begun};

use crate::comparisons::has_exactly;
use crate::faults::LockFault;
use crate::first_states::{has_first, initial};
use crate::one_by_one::{BookRun, at_seat};
use crate::sections::{Answers, gather, unless_memory};
use camp_object::{Book, Fault, Object};
use std::alloc::{AllocError, Global};
use std::sync::{Mutex, Wait};
use std::thread;
use std::thread::Threads;

/// Runs sections of calls over a new book, as [`locked_from`] does.
pub fn locked<R: Threads + Wait + Sync, State: Object + Send + Sync>(
    rt: &R,
    alloc: Global,
    sections: &[Vec<State::Call>],
) -> Result<BookRun<State>, LockFault>
where
    State::Call: Send + Sync,
    State::Reply: Send,
    requires { (0 < length sections.now) × (length sections.now ≤ most_run_sections) }
    ensures locked { IfOk result (λ run.
        IsLocked State.object (lists_of sections.now) (lists_of run.answers.items) run.book.calls) }
{
    let first = initial::<State>(alloc)?;
    let same = initial::<State>(alloc)?;
    locked_from(rt, alloc, first, &same, sections)
}

/// Runs sections of calls over a book that begins with a state, section k at seat k: the first alone, and then each
/// other one in a thread of its own, under a lock. Finally the history is compared with the replies. A lock does not
/// keep the initial state of its book, so each thread compares that with the given state.
pub fn locked_from<R: Threads + Wait + Sync, State: Object + Send + Sync>(
    rt: &R,
    alloc: Global,
    first: State,
    same: &State,
    sections: &[Vec<State::Call>],
) -> Result<BookRun<State>, LockFault>
where
    State::Call: Send + Sync,
    State::Reply: Send,
    requires few { (0 < length sections.now) × (length sections.now ≤ most_run_sections) }
    requires is_first { IsFirst State.object first }
    requires is_same { same.now ≡ first }
    ensures begins { IfOk result (λ run. run.book.first ≡ first) }
    ensures locked { IfOk result (λ run.
        IsLocked (begun State.object first) (lists_of sections.now) (lists_of run.answers.items) run.book.calls) }
{
    let mut book = Book::begun(alloc, first);
    let opening = at_seat::<State>(alloc, &mut book, 0, &sections[0])?;
    let opened = vec![in alloc; opening]?;
    let lock = Mutex::new(book);
    let clients = in_threads::<R, State>(rt, alloc, &lock, same, sections)?;
    let answers = gather(opened, clients)?;
    let book = lock.into_inner();
    if !has_first(&book, same) {
        return Err(LockFault::Foreign);
    }
    if !has_exactly::<State>(book.history(), sections, &answers) {
        return Err(LockFault::Foreign);
    }
    Ok(BookRun { answers, book })
}

/// Runs each section except the first in a thread of its own.
fn in_threads<R: Threads + Wait + Sync, State: Object + Send + Sync>(
    rt: &R,
    alloc: Global,
    lock: &Mutex<Book<State>>,
    first: &State,
    sections: &[Vec<State::Call>],
) -> Result<Vec<Result<Answers<State>, LockFault>>, AllocError>
where
    State::Call: Send + Sync,
    State::Reply: Send,
    requires few { (0 < length sections.now) × (length sections.now ≤ most_run_sections) }
    requires is_first { IsFirst State.object first.now }
    ensures as_many { IfOk result (λ made. length made.items + 1 ≡ length sections.now) }
    ensures each { IfOk result (λ made. (k : ℕ) (d : _) → k < length made.items →
        IfOk (slice_index_or made.items k d) (λ answers.
        AllZip (SaysSomewhere (begun State.object first.now)) (section_of (lists_of sections.now) (k + 1)) answers.items)) }
{
    thread::map_indices(
        rt,
        alloc,
        sections.len() - 1,
        &|k: usize| -> Result<Answers<State>, LockFault>
            requires { IsSync R.row × (k + 1 < length sections.now) × (length sections.now ≤ most_run_sections) × IsFirst State.object first.now }
            ensures { IfOk result (λ answers.
                AllZip (SaysSomewhere (begun State.object first.entry.now)) (section_of (lists_of sections.entry.now) (k + 1)) answers.items) }
        { ask_locked::<R, State>(rt, alloc, lock, first, k as u32 + 1, &sections[k + 1]) },
    )
}

/// Executes the calls of a section, taking the lock for each.
fn ask_locked<R: Wait, State: Object>(
    rt: &R,
    alloc: Global,
    lock: &Mutex<Book<State>>,
    first: &State,
    seat: u32,
    calls: &[State::Call],
) -> Result<Answers<State>, LockFault>
    requires { IsFirst State.object first.now }
    ensures { IfOk result (λ answers. AllZip (SaysSomewhere (begun State.object first.now)) calls.now answers.items) }
{
    let mut answers = Vec::with_capacity(alloc, calls.len())?;
    for call in calls {
        let answer = ask_once::<R, State>(rt, lock, first, seat, call)?;
        answers.push_reserved(unless_memory(answer)?);
    }
    Ok(answers)
}

/// Executes one call under the lock, if the history of its book begins with the state.
fn ask_once<R: Wait, State: Object>(
    rt: &R,
    lock: &Mutex<Book<State>>,
    first: &State,
    seat: u32,
    call: &State::Call,
) -> Result<Result<State::Reply, Fault>, LockFault>
    requires { IsFirst State.object first.now }
    ensures { IfOk result (λ answer. HasMemory answer → SaysSomewhere (begun State.object first.now) call.now answer) }
{
    let mut book = lock.lock(rt);
    if !has_first(&book, first) {
        return Err(LockFault::Foreign);
    }
    Ok(book.ask(seat, call))
}
