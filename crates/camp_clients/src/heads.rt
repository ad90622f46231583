//! Running sections of calls in threads over a head.
ghost use Rattle.std.specs.Prelude.{◌≡◌, [], ◌+◌, ◌<◌, ◌≤◌, length, count_by, IfOk, IsOk};
ghost use Rattle.std.specs.List.{All};
ghost use Rattle.std.specs.Thread.{IsSync};
ghost use Rattle.camp_history.specs.Opening.{most_between_snapshots, most_calls, AreHeadSizes, IsOpened};
ghost use Rattle.camp_history.specs.Seats.{IsSeatOf, calls_per_seat, history_of, caller_at, seat_number, seats_of};
ghost use Rattle.camp_clients.specs.Answers.{SectionStep};
ghost use Rattle.camp_clients.specs.Clients.{AllRan, IsReady, Ran};
ghost use Rattle.camp_clients.specs.Synchronising.{AreNew};
ghost use Rattle.camp_clients.specs.Runs.{IsShared, lists_of, section_of};
ghost use Rattle.camp_clients.specs.Sections.{most_run_sections, most_run_tries, Section};
ghost use Rattle.camp_object.specs.Histories.{own};
ghost use Rattle.camp_object.specs.Objects.{IsFirst, begun};

use crate::first_states::initial;
use crate::gates::SectionGate;
use crate::sections::{Answers, ask_all, separate_seats};
use crate::synchronising::{synchronise_each_with, synchronise_with_all};
use camp_history::{Gate, Head, HeadDesk, HeadFault, Seat};
use camp_object::Object;
use std::alloc::{AllocError, Global};
use std::sync::Wait;
use std::thread;
use std::thread::Threads;

/// What is run over a head: sections of calls, section k at seat k. A call that writes gives up after `tries`
/// lost compare-exchanges. A snapshot is kept at each position that is a multiple of `every`, 0 to 4,096;
/// none for 0. The gate is notified of each step of a call, and the section gate of each section.
#[derive(Drop)]
pub struct HeadPlan<'a, R, State: Object, G, S> {
    pub rt: &'a R,
    pub sections: &'a [Vec<State::Call>],
    pub tries: u32,
    pub every: u32,
    pub gate: &'a G,
    pub section_gate: &'a S,
    ghost in_range: { (0 < length sections.now) × (length sections.now ≤ most_run_sections) },
    ghost writing: { All (λ calls. count_by State.object.is_writing calls.items ≤ most_calls) sections.now },
    ghost tries_in_range: { (0 < tries) × (tries ≤ most_run_tries) },
    ghost every_in_range: { every ≤ most_between_snapshots },
}

/// The results of sections over one head: the replies to each section, and seat 0, the seat of the first section, which
/// has seen the whole history.
#[derive(Drop)]
pub struct HeadRun<State: Object> {
    pub answers: Vec<Answers<State>>,
    pub head: Head<State>,
    pub opener: Seat<State>,
    ghost is_seat: { IsSeatOf head opener },
    ghost is_first: { seat_number opener ≡ 0 },
}

impl<State: Object> HeadRun<State> {
    /// Copies the history, call by call.
    pub fn history(&self) -> Result<Vec<(u32, State::Call)>, AllocError>
        ensures history { IfOk result (λ history. history.items ≡ history_of self.now.opener) }
        ensures empty { history_of self.now.opener ≡ [] → IsOk result }
    {
        match self.head.history(&self.opener) {
            Ok(history) => Ok(history),
            Err(_) => Err(AllocError),
        }
    }
}

/// Runs sections of calls over a head whose history begins with the initial state, as [`shared_from`] does.
pub fn shared<
    R: Threads + Wait + Sync,
    State: Object + Send + Sync,
    G: Gate + Sync,
    S: SectionGate + Sync,
>(alloc: Global, plan: &HeadPlan<'_, R, State, G, S>) -> Result<HeadRun<State>, AllocError>
where
    State::Call: Send + Sync,
    State::Reply: Send,
    ensures shared { IfOk result (λ run. IsShared State.object plan.now.tries (lists_of plan.now.sections.now)
        (lists_of run.answers.items) (history_of run.opener)) }
{
    shared_from(alloc, initial(alloc)?, plan)
}

/// Runs sections of calls over a head with a seat for each: the first section alone, and then each other one in a
/// thread of its own, whose seat was synchronised with seat 0. Finally seat 0 is synchronised with every seat; what it
/// has then seen is the whole history, which begins with the given state.
pub fn shared_from<
    R: Threads + Wait + Sync,
    State: Object + Send + Sync,
    G: Gate + Sync,
    S: SectionGate + Sync,
>(
    alloc: Global,
    first: State,
    plan: &HeadPlan<'_, R, State, G, S>,
) -> Result<HeadRun<State>, AllocError>
where
    State::Call: Send + Sync,
    State::Reply: Send,
    requires { IsFirst State.object first }
    ensures shared { IfOk result (λ run. IsShared (begun State.object first) plan.now.tries (lists_of plan.now.sections.now)
        (lists_of run.answers.items) (history_of run.opener)) }
{
    let sections = plan.sections;
    let per_seat = most_writing::<State>(sections);
    let (head, mut seats) = open::<State>(
        alloc,
        first,
        sections.len() as u32,
        per_seat,
        plan.tries,
        plan.every,
    )?;
    let opener = seats.remove(0);
    let run = Run {
        rt: plan.rt,
        alloc,
        head: &head,
        gate: plan.gate,
        section_gate: plan.section_gate,
        sections,
    };
    let (opener, answers) = run.all(opener, seats)?;
    Ok(HeadRun {
        answers,
        head,
        opener,
    })
}

/// A run over a head: its sections, and the head and gates at which they are asked.
#[derive(Drop)]
struct Run<'a, R, State: Object, G, S> {
    rt: &'a R,
    alloc: Global,
    head: &'a Head<State>,
    gate: &'a G,
    section_gate: &'a S,
    sections: &'a [Vec<State::Call>],
    ghost seats: { seats_of head.now ≡ length sections.now },
    ghost room: { All (λ calls. count_by State.object.is_writing calls.items ≤ calls_per_seat head.now) sections.now },
}

impl<'a, R: Wait, State: Object, G: Gate, S: SectionGate> Run<'a, R, State, G, S> {
    /// Runs the section of a seat that was asked no call before.
    fn at_seat(&self, seat: &mut Seat<State>) -> Result<Answers<State>, AllocError>
        requires ready { IsReady self.now.head.now (length self.now.sections.now) seat.old }
        ensures seat { IsSeatOf self.now.head.now seat.new }
        ensures number { seat_number seat.new ≡ seat_number seat.old }
        ensures section { IfOk result (λ answers. Section (SectionStep (begun State.object self.now.head.now.first) (caller_at self.now.head.now seat.old))
            (history_of seat.old) (section_of (lists_of self.now.sections.now) (seat_number seat.old)) answers.items (history_of seat.new)) }
    {
        let calls = &self.sections[seat.number() as usize];
        let writes = begins_with_writing::<State>(calls);
        self.section_gate.begin(seat.number(), writes);
        let mut desk = HeadDesk::new(self.rt, self.head, seat, self.gate);
        at_desk(self.alloc, &mut desk, calls)
    }

    /// Runs the section of a client's seat. Then publishes a snapshot of what the seat has seen, unless memory runs out
    /// for that.
    fn client(&self, seat: Seat<State>) -> Result<(Seat<State>, Answers<State>), AllocError>
        requires { IsReady self.now.head.now (length self.now.sections.now) seat }
        ensures { IfOk result (λ ran. Ran (begun State.object self.now.head.now.first) self.now.head.now (lists_of self.now.sections.now) seat ran.0 ran.1.items) }
    {
        let mut seat = seat;
        let _shift = shift(self.alloc, seat.number());
        let answers = self.at_seat(&mut seat)?;
        let _published = self.head.publish_snapshot(&seat);
        self.section_gate.end(seat.number());
        Ok((seat, answers))
    }
}

impl<
    'a,
    R: Threads + Wait + Sync,
    State: Object + Send + Sync,
    G: Gate + Sync,
    S: SectionGate + Sync,
> Run<'a, R, State, G, S>
where
    State::Call: Send + Sync,
    State::Reply: Send,
{
    /// Runs the section of each other seat in a thread of its own. Their replies come after those of the first section.
    fn clients(
        &self,
        opening: Answers<State>,
        seats: Vec<Seat<State>>,
    ) -> Result<(Vec<Seat<State>>, Vec<Answers<State>>), AllocError>
        requires ready { All (IsReady self.now.head.now (length self.now.sections.now)) seats.items }
        ensures { IfOk result (λ ran. AllRan (begun State.object self.now.head.now.first) self.now.head.now (lists_of self.now.sections.now)
            opening seats.items ran.0.items ran.1.items) }
    {
        let made = thread::map_vec(
            self.rt,
            seats,
            &|seat: Seat<State>| -> Result<(Seat<State>, Answers<State>), AllocError>
                requires { IsSync R.row × IsReady self.now.head.now (length self.now.sections.now) seat }
                ensures { IfOk result (λ ran. Ran (begun State.object self.entry.now.head.now.first) self.entry.now.head.now (lists_of self.entry.now.sections.now) seat ran.0 ran.1.items) }
            { self.client(seat) },
        )?;
        separate_seats(self.alloc, opening, made)
    }

    /// Runs the first section alone, and then each other one in a thread of its own. Finally the seat of the first has
    /// seen the whole history.
    fn all(
        &self,
        opener: Seat<State>,
        seats: Vec<Seat<State>>,
    ) -> Result<(Seat<State>, Vec<Answers<State>>), AllocError>
        requires opener { (IsSeatOf self.now.head.now opener) × (seat_number opener ≡ 0) × (history_of opener ≡ []) }
        requires seats { AreNew self.now.head.now seats.items }
        requires as_many { length seats.items + 1 ≡ length self.now.sections.now }
        ensures seat { IfOk result (λ ran. IsSeatOf self.now.head.now ran.0) }
        ensures number { IfOk result (λ ran. seat_number ran.0 ≡ 0) }
        ensures shared { IfOk result (λ ran. IsShared (begun State.object self.now.head.now.first) (self.now.head.now.tries) (lists_of self.now.sections.now)
            (lists_of ran.1.items) (history_of ran.0)) }
    {
        let mut opener = opener;
        let opening = self.at_seat(&mut opener)?;
        self.section_gate.end(opener.number());
        let (seats, opener) = synchronise_each_with::<State>(self.alloc, self.head, seats, opener)?;
        let (seats, answers) = self.clients(opening, seats)?;
        let opener = synchronise_with_all::<State>(self.alloc, self.head, opener, seats)?;
        // The clauses of this call show the prover that what the seat has seen is legal.
        let _number = opener.number();
        Ok((opener, answers))
    }
}

/// Allocates bytes that a client keeps and never uses, of a size that differs among eight seats, to shift the client's
/// later allocations. Threads allocate from heaps that begin at multiples of 64 megabytes; without the shift, what
/// clients allocate in the same order would map to the same sets of the processor's caches.
fn shift(alloc: Global, seat: u32) -> Option<Vec<u8>> {
    Vec::with_capacity(alloc, (seat % 8 * 4_160) as usize).ok()
}

/// Runs a section of calls at the desk of a head. It is a function of its own for the prover only: it states the
/// clauses of any desk for this one.
fn at_desk<'r, 'h, 's, 'g, R: Wait, State: Object, G: Gate>(
    alloc: Global,
    desk: &mut HeadDesk<'r, 'h, 's, 'g, R, State, G>,
    calls: &[State::Call],
) -> Result<Answers<State>, AllocError>
    requires room { length (own (seat_number desk.old.seat.now) (history_of desk.old.seat.now)) + count_by State.object.is_writing calls.now
        ≤ calls_per_seat desk.old.head.now }
    ensures head { desk.new.head.now ≡ desk.old.head.now }
    ensures lends { desk.new.seat.ghost_name ≡ desk.old.seat.ghost_name }
    ensures seat { IsSeatOf desk.new.head.now desk.new.seat.now }
    ensures number { seat_number desk.new.seat.now ≡ seat_number desk.old.seat.now }
    ensures section { IfOk result (λ answers. Section (SectionStep (begun State.object desk.old.head.now.first) (caller_at desk.old.head.now desk.old.seat.now))
        (history_of desk.old.seat.now) calls.now answers.items (history_of desk.new.seat.now)) }
{
    ask_all(alloc, desk, calls)
}

/// True if the first of these calls writes.
fn begins_with_writing<State: Object>(calls: &[State::Call]) -> bool {
    match calls.first() {
        Some(call) => State::is_writing(call),
        None => false,
    }
}

/// Returns the greatest number of calls of one section that write, at least 1.
fn most_writing<State: Object>(sections: &[Vec<State::Call>]) -> u32
    requires { All (λ calls. count_by State.object.is_writing calls.items ≤ most_calls) sections.now }
    ensures room { All (λ calls. count_by State.object.is_writing calls.items ≤ result) sections.now }
    ensures range { (0 < result) × (result ≤ most_calls) }
{
    let mut most = 1;
    for calls in sections {
        most = most.max(writing::<State>(calls));
    }
    most
}

/// Counts the calls of a section that write.
fn writing<State: Object>(calls: &[State::Call]) -> u32
    requires { count_by State.object.is_writing calls.now ≤ most_calls }
    ensures { result ≡ count_by State.object.is_writing calls.now }
{
    let mut count = 0;
    for call in calls {
        if State::is_writing(call) {
            count += 1;
        }
    }
    count
}

/// Makes a head and its seats.
fn open<State: Object>(
    alloc: Global,
    first: State,
    seats: u32,
    per_seat: u32,
    tries: u32,
    every: u32,
) -> Result<(Head<State>, Vec<Seat<State>>), AllocError>
    requires first { IsFirst State.object first }
    requires range { AreHeadSizes seats per_seat tries every }
    ensures { IfOk result (λ made. IsOpened first seats per_seat tries made.0 made.1.items) }
{
    match Head::begun(alloc, first, seats, per_seat, tries, every) {
        Ok(made) => Ok(made),
        Err(HeadFault::Memory) => Err(AllocError),
        Err(HeadFault::BadSize) => unreachable!(),
    }
}
