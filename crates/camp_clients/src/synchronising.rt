//! Synchronises the seats of a run before its threads start and after they were joined.
ghost use Rattle.std.specs.Prelude.{◌≡◌, IfOk};
ghost use Rattle.std.specs.List.{All, AllZip};
ghost use Rattle.camp_object.specs.Histories.{IsBeginning, own};
ghost use Rattle.camp_history.specs.Seats.{IsSeatOf, history_of, seat_number};
ghost use Rattle.camp_clients.specs.Synchronising.{IsSynchronised, HasAllOfSeat, WasSynchronised};

use camp_history::{Head, Seat};
use camp_object::Object;
use std::alloc::{AllocError, Global};

/// Synchronises each seat with another one: it then has seen all that the other has.
pub(crate) fn synchronise_each_with<State: Object>(
    alloc: Global,
    head: &Head<State>,
    seats: Vec<Seat<State>>,
    opener: Seat<State>,
) -> Result<(Vec<Seat<State>>, Seat<State>), AllocError>
    requires opener { IsSeatOf head.now opener }
    requires seats { All (IsSeatOf head.now) seats.items }
    ensures seat { IfOk result (λ synchronised. IsSeatOf head.now synchronised.1) }
    ensures number { IfOk result (λ synchronised. seat_number synchronised.1 ≡ seat_number opener) }
    ensures seen { IfOk result (λ synchronised. history_of synchronised.1 ≡ history_of opener) }
    ensures seats { IfOk result (λ synchronised. AllZip (IsSynchronised head.now (history_of opener)) seats.items synchronised.0.items) }
{
    let mut all = Vec::with_capacity(alloc, seats.len())?;
    let mut known = opener;
    for seat in seats {
        let (seat, other, answer) = head.meet(seat, known);
        known = other;
        all.push_reserved(seat);
        if answer.is_err() {
            return Err(AllocError);
        }
    }
    Ok((all, known))
}

/// Synchronises a seat with each of the others, one after the other. Also returns the number of calls that it had seen
/// after it was synchronised with the first of the others; 0 if there are no others.
fn synchronise_with_each<State: Object>(
    alloc: Global,
    head: &Head<State>,
    opener: Seat<State>,
    seats: Vec<Seat<State>>,
) -> Result<(Seat<State>, Vec<Seat<State>>, u64), AllocError>
    requires opener { IsSeatOf head.now opener }
    requires seats { All (IsSeatOf head.now) seats.items }
    ensures seat { IfOk result (λ synchronised. IsSeatOf head.now synchronised.0) }
    ensures number { IfOk result (λ synchronised. seat_number synchronised.0 ≡ seat_number opener) }
    ensures grows { IfOk result (λ synchronised. IsBeginning (history_of opener) (history_of synchronised.0)) }
    ensures own { IfOk result (λ synchronised. own (seat_number opener) (history_of synchronised.0) ≡ own (seat_number opener) (history_of opener)) }
    ensures seats { IfOk result (λ synchronised. AllZip (WasSynchronised head.now synchronised.2 (history_of synchronised.0)) seats.items synchronised.1.items) }
{
    let mut all = Vec::with_capacity(alloc, seats.len())?;
    let mut known = opener;
    let mut first = 0;
    for seat in seats {
        let (other, seat, answer) = head.meet(known, seat);
        if all.is_empty() {
            first = other.position();
        }
        known = other;
        all.push_reserved(seat);
        if answer.is_err() {
            return Err(AllocError);
        }
    }
    Ok((known, all, first))
}

/// Synchronises a seat with each of the others, so that it has seen all that they have. If no client's thread runs any
/// more, the first synchronisation finds the whole history. If a later one finds more, each of the other seats is
/// synchronised with it once more.
pub(crate) fn synchronise_with_all<State: Object>(
    alloc: Global,
    head: &Head<State>,
    opener: Seat<State>,
    seats: Vec<Seat<State>>,
) -> Result<Seat<State>, AllocError>
    requires opener { IsSeatOf head.now opener }
    requires seats { All (IsSeatOf head.now) seats.items }
    ensures seat { IfOk result (IsSeatOf head.now) }
    ensures number { IfOk result (λ synchronised. seat_number synchronised ≡ seat_number opener) }
    ensures grows { IfOk result (λ synchronised. IsBeginning (history_of opener) (history_of synchronised)) }
    ensures own { IfOk result (λ synchronised. own (seat_number opener) (history_of synchronised) ≡ own (seat_number opener) (history_of opener)) }
    ensures seats { IfOk result (λ synchronised. All (HasAllOfSeat (history_of synchronised)) seats.items) }
{
    let (opener, seats, first) = synchronise_with_each::<State>(alloc, head, opener, seats)?;
    if first == opener.position() {
        return Ok(opener);
    }
    let (_seats, opener) = synchronise_each_with::<State>(alloc, head, seats, opener)?;
    Ok(opener)
}
