//! Callers of `camp_head`: one repository, at several seats.
ghost use Rattle.std.specs.Prelude.{◌≡◌, IfOk, MatchOption, OnOk};
ghost use Rattle.camp_object.specs.Histories.{IsBeginning, own};
ghost use Rattle.camp_history.specs.StoredCalls.{IsStoredIn};
ghost use Rattle.camp_history.specs.Seats.{IsSeatOf, history_of, seat_number};
ghost use Rattle.camp_uses.specs.Shared.{AddsIfDone, HistoryHasTree, HistoryLacksBranch, tree_in};

use camp_base::{Name, Tree};
use camp_head::{Fault, Head, Kept, Seat};
use camp_repo::{Call, Reply, histories_tell_trees};
use std::sync::Wait;

/// The state of two seats after a call at each, with the two answers.
#[derive(Drop)]
pub struct Synchronised {
    pub first: Seat,
    pub second: Seat,
    pub first_answer: Result<Reply, Fault>,
    pub second_answer: Result<Reply, Fault>,
    pub synchronised: Result<(), Fault>,
}

/// Asks for the tree of a branch: `None` if there is no such branch, else the effects of the branch's catches, applied
/// to the empty tree. The answer holds at the end of the history that the seat has seen, which has no new call of this
/// seat.
pub fn tree_at(
    rt: &impl Wait,
    head: &Head,
    seat: &mut Seat,
    branch: &Name,
) -> Result<Option<Tree>, Fault>
    requires { IsSeatOf head.now seat.old }
    ensures seat { IsSeatOf head.now seat.new }
    ensures grows { IsBeginning (history_of seat.old) (history_of seat.new) }
    ensures own { own (seat_number seat.old) (history_of seat.new) ≡ own (seat_number seat.old) (history_of seat.old) }
    ensures tree { IfOk result (λ found. MatchOption found
        (HistoryLacksBranch head.now.first.limits (history_of seat.new) branch.now)
        (HistoryHasTree head.now.first.limits (history_of seat.new) branch.now)) }
{
    histories_tell_trees();
    // The clauses of this call show the prover what the history begins with.
    let _number = seat.number();
    let kept = head.keep(rt, &Call::Tree(*branch))?;
    let reply = head.ask(seat, kept)?;
    Ok(tree_in(reply))
}

/// Returns the tree in a reply.
fn tree_in(reply: Reply) -> Option<Tree>
    ensures exact { result ≡ tree_in reply }
{
    match reply {
        Reply::Tree(tree) => Some(tree),
        _ => None,
    }
}

/// Asks a call at each of two seats, and synchronises the first with the second. Each seat has its own calls as its
/// answers say; if `synchronised` is Ok, the first has seen what the second has.
pub fn ask_and_synchronise(
    head: &Head,
    first: Seat,
    second: Seat,
    one: Kept,
    two: Kept,
) -> Synchronised
    requires seats { IsSeatOf head.now first × IsSeatOf head.now second }
    requires kept { IsStoredIn head.now one × IsStoredIn head.now two }
    ensures first { AddsIfDone (own (seat_number first) (history_of first)) one.call result.first_answer (own (seat_number first) (history_of result.first)) }
    ensures second { AddsIfDone (own (seat_number second) (history_of second)) two.call result.second_answer (own (seat_number second) (history_of result.second)) }
    ensures one_history { OnOk result.synchronised (IsBeginning (history_of result.second) (history_of result.first)) }
{
    let mut first = first;
    let mut second = second;
    let first_answer = head.ask(&mut first, one);
    let second_answer = head.ask(&mut second, two);
    let (first, second, synchronised) = head.meet(first, second);
    Synchronised {
        first,
        second,
        first_answer,
        second_answer,
        synchronised,
    }
}
