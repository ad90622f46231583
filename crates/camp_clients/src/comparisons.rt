//! Comparing a history with the replies of its sections.
ghost use Rattle.std.specs.Prelude.{◌≡◌, ◌↔◌, ◌+◌, ◌<◌, ◌≤◌, [], ◌∷◌, length, drop, IsTrue, MatchOption};
ghost use Rattle.std.specs.Bool.{MatchBool};
ghost use Rattle.camp_clients.specs.Answers.{reported_position};
ghost use Rattle.camp_clients.specs.Comparing.{Differs, Matches, left_from};
ghost use Rattle.camp_clients.specs.Positions.{done_at};
ghost use Rattle.camp_clients.specs.Runs.{IsExactly, lists_of};
ghost use Rattle.camp_clients.specs.Sections.{most_run_sections};

use camp_object::{Fault, Object};

/// The most sections of a run.
pub const MAX_SECTIONS: usize = 64;

/// True if a history has exactly the calls that the replies report as accepted, at the positions that these report,
/// each with the number of its section. Makes one pass over the history and the replies.
pub fn has_exactly<State: Object>(
    history: &[(u32, State::Call)],
    sections: &[Vec<State::Call>],
    answers: &[Vec<Result<State::Reply, Fault>>],
) -> bool
    requires few { length sections.now ≤ most_run_sections }
    requires as_many { length answers.now ≡ length sections.now }
    ensures exact { IsTrue result ↔
        IsExactly (reported_position State.object) (lists_of sections.now) (lists_of answers.now) history.now }
{
    let mut indexes = [0; MAX_SECTIONS];
    for (before, entry) in history.iter().enumerate() {
        if !matches_next::<State>(before as u64 + 1, entry, sections, answers, &mut indexes) {
            return false;
        }
    }
    for seat in 0..sections.len() {
        if !is_used_up::<State>(sections, answers, seat, indexes[seat]) {
            return false;
        }
    }
    true
}

/// True if an entry of the history is the next accepted call of its section, and the reply has its position; then moves
/// the section's index to after that call.
fn matches_next<State: Object>(
    at: u64,
    entry: &(u32, State::Call),
    sections: &[Vec<State::Call>],
    answers: &[Vec<Result<State::Reply, Fault>>],
    indexes: &mut [usize],
) -> bool
    requires few { length sections.now ≤ length indexes.old }
    requires as_many { length answers.now ≡ length sections.now }
    ensures { MatchBool result
        (Matches (reported_position State.object) (lists_of sections.now) (lists_of answers.now) at entry.now indexes.old indexes.new)
        (Differs (reported_position State.object) (lists_of sections.now) (lists_of answers.now) at entry.now indexes.old) }
{
    let seat = entry.0 as usize;
    if seat >= sections.len() {
        return false;
    }
    match next_done::<State>(&sections[seat], &answers[seat], indexes[seat]) {
        None => false,
        Some((index, reported, call)) => {
            if reported != at {
                return false;
            }
            if !State::is_same(call, &entry.1) {
                return false;
            }
            indexes[seat] = index;
            true
        }
    }
}

/// True if no call of a section was accepted from an index on.
fn is_used_up<State: Object>(
    sections: &[Vec<State::Call>],
    answers: &[Vec<Result<State::Reply, Fault>>],
    seat: usize,
    from: usize,
) -> bool
    requires is_section { seat < length sections.now }
    requires as_many { length answers.now ≡ length sections.now }
    ensures { IsTrue result ↔
        (left_from (reported_position State.object) (lists_of sections.now) (lists_of answers.now) seat from ≡ []) }
{
    next_done::<State>(&sections[seat], &answers[seat], from).is_none()
}

/// Returns the first accepted call of a section from an index on: the index after it, its position, and the call.
fn next_done<'a, State: Object>(
    calls: &'a [State::Call],
    answers: &[Result<State::Reply, Fault>],
    from: usize,
) -> Option<(usize, u64, &'a State::Call)>
    ensures { MatchOption result
        (done_at (reported_position State.object) (drop from calls.now) (drop from answers.now) ≡ [])
        (λ found. done_at (reported_position State.object) (drop from calls.now) (drop from answers.now)
        ≡ (found.1, found.2.now) ∷ done_at (reported_position State.object) (drop found.0 calls.now) (drop found.0 answers.now)) }
{
    for index in from..calls.len().min(answers.len()) {
        let call = &calls[index];
        if let Some(at) = reported_position::<State>(&answers[index]) {
            return Some((index + 1, at, call));
        }
    }
    None
}

/// Returns the position in a reply to an accepted call.
fn reported_position<State: Object>(answer: &Result<State::Reply, Fault>) -> Option<u64>
    ensures { result ≡ reported_position State.object answer.now }
{
    match answer {
        Ok(reply) => State::done_at(reply),
        Err(_) => None,
    }
}
