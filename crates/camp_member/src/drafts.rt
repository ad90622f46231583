//! Decides the calls of an entry before any of them is added to the history.
ghost use Rattle.std.specs.Prelude.{◌≡◌, ◌+◌, OnOk, IfOk, IfSome};
ghost use Rattle.std.specs.Option.{unwrap_or};
ghost use Rattle.camp_object.specs.Objects.{begun};

use camp_object::{Decided, Object};
use std::alloc::{AllocError, Global};
use std::marker::Model;

/// The decisions on calls of one seat: the state after the accepted calls if there are any, the accepted calls, and the
/// reply to each call.
#[derive(Drop)]
pub(crate) struct Draft<State: Object> {
    pub(crate) next: Option<State>,
    pub(crate) accepted: Vec<(u128, State::Call)>,
    pub(crate) replies: Vec<State::Reply>,
}

impl<State: Object> Model for Draft<State> {
    ghost use Rattle.camp_member.specs.Inside.Drafts.{Drafted};

    ghost Value = { Drafted State State.Call State.Reply };

    ghost view = { λ draft. record { next = draft.next; accepted = draft.accepted.items; replies = draft.replies.items } };
}

impl<State: Object> Draft<State> {
    ghost use Rattle.camp_member.specs.Inside.Drafts.{CountsEach, DecidesOne, DraftsAll};

    /// Decides calls of a seat one after another, from the state after `before` calls.
    pub(crate) fn of_calls(
        alloc: Global,
        state: &State,
        before: u64,
        seat: u128,
        calls: &[State::Call],
    ) -> Result<Draft<State>, AllocError>
        requires { State.object.count state.now ≡ before }
        ensures { IfOk result (λ draft. (first : State) → DraftsAll (begun State.object first) state.now before seat calls.now draft) }
    {
        let mut draft = Draft {
            next: None,
            accepted: Vec::new(alloc),
            replies: Vec::new(alloc),
        };
        for call in calls {
            draft.decide(state, before, seat, call)?;
        }
        Ok(draft)
    }

    // Decides one more call.
    fn decide(
        &mut self,
        begun: &State,
        before: u64,
        seat: u128,
        call: &State::Call,
    ) -> Result<(), AllocError>
        requires { CountsEach State.object begun.now before self.old }
        ensures counts { OnOk result (CountsEach State.object begun.now before self.new) }
        ensures decides { OnOk result (DecidesOne State.object begun.now before self.old seat call.now self.new) }
    {
        let Some(position) = position_after(before, self.accepted.len()) else {
            return Err(AllocError);
        };
        self.replies.reserve(1)?;
        let state = self.next.as_ref().unwrap_or(begun);
        match state.decide(call)? {
            Decided::Answer(reply) => self.replies.push_reserved(reply),
            Decided::Next(next) => {
                self.accepted.push((seat, State::copy(call)?))?;
                self.replies.push_reserved(State::done(position));
                self.next = Some(next);
            }
        }
        Ok(())
    }
}

// Returns the position of the call after `before` calls and `more` others, `before + more + 1`; `None` if that
// overflows.
fn position_after(before: u64, more: usize) -> Option<u64>
    ensures { IfSome result (λ position. position ≡ before + more + 1) }
{
    before.checked_add(more as u64)?.checked_add(1)
}
