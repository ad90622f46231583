//! Repositories as they were at one moment.
ghost use Rattle.std.specs.Prelude.{◌≡◌, [], IfOk, length};
ghost use Rattle.camp_talk.specs.Sessions.{Sees};

use crate::{TalkFault, answer_view};
use camp_repo::State;
use std::alloc::{AllocError, Global};
use std::marker::Model;

/// The state of a repository at one moment, and the answer to the last text.
#[derive(Drop)]
pub struct View {
    state: State,
    answer: Vec<u8>,
}

impl Model for View {
    ghost use Rattle.std.specs.Coded.{codes};
    ghost use Rattle.camp_ctx.specs.declared.sets.CtxSet.{the_code as code_of_sets};
    ghost use Rattle.camp_talk.specs.Sessions.{Snapshot};

    ghost Value = { Snapshot };

    ghost coded = { Prim.hlevel (codes, code_of_sets) };

    ghost view = { λ view. record { state = view.state; answer = view.answer.items } };
}

impl View {
    /// Makes a view of a state, which it shares.
    pub fn of(alloc: Global, state: &State) -> Result<View, AllocError>
        ensures shows { IfOk result (λ view. view ≡ record { state = state.now; answer = [] }) }
    {
        let state = state.try_clone()?;
        Ok(View {
            state,
            answer: Vec::new(alloc),
        })
    }

    /// Asks the questions of a text. The state is unchanged; if memory runs out, the answer is empty.
    pub fn ask(&mut self, alloc: Global, text: &[u8]) -> Result<(), TalkFault>
        ensures sees { Sees self.old text.now result self.new }
    {
        self.answer.clear();
        answer_view(alloc, &self.state, text, &mut self.answer)
    }

    /// Returns the answer to the last text; at first it is empty.
    pub fn answer(&self) -> &[u8]
        ensures answer { result.now ≡ self.now.answer }
    {
        &self.answer
    }

    /// Sets `at` to the first byte of the answer, which stays there until the next text, and returns the number of
    /// bytes.
    pub fn lend_answer(&self, at: &mut *const u8) -> usize
        ensures length { result ≡ length self.now.answer }
    {
        *at = self.answer.as_ptr();
        self.answer.len()
    }

    /// Makes one more view of the same state.
    pub fn again(&self, alloc: Global) -> Result<View, AllocError>
        ensures again { IfOk result (λ view. view ≡ record { state = self.now.state; answer = [] }) }
    {
        View::of(alloc, &self.state)
    }
}
