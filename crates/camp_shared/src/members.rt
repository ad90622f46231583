//! A member of a log that shares a repository.
ghost use Rattle.std.specs.Prelude.{◌≡◌, ◌↔◌, ◌+◌, ◌++◌, ◌∷◌, [], false, Some, IfErr, IfOk, IsTrue, MatchOption, OnErr, OnOk};
ghost use Rattle.camp_member.specs.Members.{without_reply};
ghost use Rattle.camp_member.specs.Telling.{MemberAdvances};
ghost use Rattle.camp_member.specs.declared.requests.NoReply.TheVariants as no_reply;
ghost use Rattle.camp_object.specs.Histories.{replay};
ghost use Rattle.camp_shared.specs.Asking.{AsksText, EndsTexts};
ghost use Rattle.camp_shared.specs.Sharing.{IsNotOpened, IsOpenedLog, shared_from};

use crate::{AskFault, OpenFault};
use camp_entries::{parse_log_title, parse_noted_call};
use camp_member::{Member, NoReply, NotedCall, Noting, Request};
use camp_repo::{Reply, State, first_state};
use std::alloc::{AllocError, Global};
use std::marker::Model;

/// The most bytes that the calls of an entry have, with their notes: the most bytes of an entry less those of its first
/// line.
pub const MAX_CALL_BYTES: usize = 1_048_516;

/// A member of a log that shares a repository with others: it is given the texts of entries, and returns those to
/// append. Contracts see it as `Membership`.
#[derive(Drop)]
pub struct SharedRepository {
    pub(crate) member: Member<Noting<State>>,
}

impl Model for SharedRepository {
    ghost use Rattle.std.specs.Coded.{codes};
    ghost use Rattle.camp_base.specs.declared.trees.Tree.{the_code as code_of_trees};
    ghost use Rattle.camp_ctx.specs.declared.sets.CtxSet.{the_code as code_of_sets};
    ghost use Rattle.camp_shared.specs.Inside.{HasRoomForTexts};
    ghost use Rattle.camp_shared.specs.Sharing.{Sharing};

    ghost Value = { Sharing };

    ghost coded = { Prim.hlevel (codes, code_of_sets, code_of_trees) };

    ghost view = { λ shared. shared.member };

    ghost invariant = { λ shared. HasRoomForTexts shared.member };
}

impl SharedRepository {
    /// Makes a member of a seat that no other process has, over the log whose first entry has this text. Its history
    /// begins with a new repository with the limits of that title.
    pub fn new(alloc: Global, seat: u128, title: &[u8]) -> Result<SharedRepository, OpenFault>
        ensures opened { IfOk result (IsOpenedLog title.now seat) }
        ensures fault { IfErr result (IsNotOpened title.now) }
    {
        let Some(limits) = parse_log_title(alloc, title)? else {
            return Err(OpenFault::NoTitle);
        };
        let first = Noting::new(first_state(alloc, limits)?);
        Ok(SharedRepository {
            member: Member::new(alloc, first, seat),
        })
    }

    /// Returns the member: its history, with the notes, the waiting requests, and whether it has stopped. Its indexes
    /// do not count the title.
    pub fn member(&self) -> &Member<Noting<State>>
        ensures exact { result.now ≡ self.now }
    {
        &self.member
    }

    /// Returns the index in the log of the entry that it reads next; the title has index 0.
    pub fn index(&self) -> usize
        ensures exact { result ≡ self.now.reading.index + 1 }
    {
        self.member.reader().index() + 1
    }

    /// Returns the repository after all accepted calls that it has read.
    pub fn state(&self) -> &State
        ensures exact { replay (shared_from self.now.reading.first) self.now.reading.history ≡ Some result.now }
    {
        self.member.reader().state().state()
    }

    /// Takes another seat, which nobody else has, unless a request waits: for a process that was forked. True if it
    /// did.
    pub fn take_seat(&mut self, seat: u128) -> bool
        ensures takes { IsTrue result → self.new ≡ record self.old { seat = seat } }
        ensures stays { result ≡ false → self.new ≡ self.old }
        ensures exact { IsTrue result ↔ (self.old.waiting ≡ []) }
    {
        self.member.take_seat(seat)
    }

    /// Queues a call under a number that the caller chooses, to be answered when the history has `at_least` accepted
    /// calls or more: a question or a command in canonical form, after its note if it has one.
    pub fn ask(
        &mut self,
        alloc: Global,
        id: u64,
        text: &[u8],
        at_least: u64,
    ) -> Result<(), AskFault>
        ensures asks { AsksText id text.now at_least self.old result self.new }
    {
        if text.len() > MAX_CALL_BYTES {
            return Err(AskFault::TooLong);
        }
        let Some(call) = parse_noted_call(alloc, text)? else {
            return Err(AskFault::NoCall);
        };
        let _waiting = self.member.waiting();
        self.member.ask(Request { id, call, at_least })?;
        Ok(())
    }

    /// Removes the next answer, in the order of the requests, and returns it with the number of its request.
    pub fn answer(&mut self) -> Option<(u64, Result<Reply, NoReply>)>
        ensures exact { MatchOption result
            ((self.old.answers ≡ []) × (self.new ≡ self.old))
            (λ answer. self.old ≡ record self.new { answers = answer ∷ self.new.answers }) }
    {
        self.member.answer()
    }

    /// Reports that the log has refused the entry under way, which will never be in it: its requests get no reply, for
    /// that reason. If memory runs out, the member is unchanged.
    pub fn refused(&mut self) -> Result<(), AllocError>
        ensures refused { OnOk result (self.new ≡ without_reply no_reply.Refused self.old) }
        ensures stays { OnErr result (self.new ≡ self.old) }
        ensures goes { MemberAdvances (shared_from self.old.reading.first) (λ _ why. why ≡ no_reply.Refused) self.old self.new }
    {
        self.member.refused()
    }

    /// Reports that the log ends at an index: it has as many entries, with its title. If the member has read all of it
    /// and the first request waits for more accepted calls, that request gets no reply. If memory runs out, the member
    /// is unchanged.
    pub fn ended(&mut self, index: usize) -> Result<(), AllocError>
        ensures ends { OnOk result (EndsTexts self.old index self.new) }
        ensures stays { OnErr result (self.new ≡ self.old) }
        ensures goes { MemberAdvances (shared_from self.old.reading.first) (λ _ why. why ≡ no_reply.Ended) self.old self.new }
    {
        if index == 0 {
            return Ok(());
        }
        self.member.ended(index - 1)
    }
}
