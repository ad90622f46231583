//! Members of a log, each with the number and the text that it returned last.
ghost use Rattle.std.specs.Prelude.{◌≡◌, ◌↔◌, ◌<◌, ◌+◌, [], false, Some, length, IfErr, IfOk, IsTrue, OnErr, OnOk};
ghost use Rattle.camp_member.specs.Members.{without_reply};
ghost use Rattle.camp_member.specs.Telling.{MemberAdvances};
ghost use Rattle.camp_member.specs.Wanting.{IsStopped};
ghost use Rattle.camp_member.specs.declared.requests.NoReply.TheVariants as no_reply;
ghost use Rattle.camp_object.specs.Histories.{replay};
ghost use Rattle.camp_shared.specs.Asking.{AsksText, EndsTexts, FindsText, RestoresText};
ghost use Rattle.camp_shared.specs.Sharing.{IsNotOpened, shared_from};
ghost use Rattle.camp_shared_session.specs.Sessions.{IsOpenedSession, IsRenderedAnswer, IsSplitWant, KeepsOutput, RendersCall, ReturnsWant, TakesAnswer};

use crate::{Answered, AskFault, NoReply, OpenFault, ReadFault, Wanted};
use camp_entries::{EntryFault, noted_text};
use camp_repo::{Reply, State};
use camp_script::reply_text;
use camp_shared::{SharedRepository, TextWant};
use std::alloc::{AllocError, Global};
use std::marker::Model;

/// A member of a log that shares a repository, with the number and the text that it returned last. Contracts see it as
/// `MemberSession`.
#[derive(Drop)]
pub struct SharedSession {
    shared: SharedRepository,
    number: u64,
    text: Vec<u8>,
}

impl Model for SharedSession {
    ghost use Rattle.std.specs.Coded.{codes};
    ghost use Rattle.camp_base.specs.declared.trees.Tree.{the_code as code_of_trees};
    ghost use Rattle.camp_ctx.specs.declared.sets.CtxSet.{the_code as code_of_sets};
    ghost use Rattle.camp_shared_session.specs.Sessions.{MemberSession};

    ghost Value = { MemberSession };

    ghost coded = { Prim.hlevel (codes, code_of_sets, code_of_trees) };

    ghost view = { λ session. record { member = session.shared; number = session.number; text = session.text.items } };
}

impl SharedSession {
    /// Makes a member of a seat that no other process has, over the log whose first entry has this text. Its history
    /// begins with a new repository with the limits of that title. The number is 0, and the text is empty.
    pub fn new(alloc: Global, seat: u128, title: &[u8]) -> Result<SharedSession, OpenFault>
        ensures opened { IfOk result (IsOpenedSession title.now seat) }
        ensures fault { IfErr result (IsNotOpened title.now) }
    {
        let shared = SharedRepository::new(alloc, seat, title)?;
        Ok(SharedSession {
            shared,
            number: 0,
            text: Vec::new(alloc),
        })
    }

    /// Takes another seat, which no other process has, unless a request waits: for a process that was forked. True if
    /// it did.
    pub fn take_seat(&mut self, seat: u128) -> bool
        ensures takes { IsTrue result → self.new.member ≡ record self.old.member { seat = seat } }
        ensures stays { result ≡ false → self.new ≡ self.old }
        ensures exact { IsTrue result ↔ (self.old.member.waiting ≡ []) }
        ensures keeps { KeepsOutput self.old self.new }
    {
        self.shared.take_seat(seat)
    }

    /// Queues a call under a number of the caller's, to be answered when the history has `at_least` accepted calls or
    /// more: a question or a command in canonical form, after its note if it has one.
    pub fn ask(
        &mut self,
        alloc: Global,
        id: u64,
        text: &[u8],
        at_least: u64,
    ) -> Result<(), AskFault>
        ensures asks { AsksText id text.now at_least self.old.member result self.new.member }
        ensures keeps { KeepsOutput self.old self.new }
    {
        self.shared.ask(alloc, id, text, at_least)
    }

    /// Answers the first requests that can be answered at what was read, and returns what the member wants of the log:
    /// the number is the index to read from, or that of the entry to append, which is the text. If memory runs out, the
    /// entry under way stays, and so do the answers.
    pub fn want(&mut self, alloc: Global) -> Result<Wanted, AllocError>
        ensures wants { IfOk result (λ wanted. ReturnsWant self.old.member wanted self.new) }
        ensures stays { 0 < self.old.member.sent → self.new.member ≡ self.old.member }
        ensures reading { self.new.member.reading ≡ self.old.member.reading }
        ensures is_stopped { self.new.member.is_stopped ≡ self.old.member.is_stopped }
        ensures goes { MemberAdvances (shared_from self.old.member.reading.first) (IsStopped (shared_from self.old.member.reading.first) self.old.member) self.old.member self.new.member }
        ensures keeps { OnErr result (KeepsOutput self.old self.new) }
    {
        let want = self.shared.want(alloc)?;
        let (wanted, number, text) = split_want(alloc, want);
        self.set_output(number, text);
        Ok(wanted)
    }

    // Sets the number and the text.
    fn set_output(&mut self, number: u64, text: Vec<u8>)
        ensures { self.new ≡ record self.old { number = number; text = text.items } }
    {
        self.number = number;
        self.text = text;
    }

    /// Reads the text of the entry at an index of the log, in order; the title has index 0. Skips what was read before.
    /// Answers the requests of the entry under way if it is this one. What is no entry of a member, or is one of
    /// another process with this seat, stops the member. If memory runs out, the member is unchanged.
    pub fn found(&mut self, alloc: Global, index: usize, text: &[u8]) -> Result<(), ReadFault>
        ensures finds { FindsText self.old.member index text.now result self.new.member }
        ensures goes { MemberAdvances (shared_from self.old.member.reading.first) (λ _ _. ⊥) self.old.member self.new.member }
        ensures keeps { KeepsOutput self.old self.new }
    {
        self.shared.found(alloc, index, text)
    }

    /// Restores the text that a snapshot of the log has at an index, in order; the title has index 0. Entries before it
    /// may be missing. The member continues after that index. A text that is no entry, or one of this seat, is foreign, and
    /// so is all after the member has stopped. After a fault the member is unchanged.
    pub fn restore(&mut self, alloc: Global, index: usize, text: &[u8]) -> Result<(), ReadFault>
        ensures restores { RestoresText self.old.member index text.now result self.new.member }
        ensures goes { MemberAdvances (shared_from self.old.member.reading.first) (λ _ _. ⊥) self.old.member self.new.member }
        ensures keeps { KeepsOutput self.old self.new }
    {
        self.shared.restore(alloc, index, text)
    }

    /// Reports that the log has refused the entry under way, which will never be in it: its requests get no reply, for
    /// that reason. If memory runs out, the member is unchanged.
    pub fn refused(&mut self) -> Result<(), AllocError>
        ensures refused { OnOk result (self.new.member ≡ without_reply no_reply.Refused self.old.member) }
        ensures stays { OnErr result (self.new ≡ self.old) }
        ensures goes { MemberAdvances (shared_from self.old.member.reading.first) (λ _ why. why ≡ no_reply.Refused) self.old.member self.new.member }
        ensures keeps { KeepsOutput self.old self.new }
    {
        self.shared.refused()
    }

    /// Reports that the log ends at an index: it has as many entries, with its title. If the member has read all of it
    /// and the first request waits for more accepted calls, that request gets no reply. If memory runs out, the member
    /// is unchanged.
    pub fn ended(&mut self, index: usize) -> Result<(), AllocError>
        ensures ends { OnOk result (EndsTexts self.old.member index self.new.member) }
        ensures stays { OnErr result (self.new ≡ self.old) }
        ensures goes { MemberAdvances (shared_from self.old.member.reading.first) (λ _ why. why ≡ no_reply.Ended) self.old.member self.new.member }
        ensures keeps { KeepsOutput self.old self.new }
    {
        self.shared.ended(index)
    }

    /// Removes the next answer, in the order of the requests, and returns its kind: the number is that of its request,
    /// and the text is the reply. If memory runs out, nothing changes.
    pub fn answer(&mut self, alloc: Global) -> Result<Answered, AllocError>
        ensures takes { IfOk result (λ answered. TakesAnswer self.old answered self.new) }
        ensures stays { OnErr result (self.new ≡ self.old) }
    {
        let Some((id, answer)) = self.shared.member().answers().first() else {
            return Ok(Answered::Nothing);
        };
        let id = *id;
        let (answered, text) = render_answer(alloc, answer)?;
        self.shared.answer();
        self.set_output(id, text);
        Ok(answered)
    }

    /// Renders the accepted call at an index of the history, after its note, as the text. False if there is none, or if
    /// no log can contain it.
    pub fn call(&mut self, alloc: Global, at: usize) -> Result<bool, AllocError>
        ensures renders { IfOk result (λ found. RendersCall self.old at found self.new) }
        ensures stays { OnErr result (self.new ≡ self.old) }
    {
        let Some((_seat, call)) = self.shared.member().reader().history().get(at) else {
            return Ok(false);
        };
        match noted_text(alloc, call) {
            Ok(text) => {
                self.set_output(at as u64, text);
                Ok(true)
            }
            Err(EntryFault::Memory) => Err(AllocError),
            Err(EntryFault::Unfit) => Ok(false),
        }
    }

    /// Returns the last number: the index to read from, or that of an entry to append, of a request, or of an accepted
    /// call; at first 0.
    pub fn number(&self) -> u64
        ensures exact { result ≡ self.now.number }
    {
        self.number
    }

    /// Returns the last text: that of an entry to append, a reply, or an accepted call; at first it is empty.
    pub fn text(&self) -> &[u8]
        ensures exact { result.now ≡ self.now.text }
    {
        &self.text
    }

    /// Returns the index in the log of the entry that it reads next; the title has index 0.
    pub fn index(&self) -> usize
        ensures exact { result ≡ self.now.member.reading.index + 1 }
    {
        self.shared.index()
    }

    /// Returns the number of accepted calls in what was read.
    pub fn accepted(&self) -> u64
        ensures exact { result ≡ length self.now.member.reading.history }
    {
        self.shared.member().reader().position()
    }

    /// True if it has stopped: it has found a text that is no entry, or the entry of another process with its seat.
    pub fn is_stopped(&self) -> bool
        ensures exact { result ≡ self.now.member.is_stopped }
    {
        self.shared.member().is_stopped()
    }

    /// Returns the repository after all accepted calls that it has read.
    pub fn state(&self) -> &State
        ensures exact { replay (shared_from self.now.member.reading.first) self.now.member.reading.history ≡ Some result.now }
    {
        self.shared.state()
    }
}

// Returns the kind of what is wanted, its number and its text.
fn split_want(alloc: Global, want: TextWant) -> (Wanted, u64, Vec<u8>)
    ensures { IsSplitWant want result.0 result.1 result.2.items }
{
    match want {
        TextWant::Nothing => (Wanted::Nothing, 0, Vec::new(alloc)),
        TextWant::Read { from } => (Wanted::Read, from as u64, Vec::new(alloc)),
        TextWant::Append { number, text } => (Wanted::Append, number, text),
    }
}

// Returns the kind of an answer, and the text of the reply if it is one.
fn render_answer(
    alloc: Global,
    answer: &Result<Reply, NoReply>,
) -> Result<(Answered, Vec<u8>), AllocError>
    ensures { IfOk result (λ rendered. IsRenderedAnswer answer.now rendered.0 rendered.1.items) }
{
    match answer {
        Ok(reply) => Ok((Answered::Reply, reply_text(alloc, reply)?)),
        Err(why) => Ok((Answered::Without(*why), Vec::new(alloc))),
    }
}
