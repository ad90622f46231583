//! What a member wants of its log.
ghost use Rattle.std.specs.Prelude.{◌≡◌, ◌≢◌, ◌<◌, ◌≤◌, ◌+◌, ◌++◌, ◌∷◌, ◌==◌, [], length, map, take, drop, true, None, Some, Err, if◌then◌else◌, OnErr, OnOk, IfOk, MatchOption};
ghost use Rattle.std.specs.Vec.{vec_capacity};
ghost use Rattle.camp_object.specs.Objects.{begun};
ghost use Rattle.camp_member.specs.Entries.{most_calls_of_entry, number_in};
ghost use Rattle.camp_member.specs.Members.{calls_asked, under_way, without_reply};
ghost use Rattle.camp_member.specs.Telling.{MemberAdvances};
ghost use Rattle.camp_member.specs.Wanting.{AfterEnd, IsAnswerTo, IsAtRest, FitsEntry, IsNeeded, IsStopped, WantsOfLog};
ghost use Rattle.camp_member.specs.declared.requests.NoReply.TheVariants as no_reply;

use crate::{Entry, MAX_CALLS, Member, NoReply, Request, Want};
use camp_object::Object;
use std::alloc::{AllocError, Global};

/// The next step of a member.
#[derive(Drop)]
pub(crate) enum Next<Reply: Drop> {
    /// To give this answer to the first request.
    Answers(Result<Reply, NoReply>),
    /// To wait until the log gives it what it needs.
    Rests(Rest),
}

/// What a member needs from the log before it can answer its first request.
#[derive(Clone, Copy)]
pub(crate) enum Rest {
    /// Nothing: no request waits.
    Nothing,
    /// More accepted calls.
    Waits,
    /// An entry with the first request, which is to be appended.
    Sends,
    /// The entry under way, which is to be found.
    UnderWay,
}

impl<State: Object> Member<State> {
    ghost use Rattle.camp_member.specs.Inside.Settling.{AnswersFirst, IsNext, IsRest, TellsEnd};
    ghost use Rattle.camp_member.specs.declared.wanting.Next.TheVariants as next;
    ghost use Rattle.camp_member.specs.declared.wanting.Rest.TheVariants as rest;

    /// Answers requests, from the first on, as long as what was read of the log is enough for that. If memory runs out,
    /// the entry under way stays, and so do the answers already given.
    pub fn answer_ready(&mut self) -> Result<(), AllocError>
        ensures rests { IfOk result (λ _. IsAtRest (begun State.object self.new.reading.first) self.new) }
        ensures stays { 0 < self.old.sent → self.new ≡ self.old }
        ensures reading { self.new.reading ≡ self.old.reading }
        ensures is_stopped { self.new.is_stopped ≡ self.old.is_stopped }
        ensures sent { self.new.sent ≡ self.old.sent }
        ensures goes { MemberAdvances (begun State.object self.old.reading.first) (IsStopped (begun State.object self.old.reading.first) self.old) self.old self.new }
    {
        self.settle()?;
        Ok(())
    }

    /// Answers requests from what was read, as `answer_ready` does, and returns what the member wants of the log. A new
    /// entry gets at most `most` calls (one if that is 0), and at most 256. An entry under way is wanted unchanged
    /// until it is found or refused. If memory runs out, the entry under way stays, and so do the answers already
    /// given.
    pub fn want(&mut self, alloc: Global, most: usize) -> Result<Want<State::Call>, AllocError>
        ensures few { self.old.sent ≡ 0 → self.new.sent ≤ (if most == 0 then 1 else most) }
        ensures rests { IsAtRest (begun State.object self.old.reading.first) self.old → self.new.waiting ≡ self.old.waiting }
        ensures wants { IfOk result (λ want. WantsOfLog State.object want self.new) }
        ensures needed { IfOk result (λ want. self.old.sent ≡ 0 → IsNeeded (begun State.object self.new.reading.first) want self.new) }
        ensures stays { 0 < self.old.sent → self.new ≡ self.old }
        ensures reading { self.new.reading ≡ self.old.reading }
        ensures is_stopped { self.new.is_stopped ≡ self.old.is_stopped }
        ensures goes { MemberAdvances (begun State.object self.old.reading.first) (IsStopped (begun State.object self.old.reading.first) self.old) self.old self.new }
    {
        match self.settle()? {
            Rest::Nothing => Ok(Want::Nothing),
            Rest::Waits => Ok(Want::Read {
                from: self.reader.index(),
            }),
            Rest::Sends => {
                self.sent = self.batch(at_least_one(most));
                self.append(alloc)
            }
            Rest::UnderWay => self.append(alloc),
        }
    }

    // Answers requests, from the first on, as long as what was read is enough; returns what the next one needs.
    fn settle(&mut self) -> Result<Rest, AllocError>
        ensures rest { IfOk result (IsRest (begun State.object self.new.reading.first) self.new) }
        ensures rests { IsAtRest (begun State.object self.old.reading.first) self.old → self.new ≡ self.old }
        ensures stays { 0 < self.old.sent → self.new ≡ self.old }
        ensures reading { self.new.reading ≡ self.old.reading }
        ensures is_stopped { self.new.is_stopped ≡ self.old.is_stopped }
        ensures sent { self.new.sent ≡ self.old.sent }
        ensures goes { MemberAdvances (begun State.object self.old.reading.first) (IsStopped (begun State.object self.old.reading.first) self.old) self.old self.new }
    {
        let _position = self.reader.position();
        for _ in 0..u64::MAX {
            match self.next()? {
                Next::Answers(answer) => self.give_first(answer)?,
                Next::Rests(rest) => return Ok(rest),
            }
        }
        Err(AllocError)
    }

    // Returns the next step of the member.
    fn next(&self) -> Result<Next<State::Reply>, AllocError>
        ensures { IfOk result (IsNext (begun State.object self.now.reading.first) self.now) }
    {
        if self.sent > 0 {
            return Ok(Next::Rests(Rest::UnderWay));
        }
        let Some(first) = first_of(&self.waiting) else {
            return Ok(Next::Rests(Rest::Nothing));
        };
        match self.answer_to(first)? {
            Some(answer) => Ok(Next::Answers(answer)),
            None if first.at_least > self.reader.position() => Ok(Next::Rests(Rest::Waits)),
            None => Ok(Next::Rests(Rest::Sends)),
        }
    }

    // Answers the first request.
    fn give_first(&mut self, answer: Result<State::Reply, NoReply>) -> Result<(), AllocError>
        requires { IsNext (begun State.object self.old.reading.first) self.old (next.Answers answer) }
        ensures answers { OnOk result (AnswersFirst (begun State.object self.old.reading.first) self.old self.new) }
        ensures stays { OnErr result (self.new ≡ self.old) }
    {
        self.answers.reserve(1)?;
        let request = self.waiting.remove(0);
        self.answers.push_reserved((request.id, answer));
        Ok(())
    }

    // Returns the answer to a request, given what was read; `None` if the request has to wait for more calls, or to be
    // appended.
    fn answer_to(
        &self,
        request: &Request<State::Call>,
    ) -> Result<Option<Result<State::Reply, NoReply>>, AllocError>
        ensures answers { IfOk result (IsAnswerTo (begun State.object self.now.reading.first) self.now request.now) }
        ensures writes { IfOk result (λ answer. answer ≡ None → request.now.at_least ≤ length self.now.reading.history → State.object.is_writing request.now.call ≡ true) }
    {
        if request.at_least > self.reader.position() {
            return Ok(self.stopped_answer());
        }
        match self.reader.answer_to(&request.call)? {
            Some(reply) => Ok(Some(Ok(reply))),
            None => Ok(self.stopped_answer()),
        }
    }

    // Returns the answer that a member that has stopped gives to a request that needs more of the log.
    fn stopped_answer(&self) -> Option<Result<State::Reply, NoReply>>
        ensures { result ≡ (if self.now.is_stopped then Some (Err no_reply.Stopped) else None) }
    {
        if self.is_stopped {
            Some(Err(NoReply::Stopped))
        } else {
            None
        }
    }

    // Returns how many requests, from the first on, go into the next entry.
    fn batch(&self, limit: usize) -> usize
        requires some { 0 < limit }
        requires sends { IsRest (begun State.object self.now.reading.first) self.now rest.Sends }
        ensures within { result ≤ length self.now.waiting }
        ensures few { result ≤ limit }
        ensures is { FitsEntry State.object self.now.reading.history (take result self.now.waiting) }
    {
        let position = self.reader.position();
        let most = at_most_an_entry(self.waiting.len(), limit);
        for at in 1..most {
            let request = &self.waiting[at];
            if !State::is_writing(&request.call) || request.at_least > position {
                return at;
            }
        }
        most
    }

    // Makes the entry under way.
    fn append(&self, alloc: Global) -> Result<Want<State::Call>, AllocError>
        requires { 0 < self.now.sent }
        ensures { IfOk result (λ want. WantsOfLog State.object want self.now) }
    {
        let Some(number) = self.reader.last(self.seat).checked_add(1) else {
            return Err(AllocError);
        };
        let calls = copy_calls::<State>(alloc, &self.waiting[..self.sent])?;
        Ok(Want::Append {
            entry: Entry::new(self.seat, number, calls),
        })
    }

    /// Answers the requests of the entry under way with no reply, because the log has refused that entry and will never
    /// contain it. If memory runs out, the member is unchanged.
    pub fn refused(&mut self) -> Result<(), AllocError>
        ensures refused { OnOk result (self.new ≡ without_reply no_reply.Refused self.old) }
        ensures stays { OnErr result (self.new ≡ self.old) }
        ensures goes { MemberAdvances (begun State.object self.old.reading.first) (λ _ why. why ≡ no_reply.Refused) self.old self.new }
    {
        let _position = self.reader.position();
        let count = self.sent;
        self.give_up_first(count, NoReply::Refused)
    }

    /// Answers the first request with no reply if the log ends at `index`, the member has read all of it, and the
    /// request waits for more accepted calls. If memory runs out, the member is unchanged.
    pub fn ended(&mut self, index: usize) -> Result<(), AllocError>
        ensures ends { OnOk result (AfterEnd (begun State.object self.old.reading.first) self.old index self.new) }
        ensures stays { OnErr result (self.new ≡ self.old) }
        ensures goes { MemberAdvances (begun State.object self.old.reading.first) (λ _ why. why ≡ no_reply.Ended) self.old self.new }
    {
        let _position = self.reader.position();
        if !self.waits_at_end(index) {
            return Ok(());
        }
        self.give_up_first(1, NoReply::Ended)
    }

    // True if the first request waits for more calls than a log has that ends at an index.
    fn waits_at_end(&self, index: usize) -> bool
        ensures { TellsEnd (begun State.object self.now.reading.first) self.now index result }
    {
        if index != self.reader.index() || self.sent > 0 || self.is_stopped {
            return false;
        }
        let Some(first) = first_of(&self.waiting) else {
            return false;
        };
        if first.at_least <= self.reader.position() {
            return false;
        }
        true
    }

    // Answers the first `count` requests with no reply, for this reason; there is then no entry under way.
    fn give_up_first(&mut self, count: usize, why: NoReply) -> Result<(), AllocError>
        requires { count ≤ length self.old.waiting }
        ensures gives { OnOk result (self.new ≡ without_reply why (record self.old { sent = count })) }
        ensures stays { OnErr result (self.new ≡ self.old) }
    {
        self.answers.reserve(count)?;
        give_up(&mut self.waiting, &mut self.answers, count, why);
        self.sent = 0;
        Ok(())
    }
}

// Returns the first request.
fn first_of<Call: Drop>(waiting: &[Request<Call>]) -> Option<&Request<Call>>
    ensures { MatchOption result (waiting.now ≡ []) (λ first. waiting.now ≡ first.now ∷ drop 1 waiting.now) }
{
    waiting.first()
}

// Returns the most calls of an entry, given the caller's limit: at least one.
fn at_least_one(most: usize) -> usize
    ensures exact { result ≡ (if most == 0 then 1 else most) }
    ensures some { 0 < result }
{
    if most == 0 { 1 } else { most }
}

// Returns how many of `count` requests go into one entry: at most `limit`, and at most 256.
fn at_most_an_entry(count: usize, limit: usize) -> usize
    ensures within { result ≤ count }
    ensures few { result ≤ most_calls_of_entry }
    ensures limited { result ≤ limit }
    ensures some { 0 < count → 0 < limit → 0 < result }
{
    let most = if limit < MAX_CALLS { limit } else { MAX_CALLS };
    if count < most { count } else { most }
}

// Copies the calls of requests.
fn copy_calls<State: Object>(
    alloc: Global,
    requests: &[Request<State::Call>],
) -> Result<Vec<State::Call>, AllocError>
    ensures { IfOk result (λ calls. calls.items ≡ calls_asked requests.now) }
{
    let mut calls = Vec::new(alloc);
    for request in requests {
        calls.push(State::copy(&request.call)?)?;
    }
    Ok(calls)
}

// Answers the first `count` requests with no reply, for this reason.
fn give_up<Call: Drop, Reply: Drop>(
    waiting: &mut Vec<Request<Call>>,
    answers: &mut Vec<(u64, Result<Reply, NoReply>)>,
    count: usize,
    why: NoReply,
)
    requires room { length answers.old.items + count ≤ vec_capacity answers.old }
    requires enough { count ≤ length waiting.old.items }
    ensures waiting { waiting.new.items ≡ drop count waiting.old.items }
    ensures answers { answers.new.items ≡ answers.old.items ++ map (λ request. (request.id, Err why)) (take count waiting.old.items) }
{
    for _given in 0..count {
        let request = waiting.remove(0);
        answers.push_reserved((request.id, Err(why)));
    }
}
