//! The repository as an object.
use crate::{Call, Decided, Object, Reply, State};
use std::alloc::{AllocError, Global};

impl Object for State {
    type Call = Call;

    type Reply = Reply;

    ghost use Rattle.camp_repo.specs.Objects.{repository};
    ghost use Rattle.camp_repo.specs.ObjectLaws.{repository_is_lawful};

    ghost object = { repository };

    fn initial(alloc: Global) -> Result<State, AllocError> {
        State::new(alloc)
    }

    fn begins_alike(&self, other: &State) -> bool {
        self.limits().is_same(&other.limits())
    }

    fn decide(&self, call: &Call) -> Result<Decided<State, Reply>, AllocError> {
        State::decide(self, call)
    }

    fn done(at: u64) -> Reply {
        Reply::Done(at)
    }

    fn done_at(reply: &Reply) -> Option<u64> {
        match reply {
            Reply::Done(at) => Some(*at),
            _ => None,
        }
    }

    fn is_writing(call: &Call) -> bool {
        call.is_writing()
    }

    fn is_same(call: &Call, other: &Call) -> bool {
        call.is_same(other)
    }

    fn copy(call: &Call) -> Result<Call, AllocError> {
        call.try_clone()
    }

    ghost lawful = { repository_is_lawful };
}
