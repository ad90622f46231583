//! An object that is not a repository, for `camp_object` and the crates above it.
ghost use Rattle.std.specs.Prelude.{◌≡◌};
ghost use Rattle.camp_uses.specs.NumberList.{has_number};

use camp_object::{Decided, Object};
use std::alloc::{AllocError, Global};
use std::marker::Model;

/// Different numbers in the order in which they were appended.
#[derive(Drop)]
pub struct Numbers {
    numbers: Vec<u32>,
}

impl Model for Numbers {
    ghost use Rattle.std.specs.Prelude.{List, ℕ};

    ghost Value = { List ℕ };

    ghost view = { λ n. n.numbers.items };
}

/// The calls of [`Numbers`].
#[derive(Clone, Copy, PartialEq, Eq, Debug)]
pub enum NumberCall {
    /// Appends a number. It is accepted if the number is not there yet.
    Insert(u32),
    /// Asks for the numbers.
    Show,
}

/// The replies of [`Numbers`].
#[derive(PartialEq, Eq, Debug, Drop)]
pub enum NumberReply {
    Done(u64),
    /// The number is there already.
    Present,
    Shown(Vec<u32>),
}

impl Numbers {
    fn has(&self, number: u32) -> bool
        ensures { result ≡ has_number self.now number }
    {
        self.numbers.iter().any(|n| *n == number)
    }
}

impl Object for Numbers {
    type Call = NumberCall;

    type Reply = NumberReply;

    ghost use Rattle.camp_uses.specs.NumberList.{numbers_object};
    ghost use Rattle.camp_uses.specs.NumberLaws.{numbers_are_lawful};

    ghost object = { numbers_object };

    fn initial(alloc: Global) -> Result<Numbers, AllocError> {
        Ok(Numbers {
            numbers: Vec::new(alloc),
        })
    }

    fn begins_alike(&self, _other: &Numbers) -> bool {
        true
    }

    fn decide(&self, call: &NumberCall) -> Result<Decided<Numbers, NumberReply>, AllocError> {
        match call {
            NumberCall::Insert(number) if self.has(*number) => {
                Ok(Decided::Answer(NumberReply::Present))
            }
            NumberCall::Insert(number) => {
                let mut numbers = self.numbers.clone()?;
                numbers.push(*number)?;
                Ok(Decided::Next(Numbers { numbers }))
            }
            NumberCall::Show => Ok(Decided::Answer(NumberReply::Shown(self.numbers.clone()?))),
        }
    }

    fn done(at: u64) -> NumberReply {
        NumberReply::Done(at)
    }

    fn done_at(reply: &NumberReply) -> Option<u64> {
        match reply {
            NumberReply::Done(at) => Some(*at),
            _ => None,
        }
    }

    fn is_writing(call: &NumberCall) -> bool {
        matches!(call, NumberCall::Insert(_))
    }

    fn is_same(call: &NumberCall, other: &NumberCall) -> bool {
        call == other
    }

    fn copy(call: &NumberCall) -> Result<NumberCall, AllocError> {
        Ok(*call)
    }

    ghost lawful = { numbers_are_lawful };
}
