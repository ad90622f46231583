//! Marks of calls.
use boxcar::Pushed;
use camp_share::Share;
use std::alloc::AllocError;

/// A call that a seat has seen: the seat that asked it, and the token that shows it in the store.
#[derive(Drop)]
pub struct Mark<Call> {
    pub(crate) seat: u32,
    pub(crate) call: Pushed<Call>,
}

impl<Call> Share for Mark<Call> {
    fn share(&self) -> Result<Mark<Call>, AllocError> {
        Ok(Mark {
            seat: self.seat,
            call: self.call.again(),
        })
    }
}
