//! Stored calls.
use boxcar::Pushed;
use camp_object::Object;
use std::marker::Model;

/// Where a call is stored: here, or in the head's store.
#[derive(Drop)]
pub enum Storage<Call> {
    Here(Call),
    Stored(Pushed<Call>),
}

/// A copy of a call that will be executed; in the head's store if the call writes.
#[derive(Drop)]
pub struct Kept<State: Object> {
    pub(crate) storage: Storage<State::Call>,
}

impl<State: Object> Model for Kept<State> {
    ghost use Rattle.camp_history.specs.StoredCalls.{StoredCall};

    ghost Value = { StoredCall State.Call };

    ghost use Rattle.camp_history.specs.Inside.StoredCallFields.{stored_call, IsStoredCall};

    ghost view = { λ kept. stored_call kept.storage };

    ghost invariant = { λ kept. IsStoredCall State.object kept.storage };
}
