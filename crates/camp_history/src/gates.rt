//! The gate: a hook at the steps of calls.
/// Is notified of the steps of calls, and may wait at each of them, for example until it is the client's turn. It
/// changes no reply. That it is notified of each step, and with which numbers, is only tested.
pub trait Gate {
    /// Called before a call of a seat, with the index of the call in its section, from 0.
    fn before(&self, seat: u32, call: u32);

    /// Called just before each compare-exchange of a call, with the number that this call has lost so far.
    fn exchange(&self, seat: u32, lost: u32);

    /// Called after a call of a seat, with the index of the call.
    fn after(&self, seat: u32, call: u32);
}

/// A gate that does nothing.
#[derive(Clone, Copy, Debug)]
pub struct NoGate;

impl Gate for NoGate {
    fn before(&self, _seat: u32, _call: u32) {}

    fn exchange(&self, _seat: u32, _lost: u32) {}

    fn after(&self, _seat: u32, _call: u32) {}
}
