//! A hook at the sections of a run.
use camp_history::NoGate;

/// Is notified of the sections of a run. Like a gate of calls, it may wait, and changes no answer. That it is
/// notified of each section, and with which values, is only tested.
pub trait SectionGate {
    /// Called before the first call of a seat's section, with whether that call writes: false for an empty
    /// section.
    fn begin(&self, seat: u32, writes: bool);

    /// Called after the last call of a seat's section, once the seat has published what it has seen.
    fn end(&self, seat: u32);
}

impl SectionGate for NoGate {
    fn begin(&self, _seat: u32, _writes: bool) {}

    fn end(&self, _seat: u32) {}
}
