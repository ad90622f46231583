//! Why bytes are not the text of notes.
ghost use Rattle.std.specs.Prelude.{◌≡◌};
ghost use Rattle.camp_notes.specs.declared.faults.NoteFault.TheVariants as fault;

use std::alloc::{AllocError, AllocFailed};
use thiserror::Error;

/// Why no note begins at a line.
#[derive(Clone, Copy, PartialEq, Eq, Debug, Error)]
pub enum NoteFaultKind {
    /// The line is not the header line of a note.
    #[error("misplaced note")]
    Misplaced,
    #[error("bad name")]
    BadName,
    #[error("note too long")]
    TooLong,
    /// A line has no line feed, or no line of a text follows the header line. After a whole line of a text, `#` without a
    /// line feed is misplaced, not unended.
    #[error("note not ended")]
    NotEnded,
}

/// Why bytes are not the text of notes.
#[derive(Clone, Copy, PartialEq, Eq, Debug, Error)]
pub enum NoteFault {
    /// At this line, counted from 1, no note begins.
    #[error("line {line}: {kind}")]
    Line { line: usize, kind: NoteFaultKind },
    #[error("out of memory")]
    Memory,
}

impl From<AllocError> for NoteFault {
    ghost from_gives = { λ _ result. result ≡ fault.Memory };

    fn from(_error: AllocError) -> NoteFault {
        NoteFault::Memory
    }
}

impl<T: Drop> From<AllocFailed<T>> for NoteFault {
    ghost from_gives = { λ _ result. result ≡ fault.Memory };

    fn from(_error: AllocFailed<T>) -> NoteFault {
        NoteFault::Memory
    }
}
