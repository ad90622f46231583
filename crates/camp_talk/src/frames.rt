//! Why no more requests in frames can be served.
ghost use Rattle.std.specs.Prelude.{◌≡◌};
ghost use Rattle.camp_talk.specs.Frames.{frame_status};
ghost use Rattle.camp_talk.specs.declared.frames.FrameFault.TheVariants as frame;

use crate::TalkFault;
use std::error::Error;
use std::fmt;

/// Why no more requests can be served.
#[derive(Clone, Copy, Debug)]
pub enum FrameFault {
    /// The line before a request is not a number of 1 to 10 digits.
    NoNumber,
    /// A request is too long.
    TooLarge,
    /// The input ended within a request, or within the line before it.
    Cut,
    /// A request could not be read or answered, or its answer could not be written.
    Talk(TalkFault),
}

impl FrameFault {
    /// Returns the exit status of a program that ends with this fault.
    pub fn status(&self) -> u8
        ensures exact { result ≡ frame_status self.now }
    {
        match self {
            FrameFault::NoNumber | FrameFault::TooLarge | FrameFault::Cut => 1,
            FrameFault::Talk(fault) => fault.status(),
        }
    }
}

impl fmt::Display for FrameFault {
    fn fmt<W: fmt::Write>(&self, f: &mut fmt::Formatter<W>) -> fmt::Result {
        match self {
            FrameFault::NoNumber => {
                f.write_str("the line before a request is not a number of 1 to 10 digits")
            }
            FrameFault::TooLarge => f.write_str("a request has more than 268435456 bytes"),
            FrameFault::Cut => f.write_str("the input ends inside a request"),
            FrameFault::Talk(fault) => write!(f, "{fault}"),
        }
    }
}

impl Error for FrameFault {}

impl From<TalkFault> for FrameFault {
    ghost from_gives = { λ why fault. fault ≡ frame.Talk why };

    fn from(why: TalkFault) -> FrameFault {
        FrameFault::Talk(why)
    }
}
