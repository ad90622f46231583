//! The trait of how requests are read and responses are written.
ghost use Rattle.std.specs.Prelude.{ℕ, IfErr, IfOk, IsTrue, List, MatchOption, MatchResult, Option};
ghost use Rattle.std.specs.Io.KnownBytes.{Appends, Consumes};
ghost use Rattle.camp_talk.specs.Talks.{AppendsSome};

use std::io::{self, Write};

/// Reads requests from a reader, and renders responses for a writer.
pub trait Framing<Q, A> {
    /// Why no request could be read.
    type Fault: Drop;

    // The bytes that are still to be read, if they are known.
    ghost remaining: { Self → Option (List ℕ) };

    // The relation of a request that was read: the state before, the request, its bytes, and the state after.
    ghost reads: { Self → Q → List ℕ → Self → Type 0 };

    // The relation of the end of the input: the state before it was seen, and the state after.
    ghost ends: { Self → Self → Type 0 };

    // The relation of a failure to read: the state before, the fault, and the state after.
    ghost breaks: { Self → Self.Fault → Self → Type 0 };

    // A complete request was read ahead.
    ghost ready: { Self → Type 0 };

    // The bytes that are written for a response.
    ghost renders: { A → List ℕ };

    /// Reads the next request, if there is one more.
    fn read_request(&mut self) -> Result<Option<Q>, Self::Fault>
        ensures reads { IfOk result (λ found. MatchOption found (ends self.old self.new)
            (λ request. (bytes : List ℕ) × reads self.old request bytes self.new × Consumes (remaining self.old) (remaining self.new) bytes)) }
        ensures breaks { IfErr result (λ why. breaks self.old why self.new) };

    /// Writes a response. If the writer fails, a prefix of its bytes was written.
    fn write_response<W: Write>(&self, response: &A, writer: &mut W) -> io::Result<()>
        ensures writes { MatchResult result
            (λ _. Appends (W.contents writer.old) (W.contents writer.new) (renders response.now))
            (λ _. AppendsSome (W.contents writer.old) (W.contents writer.new) (renders response.now)) };

    /// True only if a complete request was read ahead, so that reading it does not wait for input.
    fn is_ready(&self) -> bool
        ensures { IsTrue result → ready self.now };
}
