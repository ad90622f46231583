//! Reading the lines of a reader.
ghost use Rattle.std.specs.Io.KnownBytes.{Consumes};
ghost use Rattle.std.specs.Prelude.{◌≡◌, ◌≢◌, ◌⊎◌, ◌==◌, ◌+◌, ◌-◌, ◌^◌, ◌<◌, ◌≤◌, ◌++◌, [], length, take, drop, IfOk, IfErr, OnErr, OnOk};
ghost use Rattle.std.specs.IoError.{error_kind};
ghost use Rattle.std.specs.List.{position_or_len};
ghost use Rattle.camp_base.specs.Signs.{newline};
ghost use Rattle.camp_talk.specs.Cutting.{as_read, longest_read};
ghost use Rattle.camp_talk.specs.Inside.Parts.{IsReading, ReadsLine, StopsAtLine, StopsInLine, Takes, feed_of, last_seen, seen_of};
ghost use Rattle.camp_talk.specs.declared.faults.TalkFault.TheVariants as fault;

use crate::TalkFault;
use std::io::{self, BufRead, ErrorKind};

/// The most bytes of a line that is read completely.
const LONGEST_READ: usize = 1_048_576;

// The length from which on a line is too long, in bytes.
const TOO_LONG: usize = LONGEST_READ + 1;

// The number of bytes that are read of a line that is too long.
const CUT_LINE: usize = 4_098;

/// What a reader shows of a line.
#[derive(Clone, Copy)]
pub(crate) enum Seen {
    /// A part; more may follow.
    Part,
    /// The line with its line feed.
    Line,
    /// No more: the input has ended.
    End,
}

/// Appends a line. True if it has a line feed, false if the input has ended.
pub(crate) fn read_line<R: BufRead>(reader: &mut R, text: &mut Vec<u8>) -> Result<bool, TalkFault>
    ensures line { IfOk result (λ whole.
        ReadsLine (R.remaining reader.old) (R.remaining reader.new) whole text.old.items text.new.items) }
    ensures fault { IfErr result IsReading }
    ensures stops { IfErr result (λ why. StopsAtLine (R.remaining reader.old) (R.remaining reader.new)) }
{
    let start = text.len();
    let is_whole = read_front(reader, text)?;
    cut_line(text, start);
    if !is_whole {
        return Ok(false);
    }
    match text.push(b'\n') {
        Ok(()) => Ok(true),
        Err(_) => Err(TalkFault::Memory),
    }
}

/// Reads a line with its line feed. Appends as many bytes of it as show whether it is too long. True if it has a line
/// feed, false if the input has ended.
pub(crate) fn read_front<R: BufRead>(reader: &mut R, text: &mut Vec<u8>) -> Result<bool, TalkFault>
    ensures front { IfOk result (λ whole. Takes (R.remaining reader.old) (R.remaining reader.new)
        (longest_read + 1) (last_seen whole) text.old.items text.new.items) }
    ensures fault { IfErr result IsReading }
    ensures stops { IfErr result (λ why. StopsInLine (R.remaining reader.old) (R.remaining reader.new)) }
{
    let start = text.len();
    for _ in 0..u64::MAX {
        let capacity = TOO_LONG - (text.len() - start);
        match read_some(reader, text, capacity)? {
            Seen::Part => {}
            Seen::Line => return Ok(true),
            Seen::End => return Ok(false),
        }
    }
    Err(TalkFault::Read(ErrorKind::TimedOut.into()))
}

// Reads what the reader shows of a line, with its line feed if that is shown. Appends as much of the line as fits.
fn read_some<R: BufRead>(
    reader: &mut R,
    text: &mut Vec<u8>,
    capacity: usize,
) -> Result<Seen, TalkFault>
    ensures some { IfOk result (λ seen.
        Takes (R.remaining reader.old) (R.remaining reader.new) capacity seen text.old.items text.new.items) }
    ensures fault { IfErr result IsReading }
    ensures none { IfErr result (λ why. Consumes (R.remaining reader.old) (R.remaining reader.new) []) }
{
    let shown = match reader.fill_buf() {
        Ok(shown) => shown,
        Err(error) => {
            unless_interrupted(error)?;
            return Ok(Seen::Part);
        }
    };
    let len = line_len(shown);
    let seen = seen_of(shown.len(), len);
    let held = len.min(capacity);
    hold(text, &shown[..held])?;
    let taken = taken_len(len, seen);
    reader.consume(taken);
    Ok(seen)
}

/// Returns the fault of a reader that failed with this error; retries a reader that is interrupted.
pub(crate) fn unless_interrupted(error: io::Error) -> Result<(), TalkFault>
    ensures again { OnOk result (error_kind error ≡ ErrorKind.Interrupted) }
    ensures handed { IfErr result (λ why. (why ≡ fault.Read error) ⊎ ((why ≡ fault.Memory) × (error_kind error ≡ ErrorKind.OutOfMemory))) }
    ensures stops { OnErr result (error_kind error ≢ ErrorKind.Interrupted) }
    ensures fault { IfErr result IsReading }
{
    match error.kind() {
        ErrorKind::Interrupted => Ok(()),
        ErrorKind::OutOfMemory => Err(TalkFault::Memory),
        _ => Err(TalkFault::Read(error)),
    }
}

/// Appends bytes to others, which are unchanged if memory runs out.
pub(crate) fn hold(text: &mut Vec<u8>, bytes: &[u8]) -> Result<(), TalkFault>
    ensures items { IfOk result (λ _. text.new.items ≡ text.old.items ++ bytes.now) }
    ensures kept { OnErr result (text.new.items ≡ text.old.items) }
    ensures fault { IfErr result IsReading }
{
    match text.extend_from_slice(bytes) {
        Ok(()) => Ok(()),
        Err(_) => Err(TalkFault::Memory),
    }
}

/// Counts the bytes before the first line feed, or all if there is none.
pub(crate) fn line_len(shown: &[u8]) -> usize
    ensures place { result ≡ position_or_len (λ byte. byte == newline) shown.now }
    ensures within { result ≤ length shown.now }
{
    shown
        .iter()
        .position(|byte| *byte == b'\n')
        .unwrap_or(shown.len())
}

// Returns what is shown, given the number of bytes that are shown and of those before a line feed.
fn seen_of(shown: usize, len: usize) -> Seen
    ensures { result ≡ seen_of shown len }
{
    if len < shown {
        return Seen::Line;
    }
    if shown == 0 {
        return Seen::End;
    }
    Seen::Part
}

// Returns the number of bytes to take of a line, with its line feed if that was shown.
fn taken_len(len: usize, seen: Seen) -> usize
    requires { len < 2 ^ 64 - 1 }
    ensures { result ≡ len + length (feed_of seen) }
{
    match seen {
        Seen::Line => len + 1,
        _ => len,
    }
}

// Shortens the line that begins at an index if it is too long.
fn cut_line(text: &mut Vec<u8>, start: usize)
    requires { start ≤ length text.old.items }
    ensures { text.new.items ≡ take start text.old.items ++ as_read (drop start text.old.items) }
{
    if text.len() - start <= LONGEST_READ {
        return;
    }
    text[start + 1] = b'?';
    text.truncate(start + CUT_LINE);
}

/// Returns the line from an index to the end of bytes, without its line feed.
pub(crate) fn last_line(text: &[u8], start: usize) -> &[u8]
    requires { start < length text.now }
    ensures { result.now ≡ take (length text.now - 1 - start) (drop start text.now) }
{
    &text[start..text.len() - 1]
}
