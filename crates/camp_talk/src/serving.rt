//! Reading the frame of a request.
ghost use Rattle.std.specs.Prelude.{◌≡◌, [], IfErr, IfOk, MatchOption, MatchResult, OnErr};
ghost use Rattle.std.specs.Io.KnownBytes.{Consumes};
ghost use Rattle.camp_talk.specs.Frames.{ReadsNoFrame};
ghost use Rattle.camp_talk.specs.Inside.Framing.{IsCounted, IsNotCounted, ReadsBytes, ReadsFewer, ReadsFrame, ReadsMore, ReadsNothing};
ghost use Rattle.camp_talk.specs.Inside.Parts.{IsReading};

use crate::lines::{hold, read_front, unless_interrupted};
use crate::{FrameFault, TalkFault};
use camp_script::count_of;
use std::alloc::Global;
use std::io::{BufRead, ErrorKind};

/// The most bytes of a request.
const MAX_REQUEST: u64 = 268_435_456;

/// Reads the frame of a request, if there is one more.
pub(crate) fn read_request<R: BufRead>(
    alloc: Global,
    reader: &mut R,
) -> Result<Option<Vec<u8>>, FrameFault>
    ensures reads { IfOk result (λ found. MatchOption found
        (ReadsNothing (R.remaining reader.old) (R.remaining reader.new))
        (λ request. ReadsFrame (R.remaining reader.old) (R.remaining reader.new) request.items)) }
    ensures fault { IfErr result (ReadsNoFrame (R.remaining reader.old) (R.remaining reader.new)) }
{
    let mut line = Vec::new(alloc);
    if !read_front(reader, &mut line)? {
        if line.is_empty() {
            return Ok(None);
        }
        return Err(FrameFault::Cut);
    }
    let count = request_len(&line)?;
    let mut request = Vec::new(alloc);
    if !read_bytes(reader, &mut request, count)? {
        return Err(FrameFault::Cut);
    }
    Ok(Some(request))
}

/// Parses the line before a request as the request's length in bytes.
pub(crate) fn request_len(line: &[u8]) -> Result<u64, FrameFault>
    ensures { MatchResult result (IsCounted line.now) (IsNotCounted line.now) }
{
    match count_of(line) {
        None => Err(FrameFault::NoNumber),
        Some(count) if count > MAX_REQUEST => Err(FrameFault::TooLarge),
        Some(count) => Ok(count),
    }
}

// Reads a number of bytes. True if all of them were read, false if the input has ended.
fn read_bytes<R: BufRead>(
    reader: &mut R,
    bytes: &mut Vec<u8>,
    count: u64,
) -> Result<bool, TalkFault>
    requires { bytes.old.items ≡ [] }
    ensures reads { IfOk result (λ all. ReadsBytes (R.remaining reader.old) (R.remaining reader.new) count all bytes.new.items) }
    ensures fault { IfErr result IsReading }
    ensures stops { OnErr result (ReadsFewer (R.remaining reader.old) (R.remaining reader.new) count) }
{
    if count == 0 {
        return Ok(true);
    }
    for _ in 0..u64::MAX {
        if !read_more(reader, bytes, count - bytes.len() as u64)? {
            return Ok(false);
        }
        if bytes.len() as u64 >= count {
            return Ok(true);
        }
    }
    Err(TalkFault::Read(ErrorKind::TimedOut.into()))
}

// Reads what the reader shows, up to the capacity. True if there may be more, false if the input has ended.
fn read_more<R: BufRead>(
    reader: &mut R,
    bytes: &mut Vec<u8>,
    capacity: u64,
) -> Result<bool, TalkFault>
    ensures reads { IfOk result (λ more. ReadsMore (R.remaining reader.old) (R.remaining reader.new) capacity more bytes.old.items bytes.new.items) }
    ensures fault { IfErr result IsReading }
    ensures none { OnErr result (Consumes (R.remaining reader.old) (R.remaining reader.new) []) }
{
    let shown = match reader.fill_buf() {
        Ok(shown) => shown,
        Err(error) => {
            unless_interrupted(error)?;
            return Ok(true);
        }
    };
    if shown.is_empty() {
        return Ok(false);
    }
    let taken = shown.len().min(capacity as usize);
    hold(bytes, &shown[..taken])?;
    reader.consume(taken);
    Ok(true)
}
