//! Requests in frames: each comes after a line with its number of bytes, and so does its response.
ghost use Rattle.std.specs.Prelude.{◌≡◌, IsTrue, MatchResult};
ghost use Rattle.std.specs.Io.Buffered.{reader_buffer, reader_remaining};
ghost use Rattle.std.specs.Io.KnownBytes.{Appends};
ghost use Rattle.camp_talk.specs.Engine.Framings.{BeginsWithFrame};
ghost use Rattle.camp_talk.specs.Frames.{IsFrame, ReadsNoFrame, framed};
ghost use Rattle.camp_talk.specs.Inside.Framing.{ReadsNothing};
ghost use Rattle.camp_talk.specs.Talks.{AppendsSome};

use crate::engine::Framing;
use crate::lines::line_len;
use crate::serving::{read_request, request_len};
use crate::{FrameFault, write_answer};
use itoa::Buffer;
use std::alloc::Global;
use std::io::{self, BufReader, Read, Write};

/// Reads requests in frames, and renders responses in frames.
#[derive(Drop)]
pub struct Frames<R> {
    alloc: Global,
    reader: BufReader<R>,
}

impl<R: Read> Frames<R> {
    /// Starts before the first request of a reader.
    pub fn new(alloc: Global, reader: BufReader<R>) -> Frames<R>
        ensures { result.reader ≡ reader }
    {
        Frames { alloc, reader }
    }
}

impl<R: Read> Framing<Vec<u8>, Vec<u8>> for Frames<R> {
    type Fault = FrameFault;

    ghost remaining = { λ it. reader_remaining R.remaining it.reader };

    ghost reads = { λ from request bytes to. IsFrame request.items bytes };

    ghost ends = { λ from to. ReadsNothing (reader_remaining R.remaining from.reader) (reader_remaining R.remaining to.reader) };

    ghost breaks = { λ from why to. ReadsNoFrame (reader_remaining R.remaining from.reader) (reader_remaining R.remaining to.reader) why };

    ghost ready = { λ it. BeginsWithFrame (reader_buffer it.reader) };

    ghost renders = { λ response. framed response.items };

    fn read_request(&mut self) -> Result<Option<Vec<u8>>, FrameFault> {
        read_request(self.alloc, &mut self.reader)
    }

    fn write_response<W: Write>(&self, response: &Vec<u8>, writer: &mut W) -> io::Result<()> {
        write_frame(writer, response)
    }

    fn is_ready(&self) -> bool {
        begin_with_frame(self.reader.buffer())
    }
}

// True only if bytes begin with a complete frame.
fn begin_with_frame(bytes: &[u8]) -> bool
    ensures { IsTrue result → BeginsWithFrame bytes.now }
{
    let feed = line_len(bytes);
    if feed >= bytes.len() {
        return false;
    }
    let Ok(count) = request_len(&bytes[..feed]) else {
        return false;
    };
    if count > (bytes.len() - feed - 1) as u64 {
        return false;
    }
    true
}

// Writes the frame of a response. If the writer fails, a prefix of it was written.
fn write_frame<W: Write>(writer: &mut W, response: &[u8]) -> io::Result<()>
    ensures { MatchResult result
        (λ _. Appends (W.contents writer.old) (W.contents writer.new) (framed response.now))
        (λ _. AppendsSome (W.contents writer.old) (W.contents writer.new) (framed response.now)) }
{
    let mut len = Buffer::new();
    write_answer(writer, len.format(response.len()).as_bytes())?;
    write_answer(writer, b"\n")?;
    write_answer(writer, response)
}
