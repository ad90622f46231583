//! Readers and writers for worked examples that move a few bytes a call, are interrupted, and fail.
#![tactic(auto)]

use std::alloc::Global;
use std::io;
use std::io::{ErrorKind, Read, Write};

/// How many calls of a reader and of a writer succeed, how many bytes each of them moves at most, and how
/// many interrupted calls come before each.
#[derive(Clone, Copy)]
pub struct Sizes {
    pub reads: u32,
    pub read_size: u32,
    pub writes: u32,
    pub write_size: u32,
    pub times: u32,
}

/// The calls of a reader or a writer: `served` succeed, each of which moves up to `size` bytes after `times` interrupted
/// calls; then all fail with `error`. A flush counts as a call; it moves nothing, and is not interrupted.
#[derive(Clone, Copy)]
struct Calls {
    served: u32,
    size: usize,
    times: u32,
    /// How often the next call will still be interrupted.
    interruptions: u32,
    error: ErrorKind,
}

impl Calls {
    fn new(served: u32, size: u32, times: u32, error: ErrorKind) -> Calls {
        Calls {
            served,
            size: size as usize,
            times,
            interruptions: times,
            error,
        }
    }

    /// Returns how many of `wanted` bytes the next call moves.
    fn next(&mut self, bytes: usize) -> io::Result<usize> {
        if self.interruptions > 0 {
            self.interruptions -= 1;
            return Err(ErrorKind::Interrupted.into());
        }
        self.interruptions = self.times;
        self.serve()?;
        Ok(self.size.min(bytes))
    }

    /// Counts one call that is not interrupted.
    fn serve(&mut self) -> io::Result<()> {
        if self.served == 0 {
            return Err(self.error.into());
        }
        self.served -= 1;
        Ok(())
    }
}

/// A reader of these bytes.
#[derive(Drop)]
pub struct Reader<'a> {
    rest: &'a [u8],
    calls: Calls,
}

impl<'a> Read for Reader<'a> {
    fn read(&mut self, buffer: &mut [u8]) -> io::Result<usize> {
        let most = buffer.len().min(self.rest.len());
        let count = self.calls.next(most)?.min(most);
        buffer[..count].copy_from_slice(&self.rest[..count]);
        self.rest = &self.rest[count..];
        Ok(count)
    }
}

/// A writer whose bytes arrive at once, or when it is flushed.
#[derive(Drop)]
pub struct Writer {
    taken: Vec<u8>,
    holds: bool,
    /// How many of the bytes that were written have arrived.
    flushed: usize,
    calls: Calls,
    wants_memory: bool,
}

impl Write for Writer {
    fn write(&mut self, bytes: &[u8]) -> io::Result<usize> {
        let count = self.calls.next(bytes.len())?.min(bytes.len());
        if self.taken.extend_from_slice(&bytes[..count]).is_err() {
            self.wants_memory = true;
        }
        if !self.holds {
            self.flushed = self.taken.len();
        }
        Ok(count)
    }

    fn flush(&mut self) -> io::Result<()> {
        self.calls.serve()?;
        self.flushed = self.taken.len();
        Ok(())
    }
}

impl<'a> Reader<'a> {
    /// Makes a reader of these bytes; its last call fails with `TimedOut`.
    pub fn new(bytes: &'a [u8], sizes: Sizes) -> Reader<'a> {
        Reader {
            rest: bytes,
            calls: Calls::new(
                sizes.reads,
                sizes.read_size,
                sizes.times,
                ErrorKind::TimedOut,
            ),
        }
    }
}

impl Writer {
    /// Makes a writer without bytes; its last call fails with `BrokenPipe`. If it `holds`, bytes arrive only when it is
    /// flushed.
    pub fn new(alloc: Global, sizes: Sizes, holds: bool) -> Writer {
        Writer {
            taken: Vec::new(alloc),
            holds,
            flushed: 0,
            calls: Calls::new(
                sizes.writes,
                sizes.write_size,
                sizes.times,
                ErrorKind::BrokenPipe,
            ),
            wants_memory: false,
        }
    }

    /// Returns whether memory ran out for the bytes that were written.
    pub fn wants_memory(&self) -> bool {
        self.wants_memory
    }

    /// Returns the bytes that have arrived.
    pub fn written(&self) -> &[u8] {
        &self.taken[..self.flushed.min(self.taken.len())]
    }
}
