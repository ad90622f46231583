//! Refused allocations: how many entries memory ran out for, and which allocation is refused.
use crate::words::number_of;
use std::alloc::{AllocError, Global};
use std::env::{Env, FillError};
use std::io;
use std::io::{ErrorKind, Write};

/// The number of lines for which memory ran out. Only one allocation is refused, so it should be at most 1.
#[derive(Clone, Copy)]
pub(crate) struct Wants {
    count: u32,
}

impl Wants {
    pub(crate) fn new() -> Wants {
        Wants { count: 0 }
    }

    /// Counts a line for which memory ran out.
    pub(crate) fn note(&mut self) {
        self.count = self.count.saturating_add(1);
    }

    /// Returns the exit status for this number of lines.
    pub(crate) fn status(self) -> u8 {
        match self.count {
            0 => 0,
            1 => 3,
            _ => 5,
        }
    }
}

/// Makes and frees allocations before the table is read. The test refuses one allocation of the process, whose number
/// is the second argument; after these it is the one whose number within the table is the first argument. Makes none
/// without a second argument.
pub(crate) fn allocate_before(rt: &impl Env, alloc: Global) -> io::Result<()> {
    match (number_at(rt, 1)?, number_at(rt, 2)?) {
        (Some(number), Some(refused)) => {
            Ok(allocate_each(alloc, refused.saturating_sub(number))?)
        }
        _ => Ok(()),
    }
}

/// Prints `room N` if the program has one argument: how many more allocations succeed, up to that argument.
pub(crate) fn tell_room<W: Write>(rt: &impl Env, alloc: Global, out: &mut W) -> io::Result<()> {
    match (number_at(rt, 1)?, number_at(rt, 2)?) {
        (Some(most), None) => writeln!(out, "room {}", room(alloc, most)),
        _ => Ok(()),
    }
}

fn room(alloc: Global, most: u32) -> u32 {
    for count in 0..most {
        if allocate(alloc).is_err() {
            return count;
        }
    }
    most
}

/// Parses an argument as a number, if there is one.
fn number_at(rt: &impl Env, at: usize) -> io::Result<Option<u32>> {
    let mut digits = [0; 10];
    match rt.arg(at, &mut digits) {
        Ok(length) => match number_of(&digits[..length]) {
            Some(number) => Ok(Some(number)),
            None => Err(ErrorKind::InvalidInput.into()),
        },
        Err(FillError::NotPresent) => Ok(None),
        Err(FillError::TooLong) => Err(ErrorKind::InvalidInput.into()),
    }
}

fn allocate_each(alloc: Global, count: u32) -> Result<(), AllocError> {
    for _ in 0..count {
        allocate(alloc)?;
    }
    Ok(())
}

/// Makes one allocation after the last line. If this one is refused, the test has refused each allocation of the table
/// already.
pub(crate) fn allocate(alloc: Global) -> Result<(), AllocError> {
    Box::new(alloc, 0)?;
    Ok(())
}
