//! The calls on names, paths and lines, and the words for faults.
use crate::tables::Table;
use crate::values::calls::Call;
use crate::values::results::{Outcome, rendered};
use crate::words::words_of;
use camp_base::{Apply, BaseFault, Line, Name, Path};
use camp_clients::LockFault;
use camp_head::HeadFault;
use camp_notation::{NotationError, word_text};
use camp_object::Fault;
use camp_run::RunFault;
use camp_script::{ScriptFault, WriteFault};
use std::alloc::AllocError;
use std::fmt::Display;
use std::io::ErrorKind;

/// Appends bytes if they are a name, a path or a line; else the words for the fault.
pub(crate) fn answer(table: &Table, call: Call, bytes: &[u8]) -> Outcome {
    match call {
        Call::Name => displayed(table, Name::new(bytes)),
        Call::Path => displayed(table, Path::new(table.alloc(), bytes)),
        _ => line(table, bytes),
    }
}

fn displayed<T: Display + Drop>(table: &Table, made: Result<T, BaseFault>) -> Outcome {
    match made {
        Ok(value) => rendered(words_of(table.alloc(), &value)),
        Err(why) => refused(table, why),
    }
}

fn line(table: &Table, bytes: &[u8]) -> Outcome {
    match Line::new(table.alloc(), bytes) {
        Ok(line) => rendered(word_text(table.alloc(), line.bytes())),
        Err(why) => refused(table, why),
    }
}

/// Appends the words for the fault of bytes.
fn refused(table: &Table, fault: BaseFault) -> Outcome {
    match fault {
        BaseFault::Memory => Err(NotationError::Memory),
        _ => rendered(words_of(table.alloc(), &fault)),
    }
}

/// Appends the words for all faults: of bytes, of a change, of a run, of a run over a lock, of a head, of a call, of
/// the writer of an answer, and of a script for which memory runs out. The faults of lines of a script are not among
/// them.
pub(crate) fn faults(table: &Table) -> Outcome {
    let mut text = String::new(table.alloc());
    match append_faults(&mut text) {
        Ok(()) => Ok(text),
        Err(_) => Err(NotationError::Memory),
    }
}

fn append_faults(text: &mut String) -> Result<(), AllocError> {
    let bytes = [
        BaseFault::BadName,
        BaseFault::BadPath,
        BaseFault::BadLine,
        BaseFault::Memory,
    ];
    append_words(text, &bytes)?;
    append_words(text, &[Apply::DoesNotApply, Apply::Memory])?;
    let runs = [
        RunFault::Foreign,
        RunFault::Read,
        RunFault::Write,
        RunFault::Memory,
    ];
    append_words(text, &runs)?;
    append_words(text, &[LockFault::Foreign, LockFault::Memory])?;
    append_words(text, &[HeadFault::BadSize, HeadFault::Memory])?;
    append_words(text, &[Fault::Busy { lost: 3 }, Fault::Full, Fault::Memory])?;
    let broken = WriteFault::Write(ErrorKind::BrokenPipe.into());
    append_words(text, &[broken, WriteFault::Memory])?;
    append_words(text, &[ScriptFault::Memory])
}

/// Appends the words for some faults.
fn append_words<T: Display>(text: &mut String, faults: &[T]) -> Result<(), AllocError> {
    let mut between = if text.is_empty() { "" } else { "; " };
    for fault in faults {
        text.push_str(between)?;
        text.push_str(&words_of(*text.allocator(), fault)?)?;
        between = ", ";
    }
    Ok(())
}
