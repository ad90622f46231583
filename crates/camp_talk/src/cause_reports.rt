//! The report on a cause that a refusal does not say.
use crate::plain_texts::PlainText;
use camp_base::{Line, Path};
use camp_why::{Cause, Hindrance, Misfit};
use std::alloc::AllocError;

/// Appends what prevents a call; for a record that stops, at which change and why.
pub(crate) fn append_cause(text: &mut PlainText, cause: &Cause) -> Result<(), AllocError> {
    match cause {
        Cause::FullRepository { count, most } => {
            text.push_number("There are ", *count)?;
            text.push_number(" branches, and ", *most)?;
        }
        Cause::FullBranch { has, more, most } => {
            text.push_number("The branch has ", *has)?;
            text.push_number(" changes, and the patch ", *more)?;
            text.push_number(" more: ", *most)?;
        }
        Cause::FullWithPull { has, more, most } => {
            text.push_number("TO has ", *has)?;
            text.push_number(" changes, and the pull brings ", *more)?;
            text.push_number(" more: ", *most)?;
        }
        Cause::LongSide {
            change,
            path,
            old,
            new,
        } => return append_long_side(text, *change, path, *old, *new),
        Cause::Stops(stop) => {
            append_change(text, stop.change, &stop.path)?;
            return append_hindrance(text, &stop.why);
        }
    }
    text.push(&[b" is the most.\n"])
}

/// Returns the hint if a limit would be exceeded.
pub(crate) fn limit_cure(cause: &Cause) -> &'static str {
    match cause {
        Cause::FullRepository { .. } => "Record in one of the existing branches.\n",
        Cause::FullBranch { .. } => {
            "Record in a branch with fewer changes, or obliterate patches of this one.\n"
        }
        Cause::FullWithPull { .. } => { "Pull fewer patches, or obliterate patches of TO.\n" }
        Cause::LongSide { .. } => "Split the edit.\n",
        Cause::Stops(_) => "Put some of the lines into another file.\n",
    }
}

// Appends the number of a change, and the path of its file.
fn append_change(text: &mut PlainText, change: usize, path: &Path) -> Result<(), AllocError> {
    text.push_number("Change ", change)?;
    text.push(&[b", file ", path.bytes()])
}

// Appends the text for an edit with a side that is too long.
fn append_long_side(
    text: &mut PlainText,
    change: usize,
    path: &Path,
    old: usize,
    new: usize,
) -> Result<(), AllocError> {
    append_change(text, change, path)?;
    text.push_number(": the edit has ", old)?;
    text.push_number(" old lines and ", new)?;
    text.push(&[b" new ones, and 65535 is the most of each.\n"])
}

fn append_hindrance(text: &mut PlainText, why: &Hindrance) -> Result<(), AllocError> {
    match why {
        Hindrance::Misfit(misfit) => append_misfit(text, misfit),
        Hindrance::TooLong(count) => {
            text.push_number(": it would have ", *count)?;
            text.push(&[b" lines, and 1000000 is the most.\n"])
        }
    }
}

fn append_misfit(text: &mut PlainText, misfit: &Misfit) -> Result<(), AllocError> {
    match misfit {
        Misfit::FileIsThere => text.push(&[b": it is there already.\n"]),
        Misfit::NoFile => text.push(&[b": there is none.\n"]),
        Misfit::HasLines(count) => {
            text.push_number(": its number of lines is ", *count)?;
            text.push(&[b", and remove needs a file without lines.\n"])
        }
        Misfit::EndsBefore {
            has,
            wants,
            at,
            lacks,
        } => {
            text.push_number(": its number of lines is ", *has)?;
            text.push_number(", and the edit needs ", *wants)?;
            text.push(&[b" or more.\n"])?;
            append_lacks(text, *at, lacks)
        }
        Misfit::OtherLine {
            at,
            actual,
            expected,
        } => append_other_line(text, *at, actual.bytes(), expected.bytes()),
    }
}

// Appends the first old line past the end of the file, and its line number; for an edit without old lines, the text
// that LINE is too great.
fn append_lacks(text: &mut PlainText, at: usize, lacks: &Option<Line>) -> Result<(), AllocError> {
    let Some(line) = lacks else {
        text.push_number("LINE is ", at)?;
        return text.push(&[b": it is at most one more than the file has lines.\n"]);
    };
    text.push_number("There is no line ", at)?;
    text.push(&[b", where the edit takes away\n-"])?;
    text.quote(line.bytes())?;
    text.push(&[b"\n"])
}

// Appends the text for an edit that removes a line which the file does not have there.
fn append_other_line(
    text: &mut PlainText,
    at: usize,
    actual: &[u8],
    expected: &[u8],
) -> Result<(), AllocError> {
    text.push_number(": line ", at)?;
    text.push(&[b" is\n="])?;
    text.quote(actual)?;
    text.push(&[b"\nand the edit takes away\n-"])?;
    text.quote(expected)?;
    text.push(&[b"\n"])?;
    if actual.trim_ascii_end() != expected.trim_ascii_end() {
        return Ok(());
    }
    text.push(&[
        b"They differ in white space at their ends, such as a blank or a carriage return.\n",
    ])
}
