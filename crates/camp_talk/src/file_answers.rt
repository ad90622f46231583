//! The lines of a file, and the patches that added them, as texts.
ghost use Rattle.std.specs.Prelude.{◌≡◌, IfOk};
ghost use Rattle.std.specs.List.{flat_map, zip};
ghost use Rattle.camp_script.specs.Signs.{equals_sign};
ghost use Rattle.camp_script.specs.Texts.{signed_line};
ghost use Rattle.camp_talk.specs.Inside.Responses.{RendersFound};
ghost use Rattle.camp_talk.specs.QuestionAnswers.{annotated_answer, annotated_line, file_answer, no_file_answer};

use crate::answer_parts::{append_parts, counted_text};
use camp_base::{Line, Name};
use camp_questions::{Annotated, Unanswered};
use camp_script::append_lines;
use camp_share::SharedList;
use std::alloc::{AllocError, Global};

/// Renders the lines of a file, each after the name of the patch that added it.
pub(crate) fn render_annotated(
    alloc: Global,
    found: Result<Annotated, Unanswered>,
) -> Result<Vec<u8>, Unanswered>
    ensures { RendersFound annotated_answer found result }
{
    match found {
        Ok(Annotated::File { lines, names }) => {
            let text = annotated_lines(alloc, &lines, &names);
            Ok(counted_text(alloc, "annotate", text)?)
        }
        Ok(Annotated::NoFile) => Ok(no_file(alloc)?),
        Err(why) => Err(why),
    }
}

/// Renders the answer for a file that the branch does not have.
pub(crate) fn no_file(alloc: Global) -> Result<Vec<u8>, AllocError>
    ensures { IfOk result (λ text. text.items ≡ no_file_answer) }
{
    Vec::from_slice(alloc, b"no file\n")
}

/// Renders the lines of a file.
pub(crate) fn render_file(
    alloc: Global,
    found: Result<Option<SharedList<Line>>, Unanswered>,
) -> Result<Vec<u8>, Unanswered>
    ensures { RendersFound file_answer found result }
{
    match found {
        Ok(Some(lines)) => Ok(counted_text(alloc, "file", file_lines(alloc, &lines))?),
        Ok(None) => Ok(no_file(alloc)?),
        Err(why) => Err(why),
    }
}

fn file_lines(alloc: Global, lines: &SharedList<Line>) -> Result<Vec<u8>, AllocError>
    ensures { IfOk result (λ text. text.items ≡ flat_map (signed_line equals_sign) lines.now) }
{
    let mut text = Vec::new(alloc);
    append_lines(&mut text, b'=', lines)?;
    Ok(text)
}

fn annotated_lines(
    alloc: Global,
    lines: &SharedList<Line>,
    names: &SharedList<Name>,
) -> Result<Vec<u8>, AllocError>
    ensures { IfOk result (λ text. text.items ≡ flat_map annotated_line (zip lines.now names.now)) }
{
    let mut text = Vec::new(alloc);
    for (line, name) in lines.iter().zip(names.iter()) {
        append_parts(&mut text, &[name.bytes(), b" =", line.bytes(), b"\n"])?;
    }
    Ok(text)
}
