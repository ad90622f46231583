//! The names that answer a question, as text.
ghost use Rattle.std.specs.Prelude.{◌≡◌, codes, IfOk};
ghost use Rattle.camp_questions.specs.Files.{branch_names};
ghost use Rattle.camp_talk.specs.Inside.Responses.{RendersFound};
ghost use Rattle.camp_talk.specs.QuestionAnswers.{names_answer};

use crate::answer_parts::counted;
use camp_questions::{Unanswered, branches};
use camp_repo::{Names, State};
use camp_script::append_names;
use std::alloc::{AllocError, Global};

/// Renders the names that answer a question as a counted text.
pub(crate) fn render_found(
    alloc: Global,
    word: &str,
    found: Result<Names, Unanswered>,
) -> Result<Vec<u8>, Unanswered>
    ensures { RendersFound (names_answer word.now) found result }
{
    match found {
        Ok(names) => Ok(render_names(alloc, word, &names)?),
        Err(why) => Err(why),
    }
}

/// Renders the names of the branches.
pub(crate) fn render_branches(alloc: Global, state: &State) -> Result<Vec<u8>, AllocError>
    ensures { IfOk result (λ text. text.items ≡ names_answer (codes "branches") (branch_names state.now)) }
{
    let names = branches(alloc, state)?;
    render_names(alloc, "branches", &names)
}

// Renders names as a counted text.
fn render_names(alloc: Global, word: &str, names: &Names) -> Result<Vec<u8>, AllocError>
    ensures { IfOk result (λ text. text.items ≡ names_answer word.now names.now) }
{
    let mut lines = Vec::new(alloc);
    append_names(&mut lines, names.as_slice())?;
    counted(alloc, word, &lines)
}
