//! A patch as it is in a branch, as a text.
ghost use Rattle.std.specs.Prelude.{◌≡◌, IfOk};
ghost use Rattle.std.specs.List.{flat_map};
ghost use Rattle.camp_talk.specs.Inside.Responses.{RendersFound};
ghost use Rattle.camp_talk.specs.QuestionAnswers.{catch_line, patch_answer};

use crate::answer_parts::{append_parts, both, counted_text};
use camp_catch::Catch;
use camp_notation::catch_text;
use camp_questions::{Shown, Unanswered};
use camp_script::changes_text;
use camp_share::Shared;
use std::alloc::{AllocError, Global};

/// Renders the catches of a patch, and their changes.
pub(crate) fn render_shown(
    alloc: Global,
    found: Result<Shown, Unanswered>,
) -> Result<Vec<u8>, Unanswered>
    ensures { RendersFound patch_answer found result }
{
    match found {
        Ok(patch) => {
            let catches = catch_lines(alloc, patch.catches());
            let text = both(catches, changes_text(alloc, patch.changes()));
            Ok(counted_text(alloc, "show", text)?)
        }
        Err(why) => Err(why),
    }
}

fn catch_lines(alloc: Global, catches: &[Shared<Catch>]) -> Result<Vec<u8>, AllocError>
    ensures { IfOk result (λ text. text.items ≡ flat_map catch_line catches.now) }
{
    let mut text = Vec::new(alloc);
    for catch in catches {
        let line = catch_text(alloc, &[], catch)?;
        append_parts(&mut text, &[line.as_bytes(), b"\n"])?;
    }
    Ok(text)
}
