//! The graph of a branch as a text.
ghost use Rattle.std.specs.Prelude.{IfOk};
ghost use Rattle.camp_talk.specs.Inside.Responses.{RendersFound};
ghost use Rattle.camp_talk.specs.QuestionAnswers.{graph_answer};

use crate::answer_parts::counted;
use camp_questions::{Picture, Unanswered, graph_text};
use std::alloc::{AllocError, Global};

/// Renders dependencies and conflicts in DOT.
pub(crate) fn render_graph(
    alloc: Global,
    found: Result<Picture, Unanswered>,
) -> Result<Vec<u8>, Unanswered>
    ensures { RendersFound graph_answer found result }
{
    match found {
        Ok(picture) => {
            let text = graph_text(alloc, &picture)?;
            Ok(counted(alloc, "graph", text.as_bytes())?)
        }
        Err(why) => Err(why),
    }
}
