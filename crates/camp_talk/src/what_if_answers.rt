//! The foreseen result of a call, as text.
ghost use Rattle.std.specs.Prelude.{◌≡◌, IfOk};
ghost use Rattle.camp_questions.specs.Foresight.{Foresees};
ghost use Rattle.camp_questions.specs.declared.foresight.Foreseen.{Foreseen as SpecForeseen};
ghost use Rattle.camp_script.specs.Texts.{reply_text};
ghost use Rattle.camp_talk.specs.QuestionAnswers.{changes_answer, foreseen_answer, standing_text};

use crate::answer_parts::{both, counted_text};
use crate::conflict_answers::render_pairs;
use camp_questions::{BranchState, Foreseen, what_if};
use camp_repo::{Call, Reply, State};
use camp_script::answer_text;
use std::alloc::{AllocError, Global};

/// Renders the reply that a call would get, and the state that the branch it writes to would have. An overflow of the
/// count of calls is reported as out of memory.
pub(crate) fn render_foreseen(
    alloc: Global,
    state: &State,
    call: &Call,
) -> Result<Vec<u8>, AllocError>
    ensures { IfOk result (λ text.
        (seen : SpecForeseen) × Foresees state.now call.now seen × (text.items ≡ foreseen_answer seen)) }
{
    if state.count() == u64::MAX {
        return Err(AllocError);
    }
    let seen = what_if(state, call)?;
    render_seen(alloc, seen)
}

fn render_seen(alloc: Global, seen: Foreseen) -> Result<Vec<u8>, AllocError>
    ensures { IfOk result (λ text. text.items ≡ foreseen_answer seen) }
{
    let reply = reply_text(alloc, seen.reply);
    let text = both(reply, standing_text(alloc, seen.changed));
    counted_text(alloc, "whatif", text)
}

fn standing_text(alloc: Global, standing: Option<BranchState>) -> Result<Vec<u8>, AllocError>
    ensures { IfOk result (λ text. text.items ≡ standing_text standing) }
{
    let Some(standing) = standing else {
        return Ok(Vec::new(alloc));
    };
    let changes = changes_text(alloc, &standing);
    let conflicts = reply_text(alloc, Reply::Conflicts(standing.conflicts));
    let tree = reply_text(alloc, Reply::Tree(standing.tree));
    both(conflicts, both(changes, tree))
}

/// Renders the conflicts that would become unresolved, and those that would no longer be.
fn changes_text(alloc: Global, standing: &BranchState) -> Result<Vec<u8>, AllocError>
    ensures { IfOk result (λ text. text.items ≡ changes_answer standing.now) }
{
    let opened = render_pairs(alloc, "opened", &standing.opened);
    both(opened, render_pairs(alloc, "resolved", &standing.resolved))
}

fn reply_text(alloc: Global, reply: Reply) -> Result<Vec<u8>, AllocError>
    ensures { IfOk result (λ text. text.items ≡ reply_text reply) }
{
    answer_text(alloc, &Ok(reply))
}
