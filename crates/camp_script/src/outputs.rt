//! The text of given answers, section by section, followed by the history.
ghost use Rattle.std.specs.Prelude.{◌≡◌, ◌++◌, map, IfOk, OnOk};
ghost use Rattle.std.specs.List.{All};
ghost use Rattle.std.specs.Option.{option_map};
ghost use Rattle.camp_script.specs.Outputs.{HaveTexts, answers_text, clients_answers, output_text, sections_text};
ghost use Rattle.camp_script.specs.Texts.{HasText};

use crate::histories::append_history;
use crate::spaces::append_count;
use crate::texts::append_answer;
use camp_call::{Call, Reply};
use camp_object::Fault;
use std::alloc::{AllocError, Global};

/// Renders the answers of an opening and of clients; a line with its number comes before the answers of each client.
/// The history follows, if there is one.
pub fn output_text(
    alloc: Global,
    sections: &[Vec<Result<Reply, Fault>>],
    history: Option<&[(u32, Call)]>,
) -> Result<Vec<u8>, AllocError>
    requires { HaveTexts (map (λ section. section.items) sections.now) }
    ensures text { IfOk result (λ text. text.items
        ≡ output_text (map (λ section. section.items) sections.now) (option_map (λ entries. entries.now) history.entry)) }
{
    let mut text = Vec::new(alloc);
    append_sections(&mut text, sections)?;
    if let Some(history) = history {
        append_history(&mut text, history)?;
    }
    Ok(text)
}

fn append_sections(
    text: &mut Vec<u8>,
    sections: &[Vec<Result<Reply, Fault>>],
) -> Result<(), AllocError>
    requires { HaveTexts (map (λ section. section.items) sections.now) }
    ensures { OnOk result (text.new.items ≡ text.old.items ++ sections_text (map (λ section. section.items) sections.now)) }
{
    match sections {
        [] => Ok(()),
        [opening, clients @ ..] => {
            append_answers(text, opening)?;
            append_clients(text, clients)
        }
    }
}

fn append_clients(
    text: &mut Vec<u8>,
    clients: &[Vec<Result<Reply, Fault>>],
) -> Result<(), AllocError>
    requires { HaveTexts (map (λ section. section.items) clients.now) }
    ensures { OnOk result (text.new.items ≡ text.old.items ++ clients_answers 1 (map (λ section. section.items) clients.now)) }
{
    let mut number = 0;
    for answers in clients {
        number += 1;
        append_count(text, b"client", number)?;
        append_answers(text, answers)?;
    }
    Ok(())
}

fn append_answers(text: &mut Vec<u8>, answers: &[Result<Reply, Fault>]) -> Result<(), AllocError>
    requires { All HasText answers.now }
    ensures { OnOk result (text.new.items ≡ text.old.items ++ answers_text answers.now) }
{
    for answer in answers {
        append_answer(text, answer)?;
    }
    Ok(())
}
