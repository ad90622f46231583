//! Parts of the answers to questions.
ghost use Rattle.std.specs.Prelude.{◌≡◌, ◌++◌, IfOk, MatchResult, OnOk};
ghost use Rattle.std.specs.List.{flat_map};
ghost use Rattle.camp_script.specs.Texts.{reply_text};
ghost use Rattle.camp_call.specs.declared.replies.Reply.TheVariants as reply;
ghost use Rattle.camp_talk.specs.QuestionAnswers.{counted};

use crate::readings::count_lines;
use camp_repo::{Refusal, Reply};
use camp_script::answer_text;
use itoa::Buffer;
use std::alloc::{AllocError, Global};

/// Renders a counted text: a line with the word of its command and the number of its lines, and then the text.
pub(crate) fn counted(alloc: Global, word: &str, text: &[u8]) -> Result<Vec<u8>, AllocError>
    ensures { IfOk result (λ whole. whole.items ≡ counted word.now text.now) }
{
    let mut digits = Buffer::new();
    let lines = digits.format(count_lines(text)).as_bytes();
    joined(alloc, &[word.as_bytes(), b" ", lines, b"\n", text])
}

/// Renders a counted text from a text, unless memory ran out for that text.
pub(crate) fn counted_text(
    alloc: Global,
    word: &str,
    text: Result<Vec<u8>, AllocError>,
) -> Result<Vec<u8>, AllocError>
    ensures { IfOk result (λ whole. MatchResult text (λ text. whole.items ≡ counted word.now text.items) (λ _. ⊥)) }
{
    counted(alloc, word, &text?)
}

/// Joins parts, one after the other.
pub(crate) fn joined(alloc: Global, parts: &[&[u8]]) -> Result<Vec<u8>, AllocError>
    ensures { IfOk result (λ text. text.items ≡ flat_map (λ part. part.now) parts.now) }
{
    parts.concat(alloc)
}

/// Joins two texts, unless memory ran out for one of them.
pub(crate) fn both(
    first: Result<Vec<u8>, AllocError>,
    second: Result<Vec<u8>, AllocError>,
) -> Result<Vec<u8>, AllocError>
    ensures { IfOk result (λ whole. MatchResult first
        (λ first. MatchResult second (λ second. whole.items ≡ first.items ++ second.items) (λ _. ⊥)) (λ _. ⊥)) }
{
    let mut whole = first?;
    let second = second?;
    whole.extend_from_slice(&second)?;
    Ok(whole)
}

/// Appends parts, one after the other.
pub(crate) fn append_parts(text: &mut Vec<u8>, parts: &[&[u8]]) -> Result<(), AllocError>
    ensures { OnOk result (text.new.items ≡ text.old.items ++ flat_map (λ part. part.now) parts.now) }
{
    for part in parts {
        text.extend_from_slice(part)?;
    }
    Ok(())
}

/// Renders a refusal.
pub(crate) fn refusal_text(alloc: Global, refusal: &Refusal) -> Result<Vec<u8>, AllocError>
    ensures { IfOk result (λ text. text.items ≡ reply_text (reply.Refused refusal.now)) }
{
    answer_text(alloc, &Ok(Reply::Refused(*refusal)))
}
