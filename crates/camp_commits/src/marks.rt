//! Marks, and what they stand for.

ghost use Rattle.std.specs.Prelude.{◌≡◌, option_map};
ghost use Rattle.std.specs.Option.{option_copied};
ghost use Rattle.camp_commits.specs.Objects.{mark_name, name_if, object_at};
ghost use Rattle.camp_commits.specs.Resolving.{ResolvesTo, optional_mark};

use crate::faults::{ApplyError, CommandFault, refuse};
use crate::objects::{MarkedObject, StreamObjects};
use camp_base::Name;

/// Returns a text as a name; `None` if it is none.
pub(crate) fn name_if(text: &[u8]) -> Option<Name>
    ensures { result ≡ name_if text.now }
{
    Name::new(text).ok()
}

/// Returns the digits of a mark, as a name; `None` if the text is not `:` and a name.
pub(crate) fn mark_name(text: &[u8]) -> Option<Name>
    ensures { result ≡ mark_name text.now }
{
    if text.is_empty() || text[0] != b':' {
        return None;
    }
    name_if(&text[1..])
}

/// Returns the mark that a command sets, if it sets one.
pub(crate) fn optional_mark(text: Option<&[u8]>) -> Result<Option<Name>, ApplyError>
    ensures { ResolvesTo (λ mark. mark) result (optional_mark (option_map (λ text. text.now) text.entry)) }
{
    let Some(text) = text else {
        return Ok(None);
    };
    match mark_name(text) {
        Some(mark) => Ok(Some(mark)),
        None => Err(refuse(CommandFault::LongMark)),
    }
}

/// Returns what a mark stands for; `None` if the text is no mark, or nothing has this mark.
pub(crate) fn object_at<'s, 'a>(
    objects: &'s StreamObjects<'a>,
    text: &[u8],
) -> Option<&'s MarkedObject<'a>>
    ensures { option_copied result ≡ object_at objects.now.marks text.now }
{
    let mark = mark_name(text)?;
    objects.marked(&mark)
}
