//! Appending words to bytes, with a space before each, and lines of words. Here and in the other texts, if memory runs
//! out, part of the text may have been appended; the caller then drops it.
ghost use Rattle.std.specs.Prelude.{◌≡◌, ◌∷◌, ◌++◌, [], map, IfOk, OnOk};
ghost use Rattle.std.specs.Fmt.{decimal};
ghost use Rattle.camp_script.specs.Canonical.{AreNames};
ghost use Rattle.camp_script.specs.Texts.{line_text};
ghost use Rattle.camp_script.specs.Inside.Spaces.{spaced};

use camp_base::Name;
use itoa::Buffer;
use std::alloc::AllocError;

/// Appends names, a space before each.
pub(crate) fn append_named(text: &mut Vec<u8>, names: &[Name]) -> Result<(), AllocError>
    ensures names { IfOk result (λ _. AreNames names.now) }
    ensures text { OnOk result (text.new.items ≡ text.old.items ++ spaced names.now) }
{
    for name in names {
        text.push(b' ')?;
        text.extend_from_slice(name.bytes())?;
    }
    Ok(())
}

/// Appends words, a space before each.
pub(crate) fn append_words(text: &mut Vec<u8>, words: &[&[u8]]) -> Result<(), AllocError>
    ensures { OnOk result (text.new.items ≡ text.old.items ++ spaced (map (λ word. word.now) words.now)) }
{
    for word in words {
        text.push(b' ')?;
        text.extend_from_slice(word)?;
    }
    Ok(())
}

/// Appends a number, and a space before it.
pub(crate) fn append_number(text: &mut Vec<u8>, number: u64) -> Result<(), AllocError>
    ensures { OnOk result (text.new.items ≡ text.old.items ++ spaced (decimal number ∷ [])) }
{
    append_words(text, &[Buffer::new().format(number).as_bytes()])
}

/// Appends a line of words, one space between each two.
pub(crate) fn append_line(
    text: &mut Vec<u8>,
    first: &[u8],
    rest: &[&[u8]],
) -> Result<(), AllocError>
    ensures { OnOk result (text.new.items ≡ text.old.items ++ line_text (first.now ∷ map (λ word. word.now) rest.now)) }
{
    text.extend_from_slice(first)?;
    append_words(text, rest)?;
    Ok(text.push(b'\n')?)
}

/// Appends a line of a word and a number.
pub(crate) fn append_count(text: &mut Vec<u8>, word: &[u8], count: u64) -> Result<(), AllocError>
    ensures { OnOk result (text.new.items ≡ text.old.items ++ line_text (word.now ∷ decimal count ∷ [])) }
{
    append_line(text, word, &[Buffer::new().format(count).as_bytes()])
}

/// Appends a line of a word, a number and names.
pub(crate) fn append_numbered(
    text: &mut Vec<u8>,
    word: &[u8],
    number: u64,
    names: &[Name],
) -> Result<(), AllocError>
    ensures { OnOk result (text.new.items ≡ text.old.items ++ line_text (word.now ∷ decimal number ∷ names.now)) }
{
    text.extend_from_slice(word)?;
    append_number(text, number)?;
    append_named(text, names)?;
    Ok(text.push(b'\n')?)
}
