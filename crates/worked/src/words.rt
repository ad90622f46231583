//! The words of a line.
use bstr::ByteSlice;
use std::alloc::{AllocError, Global};
use std::fmt::Display;
use std::str;

/// Splits a line into its first word and the rest.
pub(crate) fn split_word(line: &[u8]) -> (&[u8], &[u8]) {
    match line.split_once_str(b" ") {
        Some((word, rest)) => (word, rest),
        None => (line, b""),
    }
}

/// Parses a word as a number.
pub(crate) fn number_of(word: &[u8]) -> Option<u32> {
    match str::from_utf8(word) {
        Ok(digits) => digits.parse::<u32>().ok(),
        Err(_) => None,
    }
}

/// Returns what a word stands for, if it is one of these.
pub(crate) fn meaning_of<T: Copy>(words: &[(&str, T)], word: &[u8]) -> Option<T> {
    for (known, meaning) in words {
        if known.as_bytes() == word {
            return Some(*meaning);
        }
    }
    None
}

/// Returns the words in which a value is shown.
pub(crate) fn words_of<T: Display>(alloc: Global, value: &T) -> Result<String, AllocError> {
    format!(in alloc; "{value}")
}

/// Joins lines to one text.
pub(crate) fn joined(alloc: Global, lines: &[&[u8]]) -> Result<Vec<u8>, AllocError> {
    let mut text = Vec::new(alloc);
    for line in lines {
        text.extend_from_slice(line)?;
        text.push(b'\n')?;
    }
    Ok(text)
}
