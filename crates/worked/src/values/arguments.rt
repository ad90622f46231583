//! The arguments of a call, each parsed from its text.
use crate::tables::Table;
use crate::values::numbers::{Numbers, read_number, read_numbers};
use camp_base::{Line, Path, Tree};
use camp_catch::Catch;
use camp_ctx::{Contexted, CtxSet};
use camp_notation::{
    NotationError, read_catch, read_catches, read_contexted, read_label, read_lines, read_list,
    read_named, read_set, read_tree, read_word,
};
use camp_prim::{Label, Named};
use camp_seq::Seq;
use camp_share::Shared;

/// An argument of a call.
#[derive(Drop)]
pub(crate) enum Value {
    Word(Vec<u8>),
    Count(u32),
    Path(Path),
    Lines(Vec<Line>),
    Tree(Tree),
    Label(Label),
    Labels(Vec<Label>),
    Named(Named),
    List(Seq),
    Contexted(Contexted),
    Set(CtxSet),
    Catch(Catch),
    Catches(Vec<Shared<Catch>>),
    Numbers(Numbers),
}

/// The kind of value as which an argument is parsed.
#[derive(Clone, Copy)]
pub(crate) enum Kind {
    /// Bytes.
    Word,
    Count,
    Path,
    /// The lines of one side of a hunk.
    Lines,
    Tree,
    Label,
    /// A label; more labels may follow as further arguments.
    Labels,
    Named,
    /// A catch if the text has that form, else a primitive.
    NamedOrCatch,
    List,
    Contexted,
    Set,
    Catch,
    Catches,
    /// A shared list of numbers.
    Numbers,
}

/// Parses the arguments of a call as values of these kinds. A missing argument is parsed from an empty text; surplus
/// ones are ignored. `Kind::Labels` takes all arguments that are left, which may be none.
pub(crate) fn read_values(
    table: &Table,
    kinds: &[Kind],
    texts: &[&[u8]],
) -> Result<Vec<Value>, NotationError> {
    let mut values = Vec::new(table.alloc());
    for (at, kind) in kinds.iter().enumerate() {
        let value = read_value(table, *kind, &texts[at.min(texts.len())..])?;
        values.push(value)?;
    }
    Ok(values)
}

fn read_labels(table: &Table, texts: &[&[u8]]) -> Result<Value, NotationError> {
    let mut labels = Vec::new(table.alloc());
    for text in texts {
        labels.push(read_label(table.alloc(), text)?)?;
    }
    Ok(Value::Labels(labels))
}

/// Parses the first of some texts. A list or a tree may be given by its name.
fn read_value(table: &Table, kind: Kind, texts: &[&[u8]]) -> Result<Value, NotationError> {
    let (alloc, text) = (table.alloc(), first_of(texts));
    match kind {
        Kind::Labels => read_labels(table, texts),
        Kind::Word => Ok(Value::Word(read_word(alloc, text)?)),
        Kind::Count => Ok(Value::Count(read_number(text)?)),
        Kind::Path => read_path(table, text),
        Kind::Lines => Ok(Value::Lines(read_lines(alloc, text)?)),
        Kind::Tree => Ok(Value::Tree(read_tree(alloc, table.meaning(text))?)),
        Kind::Label => Ok(Value::Label(read_label(alloc, text)?)),
        Kind::Numbers => Ok(Value::Numbers(read_numbers(alloc, text)?)),
        _ => read_patches(table, kind, text),
    }
}

fn first_of<'a>(texts: &[&'a [u8]]) -> &'a [u8] {
    match texts.first() {
        Some(text) => *text,
        None => b"",
    }
}

/// Parses a value that consists of patches.
fn read_patches(table: &Table, kind: Kind, text: &[u8]) -> Result<Value, NotationError> {
    let (alloc, known) = (table.alloc(), table.known());
    match kind {
        Kind::List => Ok(Value::List(read_list(alloc, known, table.meaning(text))?)),
        Kind::Contexted => Ok(Value::Contexted(read_contexted(alloc, known, text)?)),
        Kind::Set => Ok(Value::Set(read_set(alloc, known, text)?)),
        Kind::Catches => Ok(Value::Catches(read_catches(alloc, known, text)?)),
        Kind::Named => Ok(Value::Named(read_named(alloc, known, text)?)),
        Kind::NamedOrCatch if !is_of_catch(text) => {
            Ok(Value::Named(read_named(alloc, known, text)?))
        }
        _ => Ok(Value::Catch(read_catch(alloc, known, text)?)),
    }
}

/// True if a text is written as a catch.
fn is_of_catch(text: &[u8]) -> bool {
    matches!(text.first(), Some(b'[' | b'('))
}

fn read_path(table: &Table, text: &[u8]) -> Result<Value, NotationError> {
    let word = read_word(table.alloc(), text)?;
    Ok(Value::Path(Path::new(table.alloc(), &word)?))
}
