//! The calls on trees.
use crate::tables::Table;
use crate::values::arguments::Value;
use crate::values::calls::{Call, no_such_call};
use crate::values::results::{Outcome, changed, render, show, word};
use camp_base::{Line, Path, Tree};
use camp_notation::lines_text;
use camp_share::SharedList;
use std::alloc::AllocError;

/// Returns the result of a call on a tree.
pub(crate) fn answer(table: &Table, call: Call, tree: &Tree, rest: &[Value]) -> Outcome {
    match rest {
        [] => match call {
            Call::Copy => render(table, tree.try_clone()),
            _ => show(table, &tree.is_empty()),
        },
        [Value::Path(path)] => at_path(table, call, tree, path),
        [
            Value::Path(path),
            Value::Count(line),
            Value::Lines(old),
            Value::Lines(new),
        ] => { splice(table, tree, path, *line, old, new) }
        _ => no_such_call(table),
    }
}

fn at_path(table: &Table, call: Call, tree: &Tree, path: &Path) -> Outcome {
    match call {
        Call::AddFile => add_file(table, tree, path),
        Call::RemoveFile => remove_file(table, tree, path),
        _ => file(table, tree, path),
    }
}

fn file(table: &Table, tree: &Tree, path: &Path) -> Outcome {
    match tree.file(path) {
        Some(lines) => Ok(file_text(table, lines)?),
        None => word(table, "none"),
    }
}

fn file_text(table: &Table, lines: &SharedList<Line>) -> Result<String, AllocError> {
    let lines = lines.to_vec()?;
    lines_text(table.alloc(), &lines)
}

fn add_file(table: &Table, before: &Tree, path: &Path) -> Outcome {
    let mut tree = before.try_clone()?;
    let answer = tree.add_file(path);
    changed(table, before, tree, answer)
}

fn remove_file(table: &Table, before: &Tree, path: &Path) -> Outcome {
    let mut tree = before.try_clone()?;
    let answer = tree.remove_file(path);
    changed(table, before, tree, answer)
}

/// Replaces lines of a file by others.
fn splice(
    table: &Table,
    before: &Tree,
    path: &Path,
    line: u32,
    old: &[Line],
    new: &[Line],
) -> Outcome {
    let mut tree = before.try_clone()?;
    let answer = tree.splice(path, line, old, new);
    changed(table, before, tree, answer)
}
