//! The calls on catches, and on lists of them.
use crate::tables::Table;
use crate::values::arguments::Value;
use crate::values::calls::{Call, no_such_call};
use crate::values::results::{Outcome, Shown, render, rendered, show};
use camp_base::Name;
use camp_catch::{Catch, NoMerge, Stuck, Unmade, align, arrange, commute, merge, merge_lists};
use camp_notation::{NotationError, label_text};
use camp_prim::{Key, Label};
use camp_share::{Shared, SharedMap};
use std::alloc::AllocError;

/// Returns the result of a call on a catch.
pub(crate) fn answer(table: &Table, call: Call, j: &Catch, rest: &[Value]) -> Outcome {
    match rest {
        [] => render(table, j.try_clone()),
        [Value::Catch(k)] => match call {
            Call::Merge => render(table, merge(table.alloc(), j, k)),
            _ => render(table, commute(table.alloc(), j, k)),
        },
        _ => no_such_call(table),
    }
}

/// Returns the result of a call on a list of catches.
pub(crate) fn answer_list(
    table: &Table,
    call: Call,
    list: &Vec<Shared<Catch>>,
    rest: &[Value],
) -> Outcome {
    match rest {
        [] => show(table, list),
        [Value::Labels(labels)] => match call {
            Call::Align => aligned(table, list, labels),
            _ => arranged(table, list, labels),
        },
        [Value::Catches(other)] => render_list(table, merge_lists(table.alloc(), list, other)),
        _ => no_such_call(table),
    }
}

fn arranged(table: &Table, list: &[Shared<Catch>], labels: &[Label]) -> Outcome {
    let names = names(table, labels)?;
    render_list(table, arrange(table.alloc(), list, &names))
}

fn aligned(table: &Table, list: &[Shared<Catch>], labels: &[Label]) -> Outcome {
    let order = keys(table, labels)?;
    render_list(table, align(table.alloc(), list, &order))
}

/// Shows the resulting list, or what blocks it.
fn render_list<T: Shown + Drop, O: Obstacle>(table: &Table, made: Result<T, Unmade<O>>) -> Outcome {
    match made {
        Ok(list) => show(table, &list),
        Err(Unmade::Blocked(obstacle)) => rendered(obstacle.words(table)),
        Err(Unmade::Memory) => Err(NotationError::Memory),
    }
}

/// Shows what blocks a list.
trait Obstacle: Copy {
    fn words(self, table: &Table) -> Result<String, AllocError>;
}

impl Obstacle for Stuck {
    fn words(self, table: &Table) -> Result<String, AllocError> {
        words_of_keys(table, &[("stuck ", self.patch), (" on ", self.on)])
    }
}

impl Obstacle for Key {
    fn words(self, table: &Table) -> Result<String, AllocError> {
        words_of_keys(table, &[("stuck ", self)])
    }
}

impl Obstacle for NoMerge {
    fn words(self, table: &Table) -> Result<String, AllocError> {
        words_of_keys(table, &[("no merge of ", self.left), (" and ", self.right)])
    }
}

/// Appends words, each followed by an absolute label, which is written as a label without a caret.
fn words_of_keys(table: &Table, words: &[(&str, Key)]) -> Result<String, AllocError> {
    let mut text = String::new(table.alloc());
    for (word, key) in words {
        let label = Label {
            name: key.name,
            place: key.place,
            inverse: false,
        };
        text.push_str(word)?;
        text.push_str(&label_text(table.alloc(), label)?)?;
    }
    Ok(text)
}

fn names(table: &Table, labels: &[Label]) -> Result<SharedMap<Name, ()>, AllocError> {
    let mut names = SharedMap::new(table.alloc());
    for label in labels {
        names = names.inserted(label.name, ())?;
    }
    Ok(names)
}

fn keys(table: &Table, labels: &[Label]) -> Result<Vec<Key>, AllocError> {
    let mut keys = Vec::new(table.alloc());
    for label in labels {
        keys.push(label.key())?;
    }
    Ok(keys)
}
