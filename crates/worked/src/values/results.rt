//! Showing results, and parsing them again.
use crate::tables::Table;
use crate::values::numbers::{Numbers, numbers_text};
use crate::words::words_of;
use camp_base::{Apply, Tree};
use camp_catch::{Arranged, Catch};
use camp_ctx::{Contexted, CtxSet};
use camp_notation::{
    NotationError, catch_text, catches_text, contexted_text, list_text, named_text, read_catch,
    read_catches, read_contexted, read_set, set_text, tree_text,
};
use camp_prim::Named;
use camp_seq::Seq;
use camp_share::Shared;
use std::alloc::AllocError;

/// The result of a call, or the words for its fault.
pub(crate) type Outcome = Result<String, NotationError>;

/// A value that can be a result. The texts of a contexted patch, a set, a catch and a list of catches are parsed again,
/// and a difference is shown.
pub(crate) trait Shown {
    /// Shows the text of the value.
    fn shown(&self, table: &Table) -> Outcome;
}

impl Shown for Named {
    fn shown(&self, table: &Table) -> Outcome {
        rendered(named_text(table.alloc(), table.known(), self))
    }
}

impl Shown for Seq {
    fn shown(&self, table: &Table) -> Outcome {
        rendered(list_text(table.alloc(), table.known(), self))
    }
}

impl Shown for Tree {
    fn shown(&self, table: &Table) -> Outcome {
        rendered(tree_text(table.alloc(), self))
    }
}

impl Shown for Contexted {
    fn shown(&self, table: &Table) -> Outcome {
        let text = contexted_text(table.alloc(), table.known(), self)?;
        match read_contexted(table.alloc(), table.known(), text.as_bytes()) {
            Ok(read) => read_back(text, read.is_same(self)),
            Err(why) => Err(why),
        }
    }
}

impl Shown for CtxSet {
    fn shown(&self, table: &Table) -> Outcome {
        let text = set_text(table.alloc(), table.known(), self)?;
        match read_set(table.alloc(), table.known(), text.as_bytes()) {
            Ok(read) => read_back(text, read.is_same(self)),
            Err(why) => Err(why),
        }
    }
}

impl Shown for Catch {
    fn shown(&self, table: &Table) -> Outcome {
        let text = catch_text(table.alloc(), table.known(), self)?;
        match read_catch(table.alloc(), table.known(), text.as_bytes()) {
            Ok(read) => read_back(text, read.is_same(self)),
            Err(why) => Err(why),
        }
    }
}

impl Shown for Vec<Shared<Catch>> {
    fn shown(&self, table: &Table) -> Outcome {
        let text = catches_text(table.alloc(), table.known(), self)?;
        match read_catches(table.alloc(), table.known(), text.as_bytes()) {
            Ok(read) => read_back(text, are_same(self, &read)),
            Err(why) => Err(why),
        }
    }
}

impl Shown for Arranged {
    fn shown(&self, table: &Table) -> Outcome {
        both(table, &self.first, &self.rest)
    }
}

impl Shown for Numbers {
    fn shown(&self, table: &Table) -> Outcome {
        rendered(numbers_text(table.alloc(), self))
    }
}

impl Shown for bool {
    fn shown(&self, table: &Table) -> Outcome {
        word(table, if *self { "yes" } else { "no" })
    }
}

/// Shows a result, or none.
impl<T: Shown> Shown for Option<T> {
    fn shown(&self, table: &Table) -> Outcome {
        match self {
            Some(value) => value.shown(table),
            None => none(table),
        }
    }
}

/// Shows two results, one after the other.
impl<T: Shown, U: Shown> Shown for (T, U) {
    fn shown(&self, table: &Table) -> Outcome {
        both(table, &self.0, &self.1)
    }
}

fn both<T: Shown, U: Shown>(table: &Table, first: &T, second: &U) -> Outcome {
    let text = first.shown(table)?;
    match second.shown(table) {
        Ok(rest) => rendered(joined(text, &rest)),
        Err(why) => Err(why),
    }
}

fn joined(first: String, second: &str) -> Result<String, AllocError> {
    let mut text = first;
    text.push_str(", ")?;
    text.push_str(second)?;
    Ok(text)
}

fn are_same(list: &[Shared<Catch>], other: &[Shared<Catch>]) -> bool {
    for (j, k) in list.iter().zip(other) {
        if !j.is_same(k) {
            return false;
        }
    }
    list.len() == other.len()
}

// Shows a text, and whether parsing it gives the value that it was rendered from.
fn read_back(text: String, is_same: bool) -> Outcome {
    let mut text = text;
    if !is_same {
        text.push_str(", which is read back as another")?;
    }
    Ok(text)
}

/// Returns the result of a call, unless memory ran out.
pub(crate) fn render<T: Shown + Drop>(table: &Table, made: Result<T, AllocError>) -> Outcome {
    match made {
        Ok(value) => show(table, &value),
        Err(_) => Err(NotationError::Memory),
    }
}

/// Shows the text of a value, or `made` if values are not shown.
pub(crate) fn show<T: Shown>(table: &Table, value: &T) -> Outcome {
    if table.is_quiet() {
        word(table, "made")
    } else {
        value.shown(table)
    }
}

/// Shows a word.
pub(crate) fn word(table: &Table, text: &str) -> Outcome {
    rendered(String::from_str(table.alloc(), text))
}

pub(crate) fn none(table: &Table) -> Outcome {
    word(table, "none")
}

/// Shows a text, unless memory ran out.
pub(crate) fn rendered(text: Result<String, AllocError>) -> Outcome {
    match text {
        Ok(text) => Ok(text),
        Err(_) => Err(NotationError::Memory),
    }
}

/// Shows the tree after a change, or the words for its fault. A change that fails and nevertheless changes the tree is
/// reported.
pub(crate) fn changed(
    table: &Table,
    before: &Tree,
    after: Tree,
    answer: Result<(), Apply>,
) -> Outcome {
    match answer {
        Ok(()) => show(table, &after),
        Err(why) => refused(table, why, after.is_same(before)),
    }
}

fn refused(table: &Table, why: Apply, is_kept: bool) -> Outcome {
    match why {
        _ if !is_kept => rendered(format!(in table.alloc(); "{why}, and another tree")),
        Apply::DoesNotApply => rendered(words_of(table.alloc(), &why)),
        Apply::Memory => Err(NotationError::Memory),
    }
}
