//! The calls on shared lists.

use crate::tables::Table;
use crate::values::arguments::Value;
use crate::values::calls::{Call, no_such_call};
use crate::values::numbers::{Number, Numbers};
use crate::values::results::{Outcome, none, render};
use camp_share::Share;

/// Returns the result of a call on a shared list, or none if an index is past its end.
pub(crate) fn answer(table: &Table, call: Call, list: &Numbers, rest: &[Value]) -> Outcome {
    match rest {
        [] => render(table, list.share()),
        [Value::Count(count)] => match call {
            Call::Pushed => render(table, list.pushed(Number(*count))),
            _ => without(table, list, *count as usize),
        },
        [Value::Count(at), Value::Count(count)] => match call {
            Call::Inserted => inserted(table, list, *at as usize, Number(*count)),
            _ => replaced(table, list, *at as usize, Number(*count)),
        },
        [Value::Count(from), Value::Count(to), Value::Numbers(items)] => {
            spliced(table, list, *from as usize, *to as usize, items)
        }
        _ => no_such_call(table),
    }
}

fn without(table: &Table, list: &Numbers, at: usize) -> Outcome {
    if at >= list.len() {
        return none(table);
    }
    render(table, list.without(at))
}

fn inserted(table: &Table, list: &Numbers, at: usize, number: Number) -> Outcome {
    if at > list.len() {
        return none(table);
    }
    render(table, list.inserted(at, number))
}

fn replaced(table: &Table, list: &Numbers, at: usize, number: Number) -> Outcome {
    if at >= list.len() {
        return none(table);
    }
    render(table, list.replaced(at, number))
}

/// Returns a list with a range replaced by another list.
fn spliced(table: &Table, list: &Numbers, from: usize, to: usize, items: &Numbers) -> Outcome {
    let items = items.to_vec()?;
    if from > to || to > list.len() {
        return none(table);
    }
    render(table, list.spliced(from, to, &items))
}
