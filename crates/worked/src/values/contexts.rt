//! The calls on contexted patches, and on sets of them.
use crate::tables::Table;
use crate::values::arguments::Value;
use crate::values::calls::{Call, no_such_call};
use crate::values::results::{Outcome, render, word};
use camp_ctx::{Contexted, CtxSet, conflict};

/// Returns the result of a call on a contexted patch.
pub(crate) fn answer(table: &Table, _call: Call, x: &Contexted, rest: &[Value]) -> Outcome {
    match rest {
        [] => render(table, x.try_clone()),
        [Value::Contexted(y)] => render(table, conflict(x, y)),
        _ => no_such_call(table),
    }
}

/// Returns the result of a call on a set. An absolute label is written as a label without a caret.
pub(crate) fn answer_set(table: &Table, call: Call, set: &CtxSet, rest: &[Value]) -> Outcome {
    match rest {
        [] => match call {
            Call::Sole => sole(table, set),
            _ => render(table, set.try_clone()),
        },
        [Value::Contexted(x)] => render(table, set.insert(x)),
        [Value::Label(label)] => render(table, set.without(&label.key())),
        _ => no_such_call(table),
    }
}

fn sole(table: &Table, set: &CtxSet) -> Outcome {
    match set.sole() {
        Some(member) => render(table, member.try_clone()),
        None => word(table, "none"),
    }
}
