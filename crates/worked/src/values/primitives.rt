//! The calls on primitives.
use crate::tables::Table;
use crate::values::arguments::Value;
use crate::values::calls::{Call, no_such_call};
use crate::values::results::{Outcome, changed, render, show};
use camp_base::Tree;
use camp_ctx::Contexted;
use camp_prim::{Named, commute};
use camp_seq::past;
use std::alloc::AllocError;

/// Returns the result of a call on a primitive.
pub(crate) fn answer(table: &Table, call: Call, p: &Named, rest: &[Value]) -> Outcome {
    match rest {
        [] => alone(table, call, p),
        [Value::Named(q)] => render(table, commute(p, q)),
        [Value::Tree(tree)] => apply(table, p, tree),
        [Value::List(list)] => render(table, past(p, list)),
        [Value::Contexted(x)] => render(table, Contexted::add_one(p, x)),
        _ => no_such_call(table),
    }
}

fn alone(table: &Table, call: Call, p: &Named) -> Outcome {
    match call {
        Call::Copy => render(table, p.try_clone()),
        Call::Invert => render(table, invert(p)),
        _ => show(table, p),
    }
}

fn invert(p: &Named) -> Result<Named, AllocError> {
    match p.try_clone() {
        Ok(copy) => Ok(copy.invert()),
        Err(why) => Err(why),
    }
}

fn apply(table: &Table, p: &Named, before: &Tree) -> Outcome {
    let mut tree = before.try_clone()?;
    let answer = p.apply(&mut tree);
    changed(table, before, tree, answer)
}
