//! The calls on lists of primitives.
use crate::tables::Table;
use crate::values::arguments::Value;
use crate::values::calls::{Call, no_such_call};
use crate::values::results::{Outcome, changed, render};
use camp_base::Tree;
use camp_ctx::{Contexted, CtxSet, merge_after_common};
use camp_seq::{Seq, apply_all, clean_merge, front, invert_all, norm, past_all, split};

/// Returns the result of a call on a list of primitives.
pub(crate) fn answer(table: &Table, call: Call, list: &Seq, rest: &[Value]) -> Outcome {
    match rest {
        [] => alone(table, call, list),
        [Value::List(right)] => beside(table, call, list, right),
        [Value::Label(label)] => render(table, front(list, label)),
        [Value::Labels(labels)] => render(table, split(list, labels)),
        [Value::Tree(tree)] => applied(table, list, tree),
        [Value::Contexted(x)] => before_one(table, call, list, x),
        [Value::Set(set)] => render(table, CtxSet::add(list, set)),
        _ => no_such_call(table),
    }
}

fn alone(table: &Table, call: Call, list: &Seq) -> Outcome {
    match call {
        Call::InvertAll => render(table, invert_all(list)),
        _ => render(table, norm(list)),
    }
}

fn beside(table: &Table, call: Call, left: &Seq, right: &Seq) -> Outcome {
    match call {
        Call::PastAll => render(table, past_all(left, right)),
        Call::CleanMerge => render(table, clean_merge(left, right)),
        _ => render(table, merge_after_common(table.alloc(), left, right)),
    }
}

fn before_one(table: &Table, call: Call, list: &Seq, x: &Contexted) -> Outcome {
    match call {
        Call::Add => render(table, Contexted::add(list, x)),
        _ => render(table, Contexted::past(list, x)),
    }
}

fn applied(table: &Table, list: &Seq, before: &Tree) -> Outcome {
    let mut tree = before.try_clone()?;
    let answer = apply_all(list, &mut tree);
    changed(table, before, tree, answer)
}
