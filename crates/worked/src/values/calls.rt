//! All calls: their names, the kinds of their arguments, and the modules that compute their results.
use crate::tables::Table;
use crate::values::arguments::{Kind, Value, read_values};
use crate::values::results::{Outcome, word};
use crate::values::splits::split;
use crate::values::{bases, catches, contexts, lists, primitives, shares, trees};
use crate::words::meaning_of;

/// A call in a table, by its name.
#[derive(Clone, Copy)]
pub(crate) enum Call {
    Add,
    AddFile,
    AddOne,
    AddToSet,
    Align,
    Apply,
    ApplyAll,
    Arrange,
    CleanMerge,
    Commute,
    Conflict,
    Copy,
    Faults,
    File,
    Front,
    Insert,
    Inserted,
    Invert,
    InvertAll,
    IsEmpty,
    Line,
    Merge,
    MergeAfterCommon,
    MergeLists,
    Name,
    Norm,
    PassBy,
    Past,
    PastAll,
    Path,
    Pushed,
    Read,
    RemoveFile,
    Replaced,
    Shared,
    Sole,
    Splice,
    Spliced,
    Split,
    Without,
}

/// All calls by their names, each with the kinds of its arguments.
const CALLS: &[(&str, (Call, &[Kind]))] = &[
    ("name", (Call::Name, &[Kind::Word])),
    ("path", (Call::Path, &[Kind::Word])),
    ("line", (Call::Line, &[Kind::Word])),
    ("faults", (Call::Faults, &[])),
    ("is_empty", (Call::IsEmpty, &[Kind::Tree])),
    ("file", (Call::File, &[Kind::Tree, Kind::Path])),
    ("copy_tree", (Call::Copy, &[Kind::Tree])),
    ("add_file", (Call::AddFile, &[Kind::Tree, Kind::Path])),
    ("remove_file", (Call::RemoveFile, &[Kind::Tree, Kind::Path])),
    (
        "splice",
        (
            Call::Splice,
            &[
                Kind::Tree,
                Kind::Path,
                Kind::Count,
                Kind::Lines,
                Kind::Lines,
            ],
        ),
    ),
    ("read", (Call::Read, &[Kind::Named])),
    ("copy", (Call::Copy, &[Kind::Named])),
    ("invert", (Call::Invert, &[Kind::Named])),
    ("apply", (Call::Apply, &[Kind::Named, Kind::Tree])),
    (
        "commute",
        (Call::Commute, &[Kind::NamedOrCatch, Kind::NamedOrCatch]),
    ),
    ("past", (Call::Past, &[Kind::Named, Kind::List])),
    ("past_all", (Call::PastAll, &[Kind::List, Kind::List])),
    ("front", (Call::Front, &[Kind::List, Kind::Label])),
    ("split", (Call::Split, &[Kind::List, Kind::Labels])),
    ("norm", (Call::Norm, &[Kind::List])),
    ("invert_all", (Call::InvertAll, &[Kind::List])),
    ("clean_merge", (Call::CleanMerge, &[Kind::List, Kind::List])),
    ("apply_all", (Call::ApplyAll, &[Kind::List, Kind::Tree])),
    ("read_contexted", (Call::Copy, &[Kind::Contexted])),
    ("add_one", (Call::AddOne, &[Kind::Named, Kind::Contexted])),
    ("add", (Call::Add, &[Kind::List, Kind::Contexted])),
    ("pass_by", (Call::PassBy, &[Kind::List, Kind::Contexted])),
    (
        "conflict",
        (Call::Conflict, &[Kind::Contexted, Kind::Contexted]),
    ),
    (
        "merge_after_common",
        (Call::MergeAfterCommon, &[Kind::List, Kind::List]),
    ),
    ("read_set", (Call::Copy, &[Kind::Set])),
    ("sole", (Call::Sole, &[Kind::Set])),
    ("insert", (Call::Insert, &[Kind::Set, Kind::Contexted])),
    ("without", (Call::Without, &[Kind::Set, Kind::Label])),
    ("add_to_set", (Call::AddToSet, &[Kind::List, Kind::Set])),
    ("read_catch", (Call::Copy, &[Kind::Catch])),
    ("merge", (Call::Merge, &[Kind::Catch, Kind::Catch])),
    ("read_catches", (Call::Read, &[Kind::Catches])),
    ("arrange", (Call::Arrange, &[Kind::Catches, Kind::Labels])),
    ("align", (Call::Align, &[Kind::Catches, Kind::Labels])),
    (
        "merge_lists",
        (Call::MergeLists, &[Kind::Catches, Kind::Catches]),
    ),
    ("list_shared", (Call::Shared, &[Kind::Numbers])),
    ("list_pushed", (Call::Pushed, &[Kind::Numbers, Kind::Count])),
    (
        "list_inserted",
        (Call::Inserted, &[Kind::Numbers, Kind::Count, Kind::Count]),
    ),
    (
        "list_replaced",
        (Call::Replaced, &[Kind::Numbers, Kind::Count, Kind::Count]),
    ),
    (
        "list_without",
        (Call::Without, &[Kind::Numbers, Kind::Count]),
    ),
    (
        "list_spliced",
        (
            Call::Spliced,
            &[Kind::Numbers, Kind::Count, Kind::Count, Kind::Numbers],
        ),
    ),
];

/// Returns the result of a call, by its name and the text of its arguments.
pub(crate) fn answer(table: &Table, name: &[u8], text: &[u8]) -> Outcome {
    match meaning_of(CALLS, name) {
        Some((call, kinds)) => answer_text(table, call, kinds, text),
        None => no_such_call(table),
    }
}

fn answer_text(table: &Table, call: Call, kinds: &[Kind], text: &[u8]) -> Outcome {
    let texts = split(table.alloc(), text)?;
    let values = read_values(table, kinds, &texts)?;
    answer_values(table, call, &values)
}

/// Returns the result of a call from the module for the kind of its first argument.
fn answer_values(table: &Table, call: Call, values: &[Value]) -> Outcome {
    match values {
        [] => bases::faults(table),
        [Value::Word(bytes)] => bases::answer(table, call, bytes),
        [Value::Tree(tree), rest @ ..] => trees::answer(table, call, tree, rest),
        [Value::Named(p), rest @ ..] => primitives::answer(table, call, p, rest),
        [Value::List(list), rest @ ..] => lists::answer(table, call, list, rest),
        [Value::Contexted(x), rest @ ..] => contexts::answer(table, call, x, rest),
        [Value::Set(set), rest @ ..] => contexts::answer_set(table, call, set, rest),
        [Value::Catch(j), rest @ ..] => catches::answer(table, call, j, rest),
        [Value::Catches(list), rest @ ..] => catches::answer_list(table, call, list, rest),
        [Value::Numbers(list), rest @ ..] => shares::answer(table, call, list, rest),
        _ => no_such_call(table),
    }
}

pub(crate) fn no_such_call(table: &Table) -> Outcome {
    word(table, "no such call")
}
