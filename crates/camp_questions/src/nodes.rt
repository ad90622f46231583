//! The patches of a graph, by their index.
ghost use Rattle.std.specs.Prelude.{◌≡◌, ◌<◌, ◌≤◌, ◌&&◌, ℕ, false, not, map, filter, length, get_or, IfOk, IsTrue};
ghost use Rattle.std.specs.List.{AllByRecursion};
ghost use Rattle.camp_branch.specs.Branches.{AreDistinct};
ghost use Rattle.camp_questions.specs.Inside.Graphing.{needing};
ghost use Rattle.camp_questions.specs.Inside.ByIndex.{NoneBeforeDepends, EndAtOwnIndex, name_at_index, needs_index, node_in, indexes_below};
ghost use Rattle.camp_questions.specs.declared.needed.Needed.{Needed as AnyNeeded};

use crate::graphs::Node;
use crate::needed::Needed;
use camp_base::Name;
use camp_repo::Names;
use std::alloc::{AllocError, Global};

/// Returns the patches of these names with their direct dependencies.
pub(crate) fn nodes(alloc: Global, names: &[Name], all: &[Needed]) -> Result<Vec<Node>, AllocError>
    requires named { map (λ (patch : AnyNeeded). patch.name) all.now ≡ names.now }
    requires distinct { AreDistinct names.now }
    ensures { IfOk result (λ nodes. nodes.items ≡ map (node_in names.now (map (needing names.now) all.now)) (map (needing names.now) all.now)) }
{
    let mut nodes = Vec::with_capacity(alloc, all.len())?;
    let in_place = end_at_own_index(all);
    for at in 0..all.len() {
        let patch = &all[at];
        let needs = direct_needs(alloc, names, all, in_place, at, patch)?;
        nodes.push(Node {
            name: patch.name,
            needs,
        })?;
    }
    Ok(nodes)
}

/// True if no patch has a mark past its own index.
fn end_at_own_index(all: &[Needed]) -> bool
    ensures { IsTrue result → EndAtOwnIndex all.now }
{
    for at in 0..all.len() {
        if all[at].needs.len() > at + 1 {
            return false;
        }
    }
    true
}

/// Returns the direct dependencies of the patch at an index: its dependencies without the dependencies of these. Starts
/// with the last dependencies, whose dependencies usually include most of the others. If no patch has a mark past its
/// own index, it stops at the first dependency that is left.
fn direct_needs(
    alloc: Global,
    names: &[Name],
    all: &[Needed],
    in_place: bool,
    at: usize,
    patch: &Needed,
) -> Result<Names, AllocError>
    requires within { at < length all.now }
    requires is { patch.now ≡ get_or all.now at patch.now }
    requires ends { IsTrue in_place → EndAtOwnIndex all.now }
    requires named { map (λ (patch : AnyNeeded). patch.name) all.now ≡ names.now }
    requires distinct { AreDistinct names.now }
    ensures { IfOk result (λ needs.
        needs ≡ (node_in names.now (map (needing names.now) all.now) (needing names.now patch.now)).needs) }
{
    let mut left = end_of_needed(&patch.needs, at, all.len());
    let mut places = needed_indexes(alloc, &patch.needs, at, left)?;
    let mut settled = 0;
    while left > settled {
        left -= 1;
        if needs(&patch.needs, at, left) {
            leave_out(&mut places, &all[left].needs, left);
            settled = first_that_may_depend(&places, in_place);
        }
    }
    let names = names_at(alloc, names, &places)?;
    Ok(Names::new(names))
}

/// Returns the index after the last dependency of the patch at an index; only indexes below `count` are searched.
fn end_of_needed(marks: &[bool], at: usize, count: usize) -> usize
    ensures within { result ≤ count }
    ensures none { (place : ℕ) → result ≤ place → place < count → needs_index marks.now at place ≡ false }
{
    let mut end = marks.len().min(count);
    while end > 0 {
        if needs(marks, at, end - 1) {
            return end;
        }
        end -= 1;
    }
    end
}

/// Returns an index such that no patch before it depends on a patch at one of these indexes: the first of these if no
/// patch has a mark past its own index, else 0.
fn first_that_may_depend(places: &[usize], in_place: bool) -> usize
    requires { AllByRecursion (λ place. get_or places.now 0 0 ≤ place) places.now }
    ensures { NoneBeforeDepends in_place places.now result }
{
    if places.is_empty() {
        return 0;
    }
    if in_place {
        return places[0];
    }
    0
}

/// Returns the dependencies of the patch at an index, given its marks: their indexes below `count`.
fn needed_indexes(
    alloc: Global,
    marks: &[bool],
    at: usize,
    count: usize,
) -> Result<Vec<usize>, AllocError>
    ensures { IfOk result (λ places. places.items ≡ filter (needs_index marks.now at) (indexes_below count)) }
{
    let mut places = Vec::new(alloc);
    for place in 0..count {
        if needs(marks, at, place) {
            places.push(place)?;
        }
    }
    Ok(places)
}

/// True if the patch at an index depends on the one at another.
fn needs(marks: &[bool], at: usize, place: usize) -> bool
    ensures { result ≡ needs_index marks.now at place }
{
    place != at && place < marks.len() && marks[place]
}

/// Removes from `places` the indexes of the dependencies of the patch at index `at`. Returns at once if its marks end
/// before the first index of `places`.
fn leave_out(places: &mut Vec<usize>, marks: &[bool], at: usize)
    requires { AllByRecursion (λ place. get_or places.old.items 0 0 ≤ place) places.old.items }
    ensures { places.new.items ≡ filter (λ place. not (needs_index marks.now at place)) places.old.items }
{
    if places.is_empty() {
        return;
    }
    if marks.len() <= places[0] {
        return;
    }
    places.retain(|place| !needs(marks, at, *place));
}

/// Returns the names at some indexes.
fn names_at(alloc: Global, names: &[Name], places: &[usize]) -> Result<Vec<Name>, AllocError>
    requires { AllByRecursion (λ place. place < length names.now) places.now }
    ensures { IfOk result (λ chosen. chosen.items ≡ map (name_at_index names.now) places.now) }
{
    let mut chosen = Vec::with_capacity(alloc, places.len())?;
    for place in places {
        chosen.push(names[*place])?;
    }
    Ok(chosen)
}
