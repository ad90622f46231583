//! Graphs of branches with their unresolved conflicts.
ghost use Rattle.std.specs.Prelude.{◌≡◌, ◌++◌, ◌∷◌, ◌&&◌, [], ℕ, List, IfOk, OnOk, filter, map, if◌then◌else◌};
ghost use Rattle.std.specs.List.{list_any};
ghost use Rattle.camp_branch.specs.Branches.{is_among};
ghost use Rattle.camp_branch.specs.Fields.{has_name, names_in};
ghost use Rattle.camp_questions.specs.Answers.{ReportsAnswerOrMemory};
ghost use Rattle.camp_questions.specs.Graphs.{Drawn, IsGraph};
ghost use Rattle.camp_questions.specs.OpenConflicts.{AreUnresolvedIn};
ghost use Rattle.camp_questions.specs.Pictures.{IsPictured, graph_part, is_one_or_neighbour, kept_node, part_with, whole_picture, with_needing, with_needing_one, with_needs, with_needs_of};

use crate::finding::branch_with;
use crate::graphs::graph_of;
use crate::keeping::keep_named;
use crate::open_conflicts::unresolved_in;
use crate::related::part_of_one;
use crate::reporting::answer_or_memory;
use crate::{Node, PatchGraph, Unanswered};
use camp_base::Name;
use camp_branch::{NameSet, set_of};
use camp_repo::{Branch, Conflicts, Names, State};
use std::alloc::{AllocError, Global};
use std::marker::Model;

/// The graph of a branch: patches, their direct dependencies, the conflicts between them, and which conflicts
/// of the branch are unresolved.
#[derive(Drop)]
pub struct Picture {
    patches: Vec<Node>,
    conflicts: Conflicts,
    unsettled: Conflicts,
}

impl Model for Picture {
    ghost use Rattle.camp_questions.specs.Pictures.{Picture};

    ghost Value = { Picture };

    ghost view = { λ picture. record {
      patches = picture.patches.items;
      conflicts = picture.conflicts;
      unsettled = picture.unsettled;
    } };
}

impl Picture {
    /// Returns the patches, in the order of the branch.
    pub fn patches(&self) -> &[Node]
        ensures value { result.now ≡ self.now.patches }
    {
        &self.patches
    }

    /// Returns the pairs of patches that are in conflict.
    pub fn conflicts(&self) -> &Conflicts
        ensures value { result.now ≡ self.now.conflicts }
    {
        &self.conflicts
    }

    /// Returns the pairs of patches of the branch that are in an unresolved conflict.
    pub fn unsettled(&self) -> &Conflicts
        ensures value { result.now ≡ self.now.unsettled }
    {
        &self.unsettled
    }
}

/// Returns the graph of a branch. If patches are named, it has these, their dependencies and their
/// dependents.
pub fn picture_of(state: &State, branch: &Name, names: &[Name]) -> Result<Picture, Unanswered>
    ensures exact { ReportsAnswerOrMemory (IsPictured state.now branch.now names.now) result }
{
    let branch = branch_with(state, branch, names)?;
    answer_or_memory(picture_in(branch, names))
}

fn picture_in(branch: &Branch, names: &[Name]) -> Result<Picture, AllocError>
    ensures { IfOk result (λ picture. (graph : Drawn) × (pairs : List (List ℕ × List ℕ))
        × (picture ≡ graph_part names.now (whole_picture graph pairs)) × IsGraph branch.now graph × AreUnresolvedIn branch.now pairs) }
{
    let part = part_in(branch, names)?;
    let unsettled = unresolved_in(branch)?;
    let (patches, conflicts) = part.into_parts();
    Ok(Picture {
        patches,
        conflicts,
        unsettled,
    })
}

/// Returns the graph of a branch, or the part of it that belongs to given patches. A small part that belongs to one
/// patch is found without making the whole graph.
fn part_in(branch: &Branch, names: &[Name]) -> Result<PatchGraph, AllocError>
    ensures { IfOk result (λ part. (graph : Drawn) × IsGraph branch.now graph
        × ((pairs : List (List ℕ × List ℕ)) → whole_picture part pairs ≡ graph_part names.now (whole_picture graph pairs))) }
{
    if names.len() == 1 {
        if let Some(part) = part_of_one(branch, &names[0])? {
            return Ok(part);
        }
    }
    graph_part(branch.catches().allocator(), names, graph_of(branch)?)
}

/// Returns the whole graph, or the part of it with patches, their dependencies and their dependents.
fn graph_part(alloc: Global, names: &[Name], whole: PatchGraph) -> Result<PatchGraph, AllocError>
    ensures { IfOk result (λ part. (pairs : List (List ℕ × List ℕ)) → whole_picture part pairs ≡ graph_part names.now (whole_picture whole pairs)) }
{
    if names.is_empty() {
        return Ok(whole);
    }
    part_about(alloc, names, &whole)
}

/// Returns the part of a graph with these patches, their dependencies and their dependents.
fn part_about(alloc: Global, names: &[Name], whole: &PatchGraph) -> Result<PatchGraph, AllocError>
    ensures { IfOk result (λ part. (pairs : List (List ℕ × List ℕ)) →
        whole_picture part pairs ≡ part_with (is_one_or_neighbour whole.now.patches names.now) (whole_picture whole.now pairs)) }
{
    let kept = with_neighbours(alloc, whole.patches(), names)?;
    let patches = kept_nodes(alloc, &kept, whole.patches())?;
    let conflicts = kept_pairs(&kept, whole.conflicts())?;
    Ok(PatchGraph { patches, conflicts })
}

/// Returns the names of patches, of their dependencies and of their dependents.
fn with_neighbours(alloc: Global, nodes: &[Node], names: &[Name]) -> Result<NameSet, AllocError>
    ensures { IfOk result (λ set. (name : List ℕ) → is_among (names_in set) name ≡ is_one_or_neighbour nodes.now names.now name) }
{
    let mut all = needed(alloc, nodes, names)?;
    let needing = needing(alloc, nodes, names)?;
    all.extend_from_slice(&needing)?;
    set_of(alloc, &all)
}

/// Returns the names and their dependencies, from the last patch to the first.
fn needed(alloc: Global, nodes: &[Node], names: &[Name]) -> Result<Vec<Name>, AllocError>
    ensures { IfOk result (λ needed. needed.items ≡ with_needs nodes.now names.now) }
{
    let mut needed = Vec::from_slice(alloc, names)?;
    for at in (0..nodes.len()).rev() {
        add_dependencies(&mut needed, &nodes[at])?;
    }
    Ok(needed)
}

/// Appends the direct dependencies of a patch to names if the patch is among them.
fn add_dependencies(names: &mut Vec<Name>, node: &Node) -> Result<(), AllocError>
    ensures { OnOk result (names.new.items ≡ with_needs_of node.now names.old.items) }
{
    if !has(names, &node.name) {
        return Ok(());
    }
    names.extend_from_slice(node.needs.as_slice())
}

/// Returns the names and their dependents, from the first patch to the last.
fn needing(alloc: Global, nodes: &[Node], names: &[Name]) -> Result<Vec<Name>, AllocError>
    ensures { IfOk result (λ needing. needing.items ≡ with_needing nodes.now names.now) }
{
    let mut needing = Vec::from_slice(alloc, names)?;
    for node in nodes {
        join_needing(&mut needing, node)?;
    }
    Ok(needing)
}

/// Appends a patch to names if it depends directly on one of them.
fn join_needing(names: &mut Vec<Name>, node: &Node) -> Result<(), AllocError>
    ensures { OnOk result (names.new.items ≡ with_needing_one names.old.items node.now) }
{
    if !needs_one(names, node.needs.as_slice()) {
        return Ok(());
    }
    names.push(node.name)?;
    Ok(())
}

/// True if one of the direct dependencies of a patch is among names.
fn needs_one(names: &[Name], needs: &[Name]) -> bool
    ensures { result ≡ list_any (is_among names.now) needs.now }
{
    needs.iter().any(|on| has(names, on))
}

fn has(names: &[Name], name: &Name) -> bool
    ensures { result ≡ is_among names.now name.now }
{
    names.iter().any(|other| name == other)
}

/// Returns the patches of the kept names, with the arrows between these.
fn kept_nodes(alloc: Global, kept: &NameSet, nodes: &[Node]) -> Result<Vec<Node>, AllocError>
    ensures { IfOk result (λ left. left.items ≡ map (kept_node (has_name kept.now)) (filter (λ node. has_name kept.now node.name) nodes.now)) }
{
    let mut left = Vec::new(alloc);
    for node in nodes {
        push_kept(&mut left, kept, node)?;
    }
    Ok(left)
}

fn push_kept(left: &mut Vec<Node>, kept: &NameSet, node: &Node) -> Result<(), AllocError>
    ensures { OnOk result (left.new.items ≡
        (if has_name kept.now node.now.name then left.old.items ++ kept_node (has_name kept.now) node.now ∷ [] else left.old.items)) }
{
    if !kept.contains_key(&node.name) {
        return Ok(());
    }
    let mut needs = Vec::from_slice(kept.allocator(), node.needs.as_slice())?;
    keep_named(&mut needs, kept);
    left.push(Node {
        name: node.name,
        needs: Names::new(needs),
    })?;
    Ok(())
}

/// Returns the pairs of which both names are kept.
pub(crate) fn kept_pairs(kept: &NameSet, conflicts: &Conflicts) -> Result<Conflicts, AllocError>
    ensures { IfOk result (λ left. left ≡ filter (λ pair. has_name kept.now pair.0 && has_name kept.now pair.1) conflicts.now) }
{
    let mut pairs = Vec::from_slice(kept.allocator(), conflicts.pairs())?;
    pairs.retain(|pair| kept.contains_key(&pair.0) && kept.contains_key(&pair.1));
    Ok(Conflicts::new(pairs))
}
