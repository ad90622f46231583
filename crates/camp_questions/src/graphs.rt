//! The graph of a branch.
ghost use Rattle.std.specs.Prelude.{◌≡◌, IfOk};
ghost use Rattle.camp_questions.specs.Answers.{ReportsAnswer};
ghost use Rattle.camp_questions.specs.Graphs.{IsGraph, IsGraphOf};

use crate::Unanswered;
use crate::finding::branch_of;
use crate::needed::all_needed;
use crate::nodes::nodes;
use crate::reporting::answer_or_memory;
use camp_base::Name;
use camp_repo::{Branch, Conflicts, Names, State};
use std::alloc::AllocError;
use std::marker::Model;

/// The patches of a branch, their direct dependencies, and the conflicts between them.
#[derive(Drop)]
pub struct PatchGraph {
    pub(crate) patches: Vec<Node>,
    pub(crate) conflicts: Conflicts,
}

/// A patch of a graph.
#[derive(Drop)]
pub struct Node {
    pub name: Name,
    /// Its direct dependencies: those that are no dependencies of another of its dependencies.
    pub needs: Names,
}

impl Model for PatchGraph {
    ghost use Rattle.camp_questions.specs.Graphs.{Drawn};

    ghost Value = { Drawn };

    ghost view = { λ graph. record { patches = graph.patches.items; conflicts = graph.conflicts } };
}

impl PatchGraph {
    /// Returns the patches, in the order of the branch.
    pub fn patches(&self) -> &[Node]
        ensures value { result.now ≡ self.now.patches }
    {
        &self.patches
    }

    /// Returns the pairs of patches that are in conflict.
    pub fn conflicts(&self) -> &Conflicts
        ensures value { result.now ≡ self.now.conflicts }
    {
        &self.conflicts
    }

    /// Returns the patches and the pairs, and consumes the graph.
    pub fn into_parts(self) -> (Vec<Node>, Conflicts)
        ensures patches { result.0.items ≡ self.patches }
        ensures conflicts { result.1 ≡ self.conflicts }
    {
        let PatchGraph { patches, conflicts } = self;
        (patches, conflicts)
    }
}

/// Returns the patches of a branch in its order, their direct dependencies, and the pairs that are in
/// conflict.
pub fn graph(state: &State, branch: &Name) -> Result<PatchGraph, Unanswered>
    ensures exact { ReportsAnswer (IsGraphOf state.now branch.now) result }
{
    let branch = branch_of(state, branch)?;
    answer_or_memory(graph_of(branch))
}

pub(crate) fn graph_of(branch: &Branch) -> Result<PatchGraph, AllocError>
    ensures { IfOk result (IsGraph branch.now) }
{
    let names = branch.names()?;
    let alloc = branch.catches().allocator();
    let patches = nodes(alloc, &names, &all_needed(branch, &names)?)?;
    let pairs = branch.conflicts()?;
    Ok(PatchGraph {
        patches,
        conflicts: Conflicts::new(pairs),
    })
}
