//! The calls.
ghost use Rattle.std.specs.Prelude.{◌≡◌, ◌↔◌, IfOk, IsTrue};
ghost use Rattle.camp_call.specs.Calls.{is_writing};

use crate::{Changes, Names};
use camp_base::Name;
use std::alloc::AllocError;

/// What a caller asks of a repository.
#[derive(Debug, Drop)]
pub enum Call {
    /// Creates a branch as a copy of another.
    Branch {
        new: Name,
        from: Name,
    },
    /// Appends a patch to a branch.
    Record {
        branch: Name,
        name: Name,
        changes: Changes,
    },
    /// Pulls patches of one branch into another: those of these names, or all that it lacks.
    Pull {
        from: Name,
        to: Name,
        names: Option<Names>,
    },
    /// Takes patches out of a branch.
    Obliterate {
        branch: Name,
        names: Names,
    },
    /// Returns the tree of a branch.
    Tree(Name),
    /// Returns which patches of a branch are in conflict.
    Conflicts(Name),
    /// Returns the names of the patches of a branch.
    Names(Name),
}

impl Call {
    pub fn try_clone(&self) -> Result<Call, AllocError>
        ensures exact { IfOk result (λ copy. copy ≡ self.now) }
    {
        match self {
            Call::Branch { new, from } => Ok(Call::Branch {
                new: *new,
                from: *from,
            }),
            Call::Record {
                branch,
                name,
                changes,
            } => Ok(Call::Record {
                branch: *branch,
                name: *name,
                changes: changes.try_clone()?,
            }),
            Call::Pull { from, to, names } => Ok(Call::Pull {
                from: *from,
                to: *to,
                names: clone_choice(names)?,
            }),
            Call::Obliterate { branch, names } => Ok(Call::Obliterate {
                branch: *branch,
                names: names.try_clone()?,
            }),
            Call::Tree(branch) => Ok(Call::Tree(*branch)),
            Call::Conflicts(branch) => Ok(Call::Conflicts(*branch)),
            Call::Names(branch) => Ok(Call::Names(*branch)),
        }
    }

    /// True if the two calls are equal; does not allocate.
    pub fn is_same(&self, other: &Call) -> bool
        ensures exact { IsTrue result ↔ (self.now ≡ other.now) }
    {
        match (self, other) {
            (
                Call::Branch { new, from },
                Call::Branch {
                    new: other_new,
                    from: other_from,
                },
            ) => new == other_new && from == other_from,
            (
                Call::Record {
                    branch,
                    name,
                    changes,
                },
                Call::Record {
                    branch: other_branch,
                    name: other_name,
                    changes: other_changes,
                },
            ) => branch == other_branch && name == other_name && changes.is_same(other_changes),
            (
                Call::Pull { from, to, names },
                Call::Pull {
                    from: other_from,
                    to: other_to,
                    names: other_names,
                },
            ) => from == other_from && to == other_to && is_same_choice(names, other_names),
            (
                Call::Obliterate { branch, names },
                Call::Obliterate {
                    branch: other_branch,
                    names: other_names,
                },
            ) => branch == other_branch && names.is_same(other_names),
            (Call::Tree(branch), Call::Tree(other)) => branch == other,
            (Call::Conflicts(branch), Call::Conflicts(other)) => branch == other,
            (Call::Names(branch), Call::Names(other)) => branch == other,
            _ => false,
        }
    }

    /// True if the call may change the repository: any call but a query.
    pub fn is_writing(&self) -> bool
        ensures exact { result ≡ is_writing self.now }
    {
        !matches!(self, Call::Tree(_) | Call::Conflicts(_) | Call::Names(_))
    }
}

fn clone_choice(names: &Option<Names>) -> Result<Option<Names>, AllocError>
    ensures { IfOk result (λ copy. copy ≡ names.now) }
{
    match names {
        Some(names) => Ok(Some(names.try_clone()?)),
        None => Ok(None),
    }
}

fn is_same_choice(names: &Option<Names>, other: &Option<Names>) -> bool
    ensures { IsTrue result ↔ (names.now ≡ other.now) }
{
    match (names, other) {
        (Some(names), Some(other)) => names.is_same(other),
        (None, None) => true,
        _ => false,
    }
}
