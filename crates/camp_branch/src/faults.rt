//! The reasons that block a pull or an obliteration.
use camp_base::Name;

/// Why patches cannot be pulled into a branch or taken out of it.
#[derive(Clone, Copy, PartialEq, Eq, Debug)]
pub enum Blocked {
    /// The patch depends on `on`: it cannot be moved in front of `on`, which is not pulled with it or, in an
    /// obliteration, is taken out.
    Depends { patch: Name, on: Name },
    /// The branches have this patch in different states: in one branch it cannot be moved to the front or put
    /// in the order of the other branch, or its catch differs.
    Diverged(Name),
    /// Two patches do not merge: `left` is only in the branch that is pulled into, and `right` is wanted.
    NoMerge { left: Name, right: Name },
}
