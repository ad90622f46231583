//! The result codes for C. Each has one meaning; `camp.h` has their names.

/// The call was done.
pub(crate) const DONE: i32 = 0;

/// The handle is closed.
pub(crate) const NOT_OPEN: i32 = 1;

/// Out of memory.
pub(crate) const MEMORY: i32 = 2;

/// A limit is out of range.
pub(crate) const LIMITS: i32 = 3;

/// The handle to be opened is open already.
pub(crate) const ALREADY_OPEN: i32 = 4;

/// The handle has a value of another kind: a view where a repository is needed, say.
pub(crate) const WRONG_KIND: i32 = 5;
