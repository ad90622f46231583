//! The key of a member of a set.
ghost use Rattle.std.specs.Prelude.{◌≡◌};
ghost use Rattle.camp_prim.proofs.LabelOrder.{key_ties};

use camp_prim::Key;
use camp_share::Share;
use std::alloc::AllocError;
use std::marker::Model;

/// An absolute label as the key of a shared map.
#[derive(Clone, Copy, PartialEq, Eq, PartialOrd, Ord)]
pub(crate) struct MemberKey {
    key: Key,
}

impl Model for MemberKey {
    ghost use Rattle.camp_prim.specs.declared.labels.Key.{Key};

    ghost Value = { Key };

    ghost view = { λ member. member.key };

    ghost inverse = { λ key. record { key = key } };
}

impl MemberKey {
    pub(crate) fn new(key: Key) -> MemberKey
        ensures { result ≡ key }
    {
        MemberKey { key }
    }
}

impl Share for MemberKey {
    fn share(&self) -> Result<MemberKey, AllocError> {
        Ok(*self)
    }
}

impl camp_share::Key for MemberKey {
    ghost same = { key_ties };
}
