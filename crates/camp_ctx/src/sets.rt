//! Sets of contexted patches.
ghost use Rattle.std.specs.Prelude.{◌≡◌, ◌↔◌, IfOk, IsTrue, MatchOption, None, Some, fold, slice_get};
ghost use Rattle.std.specs.FinMap as map;
ghost use Rattle.camp_ctx.specs.Contexts.{context_key, only, with_member, ContextedPatch, AreKeyed, EachMember};
ghost use Rattle.camp_ctx.specs.Adding.{AddsToContext, AddsAll};

use crate::keys::MemberKey;
use crate::{Contexted, join};
use camp_prim::{Key, Named};
use camp_seq::Seq;
use camp_share::{MapBuilder, Share, SharedMap};
use std::alloc::{AllocError, Global};
use std::marker::Model;
use std::slice;

/// A set of contexted patches with different absolute labels.
#[derive(Drop)]
pub struct CtxSet {
    members: SharedMap<MemberKey, Contexted>,
}

impl Model for CtxSet {
    ghost use Rattle.std.specs.FinMap as map;
    ghost use Rattle.camp_prim.specs.Labels.{coded_key, key_cmp};
    ghost use Rattle.camp_share.specs.Maps.{map_of};
    ghost use Rattle.camp_ctx.specs.Contexts.{AreKeyed, ContextedPatches};
    ghost use Rattle.camp_ctx.specs.declared.contexted.Contexted.{the_code};

    ghost Value = { ContextedPatches };

    ghost coded = { map.code coded_key the_code };

    ghost view = { λ set. map_of key_cmp set.members };

    ghost invariant = { λ set. AreKeyed (map_of key_cmp set.members) };
}

impl CtxSet {
    /// Makes an empty set; does not allocate.
    pub fn empty(alloc: Global) -> CtxSet
        ensures exact { result ≡ map.empty }
    {
        CtxSet {
            members: SharedMap::new(alloc),
        }
    }

    /// Returns the number of members.
    pub fn len(&self) -> usize
        ensures value { result ≡ map.len self.now }
        ensures keyed { AreKeyed self.now }
    {
        self.members.len()
    }

    /// Returns the member with an absolute label, or `None`.
    pub fn get(&self, key: &Key) -> Option<&Contexted>
        ensures exact { MatchOption result
            (map.get self.now key.now ≡ None)
            (λ member. map.get self.now key.now ≡ Some member.now) }
    {
        self.members.get(&MemberKey::new(*key))
    }

    /// Returns the set with one more member, or the same set if it has a member with that label.
    pub fn insert(&self, member: &Contexted) -> Result<CtxSet, AllocError>
        ensures exact { IfOk result (λ set. set ≡ with_member self.now member.now) }
    {
        let key = MemberKey::new(member.key());
        let members = self.members.inserted_if_absent(key, member.try_clone()?)?;
        Ok(CtxSet { members })
    }

    /// Returns the set with more members, inserted one after the other; builds the map once.
    pub fn insert_all(&self, more: &[Contexted]) -> Result<CtxSet, AllocError>
        ensures exact { IfOk result (λ set. set ≡ fold with_member self.now more.now) }
    {
        let mut members = MapBuilder::from_map(&self.members)?;
        for member in more {
            let key = MemberKey::new(member.key());
            members.insert_if_absent(key, member.try_clone()?)?;
        }
        let members = members.into_map()?;
        Ok(CtxSet { members })
    }

    /// Returns the set without the member with a label.
    pub fn without(&self, key: &Key) -> Result<CtxSet, AllocError>
        ensures exact { IfOk result (λ set. set ≡ map.remove self.now key.now) }
    {
        let members = self.members.without(&MemberKey::new(*key))?;
        Ok(CtxSet { members })
    }

    /// Returns the member at `index` in the order of the labels, or `None` past the end.
    pub fn at(&self, index: usize) -> Option<&Contexted>
        ensures exact { MatchOption result
            (slice_get (map.values self.now) index ≡ None)
            (λ member. slice_get (map.values self.now) index ≡ Some member.now) }
    {
        match self.members.at(index) {
            None => None,
            Some((_, member)) => Some(member),
        }
    }

    /// Returns the only member, or `None` if there are none or several.
    pub fn sole(&self) -> Option<&Contexted>
        ensures exact { MatchOption result
            ((x : ContextedPatch) → ¬ (self.now ≡ only x))
            (λ member. self.now ≡ only member.now) }
    {
        if self.len() != 1 {
            return None;
        }
        self.at(0)
    }

    /// Adds a list to every member: turns what is seen after the list into what is seen before it.
    pub fn add(r: &Seq, set: &CtxSet) -> Result<CtxSet, AllocError>
        ensures exact { IfOk result (λ sum. EachMember (AddsAll r.now) set.now sum) }
    {
        if r.items().is_empty() {
            return set.try_clone();
        }
        let mut members = MapBuilder::from_map(&SharedMap::new(set.members.allocator()))?;
        for index in 0..set.members.len() {
            if let Some((key, member)) = set.members.at(index) {
                let sum = Contexted::add(r, member)?;
                members.insert_if_absent(*key, sum)?;
            }
        }
        let members = members.into_map()?;
        Ok(CtxSet { members })
    }

    /// Adds a primitive to every member.
    pub fn add_one(a: &Named, set: &CtxSet) -> Result<CtxSet, AllocError>
        ensures exact { IfOk result (λ sum. EachMember (AddsToContext a.now) set.now sum) }
    {
        let list = join(set.members.allocator(), slice::from_ref(a), &[])?;
        Ok(CtxSet::add(&list, set)?)
    }

    pub fn try_clone(&self) -> Result<CtxSet, AllocError>
        ensures exact { IfOk result (λ copy. copy ≡ self.now) }
    {
        let members = self.members.share()?;
        Ok(CtxSet { members })
    }

    /// True if the two sets have the same members; does not allocate.
    pub fn is_same(&self, other: &CtxSet) -> bool
        ensures exact { IsTrue result ↔ (self.now ≡ other.now) }
    {
        if self.len() != other.len() {
            return false;
        }
        for index in 0..self.len() {
            if !have_same_member(self, other, index) {
                return false;
            }
        }
        true
    }
}

fn have_same_member(a: &CtxSet, b: &CtxSet, index: usize) -> bool
    ensures { IsTrue result ↔ (slice_get (map.values a.now) index ≡ slice_get (map.values b.now) index) }
{
    match (a.at(index), b.at(index)) {
        (None, None) => true,
        (Some(x), Some(y)) => x.is_same(y),
        _ => false,
    }
}
