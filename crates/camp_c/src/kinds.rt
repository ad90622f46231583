//! The values of handles by their kinds: repositories, views and members.
ghost use Rattle.std.specs.Prelude.{◌≡◌, MatchOption};
ghost use Rattle.std.specs.Fn.{FnOnceReturnsAt, FnOnceReturnsAtMut};
ghost use Rattle.camp_c.specs.Handles.{OnMember, OnRepository, OnView, member_in, repository_in, view_in};

use crate::codes::{NOT_OPEN, WRONG_KIND};
use crate::handles::Handle;
use crate::objects::OpenObject;
use camp_shared_session::SharedSession;
use camp_talk::{Session, View};
use std::alloc::Global;

impl Handle {
    /// Changes the repository of a handle, and returns a code.
    pub(crate) fn on_repository<F: FnOnce(&mut Session) -> i32>(
        &mut self,
        alloc: Global,
        change: F,
    ) -> i32
        requires { F.IsAlwaysCallable change }
        ensures { OnRepository (λ old code new. FnOnceReturnsAtMut F.FnOnce change old code new) self.old.keeper.held result self.new.keeper.held }
    {
        let Some(mut object) = self.take(alloc) else {
            return NOT_OPEN;
        };
        let code = match &mut *object {
            OpenObject::Session(repository) => change(repository),
            _ => WRONG_KIND,
        };
        self.put(object);
        code
    }

    /// Changes the view of a handle, and returns a code.
    pub(crate) fn on_view<F: FnOnce(&mut View) -> i32>(&mut self, alloc: Global, change: F) -> i32
        requires { F.IsAlwaysCallable change }
        ensures { OnView (λ old code new. FnOnceReturnsAtMut F.FnOnce change old code new) self.old.keeper.held result self.new.keeper.held }
    {
        let Some(mut object) = self.take(alloc) else {
            return NOT_OPEN;
        };
        let code = match &mut *object {
            OpenObject::View(view) => change(view),
            _ => WRONG_KIND,
        };
        self.put(object);
        code
    }

    /// Changes the member of a handle, and returns a code.
    pub(crate) fn on_member<F: FnOnce(&mut SharedSession) -> i32>(
        &mut self,
        alloc: Global,
        change: F,
    ) -> i32
        requires { F.IsAlwaysCallable change }
        ensures { OnMember (λ old code new. FnOnceReturnsAtMut F.FnOnce change old code new) self.old.keeper.held result self.new.keeper.held }
    {
        let Some(mut object) = self.take(alloc) else {
            return NOT_OPEN;
        };
        let code = match &mut *object {
            OpenObject::Member(member) => change(member),
            _ => WRONG_KIND,
        };
        self.put(object);
        code
    }

    /// Returns what a function finds in the repository of a handle; without a repository this value.
    pub(crate) fn in_repository<T: Drop, F: FnOnce(&Session) -> T>(
        &mut self,
        alloc: Global,
        otherwise: T,
        find: F,
    ) -> T
        requires { F.IsAlwaysCallable find }
        ensures same { self.new.keeper.held ≡ self.old.keeper.held }
        ensures finds { MatchOption (repository_in self.old.keeper.held) (result ≡ otherwise) (λ value. FnOnceReturnsAt F.FnOnce find value result) }
    {
        let Some(object) = self.take(alloc) else {
            return otherwise;
        };
        let found = match &*object {
            OpenObject::Session(repository) => find(repository),
            _ => otherwise,
        };
        self.put(object);
        found
    }

    /// Returns what a function finds in the view of a handle; without a view this value.
    pub(crate) fn in_view<T: Drop, F: FnOnce(&View) -> T>(
        &mut self,
        alloc: Global,
        otherwise: T,
        find: F,
    ) -> T
        requires { F.IsAlwaysCallable find }
        ensures same { self.new.keeper.held ≡ self.old.keeper.held }
        ensures finds { MatchOption (view_in self.old.keeper.held) (result ≡ otherwise) (λ value. FnOnceReturnsAt F.FnOnce find value result) }
    {
        let Some(object) = self.take(alloc) else {
            return otherwise;
        };
        let found = match &*object {
            OpenObject::View(view) => find(view),
            _ => otherwise,
        };
        self.put(object);
        found
    }

    /// Returns what a function finds in the member of a handle; without a member this value.
    pub(crate) fn in_member<T: Drop, F: FnOnce(&SharedSession) -> T>(
        &mut self,
        alloc: Global,
        otherwise: T,
        find: F,
    ) -> T
        requires { F.IsAlwaysCallable find }
        ensures same { self.new.keeper.held ≡ self.old.keeper.held }
        ensures finds { MatchOption (member_in self.old.keeper.held) (result ≡ otherwise) (λ value. FnOnceReturnsAt F.FnOnce find value result) }
    {
        let Some(object) = self.take(alloc) else {
            return otherwise;
        };
        let found = match &*object {
            OpenObject::Member(member) => find(member),
            _ => otherwise,
        };
        self.put(object);
        found
    }
}
