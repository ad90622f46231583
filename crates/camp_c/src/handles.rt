//! Handles of C: a pointer to a box, or null.
ghost use Rattle.std.specs.Prelude.{◌≡◌, Option, Some, None, IsSome, MatchOption, is_some};
ghost use Rattle.camp_c.specs.Owned.{Held, held_coded, keeper_owns};

use crate::objects::OpenObject;
use crate::parts::Parts;
use std::alloc::Global;
use std::marker::Model;
use std::mem;

/// A pointer to the box with the value of a handle, or null. It can't be dropped; its box has to be taken out of it.
#[repr(C)]
pub struct Keeper {
    at: *mut u8,
    alloc: Global,
    pub ghost held: { Option Held } by { held_coded },
}

impl Model for Keeper {
    ghost also_owns = { λ keeper. keeper_owns keeper.alloc keeper.at keeper.held };
}

impl Keeper {
    fn of_parts(parts: Parts<OpenObject, Global>) -> Keeper
        ensures { result.held ≡ Some parts.value }
    {
        let Parts { ptr, alloc } = parts;
        Keeper {
            at: ptr as *mut u8,
            alloc,
        }
    }

    fn into_parts(self) -> Parts<OpenObject, Global>
        requires { IsSome self.held }
        ensures { self.held ≡ Some result.value }
    {
        let Keeper { at, alloc } = self;
        Parts {
            ptr: at as *mut OpenObject,
            alloc,
        }
    }

    fn empty(alloc: Global) -> Keeper
        ensures { result.held ≡ None }
    {
        Keeper {
            at: std::ptr::null_mut(),
            alloc,
        }
    }

    // Drops a keeper that owns nothing.
    fn discard(self)
        requires { self.held ≡ None }
    {
        let Keeper { at: _, alloc: _ } = self;
    }
}

unsafe impl Send for Keeper {}

/// A handle of C on a repository or a view. A handle whose bytes are all zero is closed. Its value is `held` of its
/// keeper.
#[repr(C)]
pub struct Handle {
    pub is_open: bool,
    pub keeper: Keeper,
    pub ghost open_is: { is_open ≡ is_some keeper.held },
}

impl Handle {
    pub(crate) fn is_open(&self) -> bool
        ensures { result ≡ is_some self.now.keeper.held }
    {
        self.is_open
    }

    /// Takes out the value of a handle, which is then closed.
    pub(crate) fn take(&mut self, alloc: Global) -> Option<Box<OpenObject>>
        ensures closed { self.new.keeper.held ≡ None }
        ensures object { MatchOption result (self.old.keeper.held ≡ None) (λ object. self.old.keeper.held ≡ Some object.value) }
    {
        let Handle { is_open, keeper } = mem::replace(self, Handle::closed(alloc));
        if is_open {
            return Some(keeper.into_parts().into_box());
        }
        keeper.discard();
        None
    }

    /// Opens a closed handle on the value in a box.
    pub(crate) fn put(&mut self, object: Box<OpenObject>)
        requires { self.old.keeper.held ≡ None }
        ensures { self.new.keeper.held ≡ Some object.value }
    {
        let Handle { is_open: _, keeper } = mem::replace(self, Handle::open(object));
        keeper.discard();
    }

    fn open(object: Box<OpenObject>) -> Handle
        ensures { result.keeper.held ≡ Some object.value }
    {
        Handle {
            is_open: true,
            keeper: Keeper::of_parts(Parts::of(object)),
        }
    }

    fn closed(alloc: Global) -> Handle
        ensures { result.keeper.held ≡ None }
    {
        Handle {
            is_open: false,
            keeper: Keeper::empty(alloc),
        }
    }
}

/// Lets a handle go to another thread.
pub(crate) fn sent(handle: Handle) -> Handle
    ensures { result ≡ handle }
{
    passed(handle)
}

fn passed<T: Send>(value: T) -> T
    ensures { result ≡ value }
{
    value
}
