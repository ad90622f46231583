//! The contexted patch.
ghost use Rattle.std.specs.Prelude.{◌≡◌, ◌↔◌, [], ◌∷◌, ◌++◌, IfOk, IsTrue};
ghost use Rattle.camp_seq.specs.NormalOrder.{Norm};
ghost use Rattle.camp_ctx.specs.Contexts.{context_key, whole};

use camp_base::Name;
use camp_prim::{Key, Named};
use camp_seq::{Seq, are_own_orders};
use camp_share::{Share, Shared};
use std::alloc::{AllocError, Global};
use std::marker::Model;

/// A patch with its context: a list of primitives that leads to it from the state in which it is seen. Copies
/// are reference counted.
#[derive(Drop)]
pub struct Contexted {
    alloc: Global,
    parts: Shared<Parts>,
}

#[derive(Drop)]
struct Parts {
    context: Seq,
    patch: Named,
    // The results of two quick checks, made with the contexted patch: true only if the context, or the context followed
    // by the patch, is its own normal order.
    context_is_ordered: bool,
    whole_is_ordered: bool,
}

impl Model for Contexted {
    ghost use Rattle.camp_ctx.specs.Contexts.{ContextedPatch};

    ghost Value = { ContextedPatch };

    ghost use Rattle.camp_ctx.specs.Inside.Looks.{ChecksAreTrue, seen};

    ghost view = { seen };

    ghost invariant = { ChecksAreTrue };
}

impl Contexted {
    /// Makes `c:p` with this context.
    pub fn new(alloc: Global, context: Seq, patch: Named) -> Result<Contexted, AllocError>
        ensures exact { IfOk result (λ x. x ≡ record { context = context; patch = patch }) }
    {
        let told = are_own_orders(context.items(), &patch);
        Contexted::with_checks(alloc, context, patch, told)
    }

    /// Makes `c:p` with the results of the quick checks: whether the context is its own normal order, and whether the
    /// whole is.
    pub(crate) fn with_checks(
        alloc: Global,
        context: Seq,
        patch: Named,
        told: (bool, bool),
    ) -> Result<Contexted, AllocError>
        requires context { IsTrue told.0 → Norm context context }
        requires all { IsTrue told.1 → Norm (context ++ patch ∷ []) (context ++ patch ∷ []) }
        ensures { IfOk result (λ x. x ≡ record { context = context; patch = patch }) }
    {
        let (context_is_ordered, whole_is_ordered) = told;
        let parts = Shared::new(
            alloc,
            Parts {
                context,
                patch,
                context_is_ordered,
                whole_is_ordered,
            },
        )?;
        Ok(Contexted { alloc, parts })
    }

    pub fn context(&self) -> &Seq
        ensures exact { result.now ≡ self.now.context }
    {
        &self.parts.context
    }

    pub fn patch(&self) -> &Named
        ensures exact { result.now ≡ self.now.patch }
    {
        &self.parts.patch
    }

    /// Returns the name of the patch.
    pub fn name(&self) -> &Name
        ensures exact { result.now ≡ self.now.patch.name }
    {
        &self.patch().name
    }

    /// Returns the position of the primitive in its patch.
    pub fn place(&self) -> u8
        ensures exact { result ≡ self.now.patch.place }
    {
        self.patch().place
    }

    /// Returns the absolute label of the patch.
    pub fn key(&self) -> Key
        ensures exact { result ≡ context_key self.now }
    {
        self.patch().label().key()
    }

    pub fn try_clone(&self) -> Result<Contexted, AllocError>
        ensures exact { IfOk result (λ copy. copy ≡ self.now) }
    {
        let parts = self.parts.share()?;
        Ok(Contexted {
            alloc: self.alloc,
            parts,
        })
    }

    /// True if the two have the same context and the same patch; does not allocate.
    pub fn is_same(&self, other: &Contexted) -> bool
        ensures exact { IsTrue result ↔ (self.now ≡ other.now) }
    {
        self.context().is_same(other.context()) && self.patch().is_same(other.patch())
    }

    /// True only if the context is its own normal order: the result of a quick check, made with the contexted patch.
    pub(crate) fn context_is_ordered(&self) -> bool
        ensures { IsTrue result → Norm self.now.context self.now.context }
    {
        self.parts.context_is_ordered
    }

    /// True only if the context followed by the patch is its own normal order, by the same quick check.
    pub(crate) fn whole_is_ordered(&self) -> bool
        ensures { IsTrue result → Norm (whole self.now) (whole self.now) }
    {
        self.parts.whole_is_ordered
    }

    pub(crate) fn allocator(&self) -> Global {
        self.alloc
    }
}

impl Share for Contexted {
    fn share(&self) -> Result<Contexted, AllocError> {
        self.try_clone()
    }
}
