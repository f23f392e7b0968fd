//! Named patches.

ghost use Rattle.std.specs.Prelude.{◌≡◌, ◌↔◌, Contains, IsTrue, IfOk};
ghost use Rattle.dm_prim.specs.Prims.{prims_of};

use dm_info::Info;
use dm_prim::Prim;
use std::alloc::{AllocError, Allocator};
use std::marker::Model;
use std::mem;

/// A named patch: a patch info, the patch infos of the patches that it depends on, and its primitives in order
/// (Darcs.Patch.Named). Dependencies are not checked: one may be listed twice, or be the patch itself.
pub struct Named<A: Allocator> {
    info: Info<A>,
    deps: Vec<Info<A>, A>,
    prims: Vec<Prim<A>, A>,
}

// By hand, so that this is called where one goes. What is derived stands there in full.
impl<A: Allocator> Drop for Named<A> {
    fn drop(self) {
        let Named {
            info: _,
            deps: _,
            prims: _,
        } = self;
    }
}

impl<A: Allocator> Model for Named<A> {
    ghost use Rattle.dm_prim.specs.Prims.{prims_of};
    ghost use Rattle.dm_named.specs.Patches.{Patch};

    ghost Value = { Patch };

    ghost view = { λ n. record { info = n.info; deps = n.deps.items; prims = prims_of n.prims.items } };
}

impl<A: Allocator> Named<A> {
    /// The named patch of these parts.
    pub fn new(info: Info<A>, deps: Vec<Info<A>, A>, prims: Vec<Prim<A>, A>) -> Named<A>
        ensures { result ≡ record { info = info; deps = deps.items; prims = prims_of prims.items } }
    {
        Named { info, deps, prims }
    }

    /// The patch info, which is the patch's identity.
    pub fn info(&self) -> &Info<A>
        ensures { result.now ≡ self.now.info }
    {
        &self.info
    }

    /// The patch infos of the patches that it names as dependencies.
    pub fn deps(&self) -> &[Info<A>]
        ensures { result.now ≡ self.now.deps }
    {
        self.deps.as_slice()
    }

    /// The primitives, first to last.
    pub fn prims(&self) -> &[Prim<A>]
        ensures { prims_of result.now ≡ self.now.prims }
    {
        self.prims.as_slice()
    }

    /// Whether it names this patch info among its dependencies.
    pub fn depends_on<B: Allocator>(&self, info: &Info<B>) -> bool
        ensures { IsTrue result ↔ Contains self.now.deps info.now }
    {
        is_among(self.deps(), info)
    }

    /// Replaces its primitives, and returns the old ones.
    pub fn replace_prims(&mut self, prims: Vec<Prim<A>, A>) -> Vec<Prim<A>, A>
        ensures taken { prims_of result.items ≡ self.old.prims }
        ensures new { self.new ≡ record self.old { prims = prims_of prims.items } }
    {
        mem::replace(&mut self.prims, prims)
    }

    /// A copy of the named patch, in another allocator.
    pub fn copy_into<B: Allocator + Copy>(&self, alloc: B) -> Result<Named<B>, AllocError>
        ensures { IfOk result (λ copy. copy ≡ self.now) }
    {
        let prims = copy_prims(alloc, self.prims())?;
        self.with_prims(alloc, prims)
    }

    /// A copy of its patch info and its dependencies, with these primitives.
    pub(crate) fn with_prims<B: Allocator + Copy>(
        &self,
        alloc: B,
        prims: Vec<Prim<B>, B>,
    ) -> Result<Named<B>, AllocError>
        ensures { IfOk result (λ copy. copy ≡ record self.now { prims = prims_of prims.items }) }
    {
        let info = self.info().copy_into(alloc)?;
        let deps = copy_infos(alloc, self.deps())?;
        Ok(Named { info, deps, prims })
    }
}

fn is_among<A: Allocator, B: Allocator>(infos: &[Info<A>], info: &Info<B>) -> bool
    ensures { IsTrue result ↔ Contains infos.now info.now }
{
    infos.iter().any(|other| other.same(info))
}

fn copy_infos<A: Allocator, B: Allocator + Copy>(
    alloc: B,
    infos: &[Info<A>],
) -> Result<Vec<Info<B>, B>, AllocError>
    ensures { IfOk result (λ copies. copies.items ≡ infos.now) }
{
    let mut copies = Vec::new(alloc);
    for info in infos {
        copies.push(info.copy_into(alloc)?)?;
    }
    Ok(copies)
}

fn copy_prims<A: Allocator, B: Allocator + Copy>(
    alloc: B,
    prims: &[Prim<A>],
) -> Result<Vec<Prim<B>, B>, AllocError>
    ensures { IfOk result (λ copies. prims_of copies.items ≡ prims_of prims.now) }
{
    let mut copies = Vec::new(alloc);
    for prim in prims {
        copies.push(prim.copy_into(alloc)?)?;
    }
    Ok(copies)
}
