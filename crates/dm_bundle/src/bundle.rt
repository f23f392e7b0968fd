//! Bundles.

ghost use Rattle.std.specs.Prelude.{◌≡◌, map, Contains, MatchBool, IfOk, IfErr};
ghost use Rattle.dm_bundle.specs.Patches.{infos_of, Distinct};
ghost use Rattle.dm_bundle.specs.Context.{AreDisjoint};
ghost use Rattle.dm_bundle.specs.Bundles.{Contents, HasNoDoubles};

use dm_info::Info;
use dm_named::Named;
use std::alloc::Allocator;
use std::marker::Model;
use thiserror::Error;

/// A patch info occurs twice among the new patches, or both there and in the context.
#[derive(Clone, Copy, Debug, PartialEq, Eq, Error)]
#[error("a patch info stands twice among the new patches, or both there and in the context")]
pub struct Doubled;

/// New patches, oldest first, and their context: the patch infos of the patches that they rest on, in any order.
/// No patch info occurs twice among the new patches, nor both there and in the context.
#[derive(Drop)]
pub struct Bundle<A: Allocator> {
    patches: Vec<Named<A>, A>,
    context: Vec<Info<A>, A>,
}

impl<A: Allocator> Model for Bundle<A> {
    ghost use Rattle.dm_bundle.specs.Bundles.{Contents, HasNoDoubles};

    ghost Value = { Contents };

    ghost view = { λ b. record { patches = b.patches.items; context = b.context.items } };

    ghost invariant = { λ b. HasNoDoubles b.patches.items b.context.items };
}

impl<A: Allocator> Bundle<A> {
    /// The bundle of these new patches and this context. To take no memory, it compares each patch info
    /// with all before it. `without_doubles` is for parts that are known to have no doubles.
    pub fn new(patches: Vec<Named<A>, A>, context: Vec<Info<A>, A>) -> Result<Bundle<A>, Doubled>
        ensures parts { IfOk result (λ b. b ≡ record { patches = patches.items; context = context.items }) }
        ensures no_doubles { IfOk result (λ _. HasNoDoubles patches.items context.items) }
        ensures doubled { IfErr result (λ _. HasNoDoubles patches.items context.items → ⊥) }
    {
        if are_doubled(&patches) {
            return Err(Doubled);
        }
        if are_mixed(&patches, &context) {
            return Err(Doubled);
        }
        Ok(Bundle::without_doubles(patches, context))
    }

    /// The bundle of parts that have no doubles.
    pub fn without_doubles(patches: Vec<Named<A>, A>, context: Vec<Info<A>, A>) -> Bundle<A>
        requires { HasNoDoubles patches.items context.items }
        ensures { result ≡ record { patches = patches.items; context = context.items } }
    {
        Bundle { patches, context }
    }

    /// The new patches, oldest first.
    pub fn new_patches(&self) -> &[Named<A>]
        ensures value { result.now ≡ self.now.patches }
        ensures no_doubles { HasNoDoubles self.now.patches self.now.context }
    {
        self.patches.as_slice()
    }

    /// Takes the new patches out, oldest first. The context is dropped.
    pub fn into_new_patches(self) -> Vec<Named<A>, A>
        ensures { result.items ≡ self.patches }
    {
        let Bundle { patches, .. } = self;
        patches
    }

    /// The patch infos of the context.
    pub fn context(&self) -> &[Info<A>]
        ensures { result.now ≡ self.now.context }
    {
        self.context.as_slice()
    }
}

/// Whether a patch info is among those of these patches.
fn is_among<A: Allocator>(patches: &[Named<A>], info: &Info<A>) -> bool
    ensures { MatchBool result (Contains (infos_of patches.now) info.now) (Contains (infos_of patches.now) info.now → ⊥) }
{
    for patch in patches {
        if patch.info().same(info) {
            return true;
        }
    }
    false
}

/// Whether a patch info occurs twice among the new patches.
fn are_doubled<A: Allocator>(patches: &[Named<A>]) -> bool
    ensures { MatchBool result (Distinct (infos_of patches.now) → ⊥) (Distinct (infos_of patches.now)) }
{
    for i in 0..patches.len() {
        if is_among(&patches[..i], patches[i].info()) {
            return true;
        }
    }
    false
}

/// Whether a patch info of the context is that of a new patch.
fn are_mixed<A: Allocator>(patches: &[Named<A>], context: &[Info<A>]) -> bool
    ensures { MatchBool result (AreDisjoint (infos_of patches.now) context.now → ⊥) (AreDisjoint (infos_of patches.now) context.now) }
{
    for info in context {
        if is_among(patches, info) {
            return true;
        }
    }
    false
}
