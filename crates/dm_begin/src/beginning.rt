//! The beginning of a mirror.
ghost use Rattle.std.specs.Prelude.{◌≡◌, [], IfOk, IfErr, OnOk};
ghost use Rattle.dm_prim.specs.Prims.{prims_of};
ghost use Rattle.dm_bundle.specs.Patches.{Distinct};
ghost use Rattle.dm_begin.specs.Beginnings.{IsBeginning};
ghost use Rattle.dm_begin.specs.Making.{tree_prims};
ghost use Rattle.dm_begin.specs.Spreading.{spread};
ghost use Rattle.dm_begin.specs.Refusals.{AreNames, RefusesBeginning, RefusesNames};
ghost use Rattle.dm_begin.specs.declared.beginning.BeginFault.TheVariants.{NoMemory};

use crate::laws::a_tree_has_a_beginning;
use crate::making::prims_of_tree;
use crate::names::first_twice;
use crate::spreading::spread_prims;
use dm_info::Info;
use dm_named::{Limits, Named};
use dm_tree::Tree;
use dm_tree::laws::tree_is_lawful;
use std::alloc::{AllocError, Allocator};
use thiserror::Error;

/// Why names and a tree have no beginning.
#[derive(Clone, Copy, Debug, PartialEq, Eq, Error)]
pub enum BeginFault {
    /// There is no name.
    #[error("there is no name")]
    NoName,
    /// There are more names than patches may be in a repository.
    #[error("there are more names than patches may be in a repository")]
    TooManyNames,
    /// The name at this place, from 0, stands at an earlier place too.
    #[error("the name at place {0} stands at an earlier place too")]
    NameTwice(usize),
    /// The tree needs more primitives than fit into patches of these names.
    #[error("the tree needs more primitives than fit into patches of these names")]
    TooManyPrims,
    /// The allocator refused to give memory.
    #[error("no memory")]
    NoMemory,
}

impl From<AllocError> for BeginFault {
    ghost from_gives = { λ _ fault. fault ≡ NoMemory };

    fn from(_: AllocError) -> BeginFault {
        BeginFault::NoMemory
    }
}

/// Looks at the names before anything is made of them.
fn check_names<A: Allocator + Copy>(alloc: A, names: &[Info<A>]) -> Result<(), BeginFault>
    ensures names { OnOk result (AreNames names.now) }
    ensures distinct { OnOk result (Distinct names.now) }
    ensures fault { IfErr result (RefusesNames names.now) }
{
    if names.is_empty() {
        return Err(BeginFault::NoName);
    }
    if names.len() > Limits::OWN.patches {
        return Err(BeginFault::TooManyNames);
    }
    match first_twice(alloc, names)? {
        None => Ok(()),
        Some(place) => Err(BeginFault::NameTwice(place)),
    }
}

/// The patches that a mirror begins with: one for each name, in this order, each of which depends on the one before it. Together
/// they make the tree, of the root alone. The primitives stand in the last patch, or in the last few, each of which but the
/// first of these has as many as a patch may have.
///
/// The first error that holds is returned: [`BeginFault::NoName`], [`BeginFault::TooManyNames`], [`BeginFault::NameTwice`] of
/// the first such place, [`BeginFault::TooManyPrims`]. Memory may run out at any time after the names were counted.
pub fn begin<A: Allocator + Copy, B: Allocator>(
    alloc: A,
    names: Vec<Info<A>, A>,
    tree: &Tree<B>,
) -> Result<Vec<Named<A>, A>, BeginFault>
    ensures patches { IfOk result (λ patches. patches.items ≡ spread [] names.items (tree_prims tree.now)) }
    ensures beginning { IfOk result (λ patches. IsBeginning names.items tree.now patches.items) }
    ensures names { OnOk result (AreNames names.items) }
    ensures fault { IfErr result (RefusesBeginning names.items tree.now) }
{
    check_names(alloc, &names)?;
    let prims = prims_of_tree(alloc, tree)?;
    if prims.len() > names.len() * Limits::OWN.prims {
        return Err(BeginFault::TooManyPrims);
    }
    a_tree_has_a_beginning();
    tree_is_lawful(tree);
    let patches = spread_prims(alloc, names, prims)?;
    Ok(patches)
}
