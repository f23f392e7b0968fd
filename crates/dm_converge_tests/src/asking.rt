//! What tests ask. A yes is proved to be one, so that no test passes for want of asking.
ghost use Rattle.std.specs.Prelude.{◌≡◌, ◌≢◌, ◌++◌, [], List, length, map, IsTrue};
ghost use Rattle.dm_named.specs.Patches.{Patch};
ghost use Rattle.dm_bundle.specs.Patches.{SameMembers, infos_of};
ghost use Rattle.dm_scratch.specs.Taking.{TakesEach};
ghost use Rattle.dm_converge.specs.Pools.{ComesOf, NamesDecideTree};

use bumpalo::Bump;
use dm_repo::{Policy, Repo};
use dm_scratch::{Verdict, push_listing, take_each};
use dm_tree::Tree;
use std::alloc::Global;

/// The repository that takes these texts in turn.
fn repo_of(alloc: Global, texts: &[&[u8]], verdicts: &mut [Verdict]) -> Repo<Global>
    requires { length texts.now ≡ length verdicts.old }
    ensures { TakesEach [] (map (λ text. text.now) texts.now) Policy.Refuse verdicts.new result.patches }
{
    let mut arena = Bump::new(alloc);
    let mut repo = Repo::new(alloc);
    take_each(&mut repo, &mut arena, texts, Policy::Refuse, verdicts);
    repo
}

/// Whether two repositories have patches of the same names, in the same order.
fn have_same_names(one: &Repo<Global>, other: &Repo<Global>) -> bool
    ensures { IsTrue result → infos_of one.now.patches ≡ infos_of other.now.patches }
{
    let count = one.len();
    if count != other.len() {
        return false;
    }
    for i in 0..count {
        if !one.patch(i).info().same(other.patch(i).info()) {
            return false;
        }
    }
    true
}

/// Whether two trees have different listings.
fn list_apart(alloc: Global, one: &Tree<Global>, other: &Tree<Global>) -> bool
    ensures { IsTrue result → one.now ≢ other.now }
{
    let mut first = Vec::new(alloc);
    let mut second = Vec::new(alloc);
    if push_listing(one, &mut first).is_err() || push_listing(other, &mut second).is_err() {
        return false;
    }
    first.as_slice() != second.as_slice()
}

/// Whether two mirrors that begin with nothing, and take these texts in turn, each its own, hold the same names and have different
/// trees.
pub(crate) fn end_apart(
    alloc: Global,
    texts: &[&[u8]],
    others: &[&[u8]],
    verdicts: &mut [Verdict],
    other_verdicts: &mut [Verdict],
) -> bool
    requires { (length texts.now ≡ length verdicts.old) × (length others.now ≡ length other_verdicts.old) }
    ensures { IsTrue result → (one : List Patch) × (other : List Patch) ×
        ComesOf (map (λ text. text.now) texts.now ++ map (λ text. text.now) others.now) [] one ×
        ComesOf (map (λ text. text.now) texts.now ++ map (λ text. text.now) others.now) [] other ×
        SameMembers (infos_of one) (infos_of other) × (NamesDecideTree one other → ⊥) }
{
    let one = repo_of(alloc, texts, verdicts);
    let other = repo_of(alloc, others, other_verdicts);
    if !have_same_names(&one, &other) {
        return false;
    }
    list_apart(alloc, one.tree(), other.tree())
}
