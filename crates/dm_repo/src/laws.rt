//! Laws of the definitions alone. A call of them does nothing.

ghost use Rattle.dm_repo.specs.Laws.{FoldIsOne, SplitFolds, SplitIsOne, SplitStopsOnce};
ghost use Rattle.dm_repo.specs.Trials.{PartFollows, PartRunsPastLimitsAlike, PartStopsAlike, PutMakesTree, UndoingLeadsBack, WholeFollows};
ghost use Rattle.dm_repo.specs.Laws.{MergeApplies, MergeIsOne, MergeStopsOnce, MergeIsRepo, MergeKeepsKinds, PoliciesAgree, EachIsMergedOrSkipped, WeighingHasOneAnswer, BothOrdersHaveOneAnswer};

/// A list of patches makes at most one tree.
pub fn fold()
    ensures one { FoldIsOne }
{}

/// The front then the rest make the repository's tree; a repository is split in at most one way, and a pair that stops the split
/// is the only one, and excludes it.
pub fn split()
    ensures folds { SplitFolds }
    ensures one { SplitIsOne }
    ensures stops_once { SplitStopsOnce }
{}

/// What fits and is merged applies after the repository, and leaves a repository, under either policy; each patch is merged or
/// skipped, and where nothing conflicts both policies merge alike. Two lists are merged in at most one way, and a pair that
/// stops the merge is the only one, and excludes it.
pub fn merge()
    ensures applies { MergeApplies }
    ensures one { MergeIsOne }
    ensures stops_once { MergeStopsOnce }
    ensures is_repo { MergeIsRepo }
    ensures policies_agree { PoliciesAgree }
    ensures each { EachIsMergedOrSkipped }
{}

/// What is merged has no other kinds of primitives than the new patches of the bundle.
pub fn merge_keeps_kinds()
    ensures { MergeKeepsKinds }
{}

/// Patches lead on from a tree exactly if they lead on from the part that they reach, or stop at the same one for the same reason. The
/// part after them, put back, makes the tree of the repository with them. Patches are undone by their inverses, the last one first.
pub fn trial()
    ensures part { PartFollows }
    ensures whole { WholeFollows }
    ensures stops { PartStopsAlike }
    ensures past { PartRunsPastLimitsAlike }
    ensures put { PutMakesTree }
    ensures undone { UndoingLeadsBack }
{}

/// A repository, a bundle and a policy decide what weighing returns: which refusal, with its places, or that nothing is new,
/// or which patches are merged, and how many are skipped. Out of memory is no answer of theirs.
pub fn weighing_has_one_answer()
    ensures { WeighingHasOneAnswer }
{}

/// A repository and two bundles decide what [`law_both_orders`](crate::law_both_orders) returns: `None`, or the patches of both
/// repositories.
pub fn both_orders_have_one_answer()
    ensures { BothOrdersHaveOneAnswer }
{}
