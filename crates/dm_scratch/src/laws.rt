//! Laws of the definitions alone. A call of them does nothing. Out of memory is no verdict of theirs.

ghost use Rattle.dm_scratch.specs.Laws.{TakingABundleHasOneOutcome, TakingHasOneOutcome, TakingEachHasOneOutcome, RefusingTakesAllOrNothing, TakingKeepsKinds};

/// A repository, a bundle and a policy decide the verdict, and the repository that is left.
pub fn taking_a_bundle_has_one_outcome()
    ensures { TakingABundleHasOneOutcome }
{}

/// A repository, a text and a policy decide the verdict, and the repository that is left.
pub fn taking_has_one_outcome()
    ensures { TakingHasOneOutcome }
{}

/// A repository, texts that are taken in turn and a policy decide the verdict of each, and the repository that is left.
pub fn taking_each_has_one_outcome()
    ensures { TakingEachHasOneOutcome }
{}

/// Where conflicts are refused, a text whose verdict isn't accepted leaves the repository as it was.
pub fn refusing_takes_all_or_nothing()
    ensures { RefusingTakesAllOrNothing }
{}

/// A text leaves a repository of only the kinds of primitives that are read, if the repository before it is one.
pub fn taking_keeps_kinds()
    ensures { TakingKeepsKinds }
{}
