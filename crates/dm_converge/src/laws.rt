//! The laws of patches whose names stand for something, over identities of any type `I`; and what follows with no identities. Each
//! call does nothing; whoever calls it knows the law from there on.
ghost use Rattle.dm_converge.specs.Laws.{AcceptedTextsConverge, MeaningsConverge, MergeKeepsMeaning, NamesMakeTheTree, NetworksConverge, PatchesKeepMeaning, PoolsConverge, SentMeansSo, SplitKeepsMeaning, TakenTextsConverge, TakingKeepsMeaning};

/// Two patches that commute do in both orders what their names stand for.
pub fn patches_keep_meaning<I>()
    ensures { PatchesKeepMeaning I }
{}

/// Where a repository is split, front and rest do what their names stand for.
pub fn split_keeps_meaning<I>()
    ensures { SplitKeepsMeaning I }
{}

/// Where patches are merged under either policy, those that are merged do what their names stand for.
pub fn merge_keeps_meaning<I>()
    ensures { MergeKeepsMeaning I }
{}

/// Patches of the same names, in any order, make the same tree of the root alone, identities and all.
pub fn names_make_the_tree<I>()
    ensures { NamesMakeTheTree I }
{}

/// Where a repository and a bundle do what their names stand for, so does the repository with the merged patches appended.
pub fn taking_keeps_meaning<I>()
    ensures { TakingKeepsMeaning I }
{}

/// Where a repository does what its names stand for, so does what it sends.
pub fn sent_means_so<I>()
    ensures { SentMeansSo I }
{}

/// If there is one meaning for the base and for all bundles of a pool, of primitives of some kinds, the names of what comes of them
/// decide the tree.
pub fn meanings_converge<I>()
    ensures { MeaningsConverge I }
{}

/// If a name stands for one patch, the names of what comes of a base decide the tree: whatever the orders, what was refused in
/// between, the policies, the limits, and the kinds of primitives that are read.
pub fn pools_converge()
    ensures { PoolsConverge }
{}

/// So they do where two mirrors take texts of the six kinds in turn.
pub fn taken_texts_converge()
    ensures { TakenTextsConverge }
{}

/// Where both accept the same texts, in any order, their names are the same, and so are their trees.
pub fn accepted_texts_converge()
    ensures { AcceptedTextsConverge }
{}

/// And where mirrors also record patches of new names and send to each other, with any kinds of primitives.
pub fn networks_converge()
    ensures { NetworksConverge }
{}
