//! The laws of the definitions alone, for all values, whether or not they ever apply to a tree.
//! Each call does nothing; whoever calls it knows the law from there on.
ghost use Rattle.dm_prim.specs.Laws.{CommutedPairsEndAlike, PairsCommuteBack, PairsCommutePastAnInverse, CommutedListsEndAlike, ListsCommuteBack, ListsCommutePastAnInverse, RectanglesTurn, InversesLeadBack, ListInversesLeadBack, OneWayToApply, OneWayToCommute, OneWayToCommuteLists, ApplyingHasOneAnswer, ApplyingAListHasOneAnswer, HunkHasOneAnswer, BinaryHasOneAnswer, PreferenceHasOneAnswer};
ghost use Rattle.dm_prim.specs.Touch.{InversesTouchTheSame};
ghost use Rattle.dm_prim.specs.PartLaws.{AppliesToPart, ChangesUnderPaths, PartIsAsDeep, PartIsAsLarge, PartIsLawful, PartIsPutBack, PutIsOne};

/// Every lawful map on which two primitives apply in turn has the same end by those that they
/// commute to.
pub fn commuted_pairs_end_alike()
    ensures { CommutedPairsEndAlike }
{}

/// Two primitives that commuted commute back to what they were.
pub fn commuting_back()
    ensures { PairsCommuteBack }
{}

/// Where p then q commute to q' then p', the inverse of p then q' commute to q then the inverse of p'.
pub fn commuting_past_an_inverse()
    ensures { PairsCommutePastAnInverse }
{}

/// A primitive leads from one lawful map to another exactly where its inverse leads back.
pub fn applying_is_undone_by_the_inverse()
    ensures { InversesLeadBack }
{}

/// Every lawful map on which two lists apply in turn has the same end by those that they commute to.
pub fn commuted_lists_end_alike()
    ensures { CommutedListsEndAlike }
{}

/// Two lists that commuted commute back to what they were.
pub fn commuting_lists_back()
    ensures { ListsCommuteBack }
{}

/// Where xs then ys commute to ys' then xs', the inverse of xs then ys' commute to ys then the
/// inverse of xs'.
pub fn commuting_lists_past_an_inverse()
    ensures { ListsCommutePastAnInverse }
{}

/// Two lists that start at one state: where n is n' after r, and r is r' after n, the same holds with
/// the two exchanged.
pub fn turning_a_rectangle()
    ensures { RectanglesTurn }
{}

/// A list leads from one lawful map to another exactly where its inverse leads back.
pub fn applying_a_list_is_undone_by_its_inverse()
    ensures { ListInversesLeadBack }
{}

/// The inverse of a list touches what the list touches.
pub fn inverses_touch_the_same()
    ensures { InversesTouchTheSame }
{}

/// A primitive makes at most one map of a lawful map.
pub fn one_way_to_apply()
    ensures { OneWayToApply }
{}

/// Two primitives commute to at most one pair.
pub fn one_way_to_commute()
    ensures { OneWayToCommute }
{}

/// Two lists commute to at most one pair of lists.
pub fn one_way_to_commute_lists()
    ensures { OneWayToCommuteLists }
{}

/// What stands there decides whether a primitive may be applied to a map, and why not.
pub fn applying_has_one_answer()
    ensures { ApplyingHasOneAnswer }
{}

/// The list and the tree decide the answer of [`apply_all`](crate::apply_all) and the tree that it
/// leaves, unless it runs out of memory.
pub fn applying_a_list_has_one_answer()
    ensures { ApplyingAListHasOneAnswer }
{}

/// The parts decide whether there is such a hunk, and why not.
pub fn a_hunk_has_one_answer()
    ensures { HunkHasOneAnswer }
{}

/// The parts decide whether there is such a binary.
pub fn a_binary_has_one_answer()
    ensures { BinaryHasOneAnswer }
{}

/// The parts decide whether there is such a change of a preference.
pub fn a_preference_has_one_answer()
    ensures { PreferenceHasOneAnswer }
{}

/// The part of a lawful map is lawful.
pub fn a_part_is_lawful()
    ensures { PartIsLawful }
{}

/// A primitive applies to a map as it does to a part that has all that it names.
pub fn applying_to_a_part()
    ensures { AppliesToPart }
{}

/// What a primitive changes is at or under a path that it names.
pub fn changes_are_under_paths()
    ensures { ChangesUnderPaths }
{}

/// A map is as deep as its part.
pub fn a_part_is_as_deep()
    ensures { PartIsAsDeep }
{}

/// A replace goes past the bound on its file in a part exactly where it does in the whole.
pub fn a_part_is_as_large()
    ensures { PartIsAsLarge }
{}

/// What comes of a part can be put back.
pub fn a_part_is_put_back()
    ensures { PartIsPutBack }
{}

/// It is put back in one way.
pub fn a_put_is_one()
    ensures { PutIsOne }
{}
