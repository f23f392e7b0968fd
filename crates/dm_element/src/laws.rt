//! The laws of the definitions alone, for all elements and all lists of patches. Each call does nothing; whoever calls it knows
//! the law from there on.
ghost use Rattle.dm_element.specs.Laws.{ElementsCommuteBack, ElementsCommutePastAnInverse, OneWayToCommuteElements, ElementsKeepTheirShape, PlainElementsCommute, InversesUndoEffects, ElementListsCommuteBack, ElementListsCommutePastAnInverse, ElementRectanglesTurn, OneWayToCommuteElementLists, ListInversesUndoEffects, EffectsCommute, CommutedElementsEndAlike, PlainPatchesAreSettled, SettledPatchesStay, OneFirstUnsettled, MergingTurns, StandingElementsLead, PlainElementsStand, PlainElementsFall, FrontsStand, OneFallen, StandingWithinLimits, CommutedElementsStand, InversesStand};

/// Two elements that changed places change places back to what they were.
pub fn commuting_elements_back()
    ensures { ElementsCommuteBack }
{}

/// Where e then f change places to f' then e', the inverse of e then f' do to f then the inverse of e'.
pub fn commuting_elements_past_an_inverse()
    ensures { ElementsCommutePastAnInverse }
{}

/// Two elements change places to at most one pair.
pub fn one_way_to_commute_elements()
    ensures { OneWayToCommuteElements }
{}

/// Elements that change places stay of their kind and shape.
pub fn elements_keep_their_shape()
    ensures { ElementsKeepTheirShape }
{}

/// Two plain elements change places exactly as their primitives commute.
pub fn plain_elements_commute()
    ensures { PlainElementsCommute }
{}

/// The inverse of an element has the inverse effect, and the element for its own inverse.
pub fn inverses_undo_effects()
    ensures { InversesUndoEffects }
{}

/// Two lists that changed places change places back to what they were.
pub fn commuting_element_lists_back()
    ensures { ElementListsCommuteBack }
{}

/// Where es then fs change places to fs' then es', the inverse of es then fs' do to fs then the inverse
/// of es'.
pub fn commuting_element_lists_past_an_inverse()
    ensures { ElementListsCommutePastAnInverse }
{}

/// Two lists that start at one state: where n is n' after r, and r is r' after n, the same holds with
/// the two exchanged.
pub fn turning_a_rectangle_of_elements()
    ensures { ElementRectanglesTurn }
{}

/// Two lists change places to at most one pair of lists.
pub fn one_way_to_commute_element_lists()
    ensures { OneWayToCommuteElementLists }
{}

/// The inverse of a list has the inverse effects, and the list for its own inverse.
pub fn list_inverses_undo_effects()
    ensures { ListInversesUndoEffects }
{}

/// The effects of two lists that change places commute as lists of primitives.
pub fn effects_commute()
    ensures { EffectsCommute }
{}

/// Every lawful map on which the effects of two lists apply in turn has the same end by those of the
/// lists that they change places to.
pub fn commuted_elements_end_alike()
    ensures { CommutedElementsEndAlike }
{}

/// Patches of primitives alone are settled.
pub fn plain_patches_are_settled()
    ensures { PlainPatchesAreSettled }
{}

/// Where all patches of a list are settled, and one more is added at its end, all are settled exactly
/// if that one is, with nothing after it.
pub fn settled_patches_stay()
    ensures { SettledPatchesStay }
{}

/// At most one place is that of the first patch that isn't settled, and none where all are settled.
pub fn one_first_unsettled()
    ensures { OneFirstUnsettled }
{}

/// Two lists of primitives that merge, merge in either order.
pub fn merging_turns()
    ensures { MergingTurns }
{}

/// Elements that stand, in turn, lead on by their effects.
pub fn standing_elements_lead()
    ensures { StandingElementsLead }
{}

/// Primitives alone stand exactly where they lead on, and fall only where they don't: none falls by a
/// shadow.
pub fn plain_elements_stand()
    ensures stand { PlainElementsStand }
    ensures fall { PlainElementsFall }
{}

/// Where a list stands, so does each front of it.
pub fn fronts_stand()
    ensures { FrontsStand }
{}

/// At most one answer of [`find_fallen`](crate::find_fallen).
pub fn one_fallen()
    ensures { OneFallen }
{}

/// What stands past no limit of trees, stands.
pub fn standing_within_limits()
    ensures { StandingWithinLimits }
{}

/// Where lists that stand change places, those that they become stand too, with one end.
pub fn commuted_elements_stand()
    ensures { CommutedElementsStand }
{}

/// The inverse of a list that stands, stands from its end.
pub fn inverses_stand()
    ensures { InversesStand }
{}
