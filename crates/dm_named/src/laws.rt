//! Laws of the text of paths, primitives and named patches, and of two patches that start at one state. A call does
//! nothing: its contract is the law.

ghost use Rattle.std.specs.Prelude.{◌≡◌};
ghost use Rattle.dm_named.specs.Limits.{standard, own};
ghost use Rattle.dm_named.specs.Laws.{OnePatch, OnePatchIn, KindsChooseOnly, FaultExcludesPatch, FaultExcludesPatchWithin, OneFault, OneFaultWithin, FaultOfSix, NoFaultWithinCount, NoFaultWithinCountOf, PathRoundTrip, PrimRoundTrip, PatchRoundTrip, SquaresTurn};
ghost use Rattle.dm_named.specs.ConflictorElements.{ConflictorsKeepTheirShape};
ghost use Rattle.dm_named.specs.ConflictorLaws.{OneConflictor, FaultExcludesConflictor, ConflictorRoundTrip};
ghost use Rattle.dm_named.specs.MergedLaws.{PlainTextsStay, PlainCanonicalTextsStay, OneMerged, FaultExcludesMerged, MergedRoundTrip};

use crate::limits::{Kinds, Limits};

/// A text has at most one named patch at its front, whichever kinds of primitives are read.
pub fn one_patch()
    ensures six { OnePatch }
    ensures of_kinds { (kinds : Kinds) → OnePatchIn kinds }
{}

/// A text stands for a patch within the six kinds exactly if it does within all kinds, and all its primitives are of the six.
pub fn kinds_choose_only()
    ensures { KindsChooseOnly }
{}

/// The fault within the six kinds is the one within all kinds, or `Unsupported` at the word of a further kind, which stands no
/// later.
pub fn fault_of_six()
    ensures { (limits : Limits) → FaultOfSix limits }
{}

/// A text with a fault has no named patch at its front, unless the fault is `NoMemory` or `TooMany`. This holds within any
/// limits, so within the standard ones.
pub fn fault_excludes_patch()
    ensures standard { FaultExcludesPatch }
    ensures within { (limits : Limits) → FaultExcludesPatchWithin limits }
{}

/// A text has at most one fault, at one place, apart from `NoMemory`: within any limits, so within the standard ones.
pub fn one_fault()
    ensures standard { OneFault }
    ensures within { (limits : Limits) → OneFaultWithin limits }
{}

/// A text with a named patch at its front, of no more primitives than the limits allow, has no fault but `NoMemory`: within
/// any limits, so within the standard ones.
pub fn no_fault_within_count()
    ensures standard { NoFaultWithinCount }
    ensures within { (limits : Limits) → NoFaultWithinCountOf limits }
{}

/// The named limits are those of the definitions.
pub fn limits_as_defined()
    ensures standard { Limits.STANDARD ≡ standard }
    ensures own { Limits.OWN ≡ own }
{}

/// The canonical text of a valid path is read back as that path.
pub fn path_round_trip()
    ensures { PathRoundTrip }
{}

/// The canonical text of a valid primitive is read back as that primitive.
pub fn prim_round_trip()
    ensures { (kinds : Kinds) → PrimRoundTrip kinds }
{}

/// The canonical text of a valid named patch is read back as that patch.
pub fn patch_round_trip()
    ensures { (kinds : Kinds) → PatchRoundTrip kinds }
{}

/// A text has at most one conflictor at its front, whichever kinds of primitives are read.
pub fn one_conflictor()
    ensures { (kinds : Kinds) → OneConflictor kinds }
{}

/// A text with a fault has no conflictor at its front, unless the fault is `NoMemory`, or it is `TooMany` and the conflictor has
/// more primitives than the limits allow.
pub fn fault_excludes_conflictor()
    ensures { (limits : Limits) → FaultExcludesConflictor limits }
{}

/// The canonical text of a conflictor of valid primitives is read back as that conflictor.
pub fn conflictor_round_trip()
    ensures { (kinds : Kinds) → ConflictorRoundTrip kinds }
{}

/// Where all items of a named patch are primitives, its text and its canonical text are those of a named patch of these primitives,
/// and as many count.
pub fn plain_texts_stay()
    ensures texts { (kinds : Kinds) → PlainTextsStay kinds }
    ensures canonical { PlainCanonicalTextsStay }
{}

/// A text has at most one named patch of items at its front, whichever kinds of primitives are read.
pub fn one_merged()
    ensures { (kinds : Kinds) → OneMerged kinds }
{}

/// A text with a fault has no named patch of items at its front, unless the fault is `NoMemory`, or it is `TooMany` and the patch has
/// more primitives than the limits allow.
pub fn fault_excludes_merged()
    ensures { (limits : Limits) → FaultExcludesMerged limits }
{}

/// The canonical text of a valid named patch of items is read back as that patch.
pub fn merged_round_trip()
    ensures { (kinds : Kinds) → MergedRoundTrip kinds }
{}

/// A conflict whose shadows stand after it, with as many primitives in each as a conflictor's have, is a conflictor.
pub fn conflictors_keep_their_shape()
    ensures { ConflictorsKeepTheirShape }
{}

/// For two patches `r` and `n` that start at one state: if the inverse of `r` commutes with `n`, and that makes them `n'` and
/// the inverse of `r'`, then the inverse of `n` commutes with `r`, and that makes them `r'` and the inverse of `n'`.
pub fn turning_a_square()
    ensures { SquaresTurn }
{}
