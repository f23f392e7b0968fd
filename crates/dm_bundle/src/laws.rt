//! Laws of the text of bundles.

ghost use Rattle.dm_bundle.specs.Laws.{OneBundle, OneBundleIn, KindsChooseOnly, FaultExcludesBundle, FaultExcludesBundleWithin, OneFault, OneFaultWithin, FaultOfSix, NoFaultWithinLimits, NoFaultWithinLimitsOf, BundleRoundTrip, RoundTripWithin};

use dm_named::{Kinds, Limits};

/// A text stands for at most one bundle, whichever kinds of primitives are read.
pub fn one_bundle()
    ensures six { OneBundle }
    ensures of_kinds { (kinds : Kinds) → OneBundleIn kinds }
{}

/// A text stands for a bundle within the six kinds exactly if it does within all kinds, and all its primitives are of the six.
pub fn kinds_choose_only()
    ensures { KindsChooseOnly }
{}

/// A text with a fault stands for no bundle, unless the fault is one of the limits. This holds within any limits, so within
/// the standard ones.
pub fn fault_excludes_bundle()
    ensures standard { FaultExcludesBundle }
    ensures within { (limits : Limits) → FaultExcludesBundleWithin limits }
{}

/// A text has at most one fault, at one place: within any limits, so within the standard ones.
pub fn one_fault()
    ensures standard { OneFault }
    ensures within { (limits : Limits) → OneFaultWithin limits }
{}

/// The fault within the six kinds is the one within all kinds, or `Unsupported` at the word of a further kind, which stands no
/// later.
pub fn fault_of_six()
    ensures { (limits : Limits) → FaultOfSix limits }
{}

/// The text of a bundle has no fault, if both are within the limits: within any, so within the standard ones.
pub fn no_fault_within_limits()
    ensures standard { NoFaultWithinLimits }
    ensures within { (limits : Limits) → NoFaultWithinLimitsOf limits }
{}

/// The canonical text of a bundle stands for it.
pub fn round_trip()
    ensures { (kinds : Kinds) → BundleRoundTrip kinds }
{}

/// The canonical text of a bundle stands for it and has no fault within any limits that both are within.
pub fn round_trip_within()
    ensures { (limits : Limits) → RoundTripWithin limits }
{}
