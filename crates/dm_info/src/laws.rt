//! What holds of the text of a patch info, of what is refused, and of the comparison, by the definitions alone.
//! These calls do nothing.

ghost use Rattle.dm_info.specs.Spelling.{RoundTrip, OneInfo, NotBoth};
ghost use Rattle.dm_info.specs.Compared.{ComparesAllParts};
ghost use Rattle.dm_info.specs.Laws.{PartsHaveOneFault, TextHasOneFault, FaultExcludesInfo};

/// The canonical text of a patch info is read again as that patch info, whatever follows it.
pub fn round_trip()
    ensures { RoundTrip }
{}

/// A text has at most one patch info at its front.
pub fn one_info()
    ensures { OneInfo }
{}

/// No text has both a patch info and an inverted one at its front.
pub fn not_both()
    ensures { NotBoth }
{}

/// Parts have at most one fault.
pub fn parts_have_one_fault()
    ensures { PartsHaveOneFault }
{}

/// A text has at most one fault where a patch info is due.
pub fn one_fault()
    ensures { TextHasOneFault }
{}

/// Where a patch info stands a text has no fault.
pub fn fault_excludes_info()
    ensures { FaultExcludesInfo }
{}

/// Two patch infos are equal, and of the same rank, only where all four parts are the same.
pub fn compares_all_parts()
    ensures { ComparesAllParts }
{}
