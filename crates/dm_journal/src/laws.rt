//! Laws of the definitions alone. A call of them does nothing.
ghost use Rattle.dm_journal.specs.Changes.{ChangedWordsAreTold, OtherLinksAreTold};
ghost use Rattle.dm_journal.specs.Laws.{StandsForOneList, FilesHaveOneFormat, JournalsHaveNoFault, FilesHaveOneFault, LatchsBeginUnits, UnitsAreFilled, TurnedFieldsAreTold, NoneTurnsIntoFields, FilesHaveOneUnknownField, KnownHeadersHaveNone};

/// A file has at most one answer: the texts that it stands for and its format, or one fault.
pub fn a_file_has_one_answer()
    ensures texts { StandsForOneList }
    ensures format { FilesHaveOneFormat }
    ensures texts_or_fault { JournalsHaveNoFault }
    ensures fault { FilesHaveOneFault }
{}

/// Each part of a file begins a unit, so a latch shares its unit with no block.
pub fn parts_begin_units()
    ensures latches { LatchsBeginUnits }
    ensures filled { UnitsAreFilled }
{}

/// A header of fields in which one byte has turned is no header that is known. Nor does one byte that turns make any header one
/// of fields.
pub fn a_turned_header_is_told()
    ensures fields { TurnedFieldsAreTold }
    ensures none { NoneTurnsIntoFields }
{}

/// A file has at most one unknown field that is the first, and none if its header is known.
pub fn one_field_is_named()
    ensures one { FilesHaveOneUnknownField }
    ensures none { KnownHeadersHaveNone }
{}

/// The checksum by lanes is another where one word of the text is another, as after a turned bit, or where the text follows on
/// another checksum.
pub fn a_changed_text_is_told()
    ensures words { ChangedWordsAreTold }
    ensures links { OtherLinksAreTold }
{}
