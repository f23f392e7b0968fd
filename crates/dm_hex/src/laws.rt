//! Laws of contents as hex digits. The calls do nothing; their contracts are the laws.

ghost use Rattle.dm_hex.specs.Laws.{DigitsHaveOneMeaning, DigitsStandForBytes, ContentHasOneListOfLines, BytesHaveLines, DigitsHaveOneContent, WrittenStandForBytes, WrittenArePlain, CountOfWritten};

/// Digits stand for bytes in one way at most.
pub fn digits_have_one_meaning()
    ensures { DigitsHaveOneMeaning }
{}

/// Digits stand for bytes only.
pub fn digits_stand_for_bytes()
    ensures { DigitsStandForBytes }
{}

/// A content has one list of lines.
pub fn content_has_one_list_of_lines()
    ensures { ContentHasOneListOfLines }
{}

/// Each run of bytes is the content of a list of lines.
pub fn bytes_have_lines()
    ensures { BytesHaveLines }
{}

/// Lines of digits stand for one content at most.
pub fn digits_have_one_content()
    ensures { DigitsHaveOneContent }
{}

/// The lines that are written for bytes stand for them.
pub fn written_stand_for_bytes()
    ensures { WrittenStandForBytes }
{}

/// No line that is written has a newline.
pub fn written_are_plain()
    ensures { WrittenArePlain }
{}

/// How many lines are written.
pub fn count_of_written()
    ensures { CountOfWritten }
{}
