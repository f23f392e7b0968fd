//! What holds of all logs, by the definitions alone. A call does nothing.
ghost use Rattle.dm_log.specs.Plain.{EntriesArePlain, LogsArePlain};

/// A log is text in UTF-8. It has newlines and tabs, and no other character on which a terminal acts, whatever the patches hold.
pub fn logs_are_plain()
    ensures { LogsArePlain }
{}

/// That holds of the entries that are chosen too, also with the texts of the patches.
pub fn entries_are_plain()
    ensures { EntriesArePlain }
{}
