//! What comes of a command that changes a mirror.
ghost use Rattle.std.specs.Prelude.{◌≡◌, None};

use crate::word_fault::WordFault;
use dm_disk::ClosedFile;

/// What came of a command: its answer, and what was done to the file of the mirror that it changes.
#[derive(Drop)]
pub struct Outcome<'a> {
    /// The exit status, or why there is no answer.
    pub answer: Result<u8, WordFault<'a>>,
    /// The mirror's file, let go. `None` where the command changes no mirror, could open none, or could begin none in the file.
    pub file: Option<ClosedFile>,
    /// The file that got the bundle of what went out of the mirror, let go. `None` where none was opened.
    pub saved: Option<ClosedFile>,
}

impl<'a> Outcome<'a> {
    /// An answer, or why there is none, where no mirror's file was opened to be changed.
    pub fn without_file(answer: Result<u8, WordFault<'a>>) -> Outcome<'a>
        ensures answer { result.answer ≡ answer.entry }
        ensures file { result.file ≡ None }
        ensures saved { result.saved ≡ None }
    {
        Outcome {
            answer,
            file: None,
            saved: None,
        }
    }

    /// The same with the mirror's file.
    pub fn with_file(answer: Result<u8, WordFault<'a>>, file: Option<ClosedFile>) -> Outcome<'a>
        ensures answer { result.answer ≡ answer.entry }
        ensures file { result.file ≡ file }
        ensures saved { result.saved ≡ None }
    {
        Outcome {
            answer,
            file,
            saved: None,
        }
    }
}
