//! The bundles that the words of a command name.
ghost use Rattle.std.specs.Prelude.{◌≡◌, [], length};
ghost use Rattle.dm_files.specs.Bundles.{Reads, names_in, none_read, more_read};

use crate::files::Files;
use crate::word_fault::WordFault;
use dm_deliver::Source;
use dm_named::Limits;

/// The texts of files, in the order of their names, each read where its turn comes.
#[derive(Drop)]
pub struct Bundles<'w, 'a, F> {
    files: &'w F,
    names: &'w [&'a str],
}

impl<'w, 'a, F: Files> Bundles<'w, 'a, F> {
    /// The files of these names.
    pub fn new(files: &'w F, names: &'w [&'a str]) -> Bundles<'w, 'a, F>
        ensures files { result.files.now ≡ files.now }
        ensures names { result.names.now ≡ names.now }
    {
        Bundles { files, names }
    }
}

impl<'a, F: Files> Source for Bundles<'_, 'a, F> {
    type Error = WordFault<'a>;

    ghost gave = { λ old texts new. (new.files.now ≡ old.files.now) × Reads (F.had old.files.now) (names_in old.names.now) texts (names_in new.names.now) };

    ghost is_done = { λ bundles. names_in bundles.names.now ≡ [] };

    ghost most = { λ bundles. length bundles.names.now };

    ghost gave_none = { λ bundles. none_read F.had bundles.files.now (names_in bundles.names.now) };

    ghost gave_more = { λ a b c xs ys first second. more_read F.had _ _ _ _ _ _ xs ys first second };

    fn next_text(&mut self) -> Result<Option<Vec<u8>>, WordFault<'a>> {
        let [name, rest @ ..] = self.names else {
            return Ok(None);
        };
        let text = self.files.text_of(name, Limits::STANDARD)?;
        self.names = rest;
        Ok(Some(text))
    }
}
