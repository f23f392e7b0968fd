//! The lines of a file in turn.
ghost use Rattle.std.specs.Prelude.{◌≡◌, ◌∷◌, [], IfNone, MatchOption};
ghost use Rattle.dm_tree.specs.Files.{lines_of};

use crate::text::Text;
use std::alloc::Allocator;
use std::marker::Model;

/// The lines of a file that are still to come, borrowed. All of them take as long as the file has lines and parts.
#[derive(Drop)]
pub struct FileLines<'t, A: Allocator> {
    /// A file without parts is blank: its only line has no byte.
    blank: bool,
    parts: &'t [Text<A>],
    /// The next line in the first part.
    line: usize,
}

impl<'t, A: Allocator> Model for FileLines<'t, A> {
    ghost use Rattle.std.specs.Prelude.{◌≡◌, List, ℕ, true, cond, [], ◌∷◌, drop};
    ghost use Rattle.dm_tree.specs.Files.{joined};

    ghost Value = { List (List ℕ) };

    ghost view = { λ a. cond a.blank ([] ∷ []) (drop a.line (joined a.parts.now)) };

    ghost invariant = { λ a. a.blank ≡ true → a.parts.now ≡ [] };
}

impl<'t, A: Allocator> FileLines<'t, A> {
    /// All lines of a file in these parts.
    pub(crate) fn new(parts: &'t [Text<A>]) -> FileLines<'t, A>
        ensures { result ≡ lines_of parts.now }
    {
        FileLines {
            blank: parts.is_empty(),
            parts,
            line: 0,
        }
    }

    /// The next line, which is then no longer to come.
    pub fn next(&mut self) -> Option<&'t [u8]>
        ensures line { MatchOption result (self.old ≡ []) (λ line. self.old ≡ line.now ∷ self.new) }
        ensures end { IfNone result (self.new ≡ []) }
    {
        if self.blank {
            self.blank = false;
            return Some(&[]);
        }
        while let Some((part, rest)) = self.parts.split_first() {
            if self.line < part.len() {
                let line = part.line(self.line);
                self.line += 1;
                return Some(line);
            }
            self.line -= part.len();
            self.parts = rest;
        }
        None
    }
}
