//! What commands say in a line that answers no text.
ghost use Rattle.std.specs.Prelude.{◌≡◌, IfOk, Some};
ghost use Rattle.dm_told.specs.Said.{said_line, said_text};

use std::alloc::{AllocError, Global};
use std::fmt::{self, Display, Formatter, Write};

/// What a command says in a line that answers no text.
#[derive(Clone, Copy, Debug, PartialEq, Eq)]
pub enum Said<'a> {
    /// So many patches were taken out of a mirror.
    Obliterated(usize),
    /// Nothing was done, since so many patches are bound to those that were chosen.
    Depends(usize),
    /// The mirror of this file began with so many patches.
    Began(&'a str, usize),
    /// The mirror of this file reads all kinds of primitives.
    ReadsAllKinds(&'a str),
}

impl Display for Said<'_> {
    ghost output = { λ said. Some (said_text said) };

    fn fmt<W: Write>(&self, f: &mut Formatter<W>) -> fmt::Result {
        match self {
            Said::Obliterated(count) => write!(f, "obliterated {count}"),
            Said::Depends(count) => write!(f, "refused depends {count}"),
            Said::Began(path, 1) => write!(f, "mirror {path}: 1 patch"),
            Said::Began(path, count) => write!(f, "mirror {path}: {count} patches"),
            Said::ReadsAllKinds(path) => write!(f, "mirror {path}: all kinds"),
        }
    }
}

impl Said<'_> {
    /// The line.
    pub fn line(self, alloc: Global) -> Result<Vec<u8>, AllocError>
        ensures { IfOk result (λ line. line.items ≡ said_line self.entry) }
    {
        let said = self;
        let line = format!(in alloc; "{said}\n")?;
        Ok(line.into_bytes())
    }
}
