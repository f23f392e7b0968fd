//! Replaces: a token becomes another one in all lines of a file.
ghost use Rattle.std.specs.Prelude.{◌≡◌, IfOk};
ghost use Rattle.dm_prim.specs.Commuting.{IsValidPrim};
ghost use Rattle.dm_prim.specs.Replaces.{replace_of};

use dm_tokens::Tokens;
use dm_tree::Path;
use std::alloc::{AllocError, Allocator};
use std::marker::Model;

/// A change of one file: in all its lines the new token stands in place of the old one. Where the new
/// one stood before, and isn't the old one, nobody could turn it back, so the replace doesn't fit. Nor
/// does it fit a file of more than [`MOST_TURNED`](crate::MOST_TURNED) bytes, before or after.
pub struct Replace<A: Allocator> {
    path: Path<A>,
    tokens: Tokens<A>,
}

// By hand, so that this is called where one goes. What is derived stands there in full.
impl<A: Allocator> Drop for Replace<A> {
    fn drop(self) {
        let Replace { path: _, tokens: _ } = self;
    }
}

impl<A: Allocator> Model for Replace<A> {
    ghost use Rattle.dm_prim.specs.Replaces.{ReplaceParts};

    ghost Value = { ReplaceParts };

    ghost view = { λ r. record { path = r.path; words = r.tokens } };
}

impl<A: Allocator> Replace<A> {
    /// A replace of these tokens.
    pub fn new(path: Path<A>, tokens: Tokens<A>) -> Replace<A>
        ensures value { result ≡ record { path = path; words = tokens } }
        ensures valid { IsValidPrim (replace_of result) }
    {
        let replace = Replace { path, tokens };
        replace.tells_valid();
        replace
    }

    /// Reads its parts, and so tells that it is valid. Takes no memory.
    pub(crate) fn tells_valid(&self)
        ensures { IsValidPrim (replace_of self.now) }
    {
        let _ = self.path.len();
        let _ = self.tokens.set_text();
    }

    /// The path of the file that it changes.
    pub fn path(&self) -> &Path<A>
        ensures { result.now ≡ self.now.path }
    {
        &self.path
    }

    /// The set, and the tokens.
    pub fn tokens(&self) -> &Tokens<A>
        ensures { result.now ≡ self.now.words }
    {
        &self.tokens
    }

    /// The same replace with another allocator.
    pub(crate) fn copy_into<B: Allocator + Copy>(&self, alloc: B) -> Result<Replace<B>, AllocError>
        ensures { IfOk result (λ copy. copy ≡ self.now) }
    {
        let path = self.path.copy_into(alloc)?;
        let tokens = self.tokens.copy_into(alloc)?;
        Ok(Replace { path, tokens })
    }

    /// The same replace with old and new exchanged.
    pub(crate) fn inverse(self) -> Replace<A>
        ensures { result ≡ record self { words = record self.words { old = self.words.new; new = self.words.old } } }
    {
        let Replace { path, tokens } = self;
        let tokens = tokens.inverse();
        Replace { path, tokens }
    }

    /// The same replace at another path.
    pub(crate) fn at(self, path: Path<A>) -> Replace<A>
        ensures { result ≡ record self { path = path } }
    {
        let Replace { path: _, tokens } = self;
        Replace { path, tokens }
    }
}
