//! The limits of reading.

ghost use Rattle.std.specs.Prelude.{◌≡◌, ◌≤◌};
ghost use Rattle.dm_named.specs.ConflictorFaults.{less};

/// The kinds of primitives that are read.
#[derive(Clone, Copy, Debug, PartialEq, Eq)]
pub enum Kinds {
    /// `addfile`, `rmfile`, `adddir`, `rmdir`, `move` and `hunk`: the reader reports any other as unsupported.
    Six,
    /// Those six, `binary`, `replace` and `changepref`.
    All,
}

/// How much of a text is read: the reader reports a fault where there is more, or another kind of primitive.
#[derive(Clone, Copy, Debug, PartialEq, Eq)]
pub struct Limits {
    /// The most bytes of a text.
    pub bytes: usize,
    /// The most new patches of a bundle.
    pub patches: usize,
    /// The most primitives of a named patch.
    pub prims: usize,
    /// The most replaces of a bundle. They are counted only where all kinds are read.
    pub replaces: usize,
    /// The kinds of primitives.
    pub kinds: Kinds,
}

impl Limits {
    /// For a text that somebody else wrote: 4 MiB, 1,000 new patches, 10,000 primitives in each, of the six kinds; where all kinds are
    /// read, 500 replaces. They bound what such a text can ask for.
    pub const STANDARD: Limits = Limits {
        bytes: 4_194_304,
        patches: 1000,
        prims: 10_000,
        replaces: 500,
        kinds: Kinds::Six,
    };

    /// For the text of a repository of one's own: 1 GiB, 100,000 patches, as many as a repository can hold, and 1,000,000 primitives
    /// in each, of the same kinds. Each may be a replace.
    pub const OWN: Limits = Limits {
        bytes: 1_073_741_824,
        patches: 100_000,
        prims: 1_000_000,
        replaces: 100_000 * 1_000_000,
        kinds: Kinds::Six,
    };

    /// These limits after so many primitives.
    pub(crate) fn less(self, count: usize) -> Limits
        requires { count ≤ self.prims }
        ensures { result ≡ less self count }
    {
        Limits {
            bytes: self.bytes,
            patches: self.patches,
            prims: self.prims - count,
            replaces: self.replaces,
            kinds: self.kinds,
        }
    }

    /// These limits, but with the kinds that are given.
    pub const fn with_kinds(self, kinds: Kinds) -> Limits
        ensures { result ≡ record self { kinds = kinds } }
    {
        Limits {
            bytes: self.bytes,
            patches: self.patches,
            prims: self.prims,
            replaces: self.replaces,
            kinds,
        }
    }
}
