//! Which kinds of primitives a command reads, and what helps where a text has others.
use dm_explain::Remedy;
use dm_named::{Kinds, Limits};

/// How a command reads texts.
#[derive(Clone, Copy, Debug, PartialEq, Eq)]
pub struct Reading {
    /// The kinds of primitives that it reads.
    pub kinds: Kinds,
    /// What helps where a text has others.
    pub remedy: Remedy,
}

impl Reading {
    /// How a command does it whose words name these kinds: one without a mirror, or one that makes a mirror.
    pub fn of_words(kinds: Kinds) -> Reading {
        Reading::of_kinds(kinds, Remedy::Word)
    }

    /// How a mirror of these kinds does it.
    pub fn of_mirror(kinds: Kinds) -> Reading {
        Reading::of_kinds(kinds, Remedy::Mirror)
    }

    /// Where these kinds are read, and this helps if they are six.
    fn of_kinds(kinds: Kinds, remedy: Remedy) -> Reading {
        match kinds {
            Kinds::Six => Reading { kinds, remedy },
            Kinds::All => Reading {
                kinds,
                remedy: Remedy::Known,
            },
        }
    }

    /// How `dm run` does it.
    pub fn of_run() -> Reading {
        Reading {
            kinds: Kinds::Six,
            remedy: Remedy::Nothing,
        }
    }

    /// The limits within which it reads what somebody else wrote.
    pub fn limits(self) -> Limits {
        Limits::STANDARD.with_kinds(self.kinds)
    }
}
