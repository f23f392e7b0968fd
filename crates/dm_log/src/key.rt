//! A text as the key of an ordered set.
ghost use Rattle.std.specs.Prelude.{◌≡◌};
ghost use Rattle.std.proofs.Common.{rules};
ghost use Rattle.std.specs.Cmp.{partial_order_from_own_ties};
ghost use Rattle.std.specs.Cmp.Rules.{comparing};
ghost use Rattle.std.specs.Cmp.Lexicographic.{texts_ties};
ghost use Rattle.std.specs.Ordering.{as_partial_cmp};
ghost use Rattle.dm_info.specs.Compared.{text_cmp, text_eq};

use std::alloc::Allocator;
use std::cmp::Ordering;
use std::marker::Model;

/// A text, which ranks by its bytes.
#[derive(Drop)]
pub(crate) struct Key<A: Allocator> {
    bytes: Vec<u8, A>,
}

impl<A: Allocator> Model for Key<A> {
    ghost use Rattle.std.specs.Prelude.{List, ℕ};

    ghost Value = { List ℕ };

    ghost view = { λ k. k.bytes.items };
}

impl<A: Allocator> Key<A> {
    /// The text of these bytes.
    pub(crate) fn new(bytes: Vec<u8, A>) -> Key<A>
        ensures { result ≡ bytes.items }
    {
        Key { bytes }
    }
}

impl<A: Allocator> PartialEq for Key<A> {
    ghost eq = { text_eq };

    ghost laws = { Prim.search (comparing, rules) depth 9 };

    fn eq(&self, other: &Self) -> bool {
        self.cmp(other).is_eq()
    }
}

impl<A: Allocator> Eq for Key<A> {
    ghost laws = { Prim.search (comparing, rules) depth 9 };
}

impl<A: Allocator> Ord for Key<A> {
    ghost cmp = { text_cmp };

    ghost total = { Prim.search (comparing, rules) depth 9 };

    ghost matches_partial_cmp = { Prim.search (comparing, rules) depth 9 };

    ghost matches_eq = { texts_ties };

    fn cmp(&self, other: &Self) -> Ordering {
        self.bytes.as_slice().cmp(other.bytes.as_slice())
    }
}

impl<A: Allocator> PartialOrd for Key<A> {
    ghost partial_cmp = { as_partial_cmp text_cmp };

    ghost laws = { partial_order_from_own_ties (Prim.search (comparing, rules) depth 9) texts_ties };

    fn partial_cmp(&self, other: &Self) -> Option<Ordering> {
        Some(self.cmp(other))
    }
}
