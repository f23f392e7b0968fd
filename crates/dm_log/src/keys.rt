//! An ordered set of texts.
ghost use Rattle.std.specs.Prelude.{◌≡◌, ◌⊎◌, ◌↔◌, ℕ, List, [], Contains, MatchBool, IfOk, OnOk};

use crate::key::Key;
use std::alloc::{AllocError, Allocator};
use std::collections::BTreeSet;
use std::marker::Model;

/// A set of texts. A look-up among 100,000 costs some seventeen comparisons, whoever chose them.
#[derive(Drop)]
pub(crate) struct Keys<A: Allocator> {
    set: BTreeSet<Key<A>, A>,
}

impl<A: Allocator> Model for Keys<A> {
    ghost use Rattle.std.specs.Prelude.{List, ℕ};

    ghost Value = { List (List ℕ) };

    ghost view = { λ k. k.set.keys };
}

impl<A: Allocator + Copy> Keys<A> {
    /// The empty set.
    pub(crate) fn new(alloc: A) -> Keys<A>
        ensures { result ≡ [] }
    {
        Keys {
            set: BTreeSet::new(alloc),
        }
    }

    /// Adds a text, and returns whether it was new.
    pub(crate) fn insert(&mut self, text: Vec<u8, A>) -> Result<bool, AllocError>
        ensures is_new { IfOk result (λ is_new. MatchBool is_new (Contains self.old text.items → ⊥) (Contains self.old text.items)) }
        ensures noted { OnOk result ((w : List ℕ) → Contains self.new w ↔ (Contains self.old w ⊎ (w ≡ text.items))) }
    {
        let is_new = self.set.insert(Key::new(text))?;
        Ok(is_new)
    }
}
