//! Changes of preferences: a preference gets another value.
ghost use Rattle.std.specs.Prelude.{◌≡◌, ◌≢◌, ◌↔◌, [], false, IfOk, IsTrue};
ghost use Rattle.std.specs.List.{list_any};
ghost use Rattle.dm_prim.specs.Commuting.{IsValidPrim, is_space as is_space_byte};
ghost use Rattle.dm_prim.specs.Preferences.{MakesPreference, preference_of};

use std::alloc::{AllocError, Allocator};
use std::marker::Model;
use thiserror::Error;

/// Another value for the preference of a name. Preferences aren't in the tree.
pub struct Preference<A: Allocator> {
    name: Vec<u8, A>,
    old: Vec<u8, A>,
    new: Vec<u8, A>,
}

// By hand, so that this is called where one goes. What is derived stands there in full.
impl<A: Allocator> Drop for Preference<A> {
    fn drop(self) {
        let Preference {
            name: _,
            old: _,
            new: _,
        } = self;
    }
}

impl<A: Allocator> Model for Preference<A> {
    ghost use Rattle.dm_prim.specs.Preferences.{PreferenceParts, preference_of};
    ghost use Rattle.dm_prim.specs.Commuting.{IsValidPrim};

    ghost Value = { PreferenceParts };

    ghost view = { λ c. record { name = c.name.items; old = c.old.items; new = c.new.items } };

    ghost invariant = { λ c. IsValidPrim (preference_of (record { name = c.name.items; old = c.old.items; new = c.new.items })) };
}

/// There is no such change: the name of a preference is a word, and its values have no newlines.
#[derive(Clone, Copy, Debug, PartialEq, Eq, Error)]
#[error("the name is not one word, or a value has a newline")]
pub struct BadPreference;

impl<A: Allocator> Preference<A> {
    /// A change of these parts, which are given up where it is refused.
    pub fn new(
        name: Vec<u8, A>,
        old: Vec<u8, A>,
        new: Vec<u8, A>,
    ) -> Result<Preference<A>, BadPreference>
        ensures { MakesPreference (record { name = name.items; old = old.items; new = new.items }) result }
    {
        if !is_word(&name) {
            return Err(BadPreference);
        }
        if old.contains(&b'\n') {
            return Err(BadPreference);
        }
        if new.contains(&b'\n') {
            return Err(BadPreference);
        }
        Ok(Preference { name, old, new })
    }

    /// The name of the preference.
    pub fn name(&self) -> &[u8]
        ensures value { result.now ≡ self.now.name }
        ensures valid { IsValidPrim (preference_of self.now) }
    {
        self.name.as_slice()
    }

    /// Its value before.
    pub fn old(&self) -> &[u8]
        ensures { result.now ≡ self.now.old }
    {
        self.old.as_slice()
    }

    /// Its value afterwards.
    pub fn new_value(&self) -> &[u8]
        ensures { result.now ≡ self.now.new }
    {
        self.new.as_slice()
    }

    /// The same change with another allocator.
    pub(crate) fn copy_into<B: Allocator + Copy>(
        &self,
        alloc: B,
    ) -> Result<Preference<B>, AllocError>
        ensures { IfOk result (λ copy. copy ≡ self.now) }
    {
        let name = Vec::from_slice(alloc, &self.name)?;
        let old = Vec::from_slice(alloc, &self.old)?;
        let new = Vec::from_slice(alloc, &self.new)?;
        Ok(Preference { name, old, new })
    }

    /// The change back.
    pub(crate) fn inverse(self) -> Preference<A>
        ensures { result ≡ record self { old = self.new; new = self.old } }
    {
        let Preference { name, old, new } = self;
        Preference {
            name,
            old: new,
            new: old,
        }
    }
}

/// Whether these bytes are a word: there is one, and none is a space.
fn is_word(bytes: &[u8]) -> bool
    ensures { IsTrue result ↔ ((bytes.now ≢ []) × (list_any is_space_byte bytes.now ≡ false)) }
{
    if bytes.is_empty() {
        return false;
    }
    !has_space(bytes)
}

/// Whether one of these bytes is a space.
fn has_space(bytes: &[u8]) -> bool
    ensures { result ≡ list_any is_space_byte bytes.now }
{
    bytes.iter().any(|byte| is_space(*byte))
}

/// Whether a byte is one of 9 to 13, or 32.
fn is_space(byte: u8) -> bool
    ensures { result ≡ is_space_byte byte }
{
    matches!(byte, 9..=13 | 32)
}
